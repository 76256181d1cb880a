ghost use Rattle.std.specs.Prelude.{◌≡◌, pos, IfOk, OnOk};
ghost use Rattle.ob_tree.specs.ExpressionView.{expr_tree};
ghost use Rattle.ob_tree.specs.ProgramView.{stmt_tree};
ghost use Rattle.ob_tree.specs.ProgramParts.{add_statement};
ghost use Rattle.ob_tree.specs.declared.tokens.Sign.TheVariants as sign;
ghost use Rattle.ob_library.specs.Nodes.{no_place, named, number as number_of, expr_stmt as expr_stmt_of, block as block_tree_of, while_stmt as while_stmt_of, do_stmt as do_stmt_of, for_stmt as for_stmt_of, if_stmt as if_stmt_of, if_else_stmt as if_else_stmt_of, return_stmt as return_stmt_of, step as step_of, set_to, set_number, set_name, scan as scan_of, assign as assign_of};
ghost use Rattle.ob_library.specs.Lists.{block_trees};

use crate::nodes::{assign, element, moved, name, number, set_to};
use crate::types::NOWHERE;
use ob_base::{NoMemory, boxed, push_on};
use ob_tree::{BlockItem, Expr, ForStart, Sign, Stmt, StmtNode};
use std::alloc::Global;

fn made(alloc: Global, node: StmtNode) -> Result<Box<Stmt>, NoMemory>
    ensures { IfOk result (λ s. s.value ≡ record { first = no_place; line = 0; node = node }) }
{
    boxed(
        alloc,
        Stmt {
            first: NOWHERE,
            line: 0,
            node,
        },
    )
}

pub fn expr_stmt(alloc: Global, expr: Box<Expr>) -> Result<Box<Stmt>, NoMemory>
    ensures { IfOk result (λ s. stmt_tree s.value ≡ expr_stmt_of (expr_tree expr.value)) }
{
    made(alloc, StmtNode::Expr(Some(Box::into_inner(expr))))
}

pub fn block_of(items: Vec<BlockItem>) -> Stmt
    ensures { stmt_tree result ≡ block_tree_of (block_trees items.items) }
{
    Stmt {
        first: NOWHERE,
        line: 0,
        node: StmtNode::Block(items),
    }
}

pub fn block(alloc: Global, items: Vec<BlockItem>) -> Result<Box<Stmt>, NoMemory>
    ensures { IfOk result (λ s. stmt_tree s.value ≡ block_tree_of (block_trees items.items)) }
{
    boxed(alloc, block_of(items))
}

pub fn while_stmt(alloc: Global, test: Box<Expr>, body: Box<Stmt>) -> Result<Box<Stmt>, NoMemory>
    ensures { IfOk result (λ s. stmt_tree s.value ≡ while_stmt_of (expr_tree test.value) (stmt_tree body.value)) }
{
    made(alloc, StmtNode::While(Box::into_inner(test), body))
}

pub fn do_stmt(alloc: Global, body: Box<Stmt>, test: Box<Expr>) -> Result<Box<Stmt>, NoMemory>
    ensures { IfOk result (λ s. stmt_tree s.value ≡ do_stmt_of (stmt_tree body.value) (expr_tree test.value)) }
{
    made(alloc, StmtNode::Do(body, Box::into_inner(test)))
}

pub fn for_stmt(
    alloc: Global,
    start: Box<Expr>,
    test: Box<Expr>,
    next: Box<Expr>,
    body: Box<Stmt>,
) -> Result<Box<Stmt>, NoMemory>
    ensures { IfOk result (λ s. stmt_tree s.value
        ≡ for_stmt_of (expr_tree start.value) (expr_tree test.value) (expr_tree next.value) (stmt_tree body.value)) }
{
    let node = StmtNode::For {
        start: ForStart::Expr(Some(Box::into_inner(start))),
        test: Some(Box::into_inner(test)),
        next: Some(Box::into_inner(next)),
        body,
    };
    made(alloc, node)
}

pub fn if_stmt(alloc: Global, test: Box<Expr>, then: Box<Stmt>) -> Result<Box<Stmt>, NoMemory>
    ensures { IfOk result (λ s. stmt_tree s.value ≡ if_stmt_of (expr_tree test.value) (stmt_tree then.value)) }
{
    made(alloc, StmtNode::If(Box::into_inner(test), then, None))
}

pub fn if_else_stmt(
    alloc: Global,
    test: Box<Expr>,
    then: Box<Stmt>,
    other: Box<Stmt>,
) -> Result<Box<Stmt>, NoMemory>
    ensures { IfOk result (λ s. stmt_tree s.value
        ≡ if_else_stmt_of (expr_tree test.value) (stmt_tree then.value) (stmt_tree other.value)) }
{
    made(
        alloc,
        StmtNode::If(Box::into_inner(test), then, Some(other)),
    )
}

pub fn return_stmt(alloc: Global, value: Box<Expr>) -> Result<Box<Stmt>, NoMemory>
    ensures { IfOk result (λ s. stmt_tree s.value ≡ return_stmt_of (expr_tree value.value)) }
{
    made(alloc, StmtNode::Return(Some(Box::into_inner(value))))
}

/// `left = right;`
pub fn assign_stmt(alloc: Global, left: Box<Expr>, right: Box<Expr>) -> Result<Box<Stmt>, NoMemory>
    ensures { IfOk result (λ s. stmt_tree s.value ≡ expr_stmt_of (assign_of (expr_tree left.value) (expr_tree right.value))) }
{
    let expr = assign(alloc, left, right)?;
    expr_stmt(alloc, expr)
}

/// `text = text sign value;`
pub fn step(alloc: Global, text: &[u8], sign: Sign, value: i128) -> Result<Box<Stmt>, NoMemory>
    ensures { IfOk result (λ s. stmt_tree s.value ≡ step_of text.now sign value) }
{
    let expr = moved(alloc, text, sign, value)?;
    expr_stmt(alloc, expr)
}

/// `while (test) text = text + 1;`
pub fn while_step(alloc: Global, test: Box<Expr>, text: &[u8]) -> Result<Box<Stmt>, NoMemory>
    ensures { IfOk result (λ s. stmt_tree s.value ≡ while_stmt_of (expr_tree test.value) (step_of text.now sign.Plus (pos 1))) }
{
    let body = step(alloc, text, Sign::Plus, 1)?;
    while_stmt(alloc, test, body)
}

/// Puts a statement behind the items of a block.
#[tactic(auto, using(crate::proofs::Views::statements_pushed))]
pub fn put(items: &mut Vec<BlockItem>, stmt: Box<Stmt>) -> Result<(), NoMemory>
    ensures { OnOk result (block_trees items.new.items ≡ add_statement (block_trees items.old.items) (stmt_tree stmt.value)) }
{
    push_on(items, BlockItem::Stmt(Box::into_inner(stmt)))
}

pub fn put_expr(alloc: Global, items: &mut Vec<BlockItem>, expr: Box<Expr>) -> Result<(), NoMemory>
    ensures { OnOk result (block_trees items.new.items ≡ add_statement (block_trees items.old.items) (expr_stmt_of (expr_tree expr.value))) }
{
    let stmt = expr_stmt(alloc, expr)?;
    put(items, stmt)
}

/// Puts `text = value;` behind the items.
pub fn put_set(
    alloc: Global,
    items: &mut Vec<BlockItem>,
    text: &[u8],
    value: Box<Expr>,
) -> Result<(), NoMemory>
    ensures { OnOk result (block_trees items.new.items ≡ add_statement (block_trees items.old.items) (expr_stmt_of (set_to text.now (expr_tree value.value)))) }
{
    let expr = set_to(alloc, text, value)?;
    put_expr(alloc, items, expr)
}

pub fn put_number(
    alloc: Global,
    items: &mut Vec<BlockItem>,
    text: &[u8],
    value: i128,
) -> Result<(), NoMemory>
    ensures { OnOk result (block_trees items.new.items ≡ add_statement (block_trees items.old.items) (set_number text.now value)) }
{
    let value = number(alloc, value)?;
    put_set(alloc, items, text, value)
}

pub fn put_name(
    alloc: Global,
    items: &mut Vec<BlockItem>,
    text: &[u8],
    value: &[u8],
) -> Result<(), NoMemory>
    ensures { OnOk result (block_trees items.new.items ≡ add_statement (block_trees items.old.items) (set_name text.now value.now)) }
{
    let value = name(alloc, value)?;
    put_set(alloc, items, text, value)
}

pub fn put_step(
    alloc: Global,
    items: &mut Vec<BlockItem>,
    text: &[u8],
    sign: Sign,
    value: i128,
) -> Result<(), NoMemory>
    ensures { OnOk result (block_trees items.new.items ≡ add_statement (block_trees items.old.items) (step_of text.now sign value)) }
{
    let stmt = step(alloc, text, sign, value)?;
    put(items, stmt)
}

/// Puts `while (array[place]) place = place + 1;` behind the items.
pub fn put_scan(
    alloc: Global,
    items: &mut Vec<BlockItem>,
    array: &[u8],
    place: &[u8],
) -> Result<(), NoMemory>
    ensures { OnOk result (block_trees items.new.items ≡ add_statement (block_trees items.old.items) (scan_of array.now place.now)) }
{
    let test = element(alloc, array, place)?;
    let stmt = while_step(alloc, test, place)?;
    put(items, stmt)
}

pub fn put_return(
    alloc: Global,
    items: &mut Vec<BlockItem>,
    value: Box<Expr>,
) -> Result<(), NoMemory>
    ensures { OnOk result (block_trees items.new.items ≡ add_statement (block_trees items.old.items) (return_stmt_of (expr_tree value.value))) }
{
    let stmt = return_stmt(alloc, value)?;
    put(items, stmt)
}

pub fn put_return_name(
    alloc: Global,
    items: &mut Vec<BlockItem>,
    text: &[u8],
) -> Result<(), NoMemory>
    ensures { OnOk result (block_trees items.new.items ≡ add_statement (block_trees items.old.items) (return_stmt_of (named text.now))) }
{
    let value = name(alloc, text)?;
    put_return(alloc, items, value)
}

pub fn put_return_number(
    alloc: Global,
    items: &mut Vec<BlockItem>,
    value: i128,
) -> Result<(), NoMemory>
    ensures { OnOk result (block_trees items.new.items ≡ add_statement (block_trees items.old.items) (return_stmt_of (number_of value))) }
{
    let value = number(alloc, value)?;
    put_return(alloc, items, value)
}
