ghost use Rattle.std.specs.Prelude.{◌≡◌, IfOk, OnOk};
ghost use Rattle.ob_tree.specs.Programs.{StmtTree};
ghost use Rattle.ob_tree.specs.ExpressionView.{expr_tree};
ghost use Rattle.ob_tree.specs.ProgramView.{option_tree, start_tree, stmt_tree};
ghost use Rattle.ob_tree.specs.ProgramParts.{add_statement as add_statement_of};
ghost use Rattle.ob_declarations.specs.View.{block_trees};

use ob_base::{NoMemory, boxed, push_on};
use ob_tree::{BlockItem, Expr, ForStart, Stmt, StmtNode};
use std::alloc::Global;

/// A statement with the place and the line of its first token.
fn placed(alloc: Global, first: u32, line: u32, node: StmtNode) -> Result<Box<Stmt>, NoMemory>
    ensures { IfOk result (λ s. s.value ≡ record { first = first; line = line; node = node }) }
{
    boxed(alloc, Stmt { first, line, node })
}

#[tactic(auto, using(crate::proofs::Blocks::block_tree))]
fn block_of(first: u32, line: u32, items: Vec<BlockItem>) -> Stmt
    ensures { stmt_tree result ≡ StmtTree.Block first line (block_trees items.items) }
{
    Stmt {
        first,
        line,
        node: StmtNode::Block(items),
    }
}

pub fn block(
    alloc: Global,
    first: u32,
    line: u32,
    items: Vec<BlockItem>,
) -> Result<Box<Stmt>, NoMemory>
    ensures { IfOk result (λ s. stmt_tree s.value ≡ StmtTree.Block first line (block_trees items.items)) }
{
    boxed(alloc, block_of(first, line, items))
}

/// Puts a statement behind the items of a block.
#[tactic(auto, using(crate::proofs::Blocks::statements_pushed))]
pub fn add_statement(items: &mut Vec<BlockItem>, stmt: Box<Stmt>) -> Result<(), NoMemory>
    ensures { OnOk result (block_trees items.new.items ≡ add_statement_of (block_trees items.old.items) (stmt_tree stmt.value)) }
{
    push_on(items, BlockItem::Stmt(Box::into_inner(stmt)))
}

/// An expression statement, or the null statement.
pub fn expr_stmt(
    alloc: Global,
    first: u32,
    line: u32,
    expr: Option<Expr>,
) -> Result<Box<Stmt>, NoMemory>
    ensures { IfOk result (λ s. stmt_tree s.value ≡ StmtTree.Expr first line (option_tree expr)) }
{
    placed(alloc, first, line, StmtNode::Expr(expr))
}

pub fn if_stmt(
    alloc: Global,
    first: u32,
    line: u32,
    test: Expr,
    then: Box<Stmt>,
) -> Result<Box<Stmt>, NoMemory>
    ensures { IfOk result (λ s. stmt_tree s.value ≡ StmtTree.If first line (expr_tree test) (stmt_tree then.value)) }
{
    placed(alloc, first, line, StmtNode::If(test, then, None))
}

pub fn if_else_stmt(
    alloc: Global,
    first: u32,
    line: u32,
    test: Expr,
    then: Box<Stmt>,
    other: Box<Stmt>,
) -> Result<Box<Stmt>, NoMemory>
    ensures { IfOk result (λ s. stmt_tree s.value
        ≡ StmtTree.IfElse first line (expr_tree test) (stmt_tree then.value) (stmt_tree other.value)) }
{
    placed(alloc, first, line, StmtNode::If(test, then, Some(other)))
}

pub fn while_stmt(
    alloc: Global,
    first: u32,
    line: u32,
    test: Expr,
    body: Box<Stmt>,
) -> Result<Box<Stmt>, NoMemory>
    ensures { IfOk result (λ s. stmt_tree s.value ≡ StmtTree.While first line (expr_tree test) (stmt_tree body.value)) }
{
    placed(alloc, first, line, StmtNode::While(test, body))
}

pub fn do_stmt(
    alloc: Global,
    first: u32,
    line: u32,
    body: Box<Stmt>,
    test: Expr,
) -> Result<Box<Stmt>, NoMemory>
    ensures { IfOk result (λ s. stmt_tree s.value ≡ StmtTree.Do first line (stmt_tree body.value) (expr_tree test)) }
{
    placed(alloc, first, line, StmtNode::Do(body, test))
}

pub fn for_stmt(
    alloc: Global,
    first: u32,
    line: u32,
    start: Box<ForStart>,
    test: Option<Expr>,
    next: Option<Expr>,
    body: Box<Stmt>,
) -> Result<Box<Stmt>, NoMemory>
    ensures { IfOk result (λ s. stmt_tree s.value
        ≡ StmtTree.For first line (start_tree start.value) (option_tree test) (option_tree next) (stmt_tree body.value)) }
{
    let node = StmtNode::For {
        start: Box::into_inner(start),
        test,
        next,
        body,
    };
    placed(alloc, first, line, node)
}

pub fn break_stmt(alloc: Global, first: u32, line: u32) -> Result<Box<Stmt>, NoMemory>
    ensures { IfOk result (λ s. stmt_tree s.value ≡ StmtTree.Break first line) }
{
    placed(alloc, first, line, StmtNode::Break)
}

pub fn continue_stmt(alloc: Global, first: u32, line: u32) -> Result<Box<Stmt>, NoMemory>
    ensures { IfOk result (λ s. stmt_tree s.value ≡ StmtTree.Continue first line) }
{
    placed(alloc, first, line, StmtNode::Continue)
}

pub fn return_stmt(
    alloc: Global,
    first: u32,
    line: u32,
    value: Option<Expr>,
) -> Result<Box<Stmt>, NoMemory>
    ensures { IfOk result (λ s. stmt_tree s.value ≡ StmtTree.Return first line (option_tree value)) }
{
    placed(alloc, first, line, StmtNode::Return(value))
}
