//! The weight of a function, by which code is limited.
ghost use Rattle.std.specs.Prelude.{◌≡◌, ◌+◌, IfOk, OnOk};
ghost use Rattle.std.specs.List.{sum_by};
ghost use Rattle.ob_tree.specs.StructsView.{plain_structs};
ghost use Rattle.ob_typed.specs.Counts.{copies, init_load, option_copies, start_load, stmt_load, weight};
ghost use Rattle.ob_typed.specs.TypedTree.{TypedStmts};
ghost use Rattle.ob_typed.specs.TypedView.{typed_expr, typed_init, typed_option, typed_stmt};

use crate::adding::{add, product};
use crate::copies::{add_expr, add_place, add_scalars};
use ob_base::NoMemory;
use ob_tree::Structs;
use ob_typed::{TExpr, TInit, TStmt};

/// The weight of a function with `locals` automatic objects, parameters included, `nodes` expressions in its
/// tree, and the body `body`: eight times their sum, the statements of the body, the values, lists and bytes of
/// its automatic initialisers, the numbers and pointers of the structures that it copies, and 1.
///
/// `NoMemory` says that the weight is 2^64 or more, or that a type in it holds so many numbers and pointers;
/// such a function would need more memory than there is. Takes no memory itself. The call goes down the tree by
/// recursion, so it needs stack in proportion to the longest path of the tree, and time in proportion to the
/// tree.
pub fn weight(s: &Structs, locals: usize, nodes: u64, body: &TStmt) -> Result<u64, NoMemory>
    ensures { IfOk result (λ n. n ≡ weight (plain_structs s.now) locals nodes (typed_stmt body.now)) }
{
    let mut total = 1;
    add(&mut total, locals as u64)?;
    add(&mut total, nodes)?;
    add_stmt(s, &mut total, body)?;
    product(8, total)
}

#[cycle(initialisers)]
fn add_init(s: &Structs, total: &mut u64, init: &TInit) -> Result<(), NoMemory>
    ensures { OnOk result (total.new ≡ total.old + init_load (plain_structs s.now) (typed_init init.now)) }
{
    add(total, 1)?;
    match init {
        TInit::Value(e) => add_expr(s, total, e),
        TInit::Chars(bytes) => add(total, bytes.bytes().len() as u64),
        TInit::List(items) => add_items(s, total, items),
        TInit::Copy(p) => {
            add_scalars(s, total, p)?;
            add_place(s, total, p)
        }
    }
}

#[cycle(initialisers)]
fn add_items(s: &Structs, total: &mut u64, items: &[TInit]) -> Result<(), NoMemory>
    ensures { OnOk result (total.new ≡ total.old + sum_by (λ i. init_load (plain_structs s.now) (typed_init i)) items.now) }
{
    for item in items {
        add_init(s, total, item)?;
    }
    Ok(())
}

fn add_option(s: &Structs, total: &mut u64, e: &Option<TExpr>) -> Result<(), NoMemory>
    ensures { OnOk result (total.new ≡ total.old + option_copies (plain_structs s.now) (typed_option e.now)) }
{
    match e {
        None => Ok(()),
        Some(e) => add_expr(s, total, e),
    }
}

/// Adds a statement and an expression of it.
fn add_with(s: &Structs, total: &mut u64, e: &TExpr) -> Result<(), NoMemory>
    ensures { OnOk result (total.new ≡ total.old + (1 + copies (plain_structs s.now) (typed_expr e.now))) }
{
    add(total, 1)?;
    add_expr(s, total, e)
}

/// Adds one of those that start a `for`, which is no statement.
fn add_start(s: &Structs, total: &mut u64, stmt: &TStmt) -> Result<(), NoMemory>
    ensures { OnOk result (total.new ≡ total.old + start_load (plain_structs s.now) (TypedStmts.Stmt (typed_stmt stmt.now) TypedStmts.NoStmts)) }
{
    match stmt {
        TStmt::Expr(e) => add_expr(s, total, e),
        TStmt::Init { init, .. } => add_init(s, total, init),
        _ => Ok(()),
    }
}

fn add_starts(s: &Structs, total: &mut u64, start: &[TStmt]) -> Result<(), NoMemory>
    ensures { OnOk result (total.new ≡ total.old + sum_by (λ x. start_load (plain_structs s.now) (TypedStmts.Stmt (typed_stmt x) TypedStmts.NoStmts)) start.now) }
{
    for stmt in start {
        add_start(s, total, stmt)?;
    }
    Ok(())
}

/// Adds what follows what starts a `for`: its two expressions, and the statement itself.
fn add_turn(
    s: &Structs,
    total: &mut u64,
    test: &Option<TExpr>,
    next: &Option<TExpr>,
) -> Result<(), NoMemory>
    ensures { OnOk result (total.new ≡ total.old + (1 + (option_copies (plain_structs s.now) (typed_option test.now) + option_copies (plain_structs s.now) (typed_option next.now)))) }
{
    add(total, 1)?;
    add_option(s, total, test)?;
    add_option(s, total, next)
}

#[cycle(statements)]
fn add_stmt(s: &Structs, total: &mut u64, stmt: &TStmt) -> Result<(), NoMemory>
    ensures { OnOk result (total.new ≡ total.old + stmt_load (plain_structs s.now) (typed_stmt stmt.now)) }
{
    match stmt {
        TStmt::Empty | TStmt::Break | TStmt::Continue => add(total, 1),
        TStmt::Expr(e) => add_with(s, total, e),
        TStmt::Block(stmts) => {
            add(total, 1)?;
            add_stmts(s, total, stmts)
        }
        TStmt::Init { init, .. } => add_init(s, total, init),
        TStmt::If(test, then, other) => {
            add_with(s, total, test)?;
            add_stmt(s, total, then)?;
            match other {
                None => Ok(()),
                Some(other) => add_stmt(s, total, other),
            }
        }
        TStmt::While(test, body) | TStmt::Do(body, test) => {
            add_with(s, total, test)?;
            add_stmt(s, total, body)
        }
        TStmt::For {
            start,
            test,
            next,
            body,
        } => {
            add_starts(s, total, start)?;
            add_turn(s, total, test, next)?;
            add_stmt(s, total, body)
        }
        TStmt::Return(e) => {
            add(total, 1)?;
            add_option(s, total, e)
        }
    }
}

#[cycle(statements)]
fn add_stmts(s: &Structs, total: &mut u64, stmts: &[TStmt]) -> Result<(), NoMemory>
    ensures { OnOk result (total.new ≡ total.old + sum_by (λ x. stmt_load (plain_structs s.now) (typed_stmt x)) stmts.now) }
{
    for stmt in stmts {
        add_stmt(s, total, stmt)?;
    }
    Ok(())
}
