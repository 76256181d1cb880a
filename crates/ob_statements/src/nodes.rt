//! Typed statements from their parts.
ghost use Rattle.std.specs.Prelude.{◌≡◌, IfOk};
ghost use Rattle.ob_typed.specs.Statements.{expr_stmt, start_list, stmt_list};
ghost use Rattle.ob_typed.specs.TypedTree.{TypedStmt};
ghost use Rattle.ob_typed.specs.TypedView.{typed_expr, typed_option, typed_stmt};
ghost use Rattle.ob_variables.specs.BodyView.{stmts_of};

use ob_base::{NoMemory, boxed, boxed_two, boxed_with, listed};
use ob_conversions::beside;
use ob_typed::{TExpr, TStmt};
use std::alloc::Global;

pub(crate) fn expr_stmt(x: Option<TExpr>) -> TStmt
    ensures { typed_stmt result ≡ expr_stmt (typed_option x) }
{
    match x {
        None => TStmt::Empty,
        Some(x) => TStmt::Expr(x),
    }
}

pub(crate) fn start_list(alloc: Global, x: Option<TExpr>) -> Result<Vec<TStmt>, NoMemory>
    ensures { IfOk result (λ ss. stmts_of ss.items ≡ start_list (typed_option x)) }
{
    match x {
        None => Ok(Vec::new(alloc)),
        Some(x) => listed(alloc, TStmt::Expr(x)),
    }
}

pub(crate) fn block_node(ss: Vec<TStmt>) -> TStmt
    ensures { typed_stmt result ≡ TypedStmt.Block (stmt_list (stmts_of ss.items)) }
{
    TStmt::Block(ss)
}

pub(crate) fn if_node(alloc: Global, x: TExpr, y: TStmt) -> Result<TStmt, NoMemory>
    ensures { IfOk result (λ r. typed_stmt r ≡ TypedStmt.If (typed_expr x) (typed_stmt y)) }
{
    let (y, x) = boxed_with(alloc, y, x)?;
    Ok(TStmt::If(x, y, None))
}

pub(crate) fn if_else_node(alloc: Global, x: TExpr, y: TStmt, z: TStmt) -> Result<TStmt, NoMemory>
    ensures { IfOk result (λ r. typed_stmt r ≡ TypedStmt.IfElse (typed_expr x) (typed_stmt y) (typed_stmt z)) }
{
    let ((y, z), x) = beside(boxed_two(alloc, y, z), x)?;
    Ok(TStmt::If(x, y, Some(z)))
}

pub(crate) fn while_node(alloc: Global, x: TExpr, y: TStmt) -> Result<TStmt, NoMemory>
    ensures { IfOk result (λ r. typed_stmt r ≡ TypedStmt.While (typed_expr x) (typed_stmt y)) }
{
    let (y, x) = boxed_with(alloc, y, x)?;
    Ok(TStmt::While(x, y))
}

pub(crate) fn do_node(alloc: Global, y: TStmt, x: TExpr) -> Result<TStmt, NoMemory>
    ensures { IfOk result (λ r. typed_stmt r ≡ TypedStmt.Do (typed_stmt y) (typed_expr x)) }
{
    let (y, x) = boxed_with(alloc, y, x)?;
    Ok(TStmt::Do(y, x))
}

pub(crate) fn for_node(
    alloc: Global,
    start: Vec<TStmt>,
    test: Option<TExpr>,
    next: Option<TExpr>,
    body: TStmt,
) -> Result<TStmt, NoMemory>
    ensures { IfOk result (λ r. typed_stmt r ≡ TypedStmt.For (stmt_list (stmts_of start.items)) (typed_option test) (typed_option next) (typed_stmt body)) }
{
    let (body, (start, test, next)) = boxed_with(alloc, body, (start, test, next))?;
    Ok(for_of(start, test, next, body))
}

fn for_of(start: Vec<TStmt>, test: Option<TExpr>, next: Option<TExpr>, body: Box<TStmt>) -> TStmt
    ensures { typed_stmt result ≡ TypedStmt.For (stmt_list (stmts_of start.items)) (typed_option test) (typed_option next) (typed_stmt body.value) }
{
    TStmt::For {
        start,
        test,
        next,
        body,
    }
}
