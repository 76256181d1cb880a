ghost use Rattle.std.specs.Prelude.{◌≡◌, IfOk};
ghost use Rattle.ob_tree.specs.ProgramView.{stmt_tree};
ghost use Rattle.ob_declarations.specs.Statements.{closed as closed_of, closed_top, closes as closes_of, completed as completed_of};
ghost use Rattle.ob_declarations.specs.View.{pending_of, pending_stmts_of};

use crate::nodes::{for_stmt, if_else_stmt, if_stmt, while_stmt};
use crate::pending::pop_pending;
use crate::state::PendingStmt;
use ob_base::{NoMemory, let_go};
use ob_tree::Stmt;
use std::alloc::Global;

/// Whether a statement makes the innermost pending statement whole. Where `ifs` is false, an `if` waits for an
/// `else`.
fn closes(pending: &Vec<PendingStmt>, ifs: bool) -> bool
    ensures { result ≡ closes_of ifs (pending_stmts_of pending.now.items) }
{
    match pending.last() {
        Some(PendingStmt::If { .. }) => ifs,
        Some(PendingStmt::Else { .. } | PendingStmt::While { .. } | PendingStmt::For { .. }) =>
            true,
        _ => false,
    }
}

/// The pending statement with its last part; where it takes none, the statement.
fn completed(alloc: Global, pending: PendingStmt, stmt: Box<Stmt>) -> Result<Box<Stmt>, NoMemory>
    ensures { IfOk result (λ s. stmt_tree s.value ≡ completed_of (pending_of pending) (stmt_tree stmt.value)) }
{
    match pending {
        PendingStmt::If { first, line, test } => if_stmt(alloc, first, line, test, stmt),
        PendingStmt::Else {
            first,
            line,
            test,
            then,
        } => if_else_stmt(alloc, first, line, test, then, stmt),
        PendingStmt::While { first, line, test } => while_stmt(alloc, first, line, test, stmt),
        PendingStmt::For {
            first,
            line,
            start,
            test,
            next,
        } => for_stmt(alloc, first, line, start, test, next, stmt),
        other => {
            let_go(other);
            Ok(stmt)
        }
    }
}

/// Gives the innermost pending statement its last part, and takes it off.
fn close_top(
    alloc: Global,
    stmt: Box<Stmt>,
    pending: &mut Vec<PendingStmt>,
) -> Result<Box<Stmt>, NoMemory>
    ensures { IfOk result (λ s. (stmt_tree s.value, pending_stmts_of pending.new.items) ≡ closed_top (stmt_tree stmt.value) (pending_stmts_of pending.old.items)) }
{
    match pop_pending(pending) {
        Some(top) => completed(alloc, top, stmt),
        None => Ok(stmt),
    }
}

/// Closes the pending statements that the statement makes whole, from the innermost on.
#[tactic(auto, using(crate::proofs::Turns::stops))]
pub fn close(
    alloc: Global,
    stmt: Box<Stmt>,
    pending: Vec<PendingStmt>,
    ifs: bool,
) -> Result<(Box<Stmt>, Vec<PendingStmt>), NoMemory>
    ensures { IfOk result (λ r. (stmt_tree r.0.value, pending_stmts_of r.1.items) ≡ closed_of ifs (stmt_tree stmt.value) (pending_stmts_of pending.items)) }
{
    let mut stmt = stmt;
    let mut pending = pending;
    'closing: while closes(&pending, ifs) {
        stmt = close_top(alloc, stmt, &mut pending)?;
    }
    Ok((stmt, pending))
}
