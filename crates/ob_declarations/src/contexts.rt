ghost use Rattle.std.specs.Prelude.{◌≡◌, ◌∷◌, Some, length, IfOk, OnOk};
ghost use Rattle.ob_tree.specs.Trees.{DimTrees};
ghost use Rattle.ob_tree.specs.ExpressionView.{dim_trees, expr_tree};
ghost use Rattle.ob_tree.specs.ProgramView.{option_tree, stmt_tree};
ghost use Rattle.ob_tree.specs.ExprStates.{add_dim as add_dim_of};
ghost use Rattle.ob_tree.specs.ProgramStates.{Begin};
ghost use Rattle.ob_tree.specs.ProgramMachine.{first_length as first_length_of, used as used_of};
ghost use Rattle.ob_tree.specs.ProgramParts.{at_bracket as at_bracket_of, at_close as at_close_of, at_semi as at_semi_of};
ghost use Rattle.ob_tree.specs.ProgramStates as plain;
ghost use Rattle.ob_declarations.specs.Shifts.{Reaches, state_of};
ghost use Rattle.ob_declarations.specs.View.{init_lists_of, pending_of, pending_stmts_of, head_of, init_declarator_of, expr_context_of};

use crate::initialisers::{initialised, last_comma};
use crate::nodes::{do_stmt, expr_stmt, return_stmt};
use crate::pending::push_pending;
use crate::state::{ExprContext, Head, InitDeclarator, InitList, PendingStmt, State};
use ob_base::{NoMemory, boxed, let_go, push_on};
use ob_tree::{Dim, Expr, ForStart, Init, Sign, Stmt, TokenKind};
use std::alloc::Global;

/// The state behind a semicolon.
pub fn at_semi(kind: &TokenKind, state: State) -> Option<State>
    ensures { Reaches result (at_semi_of kind.now (state_of state)) }
{
    match kind {
        TokenKind::Sign(Sign::Semi) => Some(state),
        _ => {
            let_go(state);
            None
        }
    }
}

/// The state behind a closing parenthesis.
fn at_close(kind: &TokenKind, state: State) -> Option<State>
    ensures { Reaches result (at_close_of kind.now (state_of state)) }
{
    match kind {
        TokenKind::Sign(Sign::CloseParen) => Some(state),
        _ => {
            let_go(state);
            None
        }
    }
}

/// The state behind a closing bracket.
fn at_bracket(kind: &TokenKind, state: State) -> Option<State>
    ensures { Reaches result (at_bracket_of kind.now (state_of state)) }
{
    match kind {
        TokenKind::Sign(Sign::CloseBracket) => Some(state),
        _ => {
            let_go(state);
            None
        }
    }
}

/// The last part of the pending statement comes behind the closing parenthesis.
fn waits(
    kind: &TokenKind,
    pending: Vec<PendingStmt>,
    parent: PendingStmt,
) -> Result<Option<State>, NoMemory>
    ensures { IfOk result (λ o. Reaches o (at_close_of kind.now (Begin (pending_of parent ∷ pending_stmts_of pending.items)))) }
{
    let mut pending = pending;
    push_pending(&mut pending, parent)?;
    Ok(at_close(kind, State::Begin(pending)))
}

/// The brackets get one pair more, round this length.
#[tactic(auto, using(ob_tree::proofs::Views::dims_pushed))]
fn add_dim(dims: &mut Vec<Dim>, length: Expr) -> Result<(), NoMemory>
    ensures { OnOk result (dim_trees dims.new.items ≡ add_dim_of (dim_trees dims.old.items) (expr_tree length)) }
{
    let dim = Dim {
        length: Some(length),
    };
    push_on(dims, dim)
}

/// The brackets get a pair without a length, which stands before all others.
#[tactic(auto, using(crate::proofs::LeftOut::unsized_pushed))]
fn add_unsized(dims: &mut Vec<Dim>) -> Result<(), NoMemory>
    requires { length dims.now.items ≡ 0 }
    ensures { OnOk result (dim_trees dims.new.items ≡ DimTrees.Unsized DimTrees.NoDims) }
{
    push_on(dims, Dim { length: None })
}

/// Behind an array length.
fn with_length(
    kind: &TokenKind,
    head: Head,
    dims: Vec<Dim>,
    length: Expr,
) -> Result<Option<State>, NoMemory>
    ensures { IfOk result (λ o. Reaches o (used_of kind.now (plain.Length (head_of head) (dim_trees dims.items)) (Some (expr_tree length)))) }
{
    let mut dims = dims;
    add_dim(&mut dims, length)?;
    Ok(at_bracket(kind, State::Dims(head, dims)))
}

/// In the place of an array length that is left out.
#[tactic(auto, using(crate::proofs::LeftOut::first_length_none, crate::proofs::LeftOut::first_length_some))]
fn without_length(kind: &TokenKind, head: Head, dims: Vec<Dim>) -> Result<Option<State>, NoMemory>
    ensures { IfOk result (λ o. Reaches o (first_length_of kind.now (head_of head) (dim_trees dims.items))) }
{
    if dims.len() != 0 {
        let_go((head, dims));
        return Ok(None);
    }
    let mut dims = dims;
    add_unsized(&mut dims)?;
    Ok(at_bracket(kind, State::Dims(head, dims)))
}

/// Behind an array length, or in its place where there is none.
fn length(
    kind: &TokenKind,
    head: Head,
    dims: Vec<Dim>,
    expr: Option<Expr>,
) -> Result<Option<State>, NoMemory>
    ensures { IfOk result (λ o. Reaches o (used_of kind.now (plain.Length (head_of head) (dim_trees dims.items)) (option_tree expr))) }
{
    match expr {
        Some(expr) => with_length(kind, head, dims, expr),
        None => without_length(kind, head, dims),
    }
}

/// Behind an initialiser without braces, or in its place where there is none.
fn item(
    alloc: Global,
    kind: &TokenKind,
    target: InitDeclarator,
    lists: Vec<InitList>,
    expr: Option<Expr>,
) -> Result<Option<State>, NoMemory>
    ensures { IfOk result (λ o. Reaches o (used_of kind.now (plain.Item (init_declarator_of target) (init_lists_of lists.items)) (option_tree expr))) }
{
    match expr {
        Some(expr) => initialised(alloc, kind, target, lists, Init::Value(expr)),
        None => Ok(last_comma(kind, target, lists)),
    }
}

/// Behind the expression of an expression statement, or in its place.
fn statement(
    alloc: Global,
    kind: &TokenKind,
    first: u32,
    line: u32,
    pending: Vec<PendingStmt>,
    expr: Option<Expr>,
) -> Result<Option<State>, NoMemory>
    ensures { IfOk result (λ o. Reaches o (used_of kind.now (plain.Statement first line (pending_stmts_of pending.items)) (option_tree expr))) }
{
    let stmt = expr_stmt(alloc, first, line, expr)?;
    Ok(at_semi(kind, State::Done(stmt, pending)))
}

/// Behind the value of a `return`, or in its place.
fn returned(
    alloc: Global,
    kind: &TokenKind,
    first: u32,
    line: u32,
    pending: Vec<PendingStmt>,
    expr: Option<Expr>,
) -> Result<Option<State>, NoMemory>
    ensures { IfOk result (λ o. Reaches o (used_of kind.now (plain.Return first line (pending_stmts_of pending.items)) (option_tree expr))) }
{
    let stmt = return_stmt(alloc, first, line, expr)?;
    Ok(at_semi(kind, State::Done(stmt, pending)))
}

/// Behind the first expression of a `for`, or in its place.
fn for_started(
    alloc: Global,
    kind: &TokenKind,
    first: u32,
    line: u32,
    pending: Vec<PendingStmt>,
    expr: Option<Expr>,
) -> Result<Option<State>, NoMemory>
    ensures { IfOk result (λ o. Reaches o (used_of kind.now (plain.ForStart first line (pending_stmts_of pending.items)) (option_tree expr))) }
{
    let start = boxed(alloc, ForStart::Expr(expr))?;
    let next = ExprContext::ForTest {
        first,
        line,
        start,
        pending,
    };
    Ok(at_semi(kind, State::Optional(next)))
}

/// Behind the test of an `if`.
fn if_tested(
    kind: &TokenKind,
    first: u32,
    line: u32,
    pending: Vec<PendingStmt>,
    expr: Option<Expr>,
) -> Result<Option<State>, NoMemory>
    ensures { IfOk result (λ o. Reaches o (used_of kind.now (plain.IfTest first line (pending_stmts_of pending.items)) (option_tree expr))) }
{
    match expr {
        None => Ok(None),
        Some(test) => waits(kind, pending, PendingStmt::If { first, line, test }),
    }
}

/// Behind the test of a `while`.
fn while_tested(
    kind: &TokenKind,
    first: u32,
    line: u32,
    pending: Vec<PendingStmt>,
    expr: Option<Expr>,
) -> Result<Option<State>, NoMemory>
    ensures { IfOk result (λ o. Reaches o (used_of kind.now (plain.WhileTest first line (pending_stmts_of pending.items)) (option_tree expr))) }
{
    match expr {
        None => Ok(None),
        Some(test) => waits(kind, pending, PendingStmt::While { first, line, test }),
    }
}

/// Behind the test of a `do`.
fn do_tested(
    alloc: Global,
    kind: &TokenKind,
    first: u32,
    line: u32,
    body: Box<Stmt>,
    pending: Vec<PendingStmt>,
    expr: Option<Expr>,
) -> Result<Option<State>, NoMemory>
    ensures { IfOk result (λ o. Reaches o (used_of kind.now (plain.DoTest first line (stmt_tree body.value) (pending_stmts_of pending.items)) (option_tree expr))) }
{
    match expr {
        None => Ok(None),
        Some(test) => {
            let stmt = do_stmt(alloc, first, line, body, test)?;
            Ok(at_close(kind, State::Semi(stmt, pending)))
        }
    }
}

/// Behind an expression that was read for something, or in its place where there is none.
pub fn used(
    alloc: Global,
    kind: &TokenKind,
    context: ExprContext,
    expr: Option<Expr>,
) -> Result<Option<State>, NoMemory>
    ensures { IfOk result (λ o. Reaches o (used_of kind.now (expr_context_of context) (option_tree expr))) }
{
    match context {
        ExprContext::Statement {
            first,
            line,
            pending,
        } => statement(alloc, kind, first, line, pending, expr),
        ExprContext::Return {
            first,
            line,
            pending,
        } => returned(alloc, kind, first, line, pending, expr),
        ExprContext::ForStart {
            first,
            line,
            pending,
        } => for_started(alloc, kind, first, line, pending, expr),
        ExprContext::ForTest {
            first,
            line,
            start,
            pending,
        } => Ok(at_semi(
            kind,
            State::Optional(ExprContext::ForNext {
                first,
                line,
                start,
                test: expr,
                pending,
            }),
        )),
        ExprContext::ForNext {
            first,
            line,
            start,
            test,
            pending,
        } => waits(
            kind,
            pending,
            PendingStmt::For {
                first,
                line,
                start,
                test,
                next: expr,
            },
        ),
        ExprContext::IfTest {
            first,
            line,
            pending,
        } => if_tested(kind, first, line, pending, expr),
        ExprContext::WhileTest {
            first,
            line,
            pending,
        } => while_tested(kind, first, line, pending, expr),
        ExprContext::DoTest {
            first,
            line,
            body,
            pending,
        } => do_tested(alloc, kind, first, line, body, pending, expr),
        ExprContext::Length { head, dims } => length(kind, head, dims, expr),
        ExprContext::Item { target, lists } => item(alloc, kind, target, lists, expr),
    }
}
