ghost use Rattle.std.specs.Prelude.{◌≡◌, IfOk, map, option_map};
ghost use Rattle.ob_tree.specs.ProgramView.{item_tree, program_tree, stmt_tree};
ghost use Rattle.ob_tree.specs.ProgramMachine.{after_whole as after_whole_of, define as define_of, done as done_of, finish as finish_of, to_else as to_else_of, whole as whole_of};
ghost use Rattle.ob_tree.specs.ProgramParts.{at_while as at_while_of};
ghost use Rattle.ob_declarations.specs.Statements.{else_at, is_else as is_else_of};
ghost use Rattle.ob_declarations.specs.Shifts.{Leads, Reaches, state_of};
ghost use Rattle.ob_declarations.specs.View.{definition_of, pending_stmts_of, mark};

use crate::closing::close;
use crate::declarations::{begin_declaration, push_item};
use crate::nodes::add_statement;
use crate::pending::{pop_pending, push_pending};
use crate::state::{Definition, ExprContext, PendingStmt, Scope, Shift, State, TokenMark, shifted};
use crate::statements::block_item;
use ob_base::{NoMemory, let_go};
use ob_tree::{Item, ItemNode, Keyword, Program, Stmt, TokenKind};
use std::alloc::Global;

/// The external declarations with the function of this body.
fn define(definition: Box<Definition>, body: Box<Stmt>) -> Result<Vec<Item>, NoMemory>
    ensures { IfOk result (λ v. map item_tree v.items ≡ define_of (definition_of definition.value) (stmt_tree body.value)) }
{
    let Definition {
        items,
        first,
        line,
        fixed,
        spec,
        stars,
        name,
        at,
        params,
    } = Box::into_inner(definition);
    let node = ItemNode::Function {
        stars,
        name,
        at,
        params,
        body: Box::into_inner(body),
    };
    let item = Item {
        first,
        line,
        fixed,
        spec,
        node,
    };
    push_item(items, item)
}

/// An `else` behind a statement that makes no other whole but an `if`.
fn else_behind(then: Box<Stmt>, pending: Vec<PendingStmt>) -> Result<Option<State>, NoMemory>
    ensures { IfOk result (λ o. Reaches o (else_at (stmt_tree then.value) (pending_stmts_of pending.items))) }
{
    let mut pending = pending;
    match pop_pending(&mut pending) {
        Some(PendingStmt::If { first, line, test }) => {
            let parent = PendingStmt::Else {
                first,
                line,
                test,
                then,
            };
            push_pending(&mut pending, parent)?;
            Ok(Some(State::Begin(pending)))
        }
        other => {
            let_go((other, then));
            Ok(None)
        }
    }
}

/// An `else` behind a whole statement: it goes to the nearest `if` that has none.
fn to_else(
    alloc: Global,
    stmt: Box<Stmt>,
    pending: Vec<PendingStmt>,
) -> Result<Option<State>, NoMemory>
    ensures { IfOk result (λ o. Reaches o (to_else_of (stmt_tree stmt.value) (pending_stmts_of pending.items))) }
{
    let (then, pending) = close(alloc, stmt, pending, false)?;
    else_behind(then, pending)
}

fn at_while(kind: &TokenKind, state: State) -> Option<State>
    ensures { Reaches result (at_while_of kind.now (state_of state)) }
{
    match kind {
        TokenKind::Word(Keyword::While) => Some(state),
        _ => {
            let_go(state);
            None
        }
    }
}

/// Behind a statement that makes no other whole.
#[tactic(auto, using(crate::proofs::Pushed::reaches_leads))]
fn after_whole(
    alloc: Global,
    kind: &TokenKind,
    place: TokenMark,
    stmt: Box<Stmt>,
    pending: Vec<PendingStmt>,
) -> Result<Shift, NoMemory>
    ensures { IfOk result (λ s. Leads (mark place) kind.now s (after_whole_of (mark place) kind.now (stmt_tree stmt.value) (pending_stmts_of pending.items))) }
{
    let mut pending = pending;
    match pop_pending(&mut pending) {
        Some(PendingStmt::Block { first, line, items }) => {
            let mut items = items;
            add_statement(&mut items, stmt)?;
            block_item(alloc, kind, place, first, line, items, pending)
        }
        Some(PendingStmt::Do { first, line }) => {
            let state = State::Opening(ExprContext::DoTest {
                first,
                line,
                body: stmt,
                pending,
            });
            Ok(shifted(at_while(kind, state)))
        }
        Some(PendingStmt::Body(definition)) => {
            let items = define(definition, stmt)?;
            Ok(begin_declaration(kind, place, Scope::FileScope(items)))
        }
        other => {
            let_go((other, stmt));
            Ok(Shift::Rejected)
        }
    }
}

fn is_else(kind: &TokenKind) -> bool
    ensures { result ≡ is_else_of kind.now }
{
    match kind {
        TokenKind::Word(Keyword::Else) => true,
        _ => false,
    }
}

/// Behind a whole statement.
#[tactic(auto, using(crate::proofs::Turns::else_comes, crate::proofs::Turns::other_comes, crate::proofs::Pushed::reaches_leads))]
pub fn done(
    alloc: Global,
    kind: &TokenKind,
    place: TokenMark,
    stmt: Box<Stmt>,
    pending: Vec<PendingStmt>,
) -> Result<Shift, NoMemory>
    ensures { IfOk result (λ s. Leads (mark place) kind.now s (done_of (mark place) kind.now (stmt_tree stmt.value) (pending_stmts_of pending.items))) }
{
    if is_else(kind) {
        return Ok(shifted(to_else(alloc, stmt, pending)?));
    }
    let (stmt, pending) = close(alloc, stmt, pending, true)?;
    after_whole(alloc, kind, place, stmt, pending)
}

/// The program, where the statement is a function's body.
fn whole(stmt: Box<Stmt>, pending: Vec<PendingStmt>) -> Result<Option<Program>, NoMemory>
    ensures { IfOk result (λ o. option_map program_tree o ≡ whole_of (stmt_tree stmt.value) (pending_stmts_of pending.items)) }
{
    let mut pending = pending;
    match pop_pending(&mut pending) {
        Some(PendingStmt::Body(definition)) => {
            let items = define(definition, stmt)?;
            Ok(Some(Program { items }))
        }
        other => {
            let_go((other, stmt));
            Ok(None)
        }
    }
}

/// The program that was read, where the tokens end: none where something has begun that isn't whole,
/// and where nothing was read.
#[tactic(auto, using(crate::proofs::Turns::finish_done, crate::proofs::Turns::finish_none, crate::proofs::Turns::finish_some))]
pub fn finish(alloc: Global, state: State) -> Result<Option<Program>, NoMemory>
    ensures { IfOk result (λ o. option_map program_tree o ≡ finish_of (state_of state)) }
{
    match state {
        State::Items(items) => {
            if items.len() == 0 {
                return Ok(None);
            }
            Ok(Some(Program { items }))
        }
        State::Done(stmt, pending) => {
            let (stmt, pending) = close(alloc, stmt, pending, true)?;
            whole(stmt, pending)
        }
        other => {
            let_go(other);
            Ok(None)
        }
    }
}
