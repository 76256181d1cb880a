ghost use Rattle.std.specs.Prelude.{◌≡◌, ◌∷◌, IfOk};
ghost use Rattle.ob_tree.specs.ProgramStates.{InBlock};
ghost use Rattle.ob_tree.specs.ProgramMachine.{begin as begin_of, begins_declaration as begins_declaration_of, block_item as block_item_of, for_start as for_start_of, statement as statement_of};
ghost use Rattle.ob_declarations.specs.Statements.{begins_local as begins_local_of, begins_statement as begins_statement_of, begins_type as begins_type_of, begun as begun_of, ends_block as ends_block_of, is_statement_word as is_statement_word_of, word_begun as word_begun_of};
ghost use Rattle.ob_declarations.specs.Shifts.{Leads, Reaches};
ghost use Rattle.ob_declarations.specs.View.{block_trees, pending_stmts_of, mark};

use crate::declarations::begin_declaration;
use crate::nodes::{block, break_stmt, continue_stmt};
use crate::optional::optional;
use crate::pending::{OpenBlock, pop_block, push_pending};
use crate::state::{
    ExprContext, Heading, PendingStmt, Scope, Shift, SpecContext, State, TokenMark, shifted,
};
use ob_base::NoMemory;
use ob_tree::{BlockItem, Keyword, Sign, TokenKind};
use std::alloc::Global;

/// Whether a declaration begins with the word.
fn begins_declaration(word: Keyword) -> bool
    ensures { result ≡ begins_declaration_of word }
{
    match word {
        Keyword::Static => true,
        _ => word.begins_specifier(),
    }
}

/// Whether a statement begins with the word, and not with an expression.
fn is_statement_word(word: Keyword) -> bool
    ensures { result ≡ is_statement_word_of word }
{
    match word {
        Keyword::If
        | Keyword::While
        | Keyword::Do
        | Keyword::For
        | Keyword::Break
        | Keyword::Continue
        | Keyword::Return => true,
        _ => false,
    }
}

/// Whether a statement begins with the token, and not with an expression.
fn begins_statement(kind: &TokenKind) -> bool
    ensures { result ≡ begins_statement_of kind.now }
{
    match kind {
        TokenKind::Word(word) => is_statement_word(*word),
        TokenKind::Sign(Sign::OpenBrace) => true,
        _ => false,
    }
}

/// Behind the first word of a statement.
fn word_begun(
    alloc: Global,
    word: Keyword,
    place: TokenMark,
    pending: Vec<PendingStmt>,
) -> Result<Option<State>, NoMemory>
    ensures { IfOk result (λ o. Reaches o (word_begun_of (mark place) word (pending_stmts_of pending.items))) }
{
    let first = place.at;
    let line = place.line;
    let state = match word {
        Keyword::If => State::Opening(ExprContext::IfTest {
            first,
            line,
            pending,
        }),
        Keyword::While => State::Opening(ExprContext::WhileTest {
            first,
            line,
            pending,
        }),
        Keyword::Do => {
            let mut pending = pending;
            push_pending(&mut pending, PendingStmt::Do { first, line })?;
            State::Begin(pending)
        }
        Keyword::For => State::ForWord {
            first,
            line,
            pending,
        },
        Keyword::Break => State::Semi(break_stmt(alloc, first, line)?, pending),
        Keyword::Continue => State::Semi(continue_stmt(alloc, first, line)?, pending),
        Keyword::Return => State::Optional(ExprContext::Return {
            first,
            line,
            pending,
        }),
        _ => return Ok(None),
    };
    Ok(Some(state))
}

/// Behind the first token of a statement.
fn begun(
    alloc: Global,
    kind: &TokenKind,
    place: TokenMark,
    pending: Vec<PendingStmt>,
) -> Result<Option<State>, NoMemory>
    ensures { IfOk result (λ o. Reaches o (begun_of (mark place) kind.now (pending_stmts_of pending.items))) }
{
    match kind {
        TokenKind::Word(word) => word_begun(alloc, *word, place, pending),
        TokenKind::Sign(Sign::OpenBrace) => {
            let block = PendingStmt::Block {
                first: place.at,
                line: place.line,
                items: Vec::new(alloc),
            };
            let mut pending = pending;
            push_pending(&mut pending, block)?;
            Ok(Some(State::Begin(pending)))
        }
        _ => Ok(None),
    }
}

/// A statement begins with the token.
#[tactic(auto, using(crate::proofs::Pushed::reaches_leads, crate::proofs::Blocks::statement_begun, crate::proofs::Blocks::expression_stands))]
fn statement(
    alloc: Global,
    kind: &TokenKind,
    place: TokenMark,
    pending: Vec<PendingStmt>,
) -> Result<Shift, NoMemory>
    ensures { IfOk result (λ s. Leads (mark place) kind.now s (statement_of (mark place) kind.now (pending_stmts_of pending.items))) }
{
    if begins_statement(kind) {
        return Ok(shifted(begun(alloc, kind, place, pending)?));
    }
    optional(
        alloc,
        kind,
        ExprContext::Statement {
            first: place.at,
            line: place.line,
            pending,
        },
    )
}

/// A statement in a block begins with the token.
fn in_block(
    alloc: Global,
    kind: &TokenKind,
    place: TokenMark,
    first: u32,
    line: u32,
    items: Vec<BlockItem>,
    pending: Vec<PendingStmt>,
) -> Result<Shift, NoMemory>
    ensures { IfOk result (λ s. Leads (mark place) kind.now s
        (statement_of (mark place) kind.now (InBlock first line (block_trees items.items) ∷ pending_stmts_of pending.items))) }
{
    let block = PendingStmt::Block { first, line, items };
    let mut pending = pending;
    push_pending(&mut pending, block)?;
    statement(alloc, kind, place, pending)
}

/// Whether the token ends a block.
fn ends_block(kind: &TokenKind) -> bool
    ensures { result ≡ ends_block_of kind.now }
{
    match kind {
        TokenKind::Sign(Sign::CloseBrace) => true,
        _ => false,
    }
}

/// Whether a declaration in a block begins with the token.
fn begins_local(kind: &TokenKind) -> bool
    ensures { result ≡ begins_local_of kind.now }
{
    match kind {
        TokenKind::Word(word) => begins_declaration(*word),
        _ => false,
    }
}

/// A statement or a declaration in a block begins with the token, or the block ends.
#[tactic(auto, using(crate::proofs::Blocks::local_comes, crate::proofs::Blocks::block_ends, crate::proofs::Blocks::statement_comes))]
pub fn block_item(
    alloc: Global,
    kind: &TokenKind,
    place: TokenMark,
    first: u32,
    line: u32,
    items: Vec<BlockItem>,
    pending: Vec<PendingStmt>,
) -> Result<Shift, NoMemory>
    ensures { IfOk result (λ s. Leads (mark place) kind.now s (block_item_of (mark place) kind.now first line (block_trees items.items) (pending_stmts_of pending.items))) }
{
    if begins_local(kind) {
        let scope = Scope::BlockScope {
            first,
            line,
            items,
            pending,
        };
        return Ok(begin_declaration(kind, place, scope));
    }
    if ends_block(kind) {
        let stmt = block(alloc, first, line, items)?;
        return Ok(Shift::Shifted(State::Done(stmt, pending)));
    }
    in_block(alloc, kind, place, first, line, items, pending)
}

/// A declaration or the end of the block comes, where the innermost pending statement is a block.
#[tactic(auto, using(crate::proofs::Blocks::none_in_block))]
fn leave_block(
    alloc: Global,
    kind: &TokenKind,
    place: TokenMark,
    pending: Vec<PendingStmt>,
) -> Result<Shift, NoMemory>
    ensures { IfOk result (λ s. Leads (mark place) kind.now s (begin_of (mark place) kind.now (pending_stmts_of pending.items))) }
{
    let mut pending = pending;
    match pop_block(&mut pending) {
        Some(block) => {
            let OpenBlock { first, line, items } = block;
            block_item(alloc, kind, place, first, line, items, pending)
        }
        None => statement(alloc, kind, place, pending),
    }
}

/// A statement begins with the token or, in a block, a declaration, or the block ends.
#[tactic(auto, using(crate::proofs::Blocks::statement_begins))]
pub fn begin(
    alloc: Global,
    kind: &TokenKind,
    place: TokenMark,
    pending: Vec<PendingStmt>,
) -> Result<Shift, NoMemory>
    ensures { IfOk result (λ s. Leads (mark place) kind.now s (begin_of (mark place) kind.now (pending_stmts_of pending.items))) }
{
    if begins_local(kind) || ends_block(kind) {
        leave_block(alloc, kind, place, pending)
    } else {
        statement(alloc, kind, place, pending)
    }
}

/// Whether a specifier begins with the token.
fn begins_type(kind: &TokenKind) -> bool
    ensures { result ≡ begins_type_of kind.now }
{
    match kind {
        TokenKind::Word(word) => word.begins_specifier(),
        _ => false,
    }
}

/// Behind `for` and its opening parenthesis.
#[tactic(auto, using(crate::proofs::Blocks::type_comes, crate::proofs::Blocks::expression_comes))]
pub fn for_start(
    alloc: Global,
    kind: &TokenKind,
    place: TokenMark,
    first: u32,
    line: u32,
    pending: Vec<PendingStmt>,
) -> Result<Shift, NoMemory>
    ensures { IfOk result (λ s. Leads (mark place) kind.now s (for_start_of (mark place) kind.now first line (pending_stmts_of pending.items))) }
{
    if !begins_type(kind) {
        return optional(
            alloc,
            kind,
            ExprContext::ForStart {
                first,
                line,
                pending,
            },
        );
    }
    let scope = Scope::ForScope {
        first,
        line,
        pending,
    };
    Ok(Shift::NeedsSpec(SpecContext::Declaration(Heading {
        scope,
        first: place.at,
        line: place.line,
        fixed: false,
    })))
}
