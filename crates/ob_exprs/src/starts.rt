ghost use Rattle.std.specs.Prelude.{◌≡◌, ◌≤◌, ◌<◌, IfOk};
ghost use Rattle.ob_tree.specs.Paths.{height as height_of};
ghost use Rattle.ob_tree.specs.ExpressionView.{expr_tree};
ghost use Rattle.ob_tree.specs.ExprMachine.{called as called_of, opened as opened_of, opened_word as opened_word_of, select as select_of, size_opened as size_opened_of, size_opened_word as size_opened_word_of, sized as sized_of};
ghost use Rattle.ob_exprs.specs.DeepestPaths.{depth_of};
ghost use Rattle.ob_exprs.specs.Reading.{Leads, held};
ghost use Rattle.ob_exprs.specs.View.{mark};

use crate::level::CAST;
use crate::lists::no_arguments;
use crate::measured::Operand;
use crate::nodes::{call, selected};
use crate::operands::{operand, operand_word, spec_word};
use crate::reader::Reader;
use crate::stack::{Stack, push, top_operand_level};
use crate::state::{ExprMark, Mode, PendingNode};
use ob_base::{NoMemory, Text};
use ob_tree::{Keyword, Sign, TokenKind};
use std::alloc::Global;

/// A word behind an opening parenthesis.
fn opened_word(
    alloc: Global,
    stack: Stack,
    paren: ExprMark,
    word: Keyword,
    place: ExprMark,
    least: u32,
) -> Result<Option<Reader>, NoMemory>
    requires { depth_of (held stack) ≤ 1000 }
    ensures { IfOk result (λ o. Leads o (opened_word_of least (mark place) word (mark paren) (held stack))) }
{
    if !word.begins_specifier() {
        let stack = push(stack, PendingNode::Paren(paren))?;
        return operand_word(alloc, stack, word, place);
    }
    if CAST < top_operand_level(&stack, least) {
        return Ok(None);
    }
    let stack = push(stack, PendingNode::Type(paren, false))?;
    spec_word(alloc, stack, word, place.first)
}

/// The token behind an opening parenthesis, of a cast or not.
pub fn opened(
    alloc: Global,
    stack: Stack,
    paren: ExprMark,
    kind: &TokenKind,
    place: ExprMark,
    least: u32,
) -> Result<Option<Reader>, NoMemory>
    requires { depth_of (held stack) ≤ 1000 }
    ensures { IfOk result (λ o. Leads o (opened_of least (mark place) kind.now (mark paren) (held stack))) }
{
    match kind {
        TokenKind::Word(word) => opened_word(alloc, stack, paren, *word, place, least),
        _ => {
            let stack = push(stack, PendingNode::Paren(paren))?;
            operand(alloc, stack, kind, place)
        }
    }
}

/// The token behind `sizeof`.
pub fn sized(
    alloc: Global,
    stack: Stack,
    size: ExprMark,
    kind: &TokenKind,
    place: ExprMark,
) -> Result<Option<Reader>, NoMemory>
    requires { depth_of (held stack) ≤ 1000 }
    ensures { IfOk result (λ o. Leads o (sized_of (mark place) kind.now (mark size) (held stack))) }
{
    match kind {
        TokenKind::Sign(Sign::OpenParen) => Ok(Some(Reader {
            stack,
            mode: Mode::SizeOpen(size, place),
        })),
        _ => {
            let stack = push(stack, PendingNode::Size(size))?;
            operand(alloc, stack, kind, place)
        }
    }
}

/// A word behind `sizeof` and an opening parenthesis.
fn size_opened_word(
    alloc: Global,
    stack: Stack,
    size: ExprMark,
    paren: ExprMark,
    word: Keyword,
    place: ExprMark,
) -> Result<Option<Reader>, NoMemory>
    requires { depth_of (held stack) ≤ 1000 }
    ensures { IfOk result (λ o. Leads o (size_opened_word_of (mark place) word (mark size) (mark paren) (held stack))) }
{
    if word.begins_specifier() {
        let stack = push(stack, PendingNode::Type(size, true))?;
        return spec_word(alloc, stack, word, place.first);
    }
    let stack = push(stack, PendingNode::Size(size))?;
    let stack = push(stack, PendingNode::Paren(paren))?;
    operand_word(alloc, stack, word, place)
}

/// The token behind `sizeof` and an opening parenthesis, of a type name or not.
pub fn size_opened(
    alloc: Global,
    stack: Stack,
    size: ExprMark,
    paren: ExprMark,
    kind: &TokenKind,
    place: ExprMark,
) -> Result<Option<Reader>, NoMemory>
    requires { depth_of (held stack) ≤ 1000 }
    ensures { IfOk result (λ o. Leads o (size_opened_of (mark place) kind.now (mark size) (mark paren) (held stack))) }
{
    match kind {
        TokenKind::Word(word) => size_opened_word(alloc, stack, size, paren, *word, place),
        _ => {
            let stack = push(stack, PendingNode::Size(size))?;
            let stack = push(stack, PendingNode::Paren(paren))?;
            operand(alloc, stack, kind, place)
        }
    }
}

/// The token behind a called name and its opening parenthesis.
pub fn called(
    alloc: Global,
    stack: Stack,
    place_of_call: ExprMark,
    name: Text,
    kind: &TokenKind,
    place: ExprMark,
) -> Result<Option<Reader>, NoMemory>
    requires { depth_of (held stack) ≤ 1000 }
    ensures { IfOk result (λ o. Leads o (called_of (mark place) kind.now (mark place_of_call) name (held stack))) }
{
    match kind {
        TokenKind::Sign(Sign::CloseParen) => Ok(Some(Reader {
            stack,
            mode: Mode::AfterOperand(call(alloc, place_of_call, name, no_arguments(alloc))?),
        })),
        _ => {
            let stack = push(
                stack,
                PendingNode::Call(place_of_call, name, no_arguments(alloc)),
            )?;
            operand(alloc, stack, kind, place)
        }
    }
}

/// The token behind `.` or, where `arrow`, `->`.
pub fn select(
    alloc: Global,
    stack: Stack,
    place: ExprMark,
    arrow: bool,
    base: Operand,
    kind: &TokenKind,
) -> Result<Option<Reader>, NoMemory>
    requires { height_of (expr_tree base.expr.value) < 1000 }
    ensures { IfOk result (λ o. Leads o (select_of kind.now (mark place) arrow (expr_tree base.expr.value) (held stack))) }
{
    match kind {
        TokenKind::Name(text) => {
            let text = text.copy(alloc)?;
            let operand = selected(alloc, place, arrow, base, text)?;
            Ok(Some(Reader {
                stack,
                mode: Mode::AfterOperand(operand),
            }))
        }
        _ => Ok(None),
    }
}
