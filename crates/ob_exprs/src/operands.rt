ghost use Rattle.std.specs.Prelude.{◌≡◌, ◌≤◌, ◌∷◌, [], IfOk, Some};
ghost use Rattle.ob_tree.specs.Trees.{SpecTree};
ghost use Rattle.ob_tree.specs.ExprStates.{AfterSpec, BeforeOperand};
ghost use Rattle.ob_tree.specs.ExprMachine.{operand as operand_of, operand_sign as operand_sign_of, operand_word as operand_word_of, spec_word as spec_word_of, specifier as specifier_of};
ghost use Rattle.ob_exprs.specs.DeepestPaths.{depth_of, rise as rise_of};
ghost use Rattle.ob_exprs.specs.Reading.{Leads, held};
ghost use Rattle.ob_exprs.specs.View.{pending_of, mark};

use crate::nodes::{eof, name, null, number, string};
use crate::operators::is_unary;
use crate::reader::Reader;
use crate::spec_nodes::{integer, size_t, void};
use crate::stack::{Stack, push};
use crate::state::{ExprMark, Mode, PendingNode};
use ob_base::{NoMemory, listed};
use ob_tree::{Keyword, Sign, TokenKind};
use std::alloc::Global;

/// Pushes a node that waits for an operand.
pub fn waits(stack: Stack, pending: PendingNode) -> Result<Option<Reader>, NoMemory>
    requires shallow { depth_of (held stack) ≤ 2000 }
    requires narrow { rise_of (pending_of pending) ≤ 1000 }
    ensures { IfOk result (λ o. Leads o (Some (BeforeOperand (pending_of pending ∷ held stack)))) }
{
    let stack = push(stack, pending)?;
    Ok(Some(Reader {
        stack,
        mode: Mode::BeforeOperand,
    }))
}

/// A sign that begins an operand.
pub fn operand_sign(stack: Stack, sign: Sign, place: ExprMark) -> Result<Option<Reader>, NoMemory>
    requires { depth_of (held stack) ≤ 2000 }
    ensures { IfOk result (λ o. Leads o (operand_sign_of (mark place) sign (held stack))) }
{
    match sign {
        Sign::OpenParen => Ok(Some(Reader {
            stack,
            mode: Mode::Open(place),
        })),
        Sign::PlusPlus => waits(stack, PendingNode::Step(place, false)),
        Sign::MinusMinus => waits(stack, PendingNode::Step(place, true)),
        _ => {
            if is_unary(sign) {
                waits(stack, PendingNode::Unary(place, sign))
            } else {
                Ok(None)
            }
        }
    }
}

/// A word that begins an operand.
pub fn operand_word(
    alloc: Global,
    stack: Stack,
    word: Keyword,
    place: ExprMark,
) -> Result<Option<Reader>, NoMemory>
    ensures { IfOk result (λ o. Leads o (operand_word_of (mark place) word (held stack))) }
{
    let mode = match word {
        Keyword::Null => Mode::AfterOperand(null(alloc, place)?),
        Keyword::Eof => Mode::AfterOperand(eof(alloc, place)?),
        Keyword::Sizeof => Mode::Size(place),
        _ => return Ok(None),
    };
    Ok(Some(Reader { stack, mode }))
}

/// A token that begins an operand.
pub fn operand(
    alloc: Global,
    stack: Stack,
    kind: &TokenKind,
    place: ExprMark,
) -> Result<Option<Reader>, NoMemory>
    requires { depth_of (held stack) ≤ 2000 }
    ensures { IfOk result (λ o. Leads o (operand_of (mark place) kind.now (held stack))) }
{
    let operand = match kind {
        TokenKind::Word(word) => return operand_word(alloc, stack, *word, place),
        TokenKind::Sign(sign) => return operand_sign(stack, *sign, place),
        TokenKind::Name(text) => name(alloc, place, text.copy(alloc)?)?,
        TokenKind::Number { value, ty } => number(alloc, place, *value, *ty)?,
        TokenKind::Str(text) => string(alloc, place, text.copy(alloc)?)?,
    };
    Ok(Some(Reader {
        stack,
        mode: Mode::AfterOperand(operand),
    }))
}

fn integer_word(
    alloc: Global,
    stack: Stack,
    word: Keyword,
    first: u32,
) -> Result<Option<Reader>, NoMemory>
    ensures { IfOk result (λ o. Leads o (Some (AfterSpec (SpecTree.Integer first (word ∷ [])) (held stack)))) }
{
    let words = listed(alloc, word)?;
    Ok(Some(Reader {
        stack,
        mode: Mode::AfterSpec(integer(first, words)),
    }))
}

/// A word that begins a specifier.
pub fn spec_word(
    alloc: Global,
    stack: Stack,
    word: Keyword,
    first: u32,
) -> Result<Option<Reader>, NoMemory>
    ensures { IfOk result (λ o. Leads o (spec_word_of first word (held stack))) }
{
    let mode = match word {
        Keyword::Void => Mode::AfterSpec(void(first)),
        Keyword::SizeT => Mode::AfterSpec(size_t(first)),
        Keyword::Struct => Mode::StructWord(first),
        Keyword::Char
        | Keyword::Short
        | Keyword::Int
        | Keyword::Long
        | Keyword::Signed
        | Keyword::Unsigned => return integer_word(alloc, stack, word, first),
        _ => return Ok(None),
    };
    Ok(Some(Reader { stack, mode }))
}

/// A token that begins a specifier.
pub fn specifier(
    alloc: Global,
    stack: Stack,
    kind: &TokenKind,
    first: u32,
) -> Result<Option<Reader>, NoMemory>
    ensures { IfOk result (λ o. Leads o (specifier_of first kind.now (held stack))) }
{
    match kind {
        TokenKind::Word(word) => spec_word(alloc, stack, *word, first),
        _ => Ok(None),
    }
}
