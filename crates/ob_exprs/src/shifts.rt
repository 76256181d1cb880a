ghost use Rattle.std.specs.Prelude.{◌≡◌, ◌≤◌, ◌<◌, Bool, IfOk};
ghost use Rattle.ob_tree.specs.Fronts.{greatest_path};
ghost use Rattle.ob_tree.specs.ExpressionView.{expr_tree};
ghost use Rattle.ob_tree.specs.ExprStates.{AfterOperand};
ghost use Rattle.ob_tree.specs.ExprMachine.{after as after_of, after_sign as after_sign_of, shift as shift_of};
ghost use Rattle.ob_exprs.specs.Behind.{is_postfix as is_postfix_of};
ghost use Rattle.ob_exprs.specs.DeepestPaths.{depth_of, deepest_path};
ghost use Rattle.ob_exprs.specs.Reading.{Shifts, held, state_of};
ghost use Rattle.ob_exprs.specs.View.{mark};

use crate::behind::{behind, closing_level};
use crate::brackets::{after_dims, declare};
use crate::measured::Operand;
use crate::operands::{operand, specifier};
use crate::postfix::{call, increment, index, select as select_behind, string};
use crate::reader::{Reader, Shift};
use crate::reduce::reduce;
use crate::specifiers::{after_spec, members, shifted, structured};
use crate::stack::Stack;
use crate::starts::{called, opened, select, size_opened, sized};
use crate::state::{ExprMark, Mode};
use ob_base::NoMemory;
use ob_tree::{Sign, TokenKind};
use std::alloc::Global;

/// A sign behind an operand that closes what it binds tighter than.
fn closing(
    alloc: Global,
    stack: Stack,
    operand: Operand,
    sign: Sign,
    at: u32,
    least: u32,
) -> Result<Shift, NoMemory>
    requires small { deepest_path (AfterOperand (expr_tree operand.expr.value) (held stack)) ≤ greatest_path }
    requires other { is_postfix_of sign ≡ Bool.false }
    ensures { IfOk result (λ a. Shifts (AfterOperand (expr_tree operand.expr.value) (held stack)) a (after_sign_of least at sign (expr_tree operand.expr.value) (held stack))) }
{
    let (stack, operand) = reduce(alloc, stack, operand, closing_level(sign))?;
    behind(alloc, stack, operand, sign, at, least)
}

/// A sign behind an operand.
fn after_sign(
    alloc: Global,
    stack: Stack,
    operand: Operand,
    sign: Sign,
    at: u32,
    least: u32,
) -> Result<Shift, NoMemory>
    requires { deepest_path (AfterOperand (expr_tree operand.expr.value) (held stack)) ≤ greatest_path }
    ensures { IfOk result (λ a. Shifts (AfterOperand (expr_tree operand.expr.value) (held stack)) a (after_sign_of least at sign (expr_tree operand.expr.value) (held stack))) }
{
    match sign {
        Sign::OpenBracket => index(stack, operand, at),
        Sign::OpenParen => Ok(call(stack, operand)),
        Sign::Dot => Ok(select_behind(stack, operand, at, false)),
        Sign::Arrow => Ok(select_behind(stack, operand, at, true)),
        Sign::PlusPlus => increment(alloc, stack, operand, at, false),
        Sign::MinusMinus => increment(alloc, stack, operand, at, true),
        _ => closing(alloc, stack, operand, sign, at, least),
    }
}

/// A token behind an operand.
fn after(
    alloc: Global,
    stack: Stack,
    operand: Operand,
    kind: &TokenKind,
    at: u32,
    least: u32,
) -> Result<Shift, NoMemory>
    requires { deepest_path (AfterOperand (expr_tree operand.expr.value) (held stack)) ≤ greatest_path }
    ensures { IfOk result (λ a. Shifts (AfterOperand (expr_tree operand.expr.value) (held stack)) a (after_of least at kind.now (expr_tree operand.expr.value) (held stack))) }
{
    match kind {
        TokenKind::Sign(sign) => after_sign(alloc, stack, operand, *sign, at, least),
        TokenKind::Str(text) => string(alloc, stack, operand, text),
        _ => Ok(Shift::Ended(Reader {
            stack,
            mode: Mode::AfterOperand(operand),
        })),
    }
}

/// The next token, which stands at `place`, where expressions of the level `least` are read, or a
/// specifier.
#[tactic(auto, using(crate::proofs::Behinds::leads_answers))]
pub fn shift(
    alloc: Global,
    reader: Reader,
    kind: &TokenKind,
    place: ExprMark,
    least: u32,
) -> Result<Shift, NoMemory>
    requires small { deepest_path (state_of reader) ≤ greatest_path }
    requires shallow { depth_of (held reader.stack) ≤ 1000 }
    ensures { IfOk result (λ a. Shifts (state_of reader) a (shift_of least (mark place) kind.now (state_of reader))) }
{
    let Reader { stack, mode } = reader;
    let next = match mode {
        Mode::AfterOperand(operand) => return after(
            alloc,
            stack,
            operand,
            kind,
            place.first,
            least,
        ),
        Mode::AfterSpec(spec) => return after_spec(alloc, stack, spec, kind, place.first),
        Mode::BeforeOperand => operand(alloc, stack, kind, place)?,
        Mode::Open(paren) => opened(alloc, stack, paren, kind, place, least)?,
        Mode::Size(size) => sized(alloc, stack, size, kind, place)?,
        Mode::SizeOpen(size, paren) => size_opened(alloc, stack, size, paren, kind, place)?,
        Mode::Called(call, name) => called(alloc, stack, call, name, kind, place)?,
        Mode::Select(sign, arrow, base) => select(alloc, stack, sign, arrow, base, kind)?,
        Mode::Specifier => specifier(alloc, stack, kind, place.first)?,
        Mode::StructWord(first) => structured(alloc, stack, first, kind)?,
        Mode::Members(body) => members(alloc, stack, body, kind, place)?,
        Mode::Declare(line, stars) => declare(alloc, stack, line, stars, kind, place.first)?,
        Mode::Dims(head, dims) => after_dims(alloc, stack, head, dims, kind)?,
    };
    Ok(shifted(next))
}
