ghost use Rattle.std.specs.Prelude.{◌≡◌, ◌≤◌, ◌<◌, IfOk, nat_le, ◌&&◌};
ghost use Rattle.ob_tree.specs.Fronts.{greatest_path};
ghost use Rattle.ob_tree.specs.Levels.{infix_level, left_level as left_level_of, level_of};
ghost use Rattle.ob_tree.specs.ExpressionView.{expr_tree};
ghost use Rattle.ob_tree.specs.ExprStates.{AfterOperand, top_operand_level as top_operand_level_of};
ghost use Rattle.ob_tree.specs.ExprMachine.{close_bracket as close_bracket_of, close_paren as close_paren_of, colon_to, comma_to, join_to, then_to};
ghost use Rattle.ob_exprs.specs.Behind.{behind as behind_of, closing_level as closing_level_of, in_bracket as in_bracket_of, in_call as in_call_of, in_paren as in_paren_of, in_then as in_then_of, is_postfix as is_postfix_of, operator_behind};
ghost use Rattle.ob_exprs.specs.DeepestPaths.{deepest_path};
ghost use Rattle.ob_exprs.specs.Reading.{Shifts, held};
ghost use Rattle.ob_exprs.specs.View.{infix_of};

use crate::level::{ASSIGN, COND, OR};
use crate::lists::{add_argument, add_dim};
use crate::measured::Operand;
use crate::nodes::{call, index, paren};
use crate::operators::{binary_level, is_assign, left_level, level_of_operator};
use crate::postfix::sign_place;
use crate::reader::{Reader, Shift};
use crate::stack::{Stack, pop, push, top_operand_level};
use crate::state::{Mode, Operator, PendingNode};
use ob_base::NoMemory;
use ob_tree::Sign;
use std::alloc::Global;

/// Whether the sign is one of a postfix expression.
pub fn is_postfix(sign: Sign) -> bool
    ensures { result ≡ is_postfix_of sign }
{
    match sign {
        Sign::OpenBracket
        | Sign::OpenParen
        | Sign::Dot
        | Sign::Arrow
        | Sign::PlusPlus
        | Sign::MinusMinus => true,
        _ => false,
    }
}

/// The nonterminal above which the sign closes nodes.
pub fn closing_level(sign: Sign) -> u32
    ensures { result ≡ closing_level_of sign }
{
    match sign {
        Sign::Question => COND,
        _ => {
            if is_assign(sign) {
                ASSIGN
            } else {
                binary_level(sign)
            }
        }
    }
}

/// Whether the operator may follow the operand.
fn takes(stack: &Stack, operand: &Operand, operator: Operator, least: u32) -> bool
    ensures { result ≡ (nat_le (left_level_of (infix_of operator)) (level_of (expr_tree operand.now.expr.value)) && nat_le (top_operand_level_of least (held stack.now)) (infix_level (infix_of operator))) }
{
    left_level(operator) <= operand.level
        && top_operand_level(stack, least) <= level_of_operator(operator)
}

/// The sign of an operator.
#[tactic(auto, using(crate::proofs::Behinds::shallow_2000))]
fn join(
    stack: Stack,
    operand: Operand,
    operator: Operator,
    at: u32,
    least: u32,
) -> Result<Shift, NoMemory>
    requires { deepest_path (AfterOperand (expr_tree operand.expr.value) (held stack)) ≤ greatest_path }
    ensures { IfOk result (λ a. Shifts (AfterOperand (expr_tree operand.expr.value) (held stack)) a (join_to least (infix_of operator) at (expr_tree operand.expr.value, held stack))) }
{
    if !takes(&stack, &operand, operator, least) {
        return Ok(Shift::Ended(Reader {
            stack,
            mode: Mode::AfterOperand(operand),
        }));
    }
    let place = sign_place(&operand, at);
    let stack = push(stack, PendingNode::Join(place, operator, operand))?;
    Ok(Shift::Shifted(Reader {
        stack,
        mode: Mode::BeforeOperand,
    }))
}

/// A `?`.
#[tactic(auto, using(crate::proofs::Behinds::shallow_2000))]
fn question(stack: Stack, operand: Operand, at: u32, least: u32) -> Result<Shift, NoMemory>
    requires { deepest_path (AfterOperand (expr_tree operand.expr.value) (held stack)) ≤ greatest_path }
    ensures { IfOk result (λ a. Shifts (AfterOperand (expr_tree operand.expr.value) (held stack)) a (then_to least at (expr_tree operand.expr.value, held stack))) }
{
    if operand.level < OR || COND < top_operand_level(&stack, least) {
        return Ok(Shift::Ended(Reader {
            stack,
            mode: Mode::AfterOperand(operand),
        }));
    }
    let place = sign_place(&operand, at);
    let stack = push(stack, PendingNode::Then(place, operand))?;
    Ok(Shift::Shifted(Reader {
        stack,
        mode: Mode::BeforeOperand,
    }))
}

/// Whether the newest node is a call.
fn in_call(stack: &Stack) -> bool
    ensures { result ≡ in_call_of (held stack.now) }
{
    matches!(stack.pending.last(), Some(PendingNode::Call(..)))
}

/// A comma: it ends an argument, or is an operator.
#[tactic(auto, using(crate::proofs::Turns::shallow, crate::proofs::Behinds::comma_joins))]
fn comma(stack: Stack, operand: Operand, at: u32, least: u32) -> Result<Shift, NoMemory>
    requires { deepest_path (AfterOperand (expr_tree operand.expr.value) (held stack)) ≤ greatest_path }
    ensures { IfOk result (λ a. Shifts (AfterOperand (expr_tree operand.expr.value) (held stack)) a (comma_to least at (expr_tree operand.expr.value) (held stack))) }
{
    if !in_call(&stack) {
        return join(stack, operand, Operator::Comma, at, least);
    }
    let (rest, top) = pop(stack);
    match top {
        Some(PendingNode::Call(place, name, arguments)) => {
            let (arguments, name) = add_argument(arguments, operand, name)?;
            let stack = push(rest, PendingNode::Call(place, name, arguments))?;
            Ok(Shift::Shifted(Reader {
                stack,
                mode: Mode::BeforeOperand,
            }))
        }
        _ => unreachable!(),
    }
}

/// Whether the newest node is an expression in parentheses, or a call.
fn in_paren(stack: &Stack) -> bool
    ensures { result ≡ in_paren_of (held stack.now) }
{
    matches!(
        stack.pending.last(),
        Some(PendingNode::Paren(_) | PendingNode::Call(..))
    )
}

/// A closing parenthesis: of an expression, or of a call's arguments.
#[tactic(auto, using(crate::proofs::Turns::shallow, crate::proofs::Behinds::call_small, crate::proofs::Behinds::no_paren))]
fn close_paren(alloc: Global, stack: Stack, operand: Operand) -> Result<Shift, NoMemory>
    requires { deepest_path (AfterOperand (expr_tree operand.expr.value) (held stack)) ≤ greatest_path }
    ensures { IfOk result (λ a. Shifts (AfterOperand (expr_tree operand.expr.value) (held stack)) a (close_paren_of (expr_tree operand.expr.value) (held stack))) }
{
    if !in_paren(&stack) {
        return Ok(Shift::Ended(Reader {
            stack,
            mode: Mode::AfterOperand(operand),
        }));
    }
    let (stack, top) = pop(stack);
    let operand = match top {
        Some(PendingNode::Paren(place)) => paren(alloc, place, operand)?,
        Some(PendingNode::Call(place, name, arguments)) => {
            let (arguments, name) = add_argument(arguments, operand, name)?;
            call(alloc, place, name, arguments)?
        }
        _ => unreachable!(),
    };
    Ok(Shift::Shifted(Reader {
        stack,
        mode: Mode::AfterOperand(operand),
    }))
}

/// Whether the newest node is an index, or a pair of brackets.
fn in_bracket(stack: &Stack) -> bool
    ensures { result ≡ in_bracket_of (held stack.now) }
{
    matches!(
        stack.pending.last(),
        Some(PendingNode::Index(..) | PendingNode::Length(..))
    )
}

/// A closing bracket: of an index, or of an array length.
#[tactic(auto, using(crate::proofs::Turns::shallow, crate::proofs::Behinds::no_bracket))]
fn close_bracket(alloc: Global, stack: Stack, operand: Operand) -> Result<Shift, NoMemory>
    requires { deepest_path (AfterOperand (expr_tree operand.expr.value) (held stack)) ≤ greatest_path }
    ensures { IfOk result (λ a. Shifts (AfterOperand (expr_tree operand.expr.value) (held stack)) a (close_bracket_of (expr_tree operand.expr.value) (held stack))) }
{
    if !in_bracket(&stack) {
        return Ok(Shift::Ended(Reader {
            stack,
            mode: Mode::AfterOperand(operand),
        }));
    }
    let (stack, top) = pop(stack);
    let mode = match top {
        Some(PendingNode::Index(place, base)) => Mode::AfterOperand(index(
            alloc, place, base, operand,
        )?),
        Some(PendingNode::Length(head, dims)) => {
            let (dims, head) = add_dim(dims, operand, head)?;
            Mode::Dims(head, dims)
        }
        _ => unreachable!(),
    };
    Ok(Shift::Shifted(Reader { stack, mode }))
}

/// Whether the newest node is a conditional before its `:`.
fn in_then(stack: &Stack) -> bool
    ensures { result ≡ in_then_of (held stack.now) }
{
    matches!(stack.pending.last(), Some(PendingNode::Then(..)))
}

/// A `:`.
#[tactic(auto, using(crate::proofs::Turns::shallow, crate::proofs::Behinds::no_colon))]
fn colon(stack: Stack, operand: Operand) -> Result<Shift, NoMemory>
    requires { deepest_path (AfterOperand (expr_tree operand.expr.value) (held stack)) ≤ greatest_path }
    ensures { IfOk result (λ a. Shifts (AfterOperand (expr_tree operand.expr.value) (held stack)) a (colon_to (expr_tree operand.expr.value) (held stack))) }
{
    if !in_then(&stack) {
        return Ok(Shift::Ended(Reader {
            stack,
            mode: Mode::AfterOperand(operand),
        }));
    }
    let (stack, top) = pop(stack);
    match top {
        Some(PendingNode::Then(place, test)) => {
            let stack = push(stack, PendingNode::Else(place, test, operand))?;
            Ok(Shift::Shifted(Reader {
                stack,
                mode: Mode::BeforeOperand,
            }))
        }
        _ => unreachable!(),
    }
}

/// An operator, or a sign that is none.
fn operator(
    stack: Stack,
    operand: Operand,
    sign: Sign,
    at: u32,
    least: u32,
) -> Result<Shift, NoMemory>
    requires { deepest_path (AfterOperand (expr_tree operand.expr.value) (held stack)) ≤ greatest_path }
    ensures { IfOk result (λ a. Shifts (AfterOperand (expr_tree operand.expr.value) (held stack)) a (operator_behind least at sign (expr_tree operand.expr.value, held stack))) }
{
    if is_assign(sign) {
        join(stack, operand, Operator::Assign(sign), at, least)
    } else if 0 < binary_level(sign) {
        join(stack, operand, Operator::Binary(sign), at, least)
    } else {
        Ok(Shift::Ended(Reader {
            stack,
            mode: Mode::AfterOperand(operand),
        }))
    }
}

/// A sign behind an operand, where the nodes that it closes are closed.
pub fn behind(
    alloc: Global,
    stack: Stack,
    operand: Operand,
    sign: Sign,
    at: u32,
    least: u32,
) -> Result<Shift, NoMemory>
    requires { deepest_path (AfterOperand (expr_tree operand.expr.value) (held stack)) ≤ greatest_path }
    ensures { IfOk result (λ a. Shifts (AfterOperand (expr_tree operand.expr.value) (held stack)) a (behind_of least at sign (expr_tree operand.expr.value, held stack))) }
{
    match sign {
        Sign::Question => question(stack, operand, at, least),
        Sign::Comma => comma(stack, operand, at, least),
        Sign::CloseParen => close_paren(alloc, stack, operand),
        Sign::CloseBracket => close_bracket(alloc, stack, operand),
        Sign::Colon => colon(stack, operand),
        _ => operator(stack, operand, sign, at, least),
    }
}
