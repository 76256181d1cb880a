ghost use Rattle.std.specs.Prelude.{◌≡◌, ◌≤◌, IfOk};
ghost use Rattle.ob_tree.specs.Fronts.{greatest_path};
ghost use Rattle.ob_tree.specs.Levels.{mark_of};
ghost use Rattle.ob_tree.specs.ExpressionView.{expr_tree};
ghost use Rattle.ob_tree.specs.ExprStates.{AfterOperand, at_sign};
ghost use Rattle.ob_tree.specs.ExprMachine.{call_to, index_to, select_to, step_to, string_to};
ghost use Rattle.ob_exprs.specs.Behind.{is_name as is_name_of, is_string as is_string_of};
ghost use Rattle.ob_exprs.specs.DeepestPaths.{deepest_path};
ghost use Rattle.ob_exprs.specs.Reading.{Shifts, held};
ghost use Rattle.ob_exprs.specs.View.{mark};

use crate::level::POSTFIX;
use crate::measured::Operand;
use crate::nodes::{step_behind, strings};
use crate::reader::{Reader, Shift};
use crate::stack::{Stack, push};
use crate::state::{ExprMark, Mode, PendingNode};
use ob_base::{NoMemory, Text, with_last};
use ob_tree::{Expr, ExprNode};
use std::alloc::Global;

/// Where a node stands that begins with the operand and has its sign at `at`.
#[tactic(auto, using(crate::proofs::Behinds::sign_made))]
pub fn sign_place(operand: &Operand, at: u32) -> ExprMark
    ensures { mark result ≡ at_sign (mark_of (expr_tree operand.now.expr.value)) at }
{
    ExprMark {
        first: operand.expr.first,
        at,
        line: operand.expr.line,
    }
}

/// An opening bracket behind an operand.
#[tactic(auto, using(crate::proofs::Behinds::shallow_2000))]
pub fn index(stack: Stack, operand: Operand, at: u32) -> Result<Shift, NoMemory>
    requires { deepest_path (AfterOperand (expr_tree operand.expr.value) (held stack)) ≤ greatest_path }
    ensures { IfOk result (λ a. Shifts (AfterOperand (expr_tree operand.expr.value) (held stack)) a (index_to at (expr_tree operand.expr.value) (held stack))) }
{
    if operand.level < POSTFIX {
        return Ok(Shift::Ended(Reader {
            stack,
            mode: Mode::AfterOperand(operand),
        }));
    }
    let place = sign_place(&operand, at);
    let stack = push(stack, PendingNode::Index(place, operand))?;
    Ok(Shift::Shifted(Reader {
        stack,
        mode: Mode::BeforeOperand,
    }))
}

/// A `.` or, where `arrow`, a `->` behind an operand.
pub fn select(stack: Stack, operand: Operand, at: u32, arrow: bool) -> Shift
    ensures { Shifts (AfterOperand (expr_tree operand.expr.value) (held stack)) result (select_to at arrow (expr_tree operand.expr.value) (held stack)) }
{
    if operand.level < POSTFIX {
        return Shift::Ended(Reader {
            stack,
            mode: Mode::AfterOperand(operand),
        });
    }
    let place = sign_place(&operand, at);
    Shift::Shifted(Reader {
        stack,
        mode: Mode::Select(place, arrow, operand),
    })
}

/// A `++` or, where `down`, a `--` behind an operand.
pub fn increment(
    alloc: Global,
    stack: Stack,
    operand: Operand,
    at: u32,
    down: bool,
) -> Result<Shift, NoMemory>
    requires { deepest_path (AfterOperand (expr_tree operand.expr.value) (held stack)) ≤ greatest_path }
    ensures { IfOk result (λ a. Shifts (AfterOperand (expr_tree operand.expr.value) (held stack)) a (step_to at down (expr_tree operand.expr.value) (held stack))) }
{
    if operand.level < POSTFIX {
        return Ok(Shift::Ended(Reader {
            stack,
            mode: Mode::AfterOperand(operand),
        }));
    }
    let place = sign_place(&operand, at);
    let operand = step_behind(alloc, place, down, operand)?;
    Ok(Shift::Shifted(Reader {
        stack,
        mode: Mode::AfterOperand(operand),
    }))
}

/// Whether the operand is a name.
fn is_name(operand: &Operand) -> bool
    ensures { result ≡ is_name_of (expr_tree operand.now.expr.value) }
{
    matches!(operand.expr.node, ExprNode::Name(_))
}

/// An opening parenthesis behind an operand: a name is called.
#[tactic(auto, using(crate::proofs::Behinds::no_call))]
pub fn call(stack: Stack, operand: Operand) -> Shift
    ensures { Shifts (AfterOperand (expr_tree operand.expr.value) (held stack)) result (call_to (expr_tree operand.expr.value) (held stack)) }
{
    if !is_name(&operand) {
        return Shift::Ended(Reader {
            stack,
            mode: Mode::AfterOperand(operand),
        });
    }
    let Operand { expr, .. } = operand;
    let Expr {
        first,
        at,
        line,
        node,
    } = Box::into_inner(expr);
    match node {
        ExprNode::Name(name) => Shift::Shifted(Reader {
            stack,
            mode: Mode::Called(ExprMark { first, at, line }, name),
        }),
        _ => unreachable!(),
    }
}

/// Whether the operand is a string literal, or several side by side.
fn is_string(operand: &Operand) -> bool
    ensures { result ≡ is_string_of (expr_tree operand.now.expr.value) }
{
    matches!(operand.expr.node, ExprNode::Str(_))
}

/// A string literal behind an operand.
#[tactic(auto, using(crate::proofs::Behinds::no_string))]
pub fn string(alloc: Global, stack: Stack, operand: Operand, text: &Text) -> Result<Shift, NoMemory>
    ensures { IfOk result (λ a. Shifts (AfterOperand (expr_tree operand.expr.value) (held stack)) a (string_to text.now (expr_tree operand.expr.value) (held stack))) }
{
    if !is_string(&operand) {
        return Ok(Shift::Ended(Reader {
            stack,
            mode: Mode::AfterOperand(operand),
        }));
    }
    let Operand { expr, .. } = operand;
    let Expr {
        first,
        at,
        line,
        node,
    } = Box::into_inner(expr);
    match node {
        ExprNode::Str(texts) => {
            let texts = with_last(texts, text.copy(alloc)?)?;
            let operand = strings(alloc, ExprMark { first, at, line }, texts)?;
            Ok(Shift::Shifted(Reader {
                stack,
                mode: Mode::AfterOperand(operand),
            }))
        }
        _ => unreachable!(),
    }
}
