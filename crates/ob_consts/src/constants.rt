ghost use Rattle.std.specs.Prelude.{◌≡◌, IsFalse, option_map};
ghost use Rattle.ob_words.specs.Types.{IsNumber};
ghost use Rattle.ob_words.specs.Conversion.{convert};
ghost use Rattle.ob_words.specs.Operators.{binary, shifts};
ghost use Rattle.ob_typed.specs.ConstantValues.{and_value, arith_value, compare_value, cond_value, constant, evaluated, is_constant_form, is_true, or_value, quotient, right_value, truth, truth_value};
ghost use Rattle.ob_typed.specs.TypedView.{typed_expr};
ghost use Rattle.ob_consts.specs.Refusal.{Answers};

use ob_typed::{TExpr, TNode};
use ob_words::{BinOp, IntType, Relation, binary, compare, convert};

/// The one refusal of [`constant`].
#[derive(Clone, Copy, Debug, PartialEq, Eq)]
pub struct NotConstant;

/// The value of an integer constant expression (C99 6.6). Refused exactly where `e` is none, or divides
/// by zero in a part that is evaluated.
pub fn constant(e: &TExpr) -> Result<i128, NotConstant>
    ensures { Answers result (constant (typed_expr e.now)) }
{
    match value(e) {
        Some(z) => Ok(z),
        None => Err(NotConstant),
    }
}

/// The value of an integer constant expression, `None` where `e` has none.
pub(crate) fn value(e: &TExpr) -> Option<i128>
    ensures { result ≡ constant (typed_expr e.now) }
{
    if is_constant_form(e) {
        evaluated(e)
    } else {
        None
    }
}

/// Whether an expression consists of what an integer constant expression may have.
fn is_constant_form(e: &TExpr) -> bool
    ensures { result ≡ is_constant_form (typed_expr e.now) }
{
    match &e.node {
        TNode::Num(_) => true,
        TNode::Convert(_, a) => is_constant_form(a),
        TNode::Arith(_, _, a, b) => is_constant_form(a) && is_constant_form(b),
        TNode::Compare(_, a, b) => is_constant_form(a) && is_constant_form(b),
        TNode::And(a, b) => is_constant_form(a) && is_constant_form(b),
        TNode::Or(a, b) => is_constant_form(a) && is_constant_form(b),
        TNode::Cond(c, a, b) => is_constant_form(c) && is_constant_form(a) && is_constant_form(b),
        _ => false,
    }
}

/// The value of an expression of that form, `None` where it divides by zero.
fn evaluated(e: &TExpr) -> Option<i128>
    ensures { result ≡ evaluated (typed_expr e.now) }
{
    match &e.node {
        TNode::Num(z) => Some(*z),
        TNode::Convert(kind, a) => converted(*kind, evaluated(a)),
        TNode::Arith(op, kind, a, b) => {
            let x = evaluated(a);
            let y = evaluated(b);
            arithmetic(*op, *kind, x, y)
        }
        TNode::Compare(relation, a, b) => {
            let x = evaluated(a);
            let y = evaluated(b);
            compared(*relation, x, y)
        }
        TNode::And(a, b) => {
            let x = evaluated(a);
            let y = evaluated(b);
            both(x, y)
        }
        TNode::Or(a, b) => {
            let x = evaluated(a);
            let y = evaluated(b);
            either(x, y)
        }
        TNode::Cond(c, a, b) => {
            let z = evaluated(c);
            let x = evaluated(a);
            let y = evaluated(b);
            chosen(z, x, y)
        }
        _ => None,
    }
}

fn converted(kind: IntType, x: Option<i128>) -> Option<i128>
    ensures { result ≡ option_map (convert kind) x }
{
    match x {
        Some(z) => Some(convert(kind, z)),
        None => None,
    }
}

fn arithmetic(op: BinOp, kind: IntType, x: Option<i128>, y: Option<i128>) -> Option<i128>
    ensures { result ≡ arith_value op kind x y }
{
    match (x, y) {
        (Some(a), Some(b)) => quotient(op, kind, a, b),
        _ => None,
    }
}

fn quotient(op: BinOp, kind: IntType, a: i128, b: i128) -> Option<i128>
    ensures { result ≡ quotient (binary op kind (convert kind a) (right_value op kind b)) }
{
    let a = convert(kind, a);
    let b = right_value(op, kind, b);
    match binary(op, kind, a, b) {
        Ok(z) => Some(z),
        Err(_) => None,
    }
}

/// The right operand of an operator in type `kind`.
fn right_value(op: BinOp, kind: IntType, b: i128) -> i128
    ensures is { result ≡ right_value op kind b }
    ensures number { IsFalse (shifts op) → IsNumber kind result }
{
    match op {
        BinOp::Shl | BinOp::Shr => b,
        _ => convert(kind, b),
    }
}

fn truth(b: bool) -> i128
    ensures { result ≡ truth b }
{
    if b { 1 } else { 0 }
}

fn compared(relation: Relation, x: Option<i128>, y: Option<i128>) -> Option<i128>
    ensures { result ≡ compare_value relation x y }
{
    match (x, y) {
        (Some(a), Some(b)) => Some(truth(compare(relation, a, b))),
        _ => None,
    }
}

fn is_true(z: i128) -> bool
    ensures { result ≡ is_true z }
{
    z != 0
}

fn truth_of(x: Option<i128>) -> Option<i128>
    ensures { result ≡ truth_value x }
{
    match x {
        Some(z) => Some(truth(is_true(z))),
        None => None,
    }
}

/// `&&`: the second operand counts where the first isn't 0.
fn both(x: Option<i128>, y: Option<i128>) -> Option<i128>
    ensures { result ≡ and_value x y }
{
    match x {
        Some(a) => if is_true(a) {
            truth_of(y)
        } else {
            Some(truth(false))
        },
        None => None,
    }
}

/// `||`: the second operand counts where the first is 0.
fn either(x: Option<i128>, y: Option<i128>) -> Option<i128>
    ensures { result ≡ or_value x y }
{
    match x {
        Some(a) => if is_true(a) {
            Some(truth(true))
        } else {
            truth_of(y)
        },
        None => None,
    }
}

/// `?:`: the second or the third operand.
fn chosen(z: Option<i128>, x: Option<i128>, y: Option<i128>) -> Option<i128>
    ensures { result ≡ cond_value z x y }
{
    match z {
        Some(c) => if is_true(c) { x } else { y },
        None => None,
    }
}
