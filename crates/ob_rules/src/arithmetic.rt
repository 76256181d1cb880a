//! Arithmetic operators and comparisons, from the operands' values (C99 6.5.5 to 6.5.9).
ghost use Rattle.std.specs.Prelude.{◌≡◌, false, IfOk};
ghost use Rattle.ob_words.specs.declared.types.IntType.TheVariants.{Long};
ghost use Rattle.ob_tree.specs.Types.{PlainType};
ghost use Rattle.ob_typed.specs.Conversions.{Checked as PlainChecked};
ghost use Rattle.ob_typed.specs.Places.{pointed_to};
ghost use Rattle.ob_typed.specs.TypedTree.{TypedExpr, TypedLean, TypedNode};
ghost use Rattle.ob_words.specs.Operators.{shifts};
ghost use Rattle.ob_tree.specs.StructsView.{plain_structs};
ghost use Rattle.ob_tree.specs.TypeView.{plain_type};
ghost use Rattle.ob_typed.specs.BinaryRules.{arith_numbers, arith_types, compare_numbers, compare_pointers, computed_in, right_operand};
ghost use Rattle.ob_typed.specs.TypedView.{typed_expr};
ghost use Rattle.ob_conversions.specs.CheckedView.{checked, mark};
ghost use Rattle.ob_conversions.specs.Gives.{Gives};

use crate::refused::operand;
use ob_base::NoMemory;
use ob_conversions::complete::is_object_type;
use ob_conversions::leans::summed;
use ob_conversions::nodes::{arith, compare, pointer_compare, pointer_difference};
use ob_conversions::numbers::as_int;
use ob_conversions::types::same_type;
use ob_conversions::{Checked, Mark, beside};
use ob_layout::size;
use ob_tree::{CType, Structs, TypeFault};
use ob_typed::TExpr;
use ob_words::{BinOp, IntType, Relation, common, promote};
use std::alloc::Global;

fn shifts(op: BinOp) -> bool
    ensures { result ≡ shifts op }
{
    match op {
        BinOp::Shl | BinOp::Shr => true,
        _ => false,
    }
}

/// The type in which an operator computes on numbers of types `a` and `b`.
pub fn computed_in(op: BinOp, a: IntType, b: IntType) -> IntType
    ensures { result ≡ computed_in op a b }
{
    if shifts(op) { promote(a) } else { common(a, b) }
}

/// The right operand, of type `b`, of an operator whose left one has type `a`, in the type that it has there.
pub fn right_operand(
    alloc: Global,
    op: BinOp,
    a: IntType,
    b: IntType,
    y: TExpr,
) -> Result<TExpr, NoMemory>
    ensures { IfOk result (λ r. typed_expr r ≡ right_operand op a b (typed_expr y)) }
{
    let kind = if shifts(op) { promote(b) } else { common(a, b) };
    as_int(alloc, kind, y)
}

/// An operator on numbers of types `a` and `b`.
fn arith_numbers(
    alloc: Global,
    m: Mark,
    op: BinOp,
    a: IntType,
    b: IntType,
    x: TExpr,
    y: TExpr,
) -> Result<Checked, NoMemory>
    ensures { IfOk result (λ r. checked r ≡ arith_numbers (mark m) op a b (typed_expr x) (typed_expr y)) }
{
    let kind = computed_in(op, a, b);
    let (x, y) = beside(as_int(alloc, kind, x), y)?;
    let (y, x) = beside(right_operand(alloc, op, a, b, y), x)?;
    Ok(Checked::Plain(arith(alloc, m.line, op, kind, x, y)?))
}

/// A pointer plus or minus a number.
fn sum(
    alloc: Global,
    m: Mark,
    scale: u64,
    minus: bool,
    number_first: bool,
    p: TExpr,
    n: TExpr,
) -> Result<Checked, NoMemory>
    ensures { IfOk result (λ r. checked r ≡ PlainChecked.Plain (TypedExpr.Typed m.line (plain_type p.ty) (TypedNode.Lean (TypedLean.Slide (pointed_to (typed_expr p)) scale minus number_first (typed_expr n))))) }
{
    Ok(Checked::Plain(summed(alloc, m.line, scale, minus, number_first, p, n)?))
}

/// The difference of two pointers.
fn difference(alloc: Global, m: Mark, scale: u64, x: TExpr, y: TExpr) -> Result<Checked, NoMemory>
    ensures { IfOk result (λ r. checked r ≡ PlainChecked.Plain (TypedExpr.Typed m.line (PlainType.Int Long) (TypedNode.PtrDiff scale (typed_expr x) (typed_expr y)))) }
{
    Ok(Checked::Plain(pointer_difference(alloc, m.line, scale, x, y)?))
}

/// An arithmetic operator (C99 6.5.5 to 6.5.7, 6.5.10 to 6.5.12).
pub fn arith_types(
    alloc: Global,
    s: &Structs,
    m: Mark,
    op: BinOp,
    x: TExpr,
    y: TExpr,
) -> Result<Checked, TypeFault>
    ensures { Gives checked result (arith_types (plain_structs s.now) (mark m) op (plain_type x.ty) (plain_type y.ty) (typed_expr x) (typed_expr y)) }
{
    match (op, &x.ty, &y.ty) {
        (op, CType::Int(a), CType::Int(b)) => Ok(arith_numbers(alloc, m, op, *a, *b, x, y)?),
        (BinOp::Add, CType::Pointer(t), CType::Int(_)) => if is_object_type(s, t) {
            let scale = size(s, t);
            Ok(sum(alloc, m, scale, false, false, x, y)?)
        } else {
            operand(m, (x, y))
        },
        (BinOp::Add, CType::Int(_), CType::Pointer(u)) => if is_object_type(s, u) {
            let scale = size(s, u);
            Ok(sum(alloc, m, scale, false, true, y, x)?)
        } else {
            operand(m, (x, y))
        },
        (BinOp::Sub, CType::Pointer(t), CType::Int(_)) => if is_object_type(s, t) {
            let scale = size(s, t);
            Ok(sum(alloc, m, scale, true, false, x, y)?)
        } else {
            operand(m, (x, y))
        },
        (BinOp::Sub, CType::Pointer(t), CType::Pointer(u)) => if same_type(t, u)
            && is_object_type(s, t)
        {
            let scale = size(s, t);
            Ok(difference(alloc, m, scale, x, y)?)
        } else {
            operand(m, (x, y))
        },
        _ => operand(m, (x, y)),
    }
}

/// Two numbers in one type, compared.
pub fn compare_numbers(
    alloc: Global,
    m: Mark,
    relation: Relation,
    kind: IntType,
    x: TExpr,
    y: TExpr,
) -> Result<Checked, NoMemory>
    ensures { IfOk result (λ r. checked r ≡ compare_numbers (mark m) relation kind (typed_expr x) (typed_expr y)) }
{
    let (x, y) = beside(as_int(alloc, kind, x), y)?;
    let (y, x) = beside(as_int(alloc, kind, y), x)?;
    Ok(Checked::Plain(compare(alloc, m.line, relation, x, y)?))
}

/// Two pointers compared.
pub fn compare_pointers(
    alloc: Global,
    m: Mark,
    relation: Relation,
    x: TExpr,
    y: TExpr,
) -> Result<Checked, NoMemory>
    ensures { IfOk result (λ r. checked r ≡ compare_pointers (mark m) relation (typed_expr x) (typed_expr y)) }
{
    Ok(Checked::Plain(pointer_compare(alloc, m.line, relation, x, y)?))
}
