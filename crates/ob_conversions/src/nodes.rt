//! Values that operators make of their operands (C99 6.5): one builder for each. All take the line and the
//! parts as they are given, and judge nothing.
ghost use Rattle.std.specs.Prelude.{◌≡◌, IfOk};
ghost use Rattle.ob_words.specs.declared.types.IntType.TheVariants.{Int, Long};
ghost use Rattle.ob_tree.specs.Types.{PlainType};
ghost use Rattle.ob_tree.specs.TypeView.{plain_type};
ghost use Rattle.ob_typed.specs.TypedTree.{TypedExpr, TypedNode};
ghost use Rattle.ob_typed.specs.TypedView.{typed_expr, typed_node, typed_place};

use crate::types::copy_type;
use ob_base::{NoMemory, boxed, boxed_three, boxed_two};
use ob_tree::CType;
use ob_typed::{TExpr, TNode, TPlace};
use ob_words::{BinOp, IntType, Relation};
use std::alloc::Global;

/// A value of type `int`.
fn truth(line: u32, node: TNode) -> TExpr
    ensures { typed_expr result ≡ TypedExpr.Typed line (PlainType.Int Int) (typed_node node) }
{
    TExpr {
        line,
        ty: CType::Int(IntType::Int),
        node,
    }
}

/// A value that is dropped, at its own line.
pub fn dropped(alloc: Global, e: TExpr) -> Result<TExpr, NoMemory>
    ensures { IfOk result (λ r. typed_expr r ≡ TypedExpr.Typed e.line PlainType.Void (TypedNode.ToVoid (typed_expr e))) }
{
    let line = e.line;
    let e = boxed(alloc, e)?;
    Ok(TExpr {
        line,
        ty: CType::Void,
        node: TNode::ToVoid(e),
    })
}

/// An operator on two numbers, computed in type `kind`, which its result has.
pub fn arith(
    alloc: Global,
    line: u32,
    op: BinOp,
    kind: IntType,
    x: TExpr,
    y: TExpr,
) -> Result<TExpr, NoMemory>
    ensures { IfOk result (λ r. typed_expr r ≡ TypedExpr.Typed line (PlainType.Int kind) (TypedNode.Arith op kind (typed_expr x) (typed_expr y))) }
{
    let (x, y) = boxed_two(alloc, x, y)?;
    Ok(TExpr {
        line,
        ty: CType::Int(kind),
        node: TNode::Arith(op, kind, x, y),
    })
}

/// Whether two numbers of one type stand in a relation.
pub fn compare(
    alloc: Global,
    line: u32,
    relation: Relation,
    x: TExpr,
    y: TExpr,
) -> Result<TExpr, NoMemory>
    ensures { IfOk result (λ r. typed_expr r ≡ TypedExpr.Typed line (PlainType.Int Int) (TypedNode.Compare relation (typed_expr x) (typed_expr y))) }
{
    let (x, y) = boxed_two(alloc, x, y)?;
    Ok(truth(line, TNode::Compare(relation, x, y)))
}

/// Whether two pointers stand in a relation.
pub fn pointer_compare(
    alloc: Global,
    line: u32,
    relation: Relation,
    x: TExpr,
    y: TExpr,
) -> Result<TExpr, NoMemory>
    ensures { IfOk result (λ r. typed_expr r ≡ TypedExpr.Typed line (PlainType.Int Int) (TypedNode.PtrCompare relation (typed_expr x) (typed_expr y))) }
{
    let (x, y) = boxed_two(alloc, x, y)?;
    Ok(truth(line, TNode::PtrCompare(relation, x, y)))
}

/// How many elements of `scale` bytes lie between two pointers, a `long`.
pub fn pointer_difference(
    alloc: Global,
    line: u32,
    scale: u64,
    x: TExpr,
    y: TExpr,
) -> Result<TExpr, NoMemory>
    ensures { IfOk result (λ r. typed_expr r ≡ TypedExpr.Typed line (PlainType.Int Long) (TypedNode.PtrDiff scale (typed_expr x) (typed_expr y))) }
{
    let (x, y) = boxed_two(alloc, x, y)?;
    Ok(TExpr {
        line,
        ty: CType::Int(IntType::Long),
        node: TNode::PtrDiff(scale, x, y),
    })
}

/// `&&`.
pub fn both(alloc: Global, line: u32, x: TExpr, y: TExpr) -> Result<TExpr, NoMemory>
    ensures { IfOk result (λ r. typed_expr r ≡ TypedExpr.Typed line (PlainType.Int Int) (TypedNode.And (typed_expr x) (typed_expr y))) }
{
    let (x, y) = boxed_two(alloc, x, y)?;
    Ok(truth(line, TNode::And(x, y)))
}

/// `||`.
pub fn either(alloc: Global, line: u32, x: TExpr, y: TExpr) -> Result<TExpr, NoMemory>
    ensures { IfOk result (λ r. typed_expr r ≡ TypedExpr.Typed line (PlainType.Int Int) (TypedNode.Or (typed_expr x) (typed_expr y))) }
{
    let (x, y) = boxed_two(alloc, x, y)?;
    Ok(truth(line, TNode::Or(x, y)))
}

/// `? :` of a type.
pub fn conditional(
    alloc: Global,
    line: u32,
    ty: CType,
    test: TExpr,
    yes: TExpr,
    other: TExpr,
) -> Result<TExpr, NoMemory>
    ensures { IfOk result (λ r. typed_expr r ≡ TypedExpr.Typed line (plain_type ty) (TypedNode.Cond (typed_expr test) (typed_expr yes) (typed_expr other))) }
{
    let (test, yes, other) = boxed_three(alloc, test, yes, other)?;
    Ok(TExpr {
        line,
        ty,
        node: TNode::Cond(test, yes, other),
    })
}

/// The comma operator, of the second value's type.
pub fn sequence(alloc: Global, line: u32, x: TExpr, y: TExpr) -> Result<TExpr, NoMemory>
    ensures { IfOk result (λ r. typed_expr r ≡ TypedExpr.Typed line (plain_type y.ty) (TypedNode.Comma (typed_expr x) (typed_expr y))) }
{
    let (x, y) = boxed_two(alloc, x, y)?;
    let ty = copy_type(alloc, &y.ty)?;
    Ok(TExpr {
        line,
        ty,
        node: TNode::Comma(x, y),
    })
}

/// The assignment of a number or a pointer, of the place's type and at its line.
pub fn assignment(alloc: Global, place: TPlace, value: TExpr) -> Result<TExpr, NoMemory>
    ensures { IfOk result (λ r. typed_expr r ≡ TypedExpr.Typed place.line (plain_type place.ty) (TypedNode.Assign (typed_place place) (typed_expr value))) }
{
    let line = place.line;
    let (place, value) = boxed_two(alloc, place, value)?;
    let ty = copy_type(alloc, &place.ty)?;
    Ok(TExpr {
        line,
        ty,
        node: TNode::Assign(place, value),
    })
}

/// A compound assignment or a step of a number, computed in type `common`; of the place's type and at its line.
pub fn update(
    alloc: Global,
    op: BinOp,
    common: IntType,
    post: bool,
    place: TPlace,
    value: TExpr,
) -> Result<TExpr, NoMemory>
    ensures { IfOk result (λ r. typed_expr r ≡ TypedExpr.Typed place.line (plain_type place.ty) (TypedNode.Update op common post (typed_place place) (typed_expr value))) }
{
    let line = place.line;
    let (place, value) = boxed_two(alloc, place, value)?;
    let ty = copy_type(alloc, &place.ty)?;
    Ok(TExpr {
        line,
        ty,
        node: TNode::Update {
            op,
            common,
            post,
            place,
            value,
        },
    })
}

/// A compound assignment or a step of a pointer, by `scale` bytes times a number; of the place's type and at its line.
pub fn pointer_update(
    alloc: Global,
    scale: u64,
    minus: bool,
    post: bool,
    place: TPlace,
    value: TExpr,
) -> Result<TExpr, NoMemory>
    ensures { IfOk result (λ r. typed_expr r ≡ TypedExpr.Typed place.line (plain_type place.ty) (TypedNode.PtrUpdate scale minus post (typed_place place) (typed_expr value))) }
{
    let line = place.line;
    let (place, value) = boxed_two(alloc, place, value)?;
    let ty = copy_type(alloc, &place.ty)?;
    Ok(TExpr {
        line,
        ty,
        node: TNode::PtrUpdate {
            scale,
            minus,
            post,
            place,
            value,
        },
    })
}

/// The assignment of a structure, which has no value, at the line of the place.
pub fn struct_copy(alloc: Global, to: TPlace, from: TPlace) -> Result<TExpr, NoMemory>
    ensures { IfOk result (λ r. typed_expr r ≡ TypedExpr.Typed to.line PlainType.Void (TypedNode.CopyStruct (typed_place to) (typed_place from))) }
{
    let line = to.line;
    let (to, from) = boxed_two(alloc, to, from)?;
    Ok(TExpr {
        line,
        ty: CType::Void,
        node: TNode::CopyStruct(to, from),
    })
}
