//! Bases and displacements (C99 6.3.2.1, 6.5.2.1, 6.5.6).
ghost use Rattle.std.specs.Prelude.{◌≡◌, IfOk};
ghost use Rattle.ob_tree.specs.Sizes.{IsComplete};
ghost use Rattle.ob_tree.specs.StructsView.{plain_structs};
ghost use Rattle.ob_tree.specs.TypeView.{plain_type};
ghost use Rattle.ob_typed.specs.Places.{pointed_to, pointer_sum, stepped};
ghost use Rattle.ob_typed.specs.TypedTree.{TypedExpr, TypedLean, TypedNode};
ghost use Rattle.ob_typed.specs.TypedView.{typed_expr, typed_lean};
ghost use Rattle.ob_conversions.specs.CheckedView.{checked};

use crate::checked::Checked;
use crate::keeping::beside;
use crate::types::copy_type;
use crate::values::leaning;
use ob_base::{NoMemory, boxed, boxed_with, let_go};
use ob_layout::size;
use ob_tree::{CType, Structs};
use ob_typed::{TExpr, TLean, TNode};
use std::alloc::Global;

/// What a pointer's value points to, where it has no displacement.
fn value_of(alloc: Global, e: TExpr) -> Result<TLean, NoMemory>
    ensures { IfOk result (λ l. typed_lean l ≡ TypedLean.Value (typed_expr e)) }
{
    Ok(TLean::Value(boxed(alloc, e)?))
}

/// What a pointer's value points to.
pub fn pointed_to(alloc: Global, e: TExpr) -> Result<TLean, NoMemory>
    ensures { IfOk result (λ l. typed_lean l ≡ pointed_to (typed_expr e)) }
{
    let TExpr { line, ty, node } = e;
    match node {
        TNode::Lean(lean) => {
            let_go(ty);
            Ok(Box::into_inner(lean))
        }
        node => value_of(alloc, TExpr { line, ty, node }),
    }
}

/// So many elements of `scale` bytes further or, where `minus`, before. The number is evaluated first where
/// `number_first`.
pub fn slid(
    alloc: Global,
    scale: u64,
    minus: bool,
    number_first: bool,
    pointer: TExpr,
    by: Box<TExpr>,
) -> Result<TLean, NoMemory>
    ensures { IfOk result (λ l. typed_lean l ≡ TypedLean.Slide (pointed_to (typed_expr pointer)) scale minus number_first (typed_expr by.value)) }
{
    let base = pointed_to(alloc, pointer)?;
    let (base, by) = boxed_with(alloc, base, by)?;
    Ok(TLean::Slide {
        base,
        scale,
        minus,
        number_first,
        by,
    })
}

/// So many elements of type `t` further or, where `minus`, before. The number is evaluated first where
/// `number_first`. `t` is complete.
pub fn stepped(
    alloc: Global,
    s: &Structs,
    t: &CType,
    minus: bool,
    number_first: bool,
    pointer: TExpr,
    number: TExpr,
) -> Result<TLean, NoMemory>
    requires { IsComplete (plain_structs s.now) (plain_type t.now) }
    ensures { IfOk result (λ l. typed_lean l ≡ stepped (plain_structs s.now) (plain_type t.now) minus number_first (typed_expr pointer) (typed_expr number)) }
{
    let (number, pointer) = boxed_with(alloc, number, pointer)?;
    slid(alloc, size(s, t), minus, number_first, pointer, number)
}

/// A pointer plus or, where `minus`, minus a number, of the pointer's type, which points to elements of `scale` bytes.
pub fn summed(
    alloc: Global,
    line: u32,
    scale: u64,
    minus: bool,
    number_first: bool,
    pointer: TExpr,
    number: TExpr,
) -> Result<TExpr, NoMemory>
    ensures { IfOk result (λ r. typed_expr r ≡ TypedExpr.Typed line (plain_type pointer.ty) (TypedNode.Lean (TypedLean.Slide (pointed_to (typed_expr pointer)) scale minus number_first (typed_expr number)))) }
{
    let (number, pointer) = boxed_with(alloc, number, pointer)?;
    let (ty, pointer) = beside(copy_type(alloc, &pointer.ty), pointer)?;
    let (lean, ty) = beside(slid(alloc, scale, minus, number_first, pointer, number), ty)?;
    let (lean, ty) = boxed_with(alloc, lean, ty)?;
    Ok(TExpr {
        line,
        ty,
        node: TNode::Lean(lean),
    })
}

/// A pointer to elements of type `t` plus or, where `minus`, minus a number (C99 6.5.6). `t` is complete.
pub fn pointer_sum(
    alloc: Global,
    s: &Structs,
    line: u32,
    t: Box<CType>,
    minus: bool,
    number_first: bool,
    pointer: TExpr,
    number: TExpr,
) -> Result<Checked, NoMemory>
    requires { IsComplete (plain_structs s.now) (plain_type t.value) }
    ensures { IfOk result (λ r. checked r ≡ pointer_sum (plain_structs s.now) line (plain_type t.value) minus number_first (typed_expr pointer) (typed_expr number)) }
{
    let lean = stepped(alloc, s, &t, minus, number_first, pointer, number)?;
    Ok(Checked::Plain(leaning(alloc, line, t, lean)?))
}
