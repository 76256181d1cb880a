//! What an expression's type and its value are (C99 6.3.2.1).
ghost use Rattle.std.specs.Prelude.{ℕ, ◌≡◌, IfOk};
ghost use Rattle.ob_tree.specs.Types.{PlainType};
ghost use Rattle.ob_tree.specs.TypeView.{plain_type};
ghost use Rattle.ob_typed.specs.Conversions.{loaded, type_of, value, value_type, Checked as PlainChecked};
ghost use Rattle.ob_typed.specs.TypeTests.{is_unusable};
ghost use Rattle.ob_typed.specs.TypedTree.{TypedExpr, TypedLean, TypedNode};
ghost use Rattle.ob_typed.specs.TypedView.{typed_expr, typed_lean, typed_place};
ghost use Rattle.ob_conversions.specs.CheckedView.{checked};

use crate::checked::Checked;
use crate::keeping::beside;
use crate::types::{copy_type, is_unusable};
use ob_base::{NoMemory, boxed, boxed_with};
use ob_tree::CType;
use ob_typed::{TExpr, TLean, TNode, TPlace};
use std::alloc::Global;

/// The type of an expression, before an array decays.
pub fn type_of(x: &Checked) -> &CType
    ensures { plain_type result.now ≡ type_of (checked x.now) }
{
    match x {
        Checked::Place(p) => &p.ty,
        Checked::NullPointer { value, .. } => &value.ty,
        Checked::Plain(value) => &value.ty,
    }
}

/// A place of a type.
pub fn placed(line: u32, ty: CType, lean: TLean) -> Checked
    ensures { checked result ≡ PlainChecked.Place line (plain_type ty) (typed_lean lean) }
{
    Checked::Place(TPlace { line, ty, lean })
}

/// A pointer to a base and a displacement.
pub fn leaning(alloc: Global, line: u32, target: Box<CType>, lean: TLean) -> Result<TExpr, NoMemory>
    ensures { IfOk result (λ r. typed_expr r ≡ TypedExpr.Typed line (PlainType.Pointer (plain_type target.value)) (TypedNode.Lean (typed_lean lean))) }
{
    let (lean, target) = boxed_with(alloc, lean, target)?;
    Ok(TExpr {
        line,
        ty: CType::Pointer(target),
        node: TNode::Lean(lean),
    })
}

/// What is loaded from a place, of its type and at its line.
pub fn read(alloc: Global, p: TPlace) -> Result<TExpr, NoMemory>
    ensures { IfOk result (λ r. typed_expr r ≡ TypedExpr.Typed p.line (plain_type p.ty) (TypedNode.Read (typed_place p))) }
{
    let line = p.line;
    let p = boxed(alloc, p)?;
    let ty = copy_type(alloc, &p.ty)?;
    Ok(TExpr {
        line,
        ty,
        node: TNode::Read(p),
    })
}

/// The value of a place: an array is a pointer to its first element, and any other place is loaded.
pub fn loaded(alloc: Global, p: TPlace) -> Result<TExpr, NoMemory>
    ensures { IfOk result (λ r. typed_expr r ≡ loaded p.line (plain_type p.ty) (typed_lean p.lean)) }
{
    let TPlace { line, ty, lean } = p;
    match ty {
        CType::Array(element, _) => leaning(alloc, line, element, lean),
        ty => read(alloc, TPlace { line, ty, lean }),
    }
}

/// The value of an expression.
pub fn value(alloc: Global, x: Checked) -> Result<TExpr, NoMemory>
    ensures { IfOk result (λ r. typed_expr r ≡ value (checked x)) }
{
    match x {
        Checked::Place(p) => loaded(alloc, p),
        Checked::NullPointer { bare, value } => Ok(value),
        Checked::Plain(value) => Ok(value),
    }
}

/// The values of two expressions.
pub fn values(alloc: Global, x: Checked, y: Checked) -> Result<(TExpr, TExpr), NoMemory>
    ensures first { IfOk result (λ r. typed_expr r.0 ≡ value (checked x)) }
    ensures second { IfOk result (λ r. typed_expr r.1 ≡ value (checked y)) }
{
    let (x, y) = beside(value(alloc, x), y)?;
    let (y, x) = beside(value(alloc, y), x)?;
    Ok((x, y))
}

/// Whether the value of a place of type `t` may not be used. An array, whose value is a pointer, may.
fn is_unusable_loaded(t: &CType) -> bool
    ensures { (line : ℕ) (lean : TypedLean) → result ≡ is_unusable (value_type (loaded line (plain_type t.now) lean)) }
{
    match t {
        CType::Array(_, _) => false,
        t => is_unusable(t),
    }
}

/// Whether the value of an expression may not be used.
pub fn is_unusable_value(x: &Checked) -> bool
    ensures { result ≡ is_unusable (value_type (value (checked x.now))) }
{
    match x {
        Checked::Place(p) => is_unusable_loaded(&p.ty),
        Checked::NullPointer { value, .. } => is_unusable(&value.ty),
        Checked::Plain(value) => is_unusable(&value.ty),
    }
}
