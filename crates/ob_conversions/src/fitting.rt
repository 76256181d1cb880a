//! Which values convert to which types, and what they are in those (C99 6.5.16.1).
ghost use Rattle.std.specs.Prelude.{ℕ, ◌≡◌, false, IfOk};
ghost use Rattle.ob_tree.specs.Types.{PlainType};
ghost use Rattle.ob_tree.specs.TypeView.{plain_type};
ghost use Rattle.ob_typed.specs.Conversions.{as_type, fits, fits_type, loaded, value, value_type};
ghost use Rattle.ob_typed.specs.TypedTree.{TypedExpr, TypedLean, TypedNode};
ghost use Rattle.ob_typed.specs.TypedView.{typed_expr, typed_node};
ghost use Rattle.ob_conversions.specs.CheckedView.{checked};

use crate::checked::Checked;
use crate::keeping::beside;
use crate::nulls::is_null;
use crate::numbers::as_int;
use crate::types::{copy_type, is_void, same_type};
use crate::values::value;
use ob_base::{NoMemory, let_go};
use ob_tree::CType;
use ob_typed::{TExpr, TNode};
use std::alloc::Global;

/// Whether a pointer to type `t`, which may be a null pointer constant, converts to type `u`.
fn fits_pointer(null: bool, t: &CType, u: &CType) -> bool
    ensures { result ≡ fits_type null (PlainType.Pointer (plain_type t.now)) (plain_type u.now) }
{
    match u {
        CType::Pointer(u) => null || same_type(t, u) || is_void(t) || is_void(u),
        _ => false,
    }
}

/// Whether a value of type `t`, which may be a null pointer constant, converts to type `u`.
pub fn fits_type(null: bool, t: &CType, u: &CType) -> bool
    ensures { result ≡ fits_type null (plain_type t.now) (plain_type u.now) }
{
    match (t, u) {
        (CType::Int(_), CType::Int(_)) => true,
        (CType::Int(_), CType::Pointer(_)) => null,
        (CType::Pointer(t), u) => fits_pointer(null, t, u),
        _ => false,
    }
}

/// Whether the value of a place of type `t` converts to type `u`.
fn fits_loaded(t: &CType, u: &CType) -> bool
    ensures { (line : ℕ) (lean : TypedLean) → result ≡ fits_type false (value_type (loaded line (plain_type t.now) lean)) (plain_type u.now) }
{
    match t {
        CType::Array(element, _) => fits_pointer(false, element, u),
        _ => fits_type(false, t, u),
    }
}

/// Whether the value of an expression converts to a type (C99 6.5.16.1).
pub fn fits(x: &Checked, u: &CType) -> bool
    ensures { result ≡ fits (checked x.now) (plain_type u.now) }
{
    match x {
        Checked::Place(p) => fits_loaded(&p.ty, u),
        Checked::NullPointer { value, .. } => fits_type(true, &value.ty, u),
        Checked::Plain(value) => fits_type(is_null(x), &value.ty, u),
    }
}

/// A value that changes its type alone.
fn with_type(e: TExpr, ty: CType) -> TExpr
    ensures { typed_expr result ≡ TypedExpr.Typed e.line (plain_type ty) (typed_node e.node) }
{
    let TExpr {
        line,
        ty: was,
        node,
    } = e;
    let_go(was);
    TExpr { line, ty, node }
}

/// The null pointer of a type.
pub fn null(line: u32, ty: CType) -> TExpr
    ensures { typed_expr result ≡ TypedExpr.Typed line (plain_type ty) TypedNode.Null }
{
    TExpr {
        line,
        ty,
        node: TNode::Null,
    }
}

/// A value that converts to the type of a pointer to `target`, in this type.
fn as_pointer(e: TExpr, target: Box<CType>) -> TExpr
    ensures { typed_expr result ≡ as_type (typed_expr e) (PlainType.Pointer (plain_type target.value)) }
{
    match e.ty {
        CType::Int(_) => null_for(e, target),
        _ => with_type(e, CType::Pointer(target)),
    }
}

/// The null pointer in place of a number.
fn null_for(e: TExpr, target: Box<CType>) -> TExpr
    ensures { typed_expr result ≡ TypedExpr.Typed e.line (PlainType.Pointer (plain_type target.value)) TypedNode.Null }
{
    let line = e.line;
    let_go(e);
    null(line, CType::Pointer(target))
}

/// A value that converts to a type, in this type. A null pointer constant that is a number is the null pointer;
/// a pointer changes its type alone.
pub fn as_type(alloc: Global, e: TExpr, t: CType) -> Result<TExpr, NoMemory>
    ensures { IfOk result (λ r. typed_expr r ≡ as_type (typed_expr e) (plain_type t)) }
{
    match t {
        CType::Int(kind) => as_int(alloc, kind, e),
        CType::Pointer(target) => Ok(as_pointer(e, target)),
        t => Ok(with_type(e, t)),
    }
}

/// The value of an expression that converts to a type, in a type of its own that is the same.
pub fn value_as_type(alloc: Global, x: Checked, t: &CType) -> Result<TExpr, NoMemory>
    ensures { IfOk result (λ r. typed_expr r ≡ as_type (value (checked x)) (plain_type t.now)) }
{
    let (x, t) = beside(value(alloc, x), t)?;
    let (t, x) = beside(copy_type(alloc, t), x)?;
    as_type(alloc, x, t)
}
