//! The type that two parts have together (C99 6.5.9, 6.5.15), and parts in it.
ghost use Rattle.std.specs.Prelude.{◌≡◌, false, IfOk, Some, None, option_map, if◌then◌else◌};
ghost use Rattle.ob_tree.specs.Types.{PlainType};
ghost use Rattle.ob_tree.specs.TypeView.{plain_type};
ghost use Rattle.ob_typed.specs.BinaryRules.{joined, two_nulls, two_pointers};
ghost use Rattle.ob_typed.specs.Conversions.{as_type, is_null, value};
ghost use Rattle.ob_typed.specs.TypedView.{typed_expr};
ghost use Rattle.ob_conversions.specs.CheckedView.{checked};

use ob_base::NoMemory;
use ob_conversions::beside;
use ob_conversions::fitting::as_type;
use ob_conversions::types::{copy_type, is_void, pointer_to, same_type};
use ob_tree::CType;
use ob_typed::TExpr;
use ob_words::common;
use std::alloc::Global;

/// The type of a pointer to a type of its own that is the same.
fn pointer_like(alloc: Global, t: &CType) -> Result<CType, NoMemory>
    ensures { IfOk result (λ p. plain_type p ≡ PlainType.Pointer (plain_type t.now)) }
{
    let t = copy_type(alloc, t)?;
    pointer_to(alloc, t)
}

/// The type of two null pointer constants, to `t` and to `u`.
fn two_nulls(alloc: Global, t: &CType, u: &CType) -> Result<CType, NoMemory>
    ensures { IfOk result (λ p. plain_type p ≡ two_nulls (plain_type t.now) (plain_type u.now)) }
{
    if is_void(t) {
        pointer_like(alloc, u)
    } else {
        pointer_like(alloc, t)
    }
}

/// The type of two pointers to one type, to `void` where one has this, or none.
fn one_type(alloc: Global, t: &CType, u: &CType) -> Result<Option<CType>, NoMemory>
    ensures { IfOk result (λ p. option_map plain_type p ≡ two_pointers false false (plain_type t.now) (plain_type u.now)) }
{
    if same_type(t, u) {
        Ok(Some(pointer_like(alloc, t)?))
    } else if is_void(t) || is_void(u) {
        Ok(Some(pointer_to(alloc, CType::Void)?))
    } else {
        Ok(None)
    }
}

/// The type of two pointers, to `t` and to `u`, each of which is or isn't a null pointer constant.
fn two_pointers(
    alloc: Global,
    null_t: bool,
    null_u: bool,
    t: &CType,
    u: &CType,
) -> Result<Option<CType>, NoMemory>
    ensures { IfOk result (λ p. option_map plain_type p ≡ two_pointers null_t null_u (plain_type t.now) (plain_type u.now)) }
{
    match (null_t, null_u) {
        (true, true) => Ok(Some(two_nulls(alloc, t, u)?)),
        (true, false) => Ok(Some(pointer_like(alloc, u)?)),
        (false, true) => Ok(Some(pointer_like(alloc, t)?)),
        (false, false) => one_type(alloc, t, u),
    }
}

/// A copy of a type, where a test holds.
fn copy_where(alloc: Global, test: bool, t: &CType) -> Result<Option<CType>, NoMemory>
    ensures { IfOk result (λ r. option_map plain_type r ≡ (if test then Some (plain_type t.now) else None)) }
{
    if test {
        Ok(Some(copy_type(alloc, t)?))
    } else {
        Ok(None)
    }
}

/// The type that parts of types `t` and `u` have together, each of which is or isn't a null pointer constant.
pub fn joined(
    alloc: Global,
    null_t: bool,
    null_u: bool,
    t: &CType,
    u: &CType,
) -> Result<Option<CType>, NoMemory>
    ensures { IfOk result (λ p. option_map plain_type p ≡ joined null_t null_u (plain_type t.now) (plain_type u.now)) }
{
    match (t, u) {
        (CType::Int(a), CType::Int(b)) => Ok(Some(CType::Int(common(*a, *b)))),
        (CType::Pointer(_), CType::Int(_)) => copy_where(alloc, null_u, t),
        (CType::Int(_), CType::Pointer(_)) => copy_where(alloc, null_t, u),
        (CType::Pointer(a), CType::Pointer(b)) => two_pointers(alloc, null_t, null_u, a, b),
        _ => Ok(None),
    }
}

/// Two values that convert to a type, in this type.
pub fn both_in(alloc: Global, x: TExpr, y: TExpr, t: CType) -> Result<(TExpr, TExpr), NoMemory>
    ensures first { IfOk result (λ r. typed_expr r.0 ≡ as_type (typed_expr x) (plain_type t)) }
    ensures second { IfOk result (λ r. typed_expr r.1 ≡ as_type (typed_expr y) (plain_type t)) }
{
    let (u, kept) = beside(copy_type(alloc, &t), (x, y))?;
    let (x, y) = kept;
    let (x, (y, u)) = beside(as_type(alloc, x, t), (y, u))?;
    let (y, x) = beside(as_type(alloc, y, u), x)?;
    Ok((x, y))
}
