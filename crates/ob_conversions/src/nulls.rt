//! Null pointer constants (C99 6.3.2.3).
ghost use Rattle.std.specs.Prelude.{◌≡◌};
ghost use Rattle.ob_typed.specs.Conversions.{is_null, is_null_number};
ghost use Rattle.ob_typed.specs.ConstantValues.{constant, is_zero};
ghost use Rattle.ob_typed.specs.TypedView.{typed_expr};
ghost use Rattle.ob_typed.specs.UnaryRules.{is_bare_null};
ghost use Rattle.ob_conversions.specs.CheckedView.{checked};

use crate::checked::Checked;
use ob_consts::constant;
use ob_tree::CType;
use ob_typed::TExpr;

/// Whether an expression is an integer constant expression of value 0.
fn is_zero_constant(e: &TExpr) -> bool
    ensures { result ≡ is_zero (constant (typed_expr e.now)) }
{
    match constant(e) {
        Ok(z) => z == 0,
        Err(_) => false,
    }
}

/// Whether a value is a number that is a null pointer constant: an integer constant expression of value 0.
pub fn is_null_number(e: &TExpr) -> bool
    ensures { result ≡ is_null_number (typed_expr e.now) }
{
    match &e.ty {
        CType::Int(_) => is_zero_constant(e),
        _ => false,
    }
}

/// Whether an expression is a null pointer constant.
pub fn is_null(x: &Checked) -> bool
    ensures { result ≡ is_null (checked x.now) }
{
    match x {
        Checked::Place(_) => false,
        Checked::NullPointer { .. } => true,
        Checked::Plain(value) => is_null_number(value),
    }
}

/// Whether an expression is a null pointer constant that isn't cast yet.
pub fn is_bare_null(x: &Checked) -> bool
    ensures { result ≡ is_bare_null (checked x.now) }
{
    match x {
        Checked::Place(_) => false,
        Checked::NullPointer { bare, .. } => *bare,
        Checked::Plain(value) => is_null_number(value),
    }
}
