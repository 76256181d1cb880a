//! What holds of the definitions alone. Each law is the contract of a function that does nothing.

ghost use Rattle.std.specs.Prelude.{IfSome};
ghost use Rattle.ob_typed.specs.ConstantValues.{constant};
ghost use Rattle.ob_typed.specs.Conversions.{value_type};
ghost use Rattle.ob_typed.specs.TypedTree.{TypedExpr};
ghost use Rattle.ob_typed.specs.WellTyped.{Around, IsNumberOf, IsWellTyped};

use ob_words::laws::{law_convert, law_result};

/// The value of a constant expression that is well typed is a number of its type.
pub fn law_constant_number()
    ensures { (c : Around) (e : TypedExpr) → IsWellTyped c e → IfSome (constant e) (IsNumberOf (value_type e)) }
{
    law_convert();
    law_result();
}
