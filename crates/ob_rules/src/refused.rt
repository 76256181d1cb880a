//! Refusals, which let the operands go.
ghost use Rattle.std.specs.Prelude.{◌≡◌, Err};
ghost use Rattle.ob_tree.specs.declared.faults.TypeFault.TheVariants.{Fault};
ghost use Rattle.ob_tree.specs.declared.faults.TypeKind.TheVariants as kind;

use ob_base::let_go;
use ob_conversions::{Checked, Mark};
use ob_tree::{TypeFault, TypeKind};

/// The operator doesn't take its operands.
pub fn operand<T: Drop>(m: Mark, operands: T) -> Result<Checked, TypeFault>
    ensures { result ≡ Err (Fault kind.Operand m.at) }
{
    let_go(operands);
    Err(TypeFault::Fault(TypeKind::Operand, m.at))
}

/// What stands before or behind the operator is no place.
pub fn not_place<T: Drop>(m: Mark, operands: T) -> Result<Checked, TypeFault>
    ensures { result ≡ Err (Fault kind.NotPlace m.at) }
{
    let_go(operands);
    Err(TypeFault::Fault(TypeKind::NotPlace, m.at))
}

/// The value whose first token stands at `first` doesn't convert to the type that it is assigned to.
pub fn not_assigned<T: Drop>(first: u32, operands: T) -> Result<Checked, TypeFault>
    ensures { result ≡ Err (Fault kind.Assign first) }
{
    let_go(operands);
    Err(TypeFault::Fault(TypeKind::Assign, first))
}
