//! Faults that let go what was made so far.
ghost use Rattle.std.specs.Prelude.{◌≡◌, Err};
ghost use Rattle.ob_tree.specs.declared.faults.TypeFault.TheVariants.{Fault};

use ob_base::let_go;
use ob_tree::{TypeFault, TypeKind};

/// A rule is broken, at the place of a token. What was made so far is let go.
pub fn refused<T: Drop, R: Drop>(kind: TypeKind, place: u32, made: T) -> Result<R, TypeFault>
    ensures { result ≡ Err (Fault kind place) }
{
    let_go(made);
    Err(TypeFault::Fault(kind, place))
}
