//! Parts that a caller goes on with, beside a part that may have a fault.
ghost use Rattle.std.specs.Prelude.{◌≡◌, Ok, Err, IfErr, IfOk};

use ob_tree::TypeFault;

/// A part, and beside it what the caller goes on with. That is let go where the part has a fault, which is
/// given.
pub fn beside_part<T: Drop, K: Drop>(
    part: Result<T, TypeFault>,
    kept: K,
) -> Result<(T, K), TypeFault>
    ensures part { IfOk result (λ r. part ≡ Ok r.0) }
    ensures kept { IfOk result (λ r. r.1 ≡ kept) }
    ensures fault { IfErr result (λ f. part ≡ Err f) }
{
    let part = part?;
    Ok((part, kept))
}
