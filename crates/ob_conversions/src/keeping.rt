//! Values that a caller goes on with, beside what may have found too little memory.
ghost use Rattle.std.specs.Prelude.{◌≡◌, Ok, IfOk};

use ob_base::NoMemory;

/// What was made, and beside it a value that the caller goes on with. That is let go where there was too
/// little memory.
pub fn beside<T: Drop, K: Drop>(made: Result<T, NoMemory>, kept: K) -> Result<(T, K), NoMemory>
    ensures made { IfOk result (λ r. made ≡ Ok r.0) }
    ensures kept { IfOk result (λ r. r.1 ≡ kept) }
{
    let made = made?;
    Ok((made, kept))
}
