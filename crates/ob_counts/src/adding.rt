ghost use Rattle.std.specs.Prelude.{◌≡◌, ◌+◌, ◌*◌, OnOk, IfOk};

use ob_base::NoMemory;

/// Adds `n` to `total`, or answers `NoMemory` where the sum doesn't fit.
pub(crate) fn add(total: &mut u64, n: u64) -> Result<(), NoMemory>
    ensures { OnOk result (total.new ≡ total.old + n) }
{
    match total.checked_add(n) {
        Some(sum) => {
            *total = sum;
            Ok(())
        }
        None => Err(NoMemory),
    }
}

/// The product of two numbers, or `NoMemory` where it doesn't fit.
pub(crate) fn product(a: u64, b: u64) -> Result<u64, NoMemory>
    ensures { IfOk result (λ n. n ≡ a * b) }
{
    match a.checked_mul(b) {
        Some(n) => Ok(n),
        None => Err(NoMemory),
    }
}
