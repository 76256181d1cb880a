ghost use Rattle.std.specs.Prelude.{◌≡◌, ◌+◌, IfOk};

use ob_base::NoMemory;

/// The sum of two numbers, or `NoMemory` where it doesn't fit.
pub(crate) fn add(a: u32, b: u32) -> Result<u32, NoMemory>
    ensures { IfOk result (λ n. n ≡ a + b) }
{
    match a.checked_add(b) {
        Some(n) => Ok(n),
        None => Err(NoMemory),
    }
}
