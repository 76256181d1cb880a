ghost use Rattle.std.specs.Prelude.{◌≡◌, ◌+◌, IfOk};

use ob_base::NoMemory;

/// The next number, or `NoMemory` where it doesn't fit.
pub(crate) fn next(n: u32) -> Result<u32, NoMemory>
    ensures { IfOk result (λ m. m ≡ n + 1) }
{
    match n.checked_add(1) {
        Some(m) => Ok(m),
        None => Err(NoMemory),
    }
}

/// The sum of two numbers, or `NoMemory` where it doesn't fit.
pub(crate) fn add(a: u64, b: u64) -> Result<u64, NoMemory>
    ensures { IfOk result (λ n. n ≡ a + b) }
{
    match a.checked_add(b) {
        Some(n) => Ok(n),
        None => Err(NoMemory),
    }
}
