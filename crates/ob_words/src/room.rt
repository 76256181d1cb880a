ghost use Rattle.std.specs.Prelude.{◌≡◌, ◌^◌, ◌<◌};
ghost use Rattle.ob_words.specs.Words.{block, IsBlock};

/// The bytes that an object of `n` bytes takes: the least multiple of 16 that is at least `n + 1`,
/// so that the address one past its end never is another object's address.
pub fn block(n: u64) -> u64
    requires { n < 2 ^ 63 }
    ensures value { result ≡ block n }
    ensures meaning { IsBlock n result }
{
    (n / 16 + 1) * 16
}
