ghost use Rattle.std.specs.Prelude.{◌≡◌, ◌<◌, ◌^◌};
ghost use Rattle.ob_settings.specs.Numbers.{is_digit, number_between};

fn is_digit(byte: u8) -> bool
    ensures { result ≡ is_digit byte }
{
    b'0' <= byte && byte <= b'9'
}

/// The number that a word spells in 1 to 10 decimal digits, where it lies in these bounds, both included.
pub(crate) fn number_between(least: u64, most: u64, word: &[u8]) -> Option<u64>
    requires { most < 2 ^ 32 }
    ensures { result ≡ number_between least most word.now }
{
    if word.is_empty() || word.len() > 10 {
        return None;
    }
    let mut value: u64 = 0;
    for byte in word {
        if !is_digit(*byte) {
            return None;
        }
        value = 10 * value + u64::from(*byte - b'0');
        if value > most {
            return None;
        }
    }
    if least <= value { Some(value) } else { None }
}
