ghost use Rattle.std.specs.Prelude.{◌≡◌, ◌≤◌, ◌^◌};
ghost use Rattle.ob_words.specs.Conversion.{convert, residue, twos_complement, IsConversion};
ghost use Rattle.ob_words.specs.Words.{word, number};

use crate::ranks::{signed, width};
use crate::types::IntType;

/// `n` converted to type `t` (C99 6.3.1.3): the one number of `t` that is congruent to `n` modulo
/// 2 ^ width. `n` is any number.
pub fn convert(t: IntType, n: i128) -> i128
    ensures value { result ≡ convert t n }
    ensures meaning { IsConversion t n result }
{
    let bits = width(t);
    let low = low_bits(n, bits);
    if signed(t) {
        signed_number(low, bits)
    } else {
        low as i128
    }
}

/// The word of `n`: `n` modulo 2 ^ 64. `n` is any number.
pub fn word(n: i128) -> u64
    ensures { result ≡ word n }
{
    low_bits(n, 64)
}

/// The number of type `t` that the word `w` stands for: `w` converted to `t`.
pub fn number(t: IntType, w: u64) -> i128
    ensures { result ≡ number t w }
{
    convert(t, w as i128)
}

/// The least natural number that is congruent to `n` modulo 2 ^ `bits`.
fn low_bits(n: i128, bits: u32) -> u64
    requires { bits ≤ 64 }
    ensures { result ≡ residue (2 ^ bits) n }
{
    let modulus: i128 = 1 << bits;
    (n & (modulus - 1)) as u64
}

/// The number that has the bits `low` in two's complement of `bits` bits (C99 6.2.6.2).
fn signed_number(low: u64, bits: u32) -> i128
    requires some { 1 ≤ bits }
    requires word { bits ≤ 64 }
    ensures { result ≡ twos_complement bits low }
{
    let low = low as i128;
    if low < 1 << (bits - 1) {
        low
    } else {
        low - (1 << bits)
    }
}
