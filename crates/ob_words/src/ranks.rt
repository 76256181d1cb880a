ghost use Rattle.std.specs.Prelude.{◌≡◌, IsTrue, IsFalse};
ghost use Rattle.ob_words.specs.Types.{width, signed, rank, unsigned_of, promote, common, mixed};

use crate::types::IntType;

/// How many bits a number of type `t` has: 8, 16, 32 or 64.
pub fn width(t: IntType) -> u32
    ensures { result ≡ width t }
{
    match t {
        IntType::Char | IntType::SChar | IntType::UChar => 8,
        IntType::Short | IntType::UShort => 16,
        IntType::Int | IntType::UInt => 32,
        IntType::Long | IntType::ULong | IntType::LLong | IntType::ULLong => 64,
    }
}

/// Whether type `t` has negative numbers (C99 6.2.5). `char` has.
pub fn signed(t: IntType) -> bool
    ensures { result ≡ signed t }
{
    match t {
        IntType::Char | IntType::SChar | IntType::Short | IntType::Int => true,
        IntType::Long | IntType::LLong => true,
        IntType::UChar | IntType::UShort | IntType::UInt => false,
        IntType::ULong | IntType::ULLong => false,
    }
}

/// The integer conversion rank (C99 6.3.1.1), of which only the order matters.
fn rank(t: IntType) -> u32
    ensures { result ≡ rank t }
{
    match t {
        IntType::Char | IntType::SChar | IntType::UChar => 1,
        IntType::Short | IntType::UShort => 2,
        IntType::Int | IntType::UInt => 3,
        IntType::Long | IntType::ULong => 4,
        IntType::LLong | IntType::ULLong => 5,
    }
}

/// The unsigned type of the same rank (C99 6.2.5).
fn unsigned_of(t: IntType) -> IntType
    ensures { result ≡ unsigned_of t }
{
    match t {
        IntType::Char | IntType::SChar | IntType::UChar => IntType::UChar,
        IntType::Short | IntType::UShort => IntType::UShort,
        IntType::Int | IntType::UInt => IntType::UInt,
        IntType::Long | IntType::ULong => IntType::ULong,
        IntType::LLong | IntType::ULLong => IntType::ULLong,
    }
}

/// The type that an operand of type `t` is promoted to (C99 6.3.1.1): `int` for each type below 32
/// bits, whose numbers an `int` all has; each other type stays.
pub fn promote(t: IntType) -> IntType
    ensures { result ≡ promote t }
{
    match t {
        IntType::Char | IntType::SChar | IntType::UChar => IntType::Int,
        IntType::Short | IntType::UShort => IntType::Int,
        other => other,
    }
}

/// The common type of an unsigned type and a signed one (C99 6.3.1.8).
fn mixed(u: IntType, s: IntType) -> IntType
    requires unsigned { IsFalse (signed u) }
    requires signed { IsTrue (signed s) }
    ensures { result ≡ mixed u s }
{
    if rank(s) <= rank(u) {
        u
    } else if width(u) < width(s) {
        s
    } else {
        unsigned_of(s)
    }
}

/// The common type of operands of types `a` and `b`, both promoted first: the usual arithmetic
/// conversions (C99 6.3.1.8).
pub fn common(a: IntType, b: IntType) -> IntType
    ensures { result ≡ common a b }
{
    let x = promote(a);
    let y = promote(b);
    match (signed(x), signed(y)) {
        (true, false) => mixed(y, x),
        (false, true) => mixed(x, y),
        _ => { if rank(y) <= rank(x) { x } else { y } }
    }
}
