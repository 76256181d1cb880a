ghost use Rattle.std.specs.Prelude.{◌≡◌, ◌+◌, ◌*◌, ◌^◌, ◌<◌, ◌≤◌, length, drop, find, pos, nat_le, ◌||◌, ◌==◌};
ghost use Rattle.std.specs.Option.{option_map, SomeIff};
ghost use Rattle.ob_tree.specs.Bytes.{is_name_byte, begins_with};
ghost use Rattle.ob_tree.specs.Constants.{digit_value, base_number, number, greatest, types, type_of};
ghost use Rattle.ob_lexer.specs.Scan.{Scans, ending_at, begins_ending, is_hex_prefix, base_at, prefix_of, class_of, digits_at, behind_digits, scan_number};
ghost use Rattle.ob_lexer.specs.Endings.{row_of};

use crate::bytes::{Class, skip};
use crate::taken::{Refusal, Taken};
use ob_tree::{Base, LexKind, Suffix, TokenKind};
use ob_words::IntType;

/// The suffixes of integer constants, the longer ones first.
const ENDINGS: [Ending; 23] = [
    Ending {
        text: b"ull",
        suffix: Suffix::ULL,
    },
    Ending {
        text: b"uLL",
        suffix: Suffix::ULL,
    },
    Ending {
        text: b"Ull",
        suffix: Suffix::ULL,
    },
    Ending {
        text: b"ULL",
        suffix: Suffix::ULL,
    },
    Ending {
        text: b"llu",
        suffix: Suffix::ULL,
    },
    Ending {
        text: b"llU",
        suffix: Suffix::ULL,
    },
    Ending {
        text: b"LLu",
        suffix: Suffix::ULL,
    },
    Ending {
        text: b"LLU",
        suffix: Suffix::ULL,
    },
    Ending {
        text: b"ul",
        suffix: Suffix::UL,
    },
    Ending {
        text: b"uL",
        suffix: Suffix::UL,
    },
    Ending {
        text: b"Ul",
        suffix: Suffix::UL,
    },
    Ending {
        text: b"UL",
        suffix: Suffix::UL,
    },
    Ending {
        text: b"lu",
        suffix: Suffix::UL,
    },
    Ending {
        text: b"lU",
        suffix: Suffix::UL,
    },
    Ending {
        text: b"Lu",
        suffix: Suffix::UL,
    },
    Ending {
        text: b"LU",
        suffix: Suffix::UL,
    },
    Ending {
        text: b"ll",
        suffix: Suffix::LL,
    },
    Ending {
        text: b"LL",
        suffix: Suffix::LL,
    },
    Ending {
        text: b"u",
        suffix: Suffix::U,
    },
    Ending {
        text: b"U",
        suffix: Suffix::U,
    },
    Ending {
        text: b"l",
        suffix: Suffix::L,
    },
    Ending {
        text: b"L",
        suffix: Suffix::L,
    },
    Ending {
        text: b"",
        suffix: Suffix::Plain,
    },
];

/// A suffix as it is written.
#[derive(Clone, Copy)]
struct Ending {
    text: &'static [u8],
    suffix: Suffix,
}

/// The longest suffix that the bytes begin with.
#[tactic(auto, unfolding(crate::specs::Scan::ending_at))]
fn ending_at(rest: &[u8]) -> Option<Ending>
    ensures { option_map row_of result ≡ ending_at rest.now }
{
    first_ending(&ENDINGS, rest)
}

fn first_ending(endings: &[Ending], rest: &[u8]) -> Option<Ending>
    ensures { result ≡ find (λ ending. begins_ending rest.now (row_of ending)) endings.now }
{
    endings
        .iter()
        .copied()
        .find(|ending| begins_ending(rest, ending))
}

fn begins_ending(rest: &[u8], ending: &Ending) -> bool
    ensures { result ≡ begins_ending rest.now (row_of ending.now) }
{
    rest.starts_with(ending.text)
}

/// Whether the bytes begin with `0x` or `0X` and a hexadecimal digit.
fn is_hex_prefix(rest: &[u8]) -> bool
    ensures { result ≡ is_hex_prefix rest.now }
{
    match rest {
        [zero, x, digit, ..] => {
            *zero == b'0' && (*x == b'x' || *x == b'X') && Class::HexDigit.has(*digit)
        }
        _ => false,
    }
}

/// The base of the constant that begins here.
#[tactic(auto, unfolding(crate::specs::Scan::base_at))]
fn base_at(rest: &[u8]) -> Base
    ensures base { result ≡ base_at rest.now }
    ensures prefix { prefix_of result ≤ length rest.now }
{
    if is_hex_prefix(rest) {
        return Base::Hexadecimal;
    }
    match rest {
        [b'0', ..] => Base::Octal,
        _ => Base::Decimal,
    }
}

/// How many bytes stand before the digits.
fn prefix_of(base: Base) -> usize
    ensures { result ≡ prefix_of base }
{
    match base {
        Base::Hexadecimal => 2,
        Base::Decimal | Base::Octal => 0,
    }
}

/// The class of the digits.
fn class_of(base: Base) -> Class
    ensures { result ≡ class_of base }
{
    match base {
        Base::Decimal => Class::Digit,
        Base::Octal => Class::OctalDigit,
        Base::Hexadecimal => Class::HexDigit,
    }
}

/// The integer constant that begins here, without its suffix: its digits and what stands behind them.
#[derive(Clone, Copy)]
struct Digits<'a> {
    base: Base,
    digits: &'a [u8],
    behind: &'a [u8],
}

#[tactic(auto, unfolding(crate::specs::Scan::digits_at))]
fn digits_at(rest: &[u8]) -> Digits<'_>
    ensures base { result.base ≡ base_at rest.now }
    ensures digits { result.digits.now ≡ digits_at rest.now }
    ensures behind { result.behind.now ≡ behind_digits rest.now }
    ensures whole { prefix_of result.base + length result.digits.now + length result.behind.now ≡ length rest.now }
{
    let base = base_at(rest);
    let tail = &rest[prefix_of(base)..];
    let (digits, behind) = tail.split_at(class_of(base).run(tail));
    Digits {
        base,
        digits,
        behind,
    }
}

/// What a digit counts.
fn digit_value(digit: u8) -> u64
    ensures { result ≡ digit_value digit }
{
    if digit <= b'9' {
        u64::from(digit.saturating_sub(48))
    } else if digit <= b'F' {
        u64::from(digit.saturating_sub(55))
    } else {
        u64::from(digit.saturating_sub(87))
    }
}

/// One more digit behind those of `value`, or none where the number is 2^64 or over.
fn with_digit(value: u64, base: u64, digit: u64) -> Option<u64>
    ensures { SomeIff result (value * base + digit < 2 ^ 64) (value * base + digit) }
{
    value.checked_mul(base)?.checked_add(digit)
}

fn base_number(base: Base) -> u64
    ensures { result ≡ base_number base }
{
    match base {
        Base::Decimal => 10,
        Base::Octal => 8,
        Base::Hexadecimal => 16,
    }
}

/// The number that digits spell, or none where it is 2^64 or over.
pub fn number(base: Base, digits: &[u8]) -> Option<u64>
    ensures { SomeIff result (number (base_number base) digits.now < 2 ^ 64) (number (base_number base) digits.now) }
{
    let base = base_number(base);
    let mut value = 0;
    for digit in digits {
        match with_digit(value, base, digit_value(*digit)) {
            None => return None,
            Some(more) => value = more,
        }
    }
    Some(value)
}

/// The greatest number of a type.
fn greatest(ty: IntType) -> u64
    ensures { result ≡ greatest ty }
{
    match ty {
        IntType::Int => 2_147_483_647,
        IntType::UInt => 4_294_967_295,
        IntType::Long | IntType::LLong => 9_223_372_036_854_775_807,
        IntType::ULong | IntType::ULLong => 18_446_744_073_709_551_615,
        _ => 0,
    }
}

/// The types that a constant can have, in the order in which they are tried.
fn types(base: Base, suffix: Suffix) -> &'static [IntType]
    ensures { result.now ≡ types base suffix }
{
    use IntType::{Int, LLong, Long, UInt, ULLong, ULong};
    match (base, suffix) {
        (Base::Decimal, Suffix::Plain) => &[Int, Long, LLong],
        (Base::Decimal, Suffix::L) => &[Long, LLong],
        (Base::Decimal, Suffix::LL) => &[LLong],
        (_, Suffix::Plain) => &[Int, UInt, Long, ULong, LLong, ULLong],
        (_, Suffix::U) => &[UInt, ULong, ULLong],
        (_, Suffix::L) => &[Long, ULong, LLong, ULLong],
        (_, Suffix::UL) => &[ULong, ULLong],
        (_, Suffix::LL) => &[LLong, ULLong],
        (_, Suffix::ULL) => &[ULLong],
    }
}

/// The first of these types that can represent the value.
fn first_type(types: &[IntType], value: u64) -> Option<IntType>
    ensures { result ≡ find (λ t. nat_le value (greatest t)) types.now }
{
    types.iter().copied().find(|ty| value <= greatest(*ty))
}

/// The value of the digits and the type of a constant of them, or none where no type of its list can
/// represent it.
fn typed(base: Base, suffix: Suffix, digits: &[u8]) -> Option<(u64, IntType)>
    ensures { result ≡ option_map (λ t. (number (base_number base) digits.now, t)) (type_of base suffix (number (base_number base) digits.now)) }
{
    let value = number(base, digits)?;
    let ty = first_type(types(base, suffix), value)?;
    Some((value, ty))
}

/// The piece that begins with a digit.
#[tactic(auto, unfolding(crate::specs::Scan::scan_number))]
pub fn scan_number(rest: &[u8]) -> Result<Taken, Refusal>
    ensures { Scans (scan_number rest.now) result }
{
    let constant = digits_at(rest);
    let Some(ending) = ending_at(constant.behind) else {
        return Err(Refusal::Fault(LexKind::Stray));
    };
    let Some((value, ty)) = typed(constant.base, ending.suffix, constant.digits) else {
        return Err(Refusal::Fault(LexKind::Wide));
    };
    if continues(skip(constant.behind, ending.text.len())) {
        return Err(Refusal::Fault(LexKind::Stray));
    }
    Ok(Taken {
        kind: Some(number_token(value, ty)),
        length: prefix_of(constant.base) + constant.digits.len() + ending.text.len(),
    })
}

fn number_token(value: u64, ty: IntType) -> TokenKind
    ensures { result ≡ TokenKind.Number (pos value) ty }
{
    TokenKind::Number {
        value: i128::from(value),
        ty,
    }
}

/// Whether a letter, digit, `_` or `.` stands first.
fn continues(after: &[u8]) -> bool
    ensures { result ≡ begins_with (λ c. is_name_byte c || (c == 46)) after.now }
{
    match after {
        [first, ..] => Class::NameByte.has(*first) || *first == b'.',
        [] => false,
    }
}
