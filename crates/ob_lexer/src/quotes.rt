ghost use Rattle.std.specs.Prelude.{◌≡◌, ◌+◌, ◌<◌, ◌≤◌, [], ◌∷◌, length, drop, IfOk, IfSome, false};
ghost use Rattle.std.specs.List.{list_any};
ghost use Rattle.ob_tree.specs.Constants.{number, base_number};
ghost use Rattle.ob_tree.specs.Characters.{Character, numeric, escape_at, characters, simple_escape, byte_of, value_of, char_value};
ghost use Rattle.ob_lexer.specs.Scan.{Scans, enclosed_from, spelled_of, first_character, is_wide, bytes_from, only_value, quote_fault, scan_string, scan_character};

use crate::bytes::{Class, skip};
use crate::numbers::number;
use crate::taken::{Refusal, Taken};
use ob_base::{NoMemory, Text};
use ob_tree::{Base, LexKind, TokenKind};
use ob_words::IntType;
use std::alloc::Global;

/// A character between quotes: a byte that stands for itself, an escape sequence of a value up to 255,
/// one of a greater value, or a backslash that begins no escape sequence.
#[derive(Clone, Copy)]
enum Spelled {
    Itself(u8),
    Escape(u8),
    Wide,
    Unknown,
}

/// How many bytes stand before the quote that ends a literal, or none where its line ends first.
fn enclosed(quote: u8, rest: &[u8]) -> Option<usize>
    ensures enclosed { result ≡ enclosed_from 0 quote false rest.now }
    ensures within { IfSome result (λ n. n < length rest.now) }
{
    let mut escaped = false;
    for (i, byte) in rest.iter().enumerate() {
        if *byte == b'\n' {
            return None;
        }
        if !escaped && *byte == quote {
            return Some(i);
        }
        escaped = !escaped && *byte == b'\\';
    }
    None
}

/// A numeric escape sequence with `sign` bytes before its digits, and how many bytes it has.
fn numeric(base: Base, sign: usize, digits: &[u8]) -> (Spelled, usize)
    requires { sign ≤ 1 }
    ensures character { result.0 ≡ spelled_of (numeric (base_number base) sign digits.now).0 }
    ensures length { result.1 ≡ (numeric (base_number base) sign digits.now).1 }
{
    if digits.is_empty() {
        return (Spelled::Unknown, 1);
    }
    (valued(base, digits), sign + digits.len())
}

/// The escape sequence with the value of these digits.
fn valued(base: Base, digits: &[u8]) -> Spelled
    ensures { result ≡ spelled_of (Character.Escape (number (base_number base) digits.now)) }
{
    match number(base, digits) {
        None => Spelled::Wide,
        Some(value) => {
            if value <= 255 {
                Spelled::Escape(value as u8)
            } else {
                Spelled::Wide
            }
        }
    }
}

/// A simple escape sequence, by the byte behind the backslash.
fn simple_escape(byte: u8) -> Option<u8>
    ensures { result ≡ simple_escape byte }
{
    let value = match byte {
        b'n' => 10,
        b't' => 9,
        b'r' => 13,
        b'a' => 7,
        b'b' => 8,
        b'f' => 12,
        b'v' => 11,
        b'\\' => b'\\',
        b'\'' => b'\'',
        b'"' => b'"',
        b'?' => b'?',
        _ => return None,
    };
    Some(value)
}

/// The escape sequence whose backslash stands before these bytes, and how many of them it has.
fn escape_at(rest: &[u8]) -> (Spelled, usize)
    ensures character { result.0 ≡ spelled_of (escape_at rest.now).0 }
    ensures length { result.1 ≡ (escape_at rest.now).1 }
{
    let Some(first) = rest.first() else {
        return (Spelled::Unknown, 1);
    };
    if Class::OctalDigit.has(*first) {
        let few = &rest[..rest.len().min(3)];
        return numeric(Base::Octal, 0, &few[..Class::OctalDigit.run(few)]);
    }
    if *first == b'x' {
        let tail = &rest[1..];
        return numeric(Base::Hexadecimal, 1, &tail[..Class::HexDigit.run(tail)]);
    }
    match simple_escape(*first) {
        Some(value) => (Spelled::Escape(value), 1),
        None => (Spelled::Unknown, 1),
    }
}

/// The first character of a body, and what stands behind it.
#[tactic(auto, unfolding(crate::specs::Scan::first_character), using(crate::proofs::QuoteLemmas::character_steps))]
fn first_character(body: &[u8]) -> (Spelled, &[u8])
    requires { 0 < length body.now }
    ensures character { result.0 ≡ spelled_of (first_character body.now).0 }
    ensures others { characters body.now ≡ (first_character body.now).0 ∷ characters result.1.now }
    ensures shorter { length result.1.now < length body.now }
{
    let first = body[0];
    let tail = skip(body, 1);
    if first == b'\\' {
        let (character, length) = escape_at(tail);
        return (character, skip(tail, length));
    }
    (Spelled::Itself(first), tail)
}

/// Whether a numeric escape sequence is over 255.
fn has_wide(body: &[u8]) -> bool
    ensures { result ≡ list_any is_wide (characters body.now) }
{
    let mut rest = body;
    while !rest.is_empty() {
        let (character, behind) = first_character(rest);
        if is_wide(character) {
            return true;
        }
        rest = behind;
    }
    false
}

fn is_wide(character: Spelled) -> bool
    ensures { (ch : Character) → character ≡ spelled_of ch → result ≡ is_wide ch }
{
    match character {
        Spelled::Wide => true,
        Spelled::Itself(_) | Spelled::Escape(_) | Spelled::Unknown => false,
    }
}

/// The bytes that a string's characters stand for, or none where one of them stands for no byte.
fn bytes_of(alloc: Global, body: &[u8]) -> Result<Option<Text>, NoMemory>
    ensures { IfOk result (λ bytes. bytes ≡ bytes_from [] (characters body.now)) }
{
    let mut bytes = Text::new(alloc);
    let mut rest = body;
    while !rest.is_empty() {
        let (character, behind) = first_character(rest);
        match byte_of(character) {
            None => return Ok(None),
            Some(byte) => bytes.push(byte)?,
        }
        rest = behind;
    }
    Ok(Some(bytes))
}

fn byte_of(character: Spelled) -> Option<u8>
    ensures { (ch : Character) → character ≡ spelled_of ch → result ≡ byte_of ch }
{
    match character {
        Spelled::Itself(byte) | Spelled::Escape(byte) => Some(byte),
        Spelled::Wide | Spelled::Unknown => None,
    }
}

/// The value of the one character of a character constant.
#[tactic(auto, using(crate::proofs::QuoteLemmas::only_steps))]
fn only_value(body: &[u8]) -> Option<i128>
    ensures { result ≡ only_value (characters body.now) }
{
    if body.is_empty() {
        return None;
    }
    let (character, behind) = first_character(body);
    if !behind.is_empty() {
        return None;
    }
    value_of(character)
}

fn value_of(character: Spelled) -> Option<i128>
    ensures { (ch : Character) → character ≡ spelled_of ch → result ≡ value_of ch }
{
    match character {
        Spelled::Itself(byte) => {
            if byte < 128 {
                Some(i128::from(byte))
            } else {
                None
            }
        }
        Spelled::Escape(byte) => Some(char_value(byte)),
        Spelled::Wide | Spelled::Unknown => None,
    }
}

/// The value that a `char` of this byte has.
fn char_value(byte: u8) -> i128
    ensures { result ≡ char_value byte }
{
    if byte < 128 {
        i128::from(byte)
    } else {
        i128::from(byte) - 256
    }
}

/// Why a literal with this body can't be taken.
fn quote_fault(body: &[u8]) -> Refusal
    ensures { result ≡ Refusal.Fault (quote_fault (characters body.now)) }
{
    if has_wide(body) {
        Refusal::Fault(LexKind::Wide)
    } else {
        Refusal::Fault(LexKind::Stray)
    }
}

/// The string literal whose first quote stands before these bytes.
#[tactic(auto, unfolding(crate::specs::Scan::scan_string))]
pub fn scan_string(alloc: Global, rest: &[u8]) -> Result<Taken, Refusal>
    ensures { Scans (scan_string rest.now) result }
{
    let Some(n) = enclosed(b'"', rest) else {
        return Err(Refusal::Fault(LexKind::Unclosed));
    };
    let body = &rest[..n];
    match bytes_of(alloc, body)? {
        None => Err(quote_fault(body)),
        Some(bytes) => Ok(Taken {
            kind: Some(TokenKind::Str(bytes)),
            length: n + 2,
        }),
    }
}

/// The character constant whose first quote stands before these bytes.
#[tactic(auto, unfolding(crate::specs::Scan::scan_character))]
pub fn scan_character(rest: &[u8]) -> Result<Taken, Refusal>
    ensures { Scans (scan_character rest.now) result }
{
    let Some(n) = enclosed(b'\'', rest) else {
        return Err(Refusal::Fault(LexKind::Unclosed));
    };
    let body = &rest[..n];
    match only_value(body) {
        None => Err(quote_fault(body)),
        Some(value) => Ok(Taken {
            kind: Some(TokenKind::Number {
                value,
                ty: IntType::Int,
            }),
            length: n + 2,
        }),
    }
}
