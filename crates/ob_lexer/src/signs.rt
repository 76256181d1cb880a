ghost use Rattle.std.specs.Prelude.{◌≡◌, ◌≤◌, length, find};
ghost use Rattle.ob_tree.specs.Signs.{sign_text};
ghost use Rattle.ob_lexer.specs.Scan.{sign_at, begins_sign, is_fraction, scan_sign, Scans};

use crate::bytes::Class;
use crate::taken::{Refusal, Taken};
use ob_tree::{LexKind, Sign, TokenKind};

/// The punctuators, the longer ones first.
const SIGNS: [Sign; 45] = [
    Sign::ShlAssign,
    Sign::ShrAssign,
    Sign::Arrow,
    Sign::PlusPlus,
    Sign::MinusMinus,
    Sign::Shl,
    Sign::Shr,
    Sign::Le,
    Sign::Ge,
    Sign::EqEq,
    Sign::NotEq,
    Sign::AndAnd,
    Sign::OrOr,
    Sign::StarAssign,
    Sign::SlashAssign,
    Sign::PercentAssign,
    Sign::PlusAssign,
    Sign::MinusAssign,
    Sign::AmpAssign,
    Sign::CaretAssign,
    Sign::BarAssign,
    Sign::OpenBracket,
    Sign::CloseBracket,
    Sign::OpenParen,
    Sign::CloseParen,
    Sign::OpenBrace,
    Sign::CloseBrace,
    Sign::Dot,
    Sign::Amp,
    Sign::Star,
    Sign::Plus,
    Sign::Minus,
    Sign::Tilde,
    Sign::Not,
    Sign::Slash,
    Sign::Percent,
    Sign::Lt,
    Sign::Gt,
    Sign::Caret,
    Sign::Bar,
    Sign::Question,
    Sign::Colon,
    Sign::Semi,
    Sign::Assign,
    Sign::Comma,
];

/// The bytes of a punctuator.
fn sign_text(sign: Sign) -> &'static [u8]
    ensures { result.now ≡ sign_text sign }
{
    match sign {
        Sign::OpenBracket => b"[",
        Sign::CloseBracket => b"]",
        Sign::OpenParen => b"(",
        Sign::CloseParen => b")",
        Sign::OpenBrace => b"{",
        Sign::CloseBrace => b"}",
        Sign::Dot => b".",
        Sign::Arrow => b"->",
        Sign::PlusPlus => b"++",
        Sign::MinusMinus => b"--",
        Sign::Amp => b"&",
        Sign::Star => b"*",
        Sign::Plus => b"+",
        Sign::Minus => b"-",
        Sign::Tilde => b"~",
        Sign::Not => b"!",
        Sign::Slash => b"/",
        Sign::Percent => b"%",
        Sign::Shl => b"<<",
        Sign::Shr => b">>",
        Sign::Lt => b"<",
        Sign::Gt => b">",
        Sign::Le => b"<=",
        Sign::Ge => b">=",
        Sign::EqEq => b"==",
        Sign::NotEq => b"!=",
        Sign::Caret => b"^",
        Sign::Bar => b"|",
        Sign::AndAnd => b"&&",
        Sign::OrOr => b"||",
        Sign::Question => b"?",
        Sign::Colon => b":",
        Sign::Semi => b";",
        Sign::Assign => b"=",
        Sign::StarAssign => b"*=",
        Sign::SlashAssign => b"/=",
        Sign::PercentAssign => b"%=",
        Sign::PlusAssign => b"+=",
        Sign::MinusAssign => b"-=",
        Sign::ShlAssign => b"<<=",
        Sign::ShrAssign => b">>=",
        Sign::AmpAssign => b"&=",
        Sign::CaretAssign => b"^=",
        Sign::BarAssign => b"|=",
        Sign::Comma => b",",
    }
}

/// The longest punctuator that the bytes begin with.
#[tactic(auto, unfolding(crate::specs::Scan::sign_at))]
fn sign_at(rest: &[u8]) -> Option<Sign>
    ensures { result ≡ sign_at rest.now }
{
    first_sign(&SIGNS, rest)
}

/// The first of these punctuators that the bytes begin with.
fn first_sign(signs: &[Sign], rest: &[u8]) -> Option<Sign>
    ensures { result ≡ find (λ sign. begins_sign rest.now sign) signs.now }
{
    signs.iter().copied().find(|sign| begins_sign(rest, *sign))
}

/// Whether the bytes begin with the punctuator.
fn begins_sign(rest: &[u8], sign: Sign) -> bool
    ensures { result ≡ begins_sign rest.now sign }
{
    rest.starts_with(sign_text(sign))
}

/// Whether the bytes begin with `.` and a digit.
fn is_fraction(rest: &[u8]) -> bool
    ensures { result ≡ is_fraction rest.now }
{
    match rest {
        [b'.', digit, ..] => Class::Digit.has(*digit),
        _ => false,
    }
}

/// The punctuator that begins here.
#[tactic(auto, unfolding(crate::specs::Scan::scan_sign))]
pub fn scan_sign(rest: &[u8]) -> Result<Taken, Refusal>
    ensures { Scans (scan_sign rest.now) result }
{
    if is_fraction(rest) {
        return Err(Refusal::Fault(LexKind::Stray));
    }
    match sign_at(rest) {
        None => Err(Refusal::Fault(LexKind::Stray)),
        Some(sign) => Ok(Taken {
            kind: Some(TokenKind::Sign(sign)),
            length: sign_text(sign).len(),
        }),
    }
}
