ghost use Rattle.std.specs.Prelude.{◌≡◌, IfOk, find};
ghost use Rattle.ob_tree.specs.Words.{word_text};
ghost use Rattle.ob_lexer.specs.Scan.{keyword_of, is_word, is_qualifier, name_kind, scan_name, Scans};

use crate::bytes::Class;
use crate::taken::{Refusal, Taken};
use ob_base::{NoMemory, Text};
use ob_tree::{Keyword, TokenKind};
use std::alloc::Global;

/// The reserved words.
const WORDS: [Keyword; 37] = [
    Keyword::Break,
    Keyword::Char,
    Keyword::Continue,
    Keyword::Do,
    Keyword::Else,
    Keyword::For,
    Keyword::If,
    Keyword::Int,
    Keyword::Long,
    Keyword::Return,
    Keyword::Short,
    Keyword::Signed,
    Keyword::Sizeof,
    Keyword::Static,
    Keyword::Struct,
    Keyword::Unsigned,
    Keyword::Void,
    Keyword::While,
    Keyword::Null,
    Keyword::Eof,
    Keyword::SizeT,
    Keyword::Auto,
    Keyword::Case,
    Keyword::Default,
    Keyword::Double,
    Keyword::Enum,
    Keyword::Extern,
    Keyword::Float,
    Keyword::Goto,
    Keyword::Inline,
    Keyword::Switch,
    Keyword::Typedef,
    Keyword::Union,
    Keyword::Volatile,
    Keyword::Bool,
    Keyword::Complex,
    Keyword::Imaginary,
];

/// The bytes of a reserved word.
fn word_text(word: Keyword) -> &'static [u8]
    ensures { result.now ≡ word_text word }
{
    match word {
        Keyword::Break => b"break",
        Keyword::Char => b"char",
        Keyword::Continue => b"continue",
        Keyword::Do => b"do",
        Keyword::Else => b"else",
        Keyword::For => b"for",
        Keyword::If => b"if",
        Keyword::Int => b"int",
        Keyword::Long => b"long",
        Keyword::Return => b"return",
        Keyword::Short => b"short",
        Keyword::Signed => b"signed",
        Keyword::Sizeof => b"sizeof",
        Keyword::Static => b"static",
        Keyword::Struct => b"struct",
        Keyword::Unsigned => b"unsigned",
        Keyword::Void => b"void",
        Keyword::While => b"while",
        Keyword::Null => b"NULL",
        Keyword::Eof => b"EOF",
        Keyword::SizeT => b"size_t",
        Keyword::Auto => b"auto",
        Keyword::Case => b"case",
        Keyword::Default => b"default",
        Keyword::Double => b"double",
        Keyword::Enum => b"enum",
        Keyword::Extern => b"extern",
        Keyword::Float => b"float",
        Keyword::Goto => b"goto",
        Keyword::Inline => b"inline",
        Keyword::Switch => b"switch",
        Keyword::Typedef => b"typedef",
        Keyword::Union => b"union",
        Keyword::Volatile => b"volatile",
        Keyword::Bool => b"_Bool",
        Keyword::Complex => b"_Complex",
        Keyword::Imaginary => b"_Imaginary",
    }
}

/// The reserved word of this text.
#[tactic(auto, unfolding(crate::specs::Scan::keyword_of))]
fn keyword_of(text: &[u8]) -> Option<Keyword>
    ensures { result ≡ keyword_of text.now }
{
    first_word(&WORDS, text)
}

/// The first of these words that has this text.
fn first_word(words: &[Keyword], text: &[u8]) -> Option<Keyword>
    ensures { result ≡ find (λ word. is_word text.now word) words.now }
{
    words.iter().copied().find(|word| word_text(*word) == text)
}

/// Whether the text is a word that reads as a space.
#[tactic(auto, unfolding(crate::specs::Scan::is_qualifier))]
fn is_qualifier(text: &[u8]) -> bool
    ensures { result ≡ is_qualifier text.now }
{
    text == b"const".as_slice() || text == b"register".as_slice() || text == b"restrict".as_slice()
}

/// What a text of letters, digits and `_` is.
fn name_kind(alloc: Global, text: &[u8]) -> Result<Option<TokenKind>, NoMemory>
    ensures { IfOk result (λ kind. kind ≡ name_kind text.now) }
{
    if let Some(word) = keyword_of(text) {
        return Ok(Some(TokenKind::Word(word)));
    }
    if is_qualifier(text) {
        return Ok(None);
    }
    let mut name = Text::new(alloc);
    name.add(text)?;
    Ok(Some(TokenKind::Name(name)))
}

/// The piece that begins with a letter.
#[tactic(auto, unfolding(crate::specs::Scan::scan_name))]
pub fn scan_name(alloc: Global, rest: &[u8]) -> Result<Taken, Refusal>
    ensures { Scans (scan_name rest.now) result }
{
    let length = Class::NameByte.run(rest);
    let kind = name_kind(alloc, &rest[..length])?;
    Ok(Taken { kind, length })
}
