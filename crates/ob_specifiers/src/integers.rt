//! The integer types by the words that name them (C99 6.7.2).
ghost use Rattle.std.specs.Prelude.{◌≡◌};
ghost use Rattle.ob_words.specs.Types.{unsigned_of};
ghost use Rattle.ob_typed.specs.Specifiers.{int_words, plain_words, signed_words};

use ob_tree::Keyword;
use ob_words::IntType;

/// The integer type that words name, of which `signed` and `unsigned` may stand first.
pub fn int_words(words: &[Keyword]) -> IntType
    ensures { result ≡ int_words words.now }
{
    match words {
        [Keyword::Signed, rest @ ..] => signed_words(rest),
        [Keyword::Unsigned, rest @ ..] => unsigned_of(plain_words(rest)),
        words => plain_words(words),
    }
}

fn signed_words(words: &[Keyword]) -> IntType
    ensures { result ≡ signed_words words.now }
{
    match words {
        [Keyword::Char, ..] => IntType::SChar,
        words => plain_words(words),
    }
}

fn plain_words(words: &[Keyword]) -> IntType
    ensures { result ≡ plain_words words.now }
{
    match words {
        [Keyword::Char, ..] => IntType::Char,
        [Keyword::Short, ..] => IntType::Short,
        [Keyword::Long, Keyword::Long, ..] => IntType::LLong,
        [Keyword::Long, ..] => IntType::Long,
        _ => IntType::Int,
    }
}

/// The unsigned type of an integer type's rank (C99 6.3.1.1).
fn unsigned_of(kind: IntType) -> IntType
    ensures { result ≡ unsigned_of kind }
{
    match kind {
        IntType::Char | IntType::SChar | IntType::UChar => IntType::UChar,
        IntType::Short | IntType::UShort => IntType::UShort,
        IntType::Int | IntType::UInt => IntType::UInt,
        IntType::Long | IntType::ULong => IntType::ULong,
        IntType::LLong | IntType::ULLong => IntType::ULLong,
    }
}
