ghost use Rattle.std.specs.Prelude.{◌≡◌};
ghost use Rattle.ob_tree.specs.Integers.{is_int_tail as is_int_tail_of, is_integer as is_integer_of, is_long_tail as is_long_tail_of, is_plain_integer as is_plain_integer_of, is_sign_tail as is_sign_tail_of};

use ob_tree::Keyword;

fn is_int_tail(words: &[Keyword]) -> bool
    ensures { result ≡ is_int_tail_of words.now }
{
    match words {
        [] => true,
        [Keyword::Int] => true,
        _ => false,
    }
}

fn is_long_tail(words: &[Keyword]) -> bool
    ensures { result ≡ is_long_tail_of words.now }
{
    match words {
        [Keyword::Long, rest @ ..] => is_int_tail(rest),
        _ => is_int_tail(words),
    }
}

fn is_plain_integer(words: &[Keyword]) -> bool
    ensures { result ≡ is_plain_integer_of words.now }
{
    match words {
        [Keyword::Char] | [Keyword::Int] => true,
        [Keyword::Short, rest @ ..] => is_int_tail(rest),
        [Keyword::Long, rest @ ..] => is_long_tail(rest),
        _ => false,
    }
}

fn is_sign_tail(words: &[Keyword]) -> bool
    ensures { result ≡ is_sign_tail_of words.now }
{
    match words {
        [] => true,
        _ => is_plain_integer(words),
    }
}

/// Whether the words name an integer type (C99 6.7.2).
pub fn is_integer(words: &[Keyword]) -> bool
    ensures { result ≡ is_integer_of words.now }
{
    match words {
        [Keyword::Signed | Keyword::Unsigned, rest @ ..] => is_sign_tail(rest),
        _ => is_plain_integer(words),
    }
}
