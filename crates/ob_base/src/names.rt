ghost use Rattle.std.specs.Prelude.{◌≡◌};
ghost use Rattle.std.specs.List.{list_all, list_any};
ghost use Rattle.std.specs.Str.{bytes_eq};
ghost use Rattle.ob_base.specs.Names.{begins_with, is_digit, is_letter, is_name, is_name_byte, is_reserved, is_within};

/// The words that are no names.
const RESERVED: [&[u8]; 40] = [
    b"break",
    b"char",
    b"continue",
    b"do",
    b"else",
    b"for",
    b"if",
    b"int",
    b"long",
    b"return",
    b"short",
    b"signed",
    b"sizeof",
    b"static",
    b"struct",
    b"unsigned",
    b"void",
    b"while",
    b"NULL",
    b"EOF",
    b"size_t",
    b"auto",
    b"case",
    b"default",
    b"double",
    b"enum",
    b"extern",
    b"float",
    b"goto",
    b"inline",
    b"switch",
    b"typedef",
    b"union",
    b"volatile",
    b"_Bool",
    b"_Complex",
    b"_Imaginary",
    b"const",
    b"register",
    b"restrict",
];

fn is_within(low: u8, high: u8, byte: u8) -> bool
    ensures { result ≡ is_within low high byte }
{
    low <= byte && byte <= high
}

#[tactic(auto, unfolding(crate::specs::Names::is_digit))]
fn is_digit(byte: u8) -> bool
    ensures { result ≡ is_digit byte }
{
    is_within(b'0', b'9', byte)
}

#[tactic(auto, unfolding(crate::specs::Names::is_letter))]
fn is_letter(byte: u8) -> bool
    ensures { result ≡ is_letter byte }
{
    is_within(b'a', b'z', byte) || is_within(b'A', b'Z', byte) || byte == b'_'
}

#[tactic(auto, unfolding(crate::specs::Names::is_name_byte))]
fn is_name_byte(byte: u8) -> bool
    ensures { result ≡ is_name_byte byte }
{
    is_letter(byte) || is_digit(byte)
}

/// Whether the text is one of these words.
fn is_among(words: &[&[u8]], text: &[u8]) -> bool
    ensures { result ≡ list_any (λ word. bytes_eq text.now word.now) words.now }
{
    words.iter().any(|word| text == *word)
}

fn is_reserved(text: &[u8]) -> bool
    ensures { result ≡ is_reserved text.now }
{
    is_among(&RESERVED, text)
}

fn begins_with_letter(text: &[u8]) -> bool
    ensures { result ≡ begins_with is_letter text.now }
{
    match text {
        [] => false,
        [first, ..] => is_letter(*first),
    }
}

fn has_name_bytes(text: &[u8]) -> bool
    ensures { result ≡ list_all is_name_byte text.now }
{
    text.iter().all(|byte| is_name_byte(*byte))
}

/// Whether the bytes are a name of the language (C99 6.4.2.1): a letter or `_`, then letters, digits
/// and `_`, that is no keyword and none of the words that are reserved beside them.
pub fn is_name(text: &[u8]) -> bool
    ensures { result ≡ is_name text.now }
{
    begins_with_letter(text) && has_name_bytes(text) && !is_reserved(text)
}
