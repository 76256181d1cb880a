ghost use Rattle.std.specs.Prelude.{◌≡◌, ◌≤◌, length, take, drop};
ghost use Rattle.std.specs.List.{prefix_len};
ghost use Rattle.ob_tree.specs.Bytes.{is_within, is_letter, is_name_byte, is_digit, is_octal_digit, is_hex_digit, is_white, is_blank};
ghost use Rattle.ob_lexer.specs.Scan.{has};

/// A class of bytes.
#[derive(Clone, Copy, Debug, PartialEq, Eq)]
pub enum Class {
    Letter,
    NameByte,
    Digit,
    OctalDigit,
    HexDigit,
    White,
    Blank,
    OnLine,
}

impl Class {
    /// Whether a byte is of this class.
    pub fn has(self, byte: u8) -> bool
        ensures { result ≡ has self byte }
    {
        match self {
            Class::Letter => is_letter(byte),
            Class::NameByte => is_name_byte(byte),
            Class::Digit => is_digit(byte),
            Class::OctalDigit => is_octal_digit(byte),
            Class::HexDigit => is_hex_digit(byte),
            Class::White => is_white(byte),
            Class::Blank => is_blank(byte),
            Class::OnLine => byte != b'\n',
        }
    }

    /// How many bytes at the begin are of this class.
    pub fn run(self, bytes: &[u8]) -> usize
        ensures run { result ≡ prefix_len (has self) bytes.now }
        ensures within { result ≤ length bytes.now }
    {
        for (i, byte) in bytes.iter().enumerate() {
            if !self.has(*byte) {
                return i;
            }
        }
        bytes.len()
    }
}

/// What is left without the first `n` bytes, or nothing where there are fewer.
pub fn skip(bytes: &[u8], n: usize) -> &[u8]
    ensures { result.now ≡ drop n bytes.now }
{
    if n <= bytes.len() {
        &bytes[n..]
    } else {
        &bytes[bytes.len()..]
    }
}

/// The first `n` bytes, or all where there are fewer.
pub fn front(bytes: &[u8], n: usize) -> &[u8]
    ensures { result.now ≡ take n bytes.now }
{
    if n <= bytes.len() { &bytes[..n] } else { bytes }
}

#[tactic(auto, unfolding(ob_base::specs::Names::is_letter))]
fn is_letter(byte: u8) -> bool
    ensures { result ≡ is_letter byte }
{
    is_within(b'a', b'z', byte) || is_within(b'A', b'Z', byte) || byte == b'_'
}

#[tactic(auto, unfolding(ob_base::specs::Names::is_name_byte))]
fn is_name_byte(byte: u8) -> bool
    ensures { result ≡ is_name_byte byte }
{
    is_letter(byte) || is_digit(byte)
}

#[tactic(auto, unfolding(ob_base::specs::Names::is_digit))]
fn is_digit(byte: u8) -> bool
    ensures { result ≡ is_digit byte }
{
    is_within(b'0', b'9', byte)
}

#[tactic(auto, unfolding(ob_tree::specs::Bytes::is_octal_digit))]
fn is_octal_digit(byte: u8) -> bool
    ensures { result ≡ is_octal_digit byte }
{
    is_within(b'0', b'7', byte)
}

#[tactic(auto, unfolding(ob_tree::specs::Bytes::is_hex_digit))]
fn is_hex_digit(byte: u8) -> bool
    ensures { result ≡ is_hex_digit byte }
{
    is_within(b'0', b'9', byte) || is_within(b'A', b'F', byte) || is_within(b'a', b'f', byte)
}

#[tactic(auto, unfolding(ob_tree::specs::Bytes::is_white))]
fn is_white(byte: u8) -> bool
    ensures { result ≡ is_white byte }
{
    is_within(9, 13, byte) || byte == b' '
}

#[tactic(auto, unfolding(ob_tree::specs::Bytes::is_blank))]
fn is_blank(byte: u8) -> bool
    ensures { result ≡ is_blank byte }
{
    byte == b' ' || byte == b'\t'
}

fn is_within(low: u8, high: u8, byte: u8) -> bool
    ensures { result ≡ is_within low high byte }
{
    low <= byte && byte <= high
}
