ghost use Rattle.std.specs.Prelude.{◌≡◌, ◌≤◌, ◌^◌, length};
ghost use Rattle.std.specs.Option.{option_copied};
ghost use Rattle.ob_sources.specs.Positions.{position_at, position_behind, position_of};

use ob_tree::Token;

/// A place in a text: its line and its column, both counted from 1. A line ends with a line feed, and a
/// column counts bytes.
#[derive(Clone, Copy, Debug, PartialEq, Eq)]
pub struct Position {
    pub line: u32,
    pub column: u32,
}

/// The place in a text, of at most 2^20 bytes, of its token of a number, counted from 0. Where the text has no
/// such token, it is the place behind the text.
pub fn position_at(text: &[u8], tokens: &[Token], number: u32) -> Position
    requires { length text.now ≤ 2 ^ 20 }
    ensures { result ≡ position_at text.now tokens.now number }
{
    position_of(text, tokens.get(number as usize))
}

fn position_of(text: &[u8], token: Option<&Token>) -> Position
    requires { length text.now ≤ 2 ^ 20 }
    ensures { result ≡ position_of text.now (option_copied token.entry) }
{
    match token {
        Some(token) => Position {
            line: token.span.line,
            column: token.span.column,
        },
        None => position_behind(text),
    }
}

/// The place behind these bytes, of which there are at most 2^20.
pub(crate) fn position_behind(before: &[u8]) -> Position
    requires { length before.now ≤ 2 ^ 20 }
    ensures { result ≡ position_behind before.now }
{
    let mut position = Position { line: 1, column: 1 };
    for byte in before {
        if *byte == b'\n' {
            position.line += 1;
            position.column = 1;
        } else {
            position.column += 1;
        }
    }
    position
}
