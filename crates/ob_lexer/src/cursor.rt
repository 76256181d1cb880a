ghost use Rattle.std.specs.Prelude.{◌≡◌, ◌+◌, ◌<◌, ◌≤◌, ◌^◌, ◌++◌, length, [], OnOk};
ghost use Rattle.ob_lexer.specs.Cursors.{advance, moved, tokens_at, fault_at, place_of};

use crate::bytes::Class;
use crate::taken::Refusal;
use ob_tree::{LexFault, LexKind, Span, Token, TokenKind};
use std::alloc::AllocError;

/// A place in a text: how many bytes stand before it, its line and column from 1, and whether only
/// spaces and tabs stand before it on its line.
#[derive(Clone, Copy)]
pub struct Cursor {
    pub at: usize,
    pub line: usize,
    pub column: usize,
    pub fresh: bool,
}

impl Cursor {
    /// The first place of a text.
    #[tactic(auto, unfolding(crate::specs::Cursors::place_of))]
    pub fn start() -> Cursor
        ensures { result ≡ place_of [] }
    {
        Cursor {
            at: 0,
            line: 1,
            column: 1,
            fresh: true,
        }
    }

    /// The place behind one more byte.
    #[tactic(auto, unfolding(crate::specs::Cursors::advance))]
    fn advance(self, byte: u8) -> Cursor
        requires at { self.at < 2 ^ 21 }
        requires line { self.line ≤ self.at + 1 }
        requires column { self.column ≤ self.at + 1 }
        ensures advance { result ≡ advance self byte }
        ensures at { result.at ≡ self.at + 1 }
        ensures line { result.line ≤ self.at + 2 }
        ensures column { result.column ≤ self.at + 2 }
    {
        if byte == b'\n' {
            Cursor {
                at: self.at + 1,
                line: self.line + 1,
                column: 1,
                fresh: true,
            }
        } else {
            Cursor {
                at: self.at + 1,
                line: self.line,
                column: self.column + 1,
                fresh: self.fresh && Class::Blank.has(byte),
            }
        }
    }

    /// The place behind more bytes.
    pub fn past(self, bytes: &[u8]) -> Cursor
        requires within { self.at + length bytes.now ≤ 2 ^ 20 }
        requires line { self.line ≤ self.at + 1 }
        requires column { self.column ≤ self.at + 1 }
        ensures { result ≡ moved self bytes.now }
    {
        let mut place = self;
        for byte in bytes {
            place = place.advance(*byte);
        }
        place
    }

    /// Puts the token that stands from here up to `past`, if any, at the end.
    pub fn push(
        self,
        tokens: &mut Vec<Token>,
        past: usize,
        kind: Option<TokenKind>,
    ) -> Result<(), AllocError>
        requires at { self.at < 2 ^ 21 }
        requires past { past < 2 ^ 21 }
        requires line { self.line < 2 ^ 21 }
        requires column { self.column < 2 ^ 21 }
        ensures { OnOk result (tokens.new.items ≡ tokens.old.items ++ tokens_at self past kind) }
    {
        let Some(kind) = kind else {
            return Ok(());
        };
        let span = Span {
            start: self.at as u32,
            end: past as u32,
            line: self.line as u32,
            column: self.column as u32,
        };
        tokens.push(Token { kind, span })?;
        Ok(())
    }

    /// A refusal as a fault at this place.
    pub fn fault(self, refusal: Refusal) -> LexFault
        requires { self.at < 2 ^ 21 }
        ensures { result ≡ fault_at refusal self.at }
    {
        let at = self.at as u32;
        match refusal {
            Refusal::Fault(LexKind::Stray) => LexFault::Stray(at),
            Refusal::Fault(LexKind::Unclosed) => LexFault::Unclosed(at),
            Refusal::Fault(LexKind::Wide) => LexFault::Wide(at),
            Refusal::NoMemory => LexFault::NoMemory,
        }
    }
}
