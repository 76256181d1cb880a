ghost use Rattle.std.specs.Prelude.{◌≡◌};
ghost use Rattle.ob_lexer.specs.declared.taken.Refusal.TheVariants.{NoMemory};

use ob_base::NoMemory;
use ob_tree::{LexKind, TokenKind};
use std::alloc::AllocError;

/// A piece that was taken: the token that it is, or none for a space, and how many bytes it has.
#[derive(Drop)]
pub struct Taken {
    pub kind: Option<TokenKind>,
    pub length: usize,
}

/// Why no piece was taken.
#[derive(Clone, Copy)]
pub enum Refusal {
    Fault(LexKind),
    NoMemory,
}

impl From<NoMemory> for Refusal {
    ghost from_gives = { λ _ refusal. refusal ≡ NoMemory };

    fn from(_error: NoMemory) -> Refusal {
        Refusal::NoMemory
    }
}

impl From<AllocError> for Refusal {
    ghost from_gives = { λ _ refusal. refusal ≡ NoMemory };

    fn from(_error: AllocError) -> Refusal {
        Refusal::NoMemory
    }
}
