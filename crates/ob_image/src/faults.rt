use std::alloc::{AllocError, AllocFailed};

/// Why bytes gave no image.
#[derive(Clone, Copy, Debug, PartialEq, Eq)]
pub enum ImageFault {
    /// The least place, counted from 0, such that no image's spelling in either version begins with the
    /// bytes up to and including it; or the length where the bytes are a proper prefix of one.
    At(u64),
    /// There was too little memory.
    NoMemory,
}

ghost use Rattle.std.specs.Prelude.{◌≡◌};
ghost use Rattle.ob_image.specs.declared.faults.Stop.TheVariants.{Memory};

/// Why a reader stopped.
#[derive(Debug, Drop)]
pub(crate) enum Stop {
    Memory,
    /// How many bytes are left from the first one on that can't stand there.
    Left(usize),
}

impl From<AllocError> for Stop {
    ghost from_gives = { λ _ stop. stop ≡ Memory };

    fn from(_error: AllocError) -> Stop {
        Stop::Memory
    }
}

impl<T: Drop> From<AllocFailed<T>> for Stop {
    ghost from_gives = { λ _ stop. stop ≡ Memory };

    fn from(_error: AllocFailed<T>) -> Stop {
        Stop::Memory
    }
}
