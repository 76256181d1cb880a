ghost use Rattle.std.specs.Prelude.{◌≡◌, ℕ, ◌≤◌, Option, IfOk, vec_len};
ghost use Rattle.ob_base.specs.declared.folder.FileAnswer.TheVariants.{NoMemory};
ghost use Rattle.ob_base.specs.Folder.{Files, Loads, CountsLoad};

use std::alloc::{AllocError, Global};

/// Why a folder didn't give a file.
#[derive(Clone, Copy, Debug, PartialEq, Eq)]
pub enum FileAnswer {
    /// The folder failed, or has no such file.
    Failed,
    /// The file has more bytes than were asked for at most.
    Long,
    /// Too little memory for the file's bytes.
    NoMemory,
}

/// Files that are read by name.
pub trait Folder {
    /// The files by their names, where the folder tells them. No load changes them.
    ghost files: { Self → Option Files };

    /// The count of faults. It never falls.
    ghost faults: { Self → ℕ };

    /// The bytes of the file called `name`, which are at most `limit`.
    ///
    /// - `Long`: the file has more than `limit` bytes.
    /// - `Failed`: the count of faults rises; or the folder tells its files, `name` isn't among
    ///   them, and the count stays.
    /// - `NoMemory`: too little memory for the bytes.
    ///
    /// Any answer but `Failed` leaves the count, and every answer leaves the files.
    fn load(&mut self, alloc: Global, name: &str, limit: usize) -> Result<Vec<u8>, FileAnswer>
        ensures within { IfOk result (λ bytes. vec_len bytes ≤ limit) }
        ensures bytes { Loads (files self.old) name.now limit result }
        ensures kept { files self.new ≡ files self.old }
        ensures cause { CountsLoad (files self.old) name.now result (faults self.old) (faults self.new) };
}

impl From<AllocError> for FileAnswer {
    ghost from_gives = { λ _ answer. answer ≡ NoMemory };

    fn from(_error: AllocError) -> FileAnswer {
        FileAnswer::NoMemory
    }
}
