ghost use Rattle.std.specs.Prelude.{◌≡◌, ◌≢◌, ◌<◌, ◌≤◌, length, IfOk, IfSome, IsErrOf, vec_len};
ghost use Rattle.std.specs.IoError.{error_kind};
ghost use Rattle.ob_base.specs.Faults.{raised};
ghost use Rattle.ob_base.specs.Folder.{Loads, CountsLoad, untold_files};

use crate::faults::FaultCount;
use crate::{FileAnswer, Folder};
use std::alloc::Global;
use std::fs;
use std::io::{Error, ErrorKind, Read};
use std::marker::Model;
use std::rt::Files;

/// The files of the system, by their paths from the folder that the program runs in. It tells
/// nothing of them; contracts see its count of faults.
#[derive(Drop)]
pub struct StdFolder<'a, R> {
    rt: &'a R,
    faults: FaultCount,
}

impl<'a, R> Model for StdFolder<'a, R> {
    ghost use Rattle.std.specs.Prelude.{ℕ};

    ghost Value = { ℕ };

    ghost view = { λ f. f.faults };
}

impl<'a, R: Files> StdFolder<'a, R> {
    /// The files that `rt` reaches, without faults so far.
    pub fn new(rt: &'a R) -> StdFolder<'a, R>
        ensures { result ≡ 0 }
    {
        StdFolder {
            rt,
            faults: FaultCount::new(),
        }
    }

    /// The count of faults, for tests.
    #[cfg(test)]
    pub(crate) fn faults(&self) -> u64
        ensures { result ≡ self.now }
    {
        self.faults.count()
    }
}

impl<'a, R: Files> Folder for StdFolder<'a, R> {
    ghost files = { λ _. untold_files };

    ghost faults = { λ f. f };

    /// Reads at most `limit` bytes of the file, and one more to see that it is longer. A file that
    /// isn't there, and any error of opening or reading it but want of memory, is a fault, which
    /// raises the count by one.
    fn load(&mut self, alloc: Global, name: &str, limit: usize) -> Result<Vec<u8>, FileAnswer>
        ensures within { IfOk result (λ bytes. vec_len bytes ≤ limit) }
        ensures bytes { Loads untold_files name.now limit result }
        ensures kept { untold_files ≡ untold_files }
        ensures cause { CountsLoad untold_files name.now result self.old self.new }
        ensures counted { IsErrOf result FileAnswer.Failed → self.new ≡ raised self.old }
    {
        let answer = load_file(self.rt, alloc, name, limit);
        if let Err(FileAnswer::Failed) = answer {
            self.faults.raise();
        }
        answer
    }
}

fn load_file<R: Files>(
    rt: &R,
    alloc: Global,
    name: &str,
    limit: usize,
) -> Result<Vec<u8>, FileAnswer>
    ensures { IfOk result (λ bytes. vec_len bytes ≤ limit) }
{
    let mut file = fs::open(rt, name).map_err(|error| answer_of(&error))?;
    read_limited(alloc, &mut file, limit)
}

/// All bytes of a reader, where they are at most `limit`; else `Long`, after one byte more.
pub(crate) fn read_limited<R: Read>(
    alloc: Global,
    reader: &mut R,
    limit: usize,
) -> Result<Vec<u8>, FileAnswer>
    ensures within { IfOk result (λ bytes. vec_len bytes ≤ limit) }
    ensures whole { IfSome (R.remaining reader.old) (λ all. IfOk result (λ bytes. bytes.items ≡ all)) }
    ensures long { IfSome (R.remaining reader.old) (λ all. IsErrOf result FileAnswer.Long → limit < length all) }
{
    let mut bytes = Vec::new(alloc);
    let most = (limit as u64).saturating_add(1);
    let read = Read::take(reader, most).read_to_end(&mut bytes);
    match read {
        Err(error) => Err(answer_of(&error)),
        Ok(_) if limit < bytes.len() => Err(FileAnswer::Long),
        Ok(_) => Ok(bytes),
    }
}

fn answer_of(error: &Error) -> FileAnswer
    ensures memory { error_kind error.now ≡ ErrorKind.OutOfMemory → result ≡ FileAnswer.NoMemory }
    ensures others { error_kind error.now ≢ ErrorKind.OutOfMemory → result ≡ FileAnswer.Failed }
{
    if error.kind() == ErrorKind::OutOfMemory {
        FileAnswer::NoMemory
    } else {
        FileAnswer::Failed
    }
}
