ghost use Rattle.std.specs.Prelude.{◌≡◌, ◌<◌, ◌≤◌, length, take, IfOk, IfSome, IfNone, OnOk, OnErr};
ghost use Rattle.std.specs.Io.KnownBytes.{Consumes, IsAtEnd, Keeps, prepend_known};
ghost use Rattle.ob_base.specs.Faults.{Rose, raised};
ghost use Rattle.ob_base.specs.Devices.{untold};

use crate::faults::FaultCount;
use crate::{Failed, Source};
use std::io::{ErrorKind, Read};
use std::marker::Model;

/// A reader of std as a source. It tells nothing of its bytes; contracts see its count of faults.
#[derive(Drop)]
pub struct StdSource<R> {
    inner: R,
    faults: FaultCount,
}

impl<R> Model for StdSource<R> {
    ghost use Rattle.std.specs.Prelude.{ℕ};

    ghost Value = { ℕ };

    ghost view = { λ s. s.faults };
}

impl<R: Read> StdSource<R> {
    /// A source over `inner`, without faults so far.
    pub fn new(inner: R) -> StdSource<R>
        ensures { result ≡ 0 }
    {
        StdSource {
            inner,
            faults: FaultCount::new(),
        }
    }

    /// The count of faults, for tests.
    #[cfg(test)]
    pub(crate) fn faults(&self) -> u64
        ensures { result ≡ self.now }
    {
        self.faults.count()
    }
}

impl<R: Read> Source for StdSource<R> {
    ghost left = { λ _. untold };

    ghost faults = { λ s. s };

    /// Reads once from the reader, again where a signal interrupted it. Its other errors are
    /// faults, each of which raises the count by one.
    fn read(&mut self, buf: &mut [u8]) -> Result<usize, Failed>
        ensures within { IfOk result (λ n. n ≤ length buf.new) }
        ensures bytes { IfOk result (λ n. untold ≡ prepend_known (take n buf.new) untold) }
        ensures end { IfOk result (λ n. n ≡ 0 → 0 < length buf.new → IsAtEnd untold) }
        ensures quiet { OnOk result (self.new ≡ self.old) }
        ensures bytes_kept { OnErr result (untold ≡ untold) }
        ensures cause { OnErr result (Rose self.old self.new) }
        ensures counted { OnErr result (self.new ≡ raised self.old) }
    {
        match read_uninterrupted(&mut self.inner, buf) {
            Some(count) => Ok(count),
            None => {
                self.faults.raise();
                Err(Failed)
            }
        }
    }
}

pub(crate) fn read_uninterrupted<R: Read>(inner: &mut R, buf: &mut [u8]) -> Option<usize>
    ensures within { IfSome result (λ n. n ≤ length buf.new) }
    ensures bytes { IfSome result (λ n. Consumes (R.remaining inner.old) (R.remaining inner.new) (take n buf.new)) }
    ensures end { IfSome result (λ n. n ≡ 0 → 0 < length buf.new → IsAtEnd (R.remaining inner.new)) }
    ensures kept { IfNone result (Keeps (R.remaining inner.old) (R.remaining inner.new)) }
{
    for _ in 0..u64::MAX {
        match inner.read(buf) {
            Ok(count) => return Some(count),
            Err(error) if error.kind() == ErrorKind::Interrupted => {}
            Err(_) => return None,
        }
    }
    None
}
