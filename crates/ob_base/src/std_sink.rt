ghost use Rattle.std.specs.Prelude.{◌≡◌, ◌<◌, ◌≤◌, length, take, IfOk, IfSome, IfNone, OnOk, OnErr};
ghost use Rattle.std.specs.Io.KnownBytes.{Appends, Keeps, append_known};
ghost use Rattle.ob_base.specs.Faults.{Rose, raised};
ghost use Rattle.ob_base.specs.Devices.{untold};
ghost use Rattle.ob_base.specs.Sink.{no_tally, tally_known};

use crate::faults::FaultCount;
use crate::{Failed, Sink};
use std::io::{ErrorKind, Write};
use std::marker::Model;

/// A writer of std as a sink. It tells nothing of its bytes; contracts see its count of faults.
/// The writer has to pass its bytes on at once, as standard output does: it is never flushed.
#[derive(Drop)]
pub struct StdSink<W> {
    inner: W,
    faults: FaultCount,
}

impl<W> Model for StdSink<W> {
    ghost use Rattle.std.specs.Prelude.{ℕ};

    ghost Value = { ℕ };

    ghost view = { λ s. s.faults };
}

impl<W: Write> StdSink<W> {
    /// A sink over `inner`, without faults so far.
    pub fn new(inner: W) -> StdSink<W>
        ensures { result ≡ 0 }
    {
        StdSink {
            inner,
            faults: FaultCount::new(),
        }
    }

    /// The count of faults, for tests.
    #[cfg(test)]
    pub(crate) fn faults(&self) -> u64
        ensures { result ≡ self.now }
    {
        self.faults.count()
    }
}

impl<W: Write> Sink for StdSink<W> {
    ghost taken = { λ _. untold };

    ghost tally = { λ _. no_tally };

    ghost faults = { λ s. s };

    /// Writes once to the writer, again where a signal interrupted it. Its other errors are
    /// faults, and so is a write that takes no byte of a piece that isn't empty; each raises the
    /// count by one.
    fn write(&mut self, piece: &[u8]) -> Result<usize, Failed>
        ensures within { IfOk result (λ n. n ≤ length piece.now) }
        ensures progress { IfOk result (λ n. 0 < length piece.now → 0 < n) }
        ensures bytes { IfOk result (λ n. untold ≡ append_known untold (take n piece.now)) }
        ensures tallied { IfOk result (λ n. no_tally ≡ tally_known no_tally (take n piece.now)) }
        ensures quiet { OnOk result (self.new ≡ self.old) }
        ensures bytes_kept { OnErr result (untold ≡ untold) }
        ensures tally_kept { OnErr result (no_tally ≡ no_tally) }
        ensures cause { OnErr result (Rose self.old self.new) }
        ensures counted { OnErr result (self.new ≡ raised self.old) }
    {
        match write_uninterrupted(&mut self.inner, piece) {
            Some(count) => Ok(count),
            None => {
                self.faults.raise();
                Err(Failed)
            }
        }
    }
}

pub(crate) fn write_uninterrupted<W: Write>(inner: &mut W, piece: &[u8]) -> Option<usize>
    ensures within { IfSome result (λ n. n ≤ length piece.now) }
    ensures progress { IfSome result (λ n. 0 < length piece.now → 0 < n) }
    ensures bytes { IfSome result (λ n. Appends (W.contents inner.old) (W.contents inner.new) (take n piece.now)) }
    ensures kept { IfNone result (Keeps (W.contents inner.old) (W.contents inner.new)) }
{
    for _ in 0..u64::MAX {
        match inner.write(piece) {
            Ok(0) if !piece.is_empty() => return None,
            Ok(count) => return Some(count),
            Err(error) if error.kind() == ErrorKind::Interrupted => {}
            Err(_) => return None,
        }
    }
    None
}
