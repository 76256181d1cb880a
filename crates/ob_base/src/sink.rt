ghost use Rattle.std.specs.Prelude.{◌≡◌, ℕ, ◌<◌, ◌≤◌, List, length, take, Option, IfOk, OnOk, OnErr};
ghost use Rattle.std.specs.Io.KnownBytes.{append_known};
ghost use Rattle.ob_base.specs.Faults.{Rose};
ghost use Rattle.ob_base.specs.Sink.{Tally, TakesPrefix, tally_known};

use crate::Failed;

/// Where bytes go to, in order.
pub trait Sink {
    /// The bytes that the sink took, where it tells them.
    ghost taken: { Self → Option (List ℕ) };

    /// The number of bytes that the sink took, up to 2^64 - 1, and their sum modulo 65,536, where
    /// it tells these.
    ghost tally: { Self → Option Tally };

    /// The count of faults. It never falls.
    ghost faults: { Self → ℕ };

    /// Takes a prefix of `piece`, and gives its length in bytes: at most the length of `piece`, and
    /// at least 1 where `piece` isn't empty. `Failed` comes only where the count of faults rises,
    /// and takes no byte; `Ok` leaves the count.
    fn write(&mut self, piece: &[u8]) -> Result<usize, Failed>
        ensures within { IfOk result (λ n. n ≤ length piece.now) }
        ensures progress { IfOk result (λ n. 0 < length piece.now → 0 < n) }
        ensures bytes { IfOk result (λ n. taken self.new ≡ append_known (taken self.old) (take n piece.now)) }
        ensures tallied { IfOk result (λ n. tally self.new ≡ tally_known (tally self.old) (take n piece.now)) }
        ensures quiet { OnOk result (faults self.new ≡ faults self.old) }
        ensures bytes_kept { OnErr result (taken self.new ≡ taken self.old) }
        ensures tally_kept { OnErr result (tally self.new ≡ tally self.old) }
        ensures cause { OnErr result (Rose (faults self.old) (faults self.new)) };
}

/// Writes a whole piece, in as many calls as the sink needs for it. `Failed` comes only where the
/// sink's count of faults rises; the sink has then taken a prefix of the piece.
pub fn write_all<K: Sink>(out: &mut K, piece: &[u8]) -> Result<(), Failed>
    ensures bytes { OnOk result (K.taken out.new ≡ append_known (K.taken out.old) piece.now) }
    ensures tallied { OnOk result (K.tally out.new ≡ tally_known (K.tally out.old) piece.now) }
    ensures quiet { OnOk result (K.faults out.new ≡ K.faults out.old) }
    ensures prefix { OnErr result (TakesPrefix (K.taken out.old) (K.taken out.new) (K.tally out.old) (K.tally out.new) piece.now) }
    ensures cause { OnErr result (Rose (K.faults out.old) (K.faults out.new)) }
{
    let mut rest = piece;
    while !rest.is_empty() {
        let count = out.write(rest)?;
        rest = &rest[count..];
    }
    Ok(())
}
