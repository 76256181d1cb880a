ghost use Rattle.std.specs.Prelude.{◌≡◌, ℕ, ◌<◌, ◌≤◌, List, length, take, Option, IfOk, OnOk, OnErr};
ghost use Rattle.std.specs.Io.KnownBytes.{prepend_known, IsAtEnd};
ghost use Rattle.ob_base.specs.Faults.{Rose};

use crate::Failed;

/// Bytes that come from outside, in order.
pub trait Source {
    /// The bytes that are still to come, where the source tells them.
    ghost left: { Self → Option (List ℕ) };

    /// The count of faults. It never falls.
    ghost faults: { Self → ℕ };

    /// Puts the next bytes at the front of `buf`, and gives their number, which is at most the
    /// length of `buf`. What stands in `buf` past them is open. 0 for a `buf` that isn't empty is
    /// the end of the bytes. `Failed` comes only where the count of faults rises, and leaves the
    /// bytes that are still to come; `Ok` leaves the count.
    fn read(&mut self, buf: &mut [u8]) -> Result<usize, Failed>
        ensures within { IfOk result (λ n. n ≤ length buf.new) }
        ensures bytes { IfOk result (λ n. left self.old ≡ prepend_known (take n buf.new) (left self.new)) }
        ensures end { IfOk result (λ n. n ≡ 0 → 0 < length buf.new → IsAtEnd (left self.new)) }
        ensures quiet { OnOk result (faults self.new ≡ faults self.old) }
        ensures bytes_kept { OnErr result (left self.new ≡ left self.old) }
        ensures cause { OnErr result (Rose (faults self.old) (faults self.new)) };
}
