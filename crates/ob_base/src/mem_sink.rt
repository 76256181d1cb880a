ghost use Rattle.std.specs.Prelude.{◌≡◌, ◌<◌, ◌≤◌, ◌↔◌, [], length, take, Some, IfOk, IsErr, OnOk, OnErr};
ghost use Rattle.std.specs.Io.KnownBytes.{append_known};
ghost use Rattle.ob_base.specs.Faults.{Rose};
ghost use Rattle.ob_base.specs.Sink.{no_tally, tally_known};
ghost use Rattle.ob_base.specs.Memory.{WriteFails, no_calls, after_write, after_fault, taken_count};

use crate::schedule::Schedule;
use crate::{Failed, NoMemory, Sink};
use std::alloc::Global;
use std::marker::Model;

/// A sink that keeps its bytes in memory, which it reserves when it is made. Its failing calls are
/// chosen by a list and by its room.
#[derive(Debug, Drop)]
pub struct MemSink {
    bytes: Vec<u8>,
    room: usize,
    most: usize,
    schedule: Schedule,
}

impl Model for MemSink {
    ghost use Rattle.std.specs.Prelude.{◌≤◌, ◌<◌, vec_len, vec_capacity};
    ghost use Rattle.ob_base.specs.Memory.{SinkState};

    ghost Value = { SinkState };

    ghost view = { λ s. record { taken = s.bytes.items; room = s.room; most = s.most; calls = s.schedule } };

    ghost invariant = { λ s. (vec_len s.bytes ≤ s.room) × (s.room ≤ vec_capacity s.bytes) × (0 < s.most) };
}

impl MemSink {
    /// A sink for at most `room` bytes, at most `most` in a call. The call with number i, from 0,
    /// fails exactly where i is in `fail`, or where there is a byte to take and no room left.
    pub fn new(alloc: Global, room: usize, fail: &[u64], most: usize) -> Result<MemSink, NoMemory>
        requires { 0 < most }
        ensures { IfOk result (λ s. s ≡ record { taken = []; room = room; most = most; calls = no_calls fail.now }) }
    {
        Ok(MemSink {
            bytes: Vec::with_capacity(alloc, room)?,
            room,
            most,
            schedule: Schedule::new(alloc, fail)?,
        })
    }

    /// The bytes that were taken, in order.
    pub fn taken(&self) -> &[u8]
        ensures { result.now ≡ self.now.taken }
    {
        self.bytes.as_slice()
    }
}

impl Sink for MemSink {
    ghost taken = { λ s. Some s.taken };

    ghost tally = { λ _. no_tally };

    ghost faults = { λ s. s.calls.faults };

    /// Takes as many bytes as there are, at most the sink's `most` and the room that is left.
    fn write(&mut self, piece: &[u8]) -> Result<usize, Failed>
        ensures within { IfOk result (λ n. n ≤ length piece.now) }
        ensures progress { IfOk result (λ n. 0 < length piece.now → 0 < n) }
        ensures bytes { IfOk result (λ n. Some self.new.taken ≡ append_known (Some self.old.taken) (take n piece.now)) }
        ensures tallied { IfOk result (λ n. no_tally ≡ tally_known no_tally (take n piece.now)) }
        ensures bytes_kept { OnErr result (Some self.new.taken ≡ Some self.old.taken) }
        ensures tally_kept { OnErr result (no_tally ≡ no_tally) }
        ensures quiet { OnOk result (self.new.calls.faults ≡ self.old.calls.faults) }
        ensures cause { OnErr result (Rose self.old.calls.faults self.new.calls.faults) }
        ensures fails { IsErr result ↔ WriteFails self.old piece.now }
        ensures count { IfOk result (λ n. n ≡ taken_count self.old (length piece.now)) }
        ensures after { IfOk result (λ n. self.new ≡ after_write self.old piece.now n) }
        ensures after_failed { OnErr result (self.new ≡ record self.old { calls = after_fault self.old.calls }) }
    {
        let due = self.schedule.begin();
        let full = self.bytes.len() == self.room && !piece.is_empty();
        if due || full {
            self.schedule.raise();
            return Err(Failed);
        }
        let room = self.room - self.bytes.len();
        let count = piece.len().min(self.most).min(room);
        self.bytes.extend_from_slice(&piece[..count]).unwrap();
        Ok(count)
    }
}
