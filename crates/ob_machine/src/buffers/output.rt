ghost use Rattle.std.specs.Prelude.{◌≡◌, ◌<◌, [], ◌∷◌, ◌++◌, length, IfOk, OnOk, OnErr, MatchBool};
ghost use Rattle.std.specs.Io.KnownBytes.{append_known};
ghost use Rattle.ob_base.specs.Faults.{Rose};
ghost use Rattle.ob_base.specs.Sink.{TakesPrefix, tally_known};

use super::SIZE;
use ob_base::{Failed, NoMemory, Sink, write_all};
use std::alloc::Global;
use std::marker::Model;

/// Output that the sink wasn't given yet: at most 4,096 bytes.
#[derive(Drop)]
pub(crate) struct OutputBuffer {
    pending: Vec<u8>,
}

impl Model for OutputBuffer {
    ghost use Rattle.std.specs.Prelude.{List, ℕ, ◌≤◌, vec_len, vec_capacity};

    ghost Value = { List ℕ };

    ghost view = { λ o. o.pending.items };

    ghost invariant = { λ o. (vec_len o.pending ≤ 4096) × (4096 ≤ vec_capacity o.pending) };
}

impl OutputBuffer {
    pub(crate) fn new(alloc: Global) -> Result<OutputBuffer, NoMemory>
        ensures { IfOk result (λ o. o ≡ []) }
    {
        Ok(OutputBuffer {
            pending: Vec::with_capacity(alloc, SIZE)?,
        })
    }

    /// Puts a byte behind the pending ones. Takes no memory.
    pub(crate) fn push(&mut self, byte: u8)
        requires { length self.old < 4096 }
        ensures { self.new ≡ self.old ++ byte ∷ [] }
    {
        self.pending.push_reserved(byte);
    }

    /// Whether there are 4,096 pending bytes.
    pub(crate) fn is_full(&self) -> bool
        ensures { MatchBool result (length self.now ≡ 4096) (length self.now < 4096) }
    {
        self.pending.len() == SIZE
    }

    /// Gives the pending bytes to the sink. After `Failed` it has taken a prefix of them. None is
    /// pending afterwards.
    pub(crate) fn send<K: Sink>(&mut self, out: &mut K) -> Result<(), Failed>
        ensures emptied { self.new ≡ [] }
        ensures bytes { OnOk result (K.taken out.new ≡ append_known (K.taken out.old) self.old) }
        ensures tallied { OnOk result (K.tally out.new ≡ tally_known (K.tally out.old) self.old) }
        ensures quiet { OnOk result (K.faults out.new ≡ K.faults out.old) }
        ensures prefix { OnErr result (TakesPrefix (K.taken out.old) (K.taken out.new) (K.tally out.old) (K.tally out.new) self.old) }
        ensures cause { OnErr result (Rose (K.faults out.old) (K.faults out.new)) }
    {
        let sent = write_all(out, &self.pending);
        self.pending.clear();
        sent
    }

    /// Forgets the pending bytes.
    pub(crate) fn clear(&mut self)
        ensures { self.new ≡ [] }
    {
        self.pending.clear();
    }
}
