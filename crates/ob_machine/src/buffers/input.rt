ghost use Rattle.std.specs.Prelude.{◌≡◌, ◌<◌, ◌≤◌, ◌↔◌, [], ◌∷◌, length, IsTrue, IfOk, OnOk, OnErr, MatchOption};
ghost use Rattle.std.specs.Io.KnownBytes.{prepend_known};
ghost use Rattle.ob_base.specs.Faults.{Rose};
ghost use Rattle.ob_machine.specs.Buffers.{nothing_read, IsFilled, IsUsedUp};

use super::SIZE;
use ob_base::{Failed, NoMemory, Source};
use std::alloc::Global;
use std::marker::Model;

/// Bytes that were read from a source, at most 4,096 at a time, and that the program didn't take yet.
#[derive(Drop)]
pub(crate) struct InputBuffer {
    bytes: Vec<u8>,
    from: usize,
    to: usize,
    at_end: bool,
}

impl Model for InputBuffer {
    ghost use Rattle.std.specs.Prelude.{◌≡◌, ◌≤◌, ◌-◌, take, drop, vec_len};
    ghost use Rattle.ob_machine.specs.Buffers.{Unread};

    ghost Value = { Unread };

    ghost view = { λ b. record { bytes = take (b.to - b.from) (drop b.from b.bytes.items); at_end = b.at_end } };

    ghost invariant = { λ b. (b.from ≤ b.to) × (b.to ≤ vec_len b.bytes) × (vec_len b.bytes ≡ 4096) };
}

impl InputBuffer {
    pub(crate) fn new(alloc: Global) -> Result<InputBuffer, NoMemory>
        ensures { IfOk result (λ b. b ≡ nothing_read) }
    {
        Ok(InputBuffer {
            bytes: vec![in alloc; 0; SIZE]?,
            from: 0,
            to: 0,
            at_end: false,
        })
    }

    /// Whether the next byte can only be had by a read: none is left, and the end wasn't met.
    pub(crate) fn must_read(&self) -> bool
        ensures { IsTrue result ↔ IsUsedUp self.now }
    {
        self.from == self.to && !self.at_end
    }

    /// Reads once. Where that gives nothing, the end is met. After `Failed` nothing was read.
    pub(crate) fn fill<S: Source>(&mut self, source: &mut S) -> Result<(), Failed>
        requires { IsUsedUp self.old }
        ensures read { OnOk result (S.left source.old ≡ prepend_known self.new.bytes (S.left source.new)) }
        ensures end { OnOk result (IsFilled self.new (S.left source.new)) }
        ensures few { OnOk result (length self.new.bytes ≤ 4096) }
        ensures quiet { OnOk result (S.faults source.new ≡ S.faults source.old) }
        ensures kept { OnErr result (self.new ≡ self.old) }
        ensures bytes_kept { OnErr result (S.left source.new ≡ S.left source.old) }
        ensures cause { OnErr result (Rose (S.faults source.old) (S.faults source.new)) }
    {
        let count = source.read(&mut self.bytes)?;
        self.from = 0;
        self.to = count;
        self.at_end = count == 0;
        Ok(())
    }

    /// The next byte, where one is left.
    pub(crate) fn next(&mut self) -> Option<u8>
        ensures end { self.new.at_end ≡ self.old.at_end }
        ensures byte { MatchOption result ((self.old.bytes ≡ []) × (self.new.bytes ≡ [])) (λ byte. self.old.bytes ≡ byte ∷ self.new.bytes) }
    {
        if self.from == self.to {
            return None;
        }
        let byte = self.bytes[self.from];
        self.from += 1;
        Some(byte)
    }

    /// Forgets what was read, and that the end was met.
    pub(crate) fn clear(&mut self)
        ensures { self.new ≡ nothing_read }
    {
        self.from = 0;
        self.to = 0;
        self.at_end = false;
    }
}
