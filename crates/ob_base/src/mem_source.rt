ghost use Rattle.std.specs.Prelude.{◌≡◌, ◌<◌, ◌≤◌, ◌↔◌, length, take, Some, IfOk, IsErr, OnOk, OnErr};
ghost use Rattle.std.specs.Io.KnownBytes.{prepend_known, IsAtEnd};
ghost use Rattle.ob_base.specs.Faults.{Rose};
ghost use Rattle.ob_base.specs.Memory.{NextFails, no_calls, after_read, after_fault, given_count};

use crate::schedule::Schedule;
use crate::{Failed, NoMemory, Source};
use std::alloc::Global;
use std::marker::Model;

/// A source over bytes in memory, whose failing calls are chosen by a list.
#[derive(Debug, Drop)]
pub struct MemSource {
    bytes: Vec<u8>,
    at: usize,
    most: usize,
    schedule: Schedule,
}

impl Model for MemSource {
    ghost use Rattle.std.specs.Prelude.{◌≤◌, ◌<◌, drop, vec_len};
    ghost use Rattle.ob_base.specs.Memory.{SourceState};

    ghost Value = { SourceState };

    ghost view = { λ s. record { left = drop s.at s.bytes.items; most = s.most; calls = s.schedule } };

    ghost invariant = { λ s. (s.at ≤ vec_len s.bytes) × (0 < s.most) };
}

impl MemSource {
    /// A source of `bytes` that gives at most `most` of them in a call. The call with number i,
    /// from 0, fails exactly where i is in `fail`.
    pub fn new(
        alloc: Global,
        bytes: &[u8],
        fail: &[u64],
        most: usize,
    ) -> Result<MemSource, NoMemory>
        requires { 0 < most }
        ensures { IfOk result (λ s. s ≡ record { left = bytes.now; most = most; calls = no_calls fail.now }) }
    {
        Ok(MemSource {
            bytes: Vec::from_slice(alloc, bytes)?,
            at: 0,
            most,
            schedule: Schedule::new(alloc, fail)?,
        })
    }

    fn rest(&self) -> &[u8]
        ensures { result.now ≡ self.now.left }
    {
        &self.bytes[self.at..]
    }
}

impl Source for MemSource {
    ghost left = { λ s. Some s.left };

    ghost faults = { λ s. s.calls.faults };

    /// Gives as many bytes as there are, at most the source's `most` and the length of `buf`.
    fn read(&mut self, buf: &mut [u8]) -> Result<usize, Failed>
        ensures within { IfOk result (λ n. n ≤ length buf.new) }
        ensures bytes { IfOk result (λ n. Some self.old.left ≡ prepend_known (take n buf.new) (Some self.new.left)) }
        ensures end { IfOk result (λ n. n ≡ 0 → 0 < length buf.new → IsAtEnd (Some self.new.left)) }
        ensures bytes_kept { OnErr result (Some self.new.left ≡ Some self.old.left) }
        ensures quiet { OnOk result (self.new.calls.faults ≡ self.old.calls.faults) }
        ensures cause { OnErr result (Rose self.old.calls.faults self.new.calls.faults) }
        ensures fails { IsErr result ↔ NextFails self.old.calls }
        ensures count { IfOk result (λ n. n ≡ given_count self.old (length buf.old)) }
        ensures after { IfOk result (λ n. self.new ≡ after_read self.old n) }
        ensures after_failed { OnErr result (self.new ≡ record self.old { calls = after_fault self.old.calls }) }
    {
        if self.schedule.begin() {
            self.schedule.raise();
            return Err(Failed);
        }
        let rest = self.rest();
        let count = rest.len().min(self.most).min(buf.len());
        buf[..count].copy_from_slice(&rest[..count]);
        self.at += count;
        Ok(count)
    }
}
