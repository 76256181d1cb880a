ghost use Rattle.std.specs.Prelude.{◌≡◌, ◌↔◌, IsTrue, IfOk};
ghost use Rattle.ob_base.specs.Faults.{Rose, raised};
ghost use Rattle.ob_base.specs.Memory.{NextFails, after_call, no_calls};

use crate::NoMemory;
use crate::faults::FaultCount;
use std::alloc::Global;
use std::marker::Model;

/// Which calls of a device in memory fail, how many calls it had, and its count of faults.
#[derive(Debug, Drop)]
pub(crate) struct Schedule {
    fail: Vec<u64>,
    // The number of the next call; none once each number of 64 bits was used.
    next: Option<u64>,
    faults: FaultCount,
}

impl Model for Schedule {
    ghost use Rattle.std.specs.Prelude.{ℕ, ◌<◌, ◌^◌, length, slice_index};
    ghost use Rattle.std.specs.Option.{option_map_or};
    ghost use Rattle.ob_base.specs.Memory.{Calls};

    ghost Value = { Calls };

    ghost view = { λ s. record { fail = s.fail.items; made = option_map_or (λ next. next) s.next (2 ^ 64); faults = s.faults } };

    ghost invariant = { λ s. (k : ℕ) → k < length s.fail.items → slice_index s.fail.items k < 2 ^ 64 };
}

impl Schedule {
    /// No call yet; the call with number i, from 0, fails where i is in `fail`.
    pub(crate) fn new(alloc: Global, fail: &[u64]) -> Result<Schedule, NoMemory>
        ensures { IfOk result (λ s. s ≡ no_calls fail.now) }
    {
        Ok(Schedule {
            fail: Vec::from_slice(alloc, fail)?,
            next: Some(0),
            faults: FaultCount::new(),
        })
    }

    /// Counts a call, and says whether it is one of those that fail.
    pub(crate) fn begin(&mut self) -> bool
        ensures due { IsTrue result ↔ NextFails self.old }
        ensures counted { self.new ≡ after_call self.old }
    {
        let Some(number) = self.next else {
            return false;
        };
        self.next = number.checked_add(1);
        self.fail.contains(&number)
    }

    /// Counts a fault.
    pub(crate) fn raise(&mut self)
        ensures value { self.new ≡ record self.old { faults = raised self.old.faults } }
        ensures rose { Rose self.old.faults self.new.faults }
    {
        self.faults.raise();
    }
}
