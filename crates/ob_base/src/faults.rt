ghost use Rattle.std.specs.Prelude.{◌≡◌};
ghost use Rattle.ob_base.specs.Faults.{Rose, raised};

use std::marker::Model;

/// The answer of a device that couldn't do what it was asked: it took or gave no byte in that call.
#[derive(Clone, Copy, Debug, PartialEq, Eq)]
pub struct Failed;

/// A device's count of faults: 0 to 2^64 - 1, where it stays.
#[derive(Debug, Drop)]
pub(crate) struct FaultCount {
    count: u64,
}

impl Model for FaultCount {
    ghost use Rattle.std.specs.Prelude.{ℕ};

    ghost Value = { ℕ };

    ghost view = { λ faults. faults.count };
}

impl FaultCount {
    /// No fault yet.
    pub(crate) fn new() -> FaultCount
        ensures { result ≡ 0 }
    {
        FaultCount { count: 0 }
    }

    /// The count.
    #[cfg(test)]
    pub(crate) fn count(&self) -> u64
        ensures { result ≡ self.now }
    {
        self.count
    }

    /// Counts one more fault, unless the count stands at its last value.
    pub(crate) fn raise(&mut self)
        ensures value { self.new ≡ raised self.old }
        ensures rose { Rose self.old self.new }
    {
        self.count = self.count.saturating_add(1);
    }
}
