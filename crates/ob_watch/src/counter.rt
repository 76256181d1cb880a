ghost use Rattle.std.specs.Prelude.{◌≡◌, []};

use crate::Watcher;
use ob_model::StrayEvent;

/// A watcher that counts the events that it is told, and keeps none.
#[derive(Drop)]
pub struct Counter {
    total: u64,
}

impl Counter {
    /// A watcher that was told nothing.
    pub fn new() -> Counter
        ensures { result.total ≡ 0 }
    {
        Counter { total: 0 }
    }
}

impl Watcher for Counter {
    ghost capacity = { λ _. 0 };

    ghost kept = { λ _. [] };

    ghost told = { λ w. w.total };

    fn tell(&mut self, _e: StrayEvent) {
        self.total = self.total.saturating_add(1);
    }

    fn kept_at(&self, _i: usize) -> Option<StrayEvent> {
        None
    }

    fn total(&self) -> u64 {
        self.total
    }
}
