ghost use Rattle.std.specs.Prelude.{◌≡◌, [], IfOk};

use crate::Watcher;
use ob_base::NoMemory;
use ob_model::StrayEvent;
use std::alloc::Global;
use std::marker::Model;

/// A watcher that keeps the first events that it is told.
#[derive(Drop)]
pub struct FirstEvents {
    capacity: usize,
    kept: Vec<StrayEvent>,
    total: u64,
}

impl Model for FirstEvents {
    ghost use Rattle.std.specs.Prelude.{◌≤◌, vec_len, vec_capacity};
    ghost use Rattle.ob_watch.specs.Watching.{Watch};

    ghost Value = { Watch };

    ghost view = { λ w. record { capacity = w.capacity; kept = w.kept.items; total = w.total } };

    ghost invariant = { λ w. (vec_len w.kept ≤ w.capacity) × (w.capacity ≤ vec_capacity w.kept) };
}

impl FirstEvents {
    /// A watcher that was told nothing and keeps at most `cap` events. Takes all the memory that it will
    /// ever take, and answers `NoMemory` where there is too little.
    pub fn new(alloc: Global, cap: usize) -> Result<FirstEvents, NoMemory>
        ensures { IfOk result (λ w. w ≡ record { capacity = cap; kept = []; total = 0 }) }
    {
        Ok(FirstEvents {
            capacity: cap,
            kept: Vec::with_capacity(alloc, cap)?,
            total: 0,
        })
    }
}

impl Watcher for FirstEvents {
    ghost capacity = { λ w. w.capacity };

    ghost kept = { λ w. w.kept };

    ghost told = { λ w. w.total };

    fn tell(&mut self, e: StrayEvent) {
        if self.kept.len() < self.capacity {
            self.kept.push_reserved(e);
        }
        self.total = self.total.saturating_add(1);
    }

    fn kept_at(&self, i: usize) -> Option<StrayEvent> {
        self.kept.get(i).copied()
    }

    fn total(&self) -> u64 {
        self.total
    }
}
