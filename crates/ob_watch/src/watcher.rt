ghost use Rattle.std.specs.Prelude.{◌≡◌, ℕ, List, slice_get};
ghost use Rattle.ob_model.specs.declared.strays.StrayEvent.{StrayEvent};
ghost use Rattle.ob_watch.specs.Watching.{kept_after, total_after};

use ob_model::StrayEvent;

/// Somebody who is told each stray access.
pub trait Watcher: Drop {
    /// How many events are kept at most.
    ghost capacity: { Self → ℕ };

    /// The events that are kept: the first ones that were told, in order.
    ghost kept: { Self → List StrayEvent };

    /// How many events were told, up to 2^64 - 1.
    ghost told: { Self → ℕ };

    /// Tells an event. It is kept where there is room, and counted in any case. Takes no memory.
    fn tell(&mut self, e: StrayEvent)
        ensures kept { kept self.new ≡ kept_after (capacity self.old) (kept self.old) e }
        ensures told { told self.new ≡ total_after (told self.old) }
        ensures capacity { capacity self.new ≡ capacity self.old };

    /// The event with number `i` of those that are kept, from 0; `None` exactly where fewer are kept.
    fn kept_at(&self, i: usize) -> Option<StrayEvent>
        ensures { result ≡ slice_get (kept self.now) i };

    /// How many events were told, up to 2^64 - 1.
    fn total(&self) -> u64
        ensures { result ≡ told self.now };
}
