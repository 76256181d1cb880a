ghost use Rattle.std.specs.Prelude.{◌≡◌, map, length};
ghost use Rattle.ob_watch.specs.Watching.{after_event};
ghost use Rattle.ob_telling.specs.Telling.{watches_after};

use ob_model::StrayEvent;
use ob_watch::Watcher;

fn tell_one<W: Watcher>(watcher: &mut W, e: StrayEvent)
    ensures { record { capacity = W.capacity watcher.new; kept = W.kept watcher.new; total = W.told watcher.new } ≡ after_event (record { capacity = W.capacity watcher.old; kept = W.kept watcher.old; total = W.told watcher.old }) e }
{
    watcher.tell(e);
}

fn tell_all<W: Watcher>(watchers: &mut Vec<W>, e: StrayEvent)
    ensures told { map (λ w. record { capacity = W.capacity w; kept = W.kept w; total = W.told w }) watchers.new.items ≡ map (λ w. after_event w e) (map (λ w. record { capacity = W.capacity w; kept = W.kept w; total = W.told w }) watchers.old.items) }
    ensures length { length watchers.new.items ≡ length watchers.old.items }
{
    for i in 0..watchers.len() {
        tell_one(&mut watchers[i], e);
    }
}

/// Tells an event to each watcher once, in order, where there is one.
pub fn tell_each<W: Watcher>(watchers: &mut Vec<W>, e: Option<StrayEvent>)
    ensures told { map (λ w. record { capacity = W.capacity w; kept = W.kept w; total = W.told w }) watchers.new.items ≡ watches_after e (map (λ w. record { capacity = W.capacity w; kept = W.kept w; total = W.told w }) watchers.old.items) }
    ensures length { length watchers.new.items ≡ length watchers.old.items }
{
    if let Some(e) = e {
        tell_all(watchers, e);
    }
}
