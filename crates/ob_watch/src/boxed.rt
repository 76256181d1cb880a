use crate::Watcher;
use ob_model::StrayEvent;

impl Watcher for Box<dyn Watcher> {
    ghost capacity = { λ watcher. (Watcher-box watcher).capacity watcher.value };

    ghost kept = { λ watcher. (Watcher-box watcher).kept watcher.value };

    ghost told = { λ watcher. (Watcher-box watcher).told watcher.value };

    fn tell(&mut self, e: StrayEvent) {
        (**self).tell(e)
    }

    fn kept_at(&self, i: usize) -> Option<StrayEvent> {
        (**self).kept_at(i)
    }

    fn total(&self) -> u64 {
        (**self).total()
    }
}
