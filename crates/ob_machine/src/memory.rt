ghost use Rattle.std.specs.Prelude.{◌<◌, ◌^◌, ℕ, List, map};
ghost use Rattle.ob_words.specs.declared.types.IntType.TheVariants.{Long};
ghost use Rattle.ob_model.specs.Accesses.{bytes_of_kind};
ghost use Rattle.ob_code.specs.Accesses.{access};
ghost use Rattle.ob_code.specs.Allocation.{freeing};
ghost use Rattle.ob_code.specs.Machine.{free, get, get_number, load, store, target, ticked};
ghost use Rattle.ob_code.specs.Rules.{IsWritten};
ghost use Rattle.ob_space.specs.Loaded.{top_words};
ghost use Rattle.ob_machine.specs.Executions.{SameRows};
ghost use Rattle.ob_machine.specs.Hearing.{Heard, HeardOrLacks};

use crate::arithmetic::signed;
use crate::execution::Execution;
use crate::ports::Fault;
use ob_maker::Maker;
use ob_model::{Ending, LoadKind};
use ob_space::StoreAnswer;
use ob_watch::Watcher;

impl Execution {
    /// Loads through the pointer in word `b`, displaced by word `c`, into word `a`.
    pub(crate) fn load<M: Maker, W: Watcher>(
        &mut self,
        kind: LoadKind,
        line: u32,
        a: u32,
        b: u32,
        c: u32,
        maker: &mut M,
        watchers: &mut Vec<W>,
    ) -> Option<Ending>
        requires written { IsWritten (top_words self.old.space) a }
        requires pointer { b < top_words self.old.space }
        requires displacement { c < top_words self.old.space }
        requires counter { self.old.counter < 2 ^ 32 }
        ensures heard { Heard (λ u s. load (access u.settings.mode s.space (get s b) (get_number Long s c) (bytes_of_kind kind)) u kind line a s) result self.old self.new (record { cycle = M.cycle maker.old; place = M.place maker.old; seen = map (λ w. record { capacity = W.capacity w; kept = W.kept w; total = W.told w }) watchers.old.items }) (record { cycle = M.cycle maker.new; place = M.place maker.new; seen = map (λ w. record { capacity = W.capacity w; kept = W.kept w; total = W.told w }) watchers.new.items }) }
        ensures rows { SameRows self.old.space self.new.space }
    {
        let w = self.word(b);
        let displacement = signed(self.word(c));
        let Ok(value) = self
            .space
            .load(w, displacement, kind, line, maker, watchers)
        else {
            return Some(Ending::Far);
        };
        self.set_word(a, value);
        None
    }

    /// Stores word `a` through the pointer in word `b`, displaced by word `c`.
    pub(crate) fn store<W: Watcher>(
        &mut self,
        kind: LoadKind,
        line: u32,
        a: u32,
        b: u32,
        c: u32,
        watchers: &mut Vec<W>,
    ) -> Result<Option<Ending>, Fault>
        requires value { a < top_words self.old.space }
        requires pointer { b < top_words self.old.space }
        requires displacement { c < top_words self.old.space }
        requires counter { self.old.counter < 2 ^ 32 }
        ensures heard { (cycle : List ℕ) (place : ℕ) → HeardOrLacks (λ u s. store (access u.settings.mode s.space (get s b) (get_number Long s c) (bytes_of_kind kind)) u kind line (get s a) s) result self.old self.new (record { cycle = cycle; place = place; seen = map (λ w. record { capacity = W.capacity w; kept = W.kept w; total = W.told w }) watchers.old.items }) (record { cycle = cycle; place = place; seen = map (λ w. record { capacity = W.capacity w; kept = W.kept w; total = W.told w }) watchers.new.items }) }
        ensures rows { SameRows self.old.space self.new.space }
    {
        let value = self.word(a);
        let w = self.word(b);
        let displacement = signed(self.word(c));
        match self
            .space
            .store(w, displacement, kind, value, line, watchers)
        {
            Ok(()) => {
                self.counter += 1;
                Ok(None)
            }
            Err(StoreAnswer::Far) => Ok(Some(Ending::Far)),
            Err(StoreAnswer::NoMemory) => Err(Fault::Memory),
        }
    }

    /// Takes a step, and frees what word `b` points to.
    pub(crate) fn free<W: Watcher>(
        &mut self,
        line: u32,
        b: u32,
        watchers: &mut Vec<W>,
    ) -> Option<Ending>
        requires pointer { b < top_words self.old.space }
        requires counter { self.old.counter < 2 ^ 32 }
        ensures heard { (cycle : List ℕ) (place : ℕ) → Heard (λ u s. ticked s.steps s (λ t. free u.settings.profile (freeing (target t b)) line t)) result self.old self.new (record { cycle = cycle; place = place; seen = map (λ w. record { capacity = W.capacity w; kept = W.kept w; total = W.told w }) watchers.old.items }) (record { cycle = cycle; place = place; seen = map (λ w. record { capacity = W.capacity w; kept = W.kept w; total = W.told w }) watchers.new.items }) }
        ensures rows { SameRows self.old.space self.new.space }
    {
        if self.steps == 0 {
            return Some(Ending::Steps);
        }
        self.steps -= 1;
        let w = self.word(b);
        self.space.free(w, line, watchers);
        self.counter += 1;
        None
    }
}
