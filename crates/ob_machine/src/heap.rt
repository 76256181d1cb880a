ghost use Rattle.std.specs.Prelude.{◌≡◌, ◌<◌, ◌*◌, ◌^◌};
ghost use Rattle.ob_model.specs.Heap.{place_for};
ghost use Rattle.ob_code.specs.Machine.{allocate, get, ticked};
ghost use Rattle.ob_code.specs.Rules.{IsWritten};
ghost use Rattle.ob_code.specs.State.{goes};
ghost use Rattle.ob_space.specs.Loaded.{heap_place, top_words};
ghost use Rattle.ob_machine.specs.Executions.{Beside, Is, SameRows, state_of};

use crate::execution::Execution;
use ob_model::Ending;

impl Execution {
    /// Sets a word to the address of a new object, or to 0 where no place fits.
    fn allocate(&mut self, n: u128, a: u32)
        requires written { IsWritten (top_words self.old.space) a }
        requires counter { self.old.counter < 2 ^ 32 }
        requires next { self.old.space.space.next < 2 ^ 63 }
        ensures state { (r : Beside) → allocate (heap_place self.old.space n) n a (state_of self.old r) ≡ goes (state_of self.new r) }
        ensures rows { SameRows self.old.space self.new.space }
    {
        let w = match self.space.alloc_object(n) {
            Some(address) => address,
            None => 0,
        };
        self.set_word(a, w);
    }

    /// Takes a step, and sets a word to the address of a new object of as many bytes as word `b` says.
    pub(crate) fn malloc(&mut self, a: u32, b: u32) -> Option<Ending>
        requires written { IsWritten (top_words self.old.space) a }
        requires read { b < top_words self.old.space }
        requires counter { self.old.counter < 2 ^ 32 }
        requires next { self.old.space.space.next < 2 ^ 63 }
        ensures state { (r : Beside) → Is result (ticked self.old.steps (state_of self.old r) (λ t. allocate (place_for t.space.blocks self.old.space.settings.heap (get t b)) (get t b) a t)) self.new r }
        ensures rows { SameRows self.old.space self.new.space }
    {
        if self.steps == 0 {
            return Some(Ending::Steps);
        }
        self.steps -= 1;
        let n = u128::from(self.word(b));
        self.allocate(n, a);
        None
    }

    /// Takes a step, and sets a word to the address of a new object of word `b` times word `c` bytes.
    pub(crate) fn calloc(&mut self, a: u32, b: u32, c: u32) -> Option<Ending>
        requires written { IsWritten (top_words self.old.space) a }
        requires count { b < top_words self.old.space }
        requires size { c < top_words self.old.space }
        requires counter { self.old.counter < 2 ^ 32 }
        requires next { self.old.space.space.next < 2 ^ 63 }
        ensures state { (r : Beside) → Is result (ticked self.old.steps (state_of self.old r) (λ t. allocate (place_for t.space.blocks self.old.space.settings.heap (get t b * get t c)) (get t b * get t c) a t)) self.new r }
        ensures rows { SameRows self.old.space self.new.space }
    {
        if self.steps == 0 {
            return Some(Ending::Steps);
        }
        self.steps -= 1;
        let n = product(self.word(b), self.word(c));
        self.allocate(n, a);
        None
    }
}

fn product(x: u64, y: u64) -> u128
    ensures { result ≡ x * y }
{
    u128::from(x) * u128::from(y)
}
