ghost use Rattle.std.specs.Prelude.{◌≡◌, ◌==◌, ◌≤◌, ◌<◌, ◌^◌, length};
ghost use Rattle.ob_words.specs.Words.{word};
ghost use Rattle.ob_words.specs.declared.types.IntType.TheVariants.{Long};
ghost use Rattle.ob_model.specs.Pointers.{difference, pointers_compare};
ghost use Rattle.ob_code.specs.Frames.{top_function};
ghost use Rattle.ob_code.specs.Layout.{local_base, static_base, wiped};
ghost use Rattle.ob_code.specs.Machine.{flag, get, get_number, on, pointer_in, set_shifted, set_word};
ghost use Rattle.ob_code.specs.Pointers.{shift};
ghost use Rattle.ob_code.specs.Rules.{HasStatic, IsWritten};
ghost use Rattle.ob_code.specs.State.{goes};
ghost use Rattle.ob_space.specs.Loaded.{top_words};
ghost use Rattle.ob_machine.specs.Executions.{Beside, Is, SameRows, state_of};

use crate::arithmetic::signed;
use crate::execution::Execution;
use ob_model::Ending;
use ob_space::ShiftAnswer;
use ob_words::{Relation, word};

impl Execution {
    /// Sets a word to the base of a static object.
    pub(crate) fn take_static(&mut self, a: u32, number: u32)
        requires written { IsWritten (top_words self.old.space) a }
        requires exists { HasStatic self.old.space.statics number }
        requires counter { self.old.counter < 2 ^ 32 }
        ensures state { (r : Beside) → set_word (state_of self.old r) a (static_base self.old.space.statics number) ≡ goes (state_of self.new r) }
        ensures rows { SameRows self.old.space self.new.space }
    {
        let w = self.space.static_word(number);
        self.set_word(a, w);
    }

    /// Sets a word to the base of a local object of the innermost call.
    pub(crate) fn take_local(&mut self, a: u32, row: u32)
        requires written { IsWritten (top_words self.old.space) a }
        requires exists { row < length (top_function self.old.space.functions self.old.space.space.calls).locals }
        requires counter { self.old.counter < 2 ^ 32 }
        ensures state { (r : Beside) → set_word (state_of self.old r) a (local_base self.old.space.functions self.old.space.space row) ≡ goes (state_of self.new r) }
        ensures rows { SameRows self.old.space self.new.space }
    {
        let w = self.space.local_word(row);
        self.set_word(a, w);
    }

    /// Makes the granules of a local object of the innermost call zero bytes.
    pub(crate) fn wipe(&mut self, row: u32)
        requires exists { row < length (top_function self.old.space.functions self.old.space.space.calls).locals }
        requires counter { self.old.counter < 2 ^ 32 }
        ensures state { (r : Beside) → on (record (state_of self.old r) { space = wiped self.old.space.functions row self.old.space.space }) ≡ state_of self.new r }
        ensures rows { SameRows self.old.space self.new.space }
    {
        self.space.wipe(row);
        self.counter += 1;
    }

    /// Sets a word to the pointer in word `b`, moved by word `c`.
    pub(crate) fn shift(&mut self, a: u32, b: u32, c: u32) -> Option<Ending>
        requires written { IsWritten (top_words self.old.space) a }
        requires pointer { b < top_words self.old.space }
        requires displacement { c < top_words self.old.space }
        requires counter { self.old.counter < 2 ^ 32 }
        ensures state { (r : Beside) → Is result (set_shifted (shift self.old.space.settings.away self.old.space.space (get (state_of self.old r) b) (get_number Long (state_of self.old r) c)) a (state_of self.old r)) self.new r }
        ensures rows { SameRows self.old.space self.new.space }
    {
        let w = self.word(b);
        let displacement = signed(self.word(c));
        match self.space.shift(w, displacement) {
            Ok(moved) => {
                self.set_word(a, moved);
                None
            }
            Err(ShiftAnswer::Far) => Some(Ending::Far),
            Err(ShiftAnswer::Full) => Some(Ending::Descriptors),
        }
    }

    /// Compares two words.
    pub(crate) fn same(&mut self, a: u32, b: u32, c: u32)
        requires written { IsWritten (top_words self.old.space) a }
        requires left { b < top_words self.old.space }
        requires right { c < top_words self.old.space }
        requires counter { self.old.counter < 2 ^ 32 }
        ensures state { (r : Beside) → set_word (state_of self.old r) a (flag (get (state_of self.old r) b == get (state_of self.old r) c)) ≡ goes (state_of self.new r) }
        ensures rows { SameRows self.old.space self.new.space }
    {
        let holds = self.word(b) == self.word(c);
        self.set_word(a, u64::from(holds));
    }

    /// Compares the pointers in two words.
    pub(crate) fn order(&mut self, relation: Relation, a: u32, b: u32, c: u32)
        requires written { IsWritten (top_words self.old.space) a }
        requires left { b < top_words self.old.space }
        requires right { c < top_words self.old.space }
        requires counter { self.old.counter < 2 ^ 32 }
        ensures state { (r : Beside) → set_word (state_of self.old r) a (flag (pointers_compare relation (pointer_in (state_of self.old r) b) (pointer_in (state_of self.old r) c))) ≡ goes (state_of self.new r) }
        ensures rows { SameRows self.old.space self.new.space }
    {
        let left = self.word(b);
        let right = self.word(c);
        let holds = self.space.order(relation, left, right);
        self.set_word(a, u64::from(holds));
    }

    /// Sets a word to how many elements lie between the pointers in two words.
    pub(crate) fn difference(&mut self, a: u32, b: u32, c: u32, size: u32)
        requires written { IsWritten (top_words self.old.space) a }
        requires left { b < top_words self.old.space }
        requires right { c < top_words self.old.space }
        requires size { 1 ≤ size }
        requires counter { self.old.counter < 2 ^ 32 }
        ensures state { (r : Beside) → set_word (state_of self.old r) a (word (difference size (pointer_in (state_of self.old r) b) (pointer_in (state_of self.old r) c))) ≡ goes (state_of self.new r) }
        ensures rows { SameRows self.old.space self.new.space }
    {
        let left = self.word(b);
        let right = self.word(c);
        let count = self.space.difference(left, right, u64::from(size));
        self.set_word(a, word(count as i128));
    }
}
