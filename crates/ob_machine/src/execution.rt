ghost use Rattle.std.specs.Prelude.{◌≡◌, ◌<◌, ◌≤◌, ◌^◌, ◌+ℤ◌, ◌*ℤ◌, unsigned_abs};
ghost use Rattle.ob_words.specs.Operators.{binary, compare};
ghost use Rattle.ob_words.specs.Words.{word};
ghost use Rattle.ob_words.specs.declared.types.IntType.TheVariants.{Long};
ghost use Rattle.ob_code.specs.Frames.{frame_word};
ghost use Rattle.ob_code.specs.Machine.{at_zero, flag, get, get_number, jump, on, right_number, set_result, set_word, slide};
ghost use Rattle.ob_code.specs.State.{goes};
ghost use Rattle.ob_code.specs.Rules.{IsWritten};
ghost use Rattle.ob_space.specs.Loaded.{top_words};
ghost use Rattle.ob_machine.specs.Executions.{Beside, Is, SameRows, state_of};

use crate::arithmetic::{compared, computed, converted, slid_by_offset, slid_by_size};
use ob_model::Ending;
use ob_space::Space;
use ob_words::{BinOp, IntType, Relation};

/// A run in progress: what memory holds, the place of the next instruction, the steps that are left, and
/// how many instructions were begun.
#[derive(Drop)]
pub(crate) struct Execution {
    pub space: Space,
    pub counter: u64,
    pub steps: u64,
    pub instructions: u64,
}

impl Execution {
    /// A word of the innermost call's frame.
    #[inline(always)]
    pub(crate) fn word(&self, i: u32) -> u64
        requires { i < top_words self.now.space }
        ensures { result ≡ frame_word self.now.space.space i }
    {
        self.space.get_word(i)
    }

    /// Writes a word of that frame, and goes on to the next instruction.
    #[inline(always)]
    pub(crate) fn set_word(&mut self, a: u32, w: u64)
        requires written { IsWritten (top_words self.old.space) a }
        requires counter { self.old.counter < 2 ^ 32 }
        ensures state { (r : Beside) → set_word (state_of self.old r) a w ≡ goes (state_of self.new r) }
        ensures rows { SameRows self.old.space self.new.space }
    {
        self.space.put_word(a, w);
        self.counter += 1;
    }

    /// Converts a word to a type.
    #[inline(always)]
    pub(crate) fn convert(&mut self, t: IntType, a: u32, b: u32)
        requires written { IsWritten (top_words self.old.space) a }
        requires read { b < top_words self.old.space }
        requires counter { self.old.counter < 2 ^ 32 }
        ensures state { (r : Beside) → set_word (state_of self.old r) a (word (get_number t (state_of self.old r) b)) ≡ goes (state_of self.new r) }
        ensures rows { SameRows self.old.space self.new.space }
    {
        let w = converted(t, self.word(b));
        self.set_word(a, w);
    }

    /// Computes with two words in a type.
    #[inline(always)]
    pub(crate) fn binary(
        &mut self,
        operator: BinOp,
        t: IntType,
        a: u32,
        b: u32,
        c: u32,
    ) -> Option<Ending>
        requires written { IsWritten (top_words self.old.space) a }
        requires left { b < top_words self.old.space }
        requires right { c < top_words self.old.space }
        requires counter { self.old.counter < 2 ^ 32 }
        ensures state { (r : Beside) → Is result (set_result (binary operator t (get_number t (state_of self.old r) b) (right_number operator t (get (state_of self.old r) c))) a (state_of self.old r)) self.new r }
        ensures rows { SameRows self.old.space self.new.space }
    {
        let Some(w) = computed(operator, t, self.word(b), self.word(c)) else {
            return Some(Ending::Divide);
        };
        self.set_word(a, w);
        None
    }

    /// Compares two words in a type.
    #[inline(always)]
    pub(crate) fn compare(&mut self, relation: Relation, t: IntType, a: u32, b: u32, c: u32)
        requires written { IsWritten (top_words self.old.space) a }
        requires left { b < top_words self.old.space }
        requires right { c < top_words self.old.space }
        requires counter { self.old.counter < 2 ^ 32 }
        ensures state { (r : Beside) → set_word (state_of self.old r) a (flag (compare relation (get_number t (state_of self.old r) b) (get_number t (state_of self.old r) c))) ≡ goes (state_of self.new r) }
        ensures rows { SameRows self.old.space self.new.space }
    {
        let holds = compared(relation, t, self.word(b), self.word(c));
        self.set_word(a, u64::from(holds));
    }

    /// Sets a word to a displacement plus some times a size.
    pub(crate) fn slide_by_size(&mut self, a: u32, b: u32, c: u32, imm: i64) -> Option<Ending>
        requires written { IsWritten (top_words self.old.space) a }
        requires left { b < top_words self.old.space }
        requires right { c < top_words self.old.space }
        requires size { unsigned_abs imm ≤ 4194304 }
        requires counter { self.old.counter < 2 ^ 32 }
        ensures state { (r : Beside) → Is result (slide (get_number Long (state_of self.old r) b +ℤ imm *ℤ get_number Long (state_of self.old r) c) a (state_of self.old r)) self.new r }
        ensures rows { SameRows self.old.space self.new.space }
    {
        let Some(w) = slid_by_size(self.word(b), imm, self.word(c)) else {
            return Some(Ending::Far);
        };
        self.set_word(a, w);
        None
    }

    /// Sets a word to a displacement plus an offset.
    pub(crate) fn slide_by_offset(&mut self, a: u32, b: u32, imm: i64) -> Option<Ending>
        requires written { IsWritten (top_words self.old.space) a }
        requires left { b < top_words self.old.space }
        requires size { unsigned_abs imm ≤ 4194304 }
        requires counter { self.old.counter < 2 ^ 32 }
        ensures state { (r : Beside) → Is result (slide (get_number Long (state_of self.old r) b +ℤ imm) a (state_of self.old r)) self.new r }
        ensures rows { SameRows self.old.space self.new.space }
    {
        let Some(w) = slid_by_offset(self.word(b), imm) else {
            return Some(Ending::Far);
        };
        self.set_word(a, w);
        None
    }

    /// Goes to a place where word `b` is 0, and else on.
    #[inline(always)]
    pub(crate) fn jump_zero(&mut self, b: u32, imm: i64)
        requires word { b < top_words self.old.space }
        requires counter { self.old.counter < 2 ^ 32 }
        ensures state { (r : Beside) → at_zero (get (state_of self.old r) b) (goes (jump (unsigned_abs imm) (state_of self.old r))) (goes (on (state_of self.old r))) ≡ goes (state_of self.new r) }
        ensures rows { SameRows self.old.space self.new.space }
    {
        if self.word(b) == 0 {
            self.counter = imm.unsigned_abs();
        } else {
            self.counter += 1;
        }
    }

    /// Goes to a place where word `b` isn't 0, and else on.
    #[inline(always)]
    pub(crate) fn jump_nonzero(&mut self, b: u32, imm: i64)
        requires word { b < top_words self.old.space }
        requires counter { self.old.counter < 2 ^ 32 }
        ensures state { (r : Beside) → at_zero (get (state_of self.old r) b) (goes (on (state_of self.old r))) (goes (jump (unsigned_abs imm) (state_of self.old r))) ≡ goes (state_of self.new r) }
        ensures rows { SameRows self.old.space self.new.space }
    {
        if self.word(b) == 0 {
            self.counter += 1;
        } else {
            self.counter = imm.unsigned_abs();
        }
    }
}
