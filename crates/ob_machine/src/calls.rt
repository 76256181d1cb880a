ghost use Rattle.std.specs.Prelude.{◌≡◌, ◌+◌, ◌≤◌, ◌<◌, ◌^◌, length, slice_get, vec_capacity};
ghost use Rattle.ob_code.specs.Frames.{function_at, with_words, words_from};
ghost use Rattle.ob_code.specs.Machine.{calling, entering, returned, result_word};
ghost use Rattle.ob_space.specs.Loaded.{top_words};
ghost use Rattle.ob_machine.specs.Executions.{Beside, Is, SameRows, state_of};
ghost use Rattle.ob_machine.specs.Progress.{AreLinked};

use crate::arithmetic::int_of;
use crate::execution::Execution;
use ob_code::{Image, Instr};
use ob_model::Ending;
use ob_space::Space;

/// Gathers words of the innermost call's frame.
fn gather(space: &Space, from: u32, count: u32, words: &mut Vec<u64>)
    requires inside { from + count ≤ top_words space.now }
    requires few { top_words space.now < 2 ^ 32 }
    requires room { count ≤ vec_capacity words.old }
    ensures words { words.new.items ≡ words_from space.now.space from count }
    ensures size { length words.new.items ≡ count }
    ensures room { vec_capacity words.new ≡ vec_capacity words.old }
{
    words.clear();
    for i in 0..count {
        words.push_reserved(space.get_word(from + i));
    }
}

/// Writes words from word 2 of the innermost call's frame on.
fn hand_over(space: &mut Space, words: &[u64])
    requires inside { 2 + length words.now ≤ top_words space.old }
    requires few { 2 + length words.now < 2 ^ 32 }
    ensures { space.new ≡ record space.old { space = with_words space.old.space 2 words.now } }
{
    let mut i = 2;
    for w in words {
        space.put_word(i, *w);
        i += 1;
    }
}

/// The word that the call at a place is to write its result to.
fn named_word(code: &[Instr], at: u64) -> u32
    requires { at < length code.now }
    ensures { result ≡ result_word (slice_get code.now at) }
{
    match code[at as usize] {
        Instr::Call { a, .. } => a,
        _ => 0,
    }
}

impl Execution {
    /// Enters a function with arguments, where the stack has room.
    pub(crate) fn enter(
        &mut self,
        image: &Image,
        f: u32,
        link: u64,
        arguments: &[u64],
    ) -> Option<Ending>
        requires rows { self.old.space.functions ≡ image.now.functions }
        requires known { f < length image.now.functions }
        requires arguments { 2 + length arguments.now ≤ (function_at image.now.functions f).words }
        requires few { (function_at image.now.functions f).words < 2 ^ 32 }
        requires next { self.old.space.space.next < 2 ^ 63 }
        ensures state { (r : Beside) → Is result (entering image.now f link arguments.now (state_of self.old r)) self.new r }
        ensures rows { SameRows self.old.space self.new.space }
        ensures instructions { self.new.instructions ≡ self.old.instructions }
    {
        if self.space.enter(f, link).is_err() {
            return Some(Ending::Stack);
        }
        hand_over(&mut self.space, arguments);
        self.counter = u64::from(image.functions.as_slice()[f as usize].entry);
        None
    }

    /// Calls a function with the words from `b` on.
    pub(crate) fn call(
        &mut self,
        image: &Image,
        f: u32,
        b: u32,
        arguments: &mut Vec<u64>,
    ) -> Option<Ending>
        requires rows { self.old.space.functions ≡ image.now.functions }
        requires known { f < length image.now.functions }
        requires inside { b + (function_at image.now.functions f).params ≤ top_words self.old.space }
        requires few { top_words self.old.space < 2 ^ 32 }
        requires words { 2 + (function_at image.now.functions f).params ≤ (function_at image.now.functions f).words }
        requires few_words { (function_at image.now.functions f).words < 2 ^ 32 }
        requires room { (function_at image.now.functions f).params ≤ vec_capacity arguments.old }
        requires next { self.old.space.space.next < 2 ^ 63 }
        requires counter { self.old.counter < 2 ^ 32 }
        ensures state { (r : Beside) → Is result (calling image.now f b (state_of self.old r)) self.new r }
        ensures rows { SameRows self.old.space self.new.space }
        ensures room { vec_capacity arguments.new ≡ vec_capacity arguments.old }
    {
        let params = image.functions.as_slice()[f as usize].params;
        gather(&self.space, b, params, arguments);
        let link = self.counter + 1;
        self.enter(image, f, link, arguments)
    }

    /// Leaves the innermost call with a result.
    pub(crate) fn give_back(&mut self, image: &Image, w: u64) -> Option<Ending>
        requires rows { self.old.space.functions ≡ image.now.functions }
        requires linked { AreLinked image.now self.old.space.space.calls }
        requires code { length image.now.code < 2 ^ 32 }
        ensures state { (r : Beside) → Is result (returned image.now self.old.space.space.calls w (state_of self.old r)) self.new r }
        ensures rows { SameRows self.old.space self.new.space }
    {
        let code = image.code.as_slice();
        let Some(link) = self.space.leave() else {
            return Some(Ending::Ended(int_of(w)));
        };
        if link == code.len() as u64 {
            return Some(Ending::Ended(int_of(w)));
        }
        self.counter = link - 1;
        let a = named_word(code, self.counter);
        self.set_word(a, w);
        None
    }
}
