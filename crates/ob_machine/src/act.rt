ghost use Rattle.std.specs.Prelude.{◌≡◌, ◌+◌, ◌≤◌, ◌<◌, ◌^◌, length, unsigned_abs, Some, slice_get, vec_capacity};
ghost use Rattle.ob_words.specs.declared.types.IntType.TheVariants.{Int};
ghost use Rattle.ob_words.specs.Words.{number};
ghost use Rattle.ob_model.specs.declared.endings.Ending.TheVariants.{Ended};
ghost use Rattle.ob_code.specs.Frames.{function_at, top_function};
ghost use Rattle.ob_code.specs.Machine.{calling, get, on, ticked};
ghost use Rattle.ob_code.specs.Rules.{AreOperandsSound, IsVerified, words_of};
ghost use Rattle.ob_code.specs.State.{goes, stops};
ghost use Rattle.ob_space.specs.Loaded.{top_words};
ghost use Rattle.ob_machine.specs.Effects.{HasEffect, HasRoom, IsReady};
ghost use Rattle.ob_machine.specs.Executions.{Beside, Is, SameRows, state_of, top_number};

use crate::arithmetic::{int_of, natural};
use crate::execution::Execution;
use ob_code::{Image, Instr};
use ob_model::{Ending, LoadKind};
use ob_words::word;

/// What came of an instruction: it was done, and ended the run or not; or it needs a device, to read a
/// byte into word `a`, or to write word `b` and put the byte into word `a`; or it needs a maker or watchers,
/// for an access through word `b`, displaced by word `c`, or to free what word `b` points to.
#[derive(Clone, Copy, Debug)]
pub(crate) enum Effect {
    Done(Option<Ending>),
    Reads {
        a: u32,
    },
    Writes {
        a: u32,
        b: u32,
    },
    Loads {
        kind: LoadKind,
        line: u32,
        a: u32,
        b: u32,
        c: u32,
    },
    Stores {
        kind: LoadKind,
        line: u32,
        a: u32,
        b: u32,
        c: u32,
    },
    Frees {
        line: u32,
        b: u32,
    },
}

impl Execution {
    /// The next instruction.
    #[inline(always)]
    fn fetch(&self, image: &Image) -> Instr
        requires verified { IsVerified image.now }
        requires ready { IsReady image.now self.now }
        ensures is { slice_get image.now.code self.now.counter ≡ Some result }
        ensures operands { AreOperandsSound image.now (top_number self.now.space.space.calls) result }
        ensures words { words_of image.now (top_number self.now.space.space.calls) ≡ top_words self.now.space }
        ensures function { function_at image.now.functions (top_number self.now.space.space.calls) ≡ top_function self.now.space.functions self.now.space.space.calls }
        ensures few { top_words self.now.space < 2 ^ 31 }
        ensures counter { self.now.counter < 2 ^ 31 }
    {
        image.code.as_slice()[self.counter as usize]
    }

    /// Takes a step, where one is left.
    fn tick(&mut self) -> Option<Ending>
        requires { self.old.counter < 2 ^ 32 }
        ensures state { (r : Beside) → Is result (ticked self.old.steps (state_of self.old r) (λ t. goes (on t))) self.new r }
        ensures rows { SameRows self.old.space self.new.space }
    {
        if self.steps == 0 {
            return Some(Ending::Steps);
        }
        self.steps -= 1;
        self.counter += 1;
        None
    }

    /// Takes a step, and calls a function with the words from `b` on.
    fn tick_and_call(
        &mut self,
        image: &Image,
        imm: i64,
        b: u32,
        arguments: &mut Vec<u64>,
    ) -> Option<Ending>
        requires verified { IsVerified image.now }
        requires ready { IsReady image.now self.old }
        requires known { unsigned_abs imm < length image.now.functions }
        requires inside { b + (function_at image.now.functions (unsigned_abs imm)).params ≤ top_words self.old.space }
        requires few { top_words self.old.space < 2 ^ 31 }
        requires room { HasRoom image.now (vec_capacity arguments.old) }
        requires counter { self.old.counter < 2 ^ 32 }
        ensures state { (r : Beside) → Is result (ticked self.old.steps (state_of self.old r) (λ t. calling image.now (unsigned_abs imm) b t)) self.new r }
        ensures rows { SameRows self.old.space self.new.space }
        ensures room { vec_capacity arguments.new ≡ vec_capacity arguments.old }
    {
        if self.steps == 0 {
            return Some(Ending::Steps);
        }
        self.steps -= 1;
        self.call(image, imm.unsigned_abs() as u32, b, arguments)
    }

    /// Takes a step, and ends the run with word `b`.
    fn exit(&mut self, b: u32) -> Option<Ending>
        requires { b < top_words self.old.space }
        ensures state { (r : Beside) → Is result (ticked self.old.steps (state_of self.old r) (λ t. stops (Ended (number Int (get t b))) t)) self.new r }
        ensures rows { SameRows self.old.space self.new.space }
    {
        if self.steps == 0 {
            return Some(Ending::Steps);
        }
        self.steps -= 1;
        Some(Ending::Ended(int_of(self.word(b))))
    }

    /// Does the next instruction, unless it needs a device, a maker or watchers. It takes no memory.
    #[inline(always)]
    pub(crate) fn act(&mut self, image: &Image, arguments: &mut Vec<u64>) -> Effect
        requires verified { IsVerified image.now }
        requires ready { IsReady image.now self.old }
        requires room { HasRoom image.now (vec_capacity arguments.old) }
        ensures effect { HasEffect image.now self.old self.new result }
        ensures rows { SameRows self.old.space self.new.space }
        ensures room { vec_capacity arguments.new ≡ vec_capacity arguments.old }
    {
        Effect::Done(match self.fetch(image) {
            Instr::Tick => self.tick(),
            Instr::Set { a, imm } => {
                self.set_word(a, word(imm as i128));
                None
            }
            Instr::Move { a, b } => {
                let w = self.word(b);
                self.set_word(a, w);
                None
            }
            Instr::Convert { kind, a, b } => {
                self.convert(kind, a, b);
                None
            }
            Instr::Binary {
                kind,
                operator,
                a,
                b,
                c,
            } => self.binary(operator, kind, a, b, c),
            Instr::Compare {
                kind,
                relation,
                a,
                b,
                c,
            } => {
                self.compare(relation, kind, a, b, c);
                None
            }
            Instr::Jump { imm } => {
                self.counter = imm.unsigned_abs();
                None
            }
            Instr::JumpZero { b, imm } => {
                self.jump_zero(b, imm);
                None
            }
            Instr::JumpNonzero { b, imm } => {
                self.jump_nonzero(b, imm);
                None
            }
            Instr::Call { a: _, b, imm } => self.tick_and_call(image, imm, b, arguments),
            Instr::Return { b } => {
                let w = self.word(b);
                self.give_back(image, w)
            }
            Instr::Static { a, imm } => {
                self.take_static(a, natural(imm));
                None
            }
            Instr::Local { a, imm } => {
                self.take_local(a, natural(imm));
                None
            }
            Instr::Wipe { imm } => {
                self.wipe(natural(imm));
                None
            }
            Instr::Load {
                kind,
                line,
                a,
                b,
                c,
            } => {
                return Effect::Loads {
                    kind,
                    line,
                    a,
                    b,
                    c,
                };
            }
            Instr::Store {
                kind,
                line,
                a,
                b,
                c,
            } => {
                return Effect::Stores {
                    kind,
                    line,
                    a,
                    b,
                    c,
                };
            }
            Instr::Slide { a, b, c, imm } => self.slide_by_size(a, b, c, imm),
            Instr::SlideBy { a, b, imm } => self.slide_by_offset(a, b, imm),
            Instr::Shift { a, b, c } => self.shift(a, b, c),
            Instr::Same { a, b, c } => {
                self.same(a, b, c);
                None
            }
            Instr::Order { relation, a, b, c } => {
                self.order(relation, a, b, c);
                None
            }
            Instr::Difference { a, b, c, imm } => {
                self.difference(a, b, c, natural(imm));
                None
            }
            Instr::GetChar { a } => return Effect::Reads { a },
            Instr::PutChar { a, b } => return Effect::Writes { a, b },
            Instr::Malloc { a, b } => self.malloc(a, b),
            Instr::Calloc { a, b, c } => self.calloc(a, b, c),
            Instr::Free { line, b } => return Effect::Frees { line, b },
            Instr::Exit { b } => self.exit(b),
        })
    }
}
