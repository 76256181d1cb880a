ghost use Rattle.std.specs.Prelude.{◌≡◌, ◌<◌, ◌≤◌, ◌^◌, ◌%◌, [], length, vec_capacity, IfOk};
ghost use Rattle.ob_code.specs.Machine.{get, get_char, put_char, ticked};
ghost use Rattle.ob_code.specs.Rules.{IsWritten};
ghost use Rattle.ob_space.specs.Loaded.{top_words};
ghost use Rattle.ob_machine.specs.Buffers.{IsUsedUp, nothing_read};
ghost use Rattle.ob_machine.specs.Exchanges.{Answers, KnowsEnd, Puts, Refills, devices};
ghost use Rattle.ob_machine.specs.Executions.{Beside, SameRows, state_of, word_of_byte};
ghost use Rattle.ob_machine.specs.Hearing.{Audience};

use crate::buffers::input::InputBuffer;
use crate::buffers::output::OutputBuffer;
use crate::execution::Execution;
use ob_base::{NoMemory, Sink, Source};
use ob_model::Ending;
use std::alloc::Global;

/// The buffers of a run, and room for the words that a call hands over.
#[derive(Drop)]
pub(crate) struct Ports {
    pub input: InputBuffer,
    pub output: OutputBuffer,
    pub arguments: Vec<u64>,
}

/// The device that failed, or that there was no memory for a store.
#[derive(Clone, Copy, Debug)]
pub(crate) enum Fault {
    Read,
    Write,
    Memory,
}

impl Ports {
    /// Empty buffers, and room for so many words.
    pub(crate) fn new(alloc: Global, room: u32) -> Result<Ports, NoMemory>
        ensures input { IfOk result (λ p. p.input ≡ nothing_read) }
        ensures output { IfOk result (λ p. p.output ≡ []) }
        ensures room { IfOk result (λ p. room ≤ vec_capacity p.arguments) }
    {
        Ok(Ports {
            input: InputBuffer::new(alloc)?,
            output: OutputBuffer::new(alloc)?,
            arguments: Vec::with_capacity(alloc, room as usize)?,
        })
    }

    /// Sends what is pending, and reads once.
    fn refill<S: Source, K: Sink>(&mut self, source: &mut S, sink: &mut K) -> Result<(), Fault>
        requires { IsUsedUp self.old.input }
        ensures answer { (hears : Audience) → Refills (devices self.old (S.left source.old) (S.faults source.old) (K.taken sink.old) (K.tally sink.old) (K.faults sink.old) hears) (devices self.new (S.left source.new) (S.faults source.new) (K.taken sink.new) (K.tally sink.new) (K.faults sink.new) hears) result }
        ensures arguments { self.new.arguments ≡ self.old.arguments }
    {
        if self.output.send(sink).is_err() {
            return Err(Fault::Write);
        }
        if self.input.fill(source).is_err() {
            return Err(Fault::Read);
        }
        Ok(())
    }
}

fn byte_word(byte: Option<u8>) -> u64
    ensures { result ≡ word_of_byte byte }
{
    match byte {
        Some(byte) => u64::from(byte),
        None => u64::MAX,
    }
}

impl Execution {
    /// Takes a step, and reads a byte into word `a`, or -1 at the end of the input.
    pub(crate) fn get_char<S: Source, K: Sink>(
        &mut self,
        ports: &mut Ports,
        source: &mut S,
        sink: &mut K,
        a: u32,
    ) -> Result<Option<Ending>, Fault>
        requires written { IsWritten (top_words self.old.space) a }
        requires counter { self.old.counter < 2 ^ 32 }
        requires end { KnowsEnd ports.old.input (S.left source.old) }
        ensures answer { (hears : Audience) → Answers (λ input_end s. ticked s.steps s (λ t. get_char input_end t.input a t)) self.old self.new (devices ports.old (S.left source.old) (S.faults source.old) (K.taken sink.old) (K.tally sink.old) (K.faults sink.old) hears) (devices ports.new (S.left source.new) (S.faults source.new) (K.taken sink.new) (K.tally sink.new) (K.faults sink.new) hears) result }
        ensures rows { SameRows self.old.space self.new.space }
        ensures arguments { ports.new.arguments ≡ ports.old.arguments }
    {
        if self.steps == 0 {
            return Ok(Some(Ending::Steps));
        }
        self.steps -= 1;
        if ports.input.must_read() {
            if let Err(fault) = ports.refill(source, sink) {
                return Err(fault);
            }
        }
        let w = byte_word(ports.input.next());
        self.set_word(a, w);
        Ok(None)
    }

    /// Takes a step, writes the low byte of word `b`, and puts it into word `a`.
    pub(crate) fn put_char(&mut self, output: &mut OutputBuffer, a: u32, b: u32) -> Option<Ending>
        requires written { IsWritten (top_words self.old.space) a }
        requires read { b < top_words self.old.space }
        requires counter { self.old.counter < 2 ^ 32 }
        requires room { length output.old < 4096 }
        ensures state { (r : Beside) → Puts result output.old output.new (ticked self.old.steps (state_of self.old r) (λ t. put_char (get t b % 256) a t)) self.new r }
        ensures rows { SameRows self.old.space self.new.space }
    {
        if self.steps == 0 {
            return Some(Ending::Steps);
        }
        self.steps -= 1;
        let byte = (self.word(b) % 256) as u8;
        output.push(byte);
        self.set_word(a, u64::from(byte));
        None
    }
}
