ghost use Rattle.std.specs.Prelude.{◌≡◌, ◌+◌, ◌*◌, ◌<◌, ◌^◌, [], length, map, vec_capacity, IfNone};
ghost use Rattle.ob_code.specs.Machine.{after, runs};
ghost use Rattle.ob_code.specs.Rules.{IsVerified};
ghost use Rattle.ob_code.specs.Start.{started};
ghost use Rattle.ob_machine.specs.Buffers.{nothing_read};
ghost use Rattle.ob_machine.specs.Effects.{HasRoom, IsReady};
ghost use Rattle.ob_machine.specs.Finished.{ComesOut};
ghost use Rattle.ob_machine.specs.Exchanges.{KnowsEnd, RunAnswers, devices};
ghost use Rattle.ob_machine.specs.Executions.{Beside, Is, SameRows, setup, state_of};

use crate::execution::Execution;
use crate::ports::{Fault, Ports};
use ob_base::{Failed, Sink, Source};
use ob_code::Image;
use ob_maker::Maker;
use ob_model::Ending;
use ob_watch::Watcher;

impl Execution {
    /// Takes a step, and calls `main`.
    fn start(&mut self, image: &Image) -> Option<Ending>
        requires verified { IsVerified image.now }
        requires rows { self.old.space.functions ≡ image.now.functions }
        requires statics { self.old.space.statics ≡ image.now.statics }
        requires calls { self.old.space.space.calls ≡ [] }
        requires numbered { self.old.space.space.next + 524288 * self.old.steps < 2 ^ 62 }
        ensures state { (r : Beside) → Is result (started image.now (state_of self.old r)) self.new r }
        ensures ready { IfNone result (IsReady image.now self.new) }
        ensures instructions { self.new.instructions ≡ self.old.instructions }
        ensures rows { SameRows self.old.space self.new.space }
    {
        if self.steps == 0 {
            return Some(Ending::Steps);
        }
        self.steps -= 1;
        self.enter(image, image.main, image.code.as_slice().len() as u64, &[])
    }

    /// Does at most `limit` instructions.
    #[inline(never)]
    fn go<S: Source, K: Sink, M: Maker, W: Watcher>(
        &mut self,
        image: &Image,
        ports: &mut Ports,
        maker: &mut M,
        watchers: &mut Vec<W>,
        source: &mut S,
        sink: &mut K,
        limit: u64,
    ) -> Result<Ending, Fault>
        requires verified { IsVerified image.now }
        requires ready { IsReady image.now self.old }
        requires instructions { self.old.instructions + limit < 2 ^ 63 }
        requires arguments { HasRoom image.now (vec_capacity ports.old.arguments) }
        requires room { length ports.old.output < 4096 }
        requires end { KnowsEnd ports.old.input (S.left source.old) }
        ensures answer { RunAnswers (λ input_end s. runs (setup image.now self.old.space.settings (M.cycle maker.old) input_end) limit s) self.old self.new (devices ports.old (S.left source.old) (S.faults source.old) (K.taken sink.old) (K.tally sink.old) (K.faults sink.old) (record { cycle = M.cycle maker.old; place = M.place maker.old; seen = map (λ w. record { capacity = W.capacity w; kept = W.kept w; total = W.told w }) watchers.old.items })) (devices ports.new (S.left source.new) (S.faults source.new) (K.taken sink.new) (K.tally sink.new) (K.faults sink.new) (record { cycle = M.cycle maker.new; place = M.place maker.new; seen = map (λ w. record { capacity = W.capacity w; kept = W.kept w; total = W.told w }) watchers.new.items })) result }
        ensures cycle { M.cycle maker.new ≡ M.cycle maker.old }
        ensures rows { SameRows self.old.space self.new.space }
        ensures arguments { vec_capacity ports.new.arguments ≡ vec_capacity ports.old.arguments }
    {
        let mut n = limit;
        while n > 0 {
            n -= 1;
            match self.step(image, ports, maker, watchers, source, sink) {
                Ok(None) => {}
                Ok(Some(ending)) => return Ok(ending),
                Err(fault) => return Err(fault),
            }
            if ports.output.is_full() {
                if let Err(Failed) = ports.output.send(sink) {
                    return Err(Fault::Write);
                }
            }
        }
        Ok(Ending::Spent)
    }

    /// Starts a run, and does at most `limit` instructions.
    pub(crate) fn run<S: Source, K: Sink, M: Maker, W: Watcher>(
        &mut self,
        image: &Image,
        ports: &mut Ports,
        maker: &mut M,
        watchers: &mut Vec<W>,
        source: &mut S,
        sink: &mut K,
        limit: u64,
    ) -> Result<Ending, Fault>
        requires verified { IsVerified image.now }
        requires rows { self.old.space.functions ≡ image.now.functions }
        requires statics { self.old.space.statics ≡ image.now.statics }
        requires calls { self.old.space.space.calls ≡ [] }
        requires numbered { self.old.space.space.next + 524288 * self.old.steps < 2 ^ 62 }
        requires instructions { self.old.instructions + limit < 2 ^ 63 }
        requires arguments { HasRoom image.now (vec_capacity ports.old.arguments) }
        requires room { length ports.old.output < 4096 }
        requires end { KnowsEnd ports.old.input (S.left source.old) }
        ensures answer { RunAnswers (λ input_end s. after (started image.now s) (runs (setup image.now self.old.space.settings (M.cycle maker.old) input_end) limit)) self.old self.new (devices ports.old (S.left source.old) (S.faults source.old) (K.taken sink.old) (K.tally sink.old) (K.faults sink.old) (record { cycle = M.cycle maker.old; place = M.place maker.old; seen = map (λ w. record { capacity = W.capacity w; kept = W.kept w; total = W.told w }) watchers.old.items })) (devices ports.new (S.left source.new) (S.faults source.new) (K.taken sink.new) (K.tally sink.new) (K.faults sink.new) (record { cycle = M.cycle maker.new; place = M.place maker.new; seen = map (λ w. record { capacity = W.capacity w; kept = W.kept w; total = W.told w }) watchers.new.items })) result }
        ensures cycle { M.cycle maker.new ≡ M.cycle maker.old }
        ensures rows { SameRows self.old.space self.new.space }
        ensures arguments { vec_capacity ports.new.arguments ≡ vec_capacity ports.old.arguments }
    {
        match self.start(image) {
            Some(ending) => Ok(ending),
            None => self.go(image, ports, maker, watchers, source, sink, limit),
        }
    }

    /// Starts a run, does at most `limit` instructions, and sends what is pending.
    pub(crate) fn run_out<S: Source, K: Sink, M: Maker, W: Watcher>(
        &mut self,
        image: &Image,
        ports: &mut Ports,
        maker: &mut M,
        watchers: &mut Vec<W>,
        source: &mut S,
        sink: &mut K,
        limit: u64,
    ) -> Ending
        requires verified { IsVerified image.now }
        requires rows { self.old.space.functions ≡ image.now.functions }
        requires statics { self.old.space.statics ≡ image.now.statics }
        requires calls { self.old.space.space.calls ≡ [] }
        requires numbered { self.old.space.space.next + 524288 * self.old.steps < 2 ^ 62 }
        requires instructions { self.old.instructions + limit < 2 ^ 63 }
        requires arguments { HasRoom image.now (vec_capacity ports.old.arguments) }
        requires input { ports.old.input ≡ nothing_read }
        requires output { ports.old.output ≡ [] }
        ensures comes { ComesOut (λ input_end s. after (started image.now s) (runs (setup image.now self.old.space.settings (M.cycle maker.old) input_end) limit)) self.old self.new (record { left_before = S.left source.old; left_now = S.left source.new; faults_before = S.faults source.old; faults_now = S.faults source.new }) (record { taken_before = K.taken sink.old; taken_now = K.taken sink.new; tally_before = K.tally sink.old; tally_now = K.tally sink.new; faults_before = K.faults sink.old; faults_now = K.faults sink.new }) (record { cycle = M.cycle maker.old; place_before = M.place maker.old; place_now = M.place maker.new; seen_before = map (λ w. record { capacity = W.capacity w; kept = W.kept w; total = W.told w }) watchers.old.items; seen_now = map (λ w. record { capacity = W.capacity w; kept = W.kept w; total = W.told w }) watchers.new.items }) result }
        ensures cycle { M.cycle maker.new ≡ M.cycle maker.old }
        ensures rows { SameRows self.old.space self.new.space }
        ensures arguments { vec_capacity ports.new.arguments ≡ vec_capacity ports.old.arguments }
    {
        match self.run(image, ports, maker, watchers, source, sink, limit) {
            Ok(ending) => {
                if let Err(Failed) = ports.output.send(sink) {
                    return Ending::WriteFault;
                }
                ending
            }
            Err(Fault::Read) => Ending::ReadFault,
            Err(Fault::Write) => Ending::WriteFault,
            Err(Fault::Memory) => Ending::NoMemory,
        }
    }
}
