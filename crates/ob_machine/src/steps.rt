ghost use Rattle.std.specs.Prelude.{◌≡◌, ◌<◌, ◌^◌, length, map, vec_capacity};
ghost use Rattle.ob_code.specs.Rules.{IsVerified};
ghost use Rattle.ob_machine.specs.Effects.{HasRoom, IsReady};
ghost use Rattle.ob_machine.specs.Exchanges.{Answers, KnowsEnd, begun, devices};
ghost use Rattle.ob_machine.specs.Executions.{SameRows, does};

use crate::act::Effect;
use crate::execution::Execution;
use crate::ports::{Fault, Ports};
use ob_base::{Sink, Source};
use ob_code::Image;
use ob_maker::Maker;
use ob_model::Ending;
use ob_watch::Watcher;

impl Execution {
    /// Does one instruction.
    #[inline(always)]
    pub(crate) fn step<S: Source, K: Sink, M: Maker, W: Watcher>(
        &mut self,
        image: &Image,
        ports: &mut Ports,
        maker: &mut M,
        watchers: &mut Vec<W>,
        source: &mut S,
        sink: &mut K,
    ) -> Result<Option<Ending>, Fault>
        requires verified { IsVerified image.now }
        requires ready { IsReady image.now self.old }
        requires instructions { self.old.instructions < 2 ^ 63 }
        requires arguments { HasRoom image.now (vec_capacity ports.old.arguments) }
        requires room { length ports.old.output < 4096 }
        requires end { KnowsEnd ports.old.input (S.left source.old) }
        ensures answer { Answers (does image.now self.old.space.settings (M.cycle maker.old)) (begun self.old) self.new (devices ports.old (S.left source.old) (S.faults source.old) (K.taken sink.old) (K.tally sink.old) (K.faults sink.old) (record { cycle = M.cycle maker.old; place = M.place maker.old; seen = map (λ w. record { capacity = W.capacity w; kept = W.kept w; total = W.told w }) watchers.old.items })) (devices ports.new (S.left source.new) (S.faults source.new) (K.taken sink.new) (K.tally sink.new) (K.faults sink.new) (record { cycle = M.cycle maker.new; place = M.place maker.new; seen = map (λ w. record { capacity = W.capacity w; kept = W.kept w; total = W.told w }) watchers.new.items })) result }
        ensures cycle { M.cycle maker.new ≡ M.cycle maker.old }
        ensures rows { SameRows self.old.space self.new.space }
        ensures arguments { vec_capacity ports.new.arguments ≡ vec_capacity ports.old.arguments }
    {
        self.instructions += 1;
        match self.act(image, &mut ports.arguments) {
            Effect::Done(answer) => Ok(answer),
            Effect::Loads {
                kind,
                line,
                a,
                b,
                c,
            } => Ok(self.load(kind, line, a, b, c, maker, watchers)),
            Effect::Stores {
                kind,
                line,
                a,
                b,
                c,
            } => self.store(kind, line, a, b, c, watchers),
            Effect::Frees { line, b } => Ok(self.free(line, b, watchers)),
            Effect::Reads { a } => self.get_char(ports, source, sink, a),
            Effect::Writes { a, b } => Ok(self.put_char(&mut ports.output, a, b)),
        }
    }
}
