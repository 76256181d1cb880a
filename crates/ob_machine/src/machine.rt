ghost use Rattle.std.specs.Prelude.{◌≡◌, ◌≤◌, ◌*◌, ◌+◌, ◌<◌, IsTrue, IfOk, [], length, map, vec_capacity};
ghost use Rattle.ob_base.specs.Faults.{Rose};
ghost use Rattle.ob_model.specs.declared.endings.Ending.TheVariants as ending;
ghost use Rattle.ob_model.specs.declared.settings.Mode.TheVariants.{Boundless};
ghost use Rattle.ob_model.specs.Settings.{IsFit};
ghost use Rattle.ob_code.specs.Frames.{function_at};
ghost use Rattle.ob_code.specs.Rules.{name_at};
ghost use Rattle.ob_code.specs.Shown.{top_number};
ghost use Rattle.ob_code.specs.Start.{most_instructions};
ghost use Rattle.ob_code.specs.declared.image.FunctionRow.{FunctionRow};
ghost use Rattle.std.specs.Prelude.{ℕ};
ghost use Rattle.ob_space.specs.Loaded.{loaded as laid_out_for};
ghost use Rattle.ob_machine.specs.Buffers.{nothing_read};
ghost use Rattle.ob_machine.specs.Effects.{HasRoom};
ghost use Rattle.ob_machine.specs.Machines.{Flushes, Runs, loaded, shown_row};

use crate::execution::Execution;
use crate::ports::Ports;
use crate::shown::shown_by;
use ob_base::{NoMemory, Sink, Source};
use ob_code::{FunctionRow, Image, Verified};
use ob_maker::Maker;
use ob_model::{Ending, RunSettings, Shown};
use ob_space::Space;
use ob_watch::Watcher;
use std::alloc::Global;
use std::marker::Model;

/// A machine with an image in its memory. It is seen as the image, the settings, what its memory holds,
/// whether it is fresh, and the number of instructions of its last run.
#[derive(Drop)]
pub struct Machine {
    image: Verified,
    execution: Execution,
    ports: Ports,
    fresh: bool,
}

impl Model for Machine {
    ghost use Rattle.ob_machine.specs.Machines.{MachineState};

    ghost Value = { MachineState };

    ghost use Rattle.ob_machine.specs.Wiring.{IsWired};

    ghost view = { λ m. record { image = m.image; settings = m.execution.space.settings; space = m.execution.space.space; is_fresh = m.fresh; instructions = m.execution.instructions } };

    ghost invariant = { λ m. IsWired m.image m.execution m.ports m.fresh };
}

/// The most parameters that a function has.
fn most_params(functions: &[FunctionRow]) -> u32
    ensures { (f : ℕ) → f < length functions.now → (function_at functions.now f).params ≤ result }
{
    let mut most = 0;
    for function in functions {
        most = most.max(function.params);
    }
    most
}

/// A fresh machine of parts that were just made.
fn joined(image: Verified, space: Space, ports: Ports) -> Machine
    requires space { space ≡ laid_out_for image space.settings }
    requires settings { IsFit space.settings }
    requires input { ports.input ≡ nothing_read }
    requires output { ports.output ≡ [] }
    requires room { HasRoom image (vec_capacity ports.arguments) }
    ensures { result ≡ loaded image space.settings }
{
    Machine {
        image,
        execution: Execution {
            space,
            counter: 0,
            steps: 0,
            instructions: 0,
        },
        ports,
        fresh: true,
    }
}

impl Machine {
    /// A fresh machine with an image: its memory is laid out, and no call is in progress. Takes all the
    /// memory that the machine will ever take, but for granules outside of objects in boundless mode, and
    /// answers `NoMemory` where there is too little.
    pub fn load(alloc: Global, v: Verified, settings: &RunSettings) -> Result<Machine, NoMemory>
        requires { IsFit settings.now }
        ensures { IfOk result (λ machine. machine ≡ loaded v settings.now) }
    {
        let room = most_params(v.image().functions.as_slice());
        let ports = Ports::new(alloc, room)?;
        let space = Space::new(alloc, &v, settings)?;
        Ok(joined(v, space, ports))
    }

    /// The machine's image.
    pub fn image(&self) -> &Image
        ensures { result.now ≡ self.now.image }
    {
        self.image.image()
    }

    /// The number of the innermost call's function, from 0; `None` exactly where no call is in progress.
    pub fn function(&self) -> Option<u32>
        ensures { result ≡ top_number self.now.space.calls }
    {
        self.execution.space.function()
    }

    /// What the variable of a row of the image's names holds, rows counted from 0: a static object, or a
    /// variable of the innermost call. `None` exactly where the variable is one of another function, or of
    /// none that is in progress, and where it is an array or a structure. Tells no event, and takes no
    /// manufactured value.
    pub fn shown(&self, row: u32) -> Option<Shown>
        requires { row < length self.now.image.names }
        ensures { result ≡ shown_row self.now.image self.now.space (name_at self.now.image.names row) }
    {
        shown_by(self.image.image(), &self.execution.space, row)
    }

    /// Whether nothing was run since the machine was loaded or reset. A fresh machine is as `load` gave
    /// it.
    pub fn is_fresh(&self) -> bool
        ensures value { result ≡ self.now.is_fresh }
        ensures fresh { IsTrue result → self.now ≡ loaded self.now.image self.now.settings }
    {
        self.fresh
    }

    /// How many instructions the last run did, the one that ended it included; 0 for a fresh machine.
    pub fn instructions(&self) -> u64
        ensures { result ≡ self.now.instructions }
    {
        self.execution.instructions
    }

    /// Makes the machine fresh, as `load` gave it. Takes no memory.
    pub fn reset(&mut self)
        ensures { self.new ≡ loaded self.old.image self.old.settings }
    {
        self.execution.space.clear();
        self.execution.counter = 0;
        self.execution.steps = 0;
        self.execution.instructions = 0;
        self.ports.input.clear();
        self.ports.output.clear();
        self.fresh = true;
    }

    /// Runs the image on the bytes of `input`, and gives its output to `out`; `steps` is at most 10^9, and
    /// the machine is fresh. Afterwards it isn't. Each stray access is told to each of the watchers once, in
    /// the order of the run; loads that find nothing take the maker's next values. Takes memory only in
    /// boundless mode, at a store outside of its object.
    ///
    /// Bytes are read up to 4,096 at a time, so that more may be read than the program took; after the end
    /// of the input no read is made. Output is written in pieces of 4,096 bytes, before each read, and at
    /// the end: a prompt comes before the wait for its answer (C99 5.1.2.3 and 7.19.3). Where a read
    /// fails, the run ends with `ReadFault` once the program took all that was read before. Where a write
    /// fails, it ends with `WriteFault`, and `out` has taken a prefix of the output; all that the program
    /// wrote before the last bytes were read is in it. `NoMemory` comes only in boundless mode, where there
    /// is no memory for a granule outside of an object; the store was told, `out` has taken a prefix of the
    /// output, and what was pending isn't written. `Spent` comes exactly where
    /// `(instructions in the code + 1) * (steps + 1)` instructions were done and none of them ended the run.
    pub fn run<S: Source, K: Sink, M: Maker, W: Watcher>(
        &mut self,
        steps: u64,
        maker: &mut M,
        watchers: &mut Vec<W>,
        input: &mut S,
        out: &mut K,
    ) -> Ending
        requires fresh { IsTrue self.old.is_fresh }
        requires steps { steps ≤ 1000000000 }
        ensures run { Runs self.old self.new steps result (record { left_before = S.left input.old; left_now = S.left input.new; faults_before = S.faults input.old; faults_now = S.faults input.new }) (record { taken_before = K.taken out.old; taken_now = K.taken out.new; tally_before = K.tally out.old; tally_now = K.tally out.new; faults_before = K.faults out.old; faults_now = K.faults out.new }) (record { cycle = M.cycle maker.old; place_before = M.place maker.old; place_now = M.place maker.new; seen_before = map (λ w. record { capacity = W.capacity w; kept = W.kept w; total = W.told w }) watchers.old.items; seen_now = map (λ w. record { capacity = W.capacity w; kept = W.kept w; total = W.told w }) watchers.new.items }) }
        ensures flush { Flushes self.old steps result (record { left_before = S.left input.old; left_now = S.left input.new; faults_before = S.faults input.old; faults_now = S.faults input.new }) (record { taken_before = K.taken out.old; taken_now = K.taken out.new; tally_before = K.tally out.old; tally_now = K.tally out.new; faults_before = K.faults out.old; faults_now = K.faults out.new }) (record { cycle = M.cycle maker.old; place_before = M.place maker.old; place_now = M.place maker.new; seen_before = map (λ w. record { capacity = W.capacity w; kept = W.kept w; total = W.told w }) watchers.old.items; seen_now = map (λ w. record { capacity = W.capacity w; kept = W.kept w; total = W.told w }) watchers.new.items }) }
        ensures cycle { M.cycle maker.new ≡ M.cycle maker.old }
        ensures read_fault { result ≡ ending.ReadFault → Rose (S.faults input.old) (S.faults input.new) }
        ensures write_fault { result ≡ ending.WriteFault → Rose (K.faults out.old) (K.faults out.new) }
        ensures memory { result ≡ ending.NoMemory → self.old.settings.mode ≡ Boundless }
        ensures bound { self.new.instructions ≤ most_instructions self.old.image steps }
    {
        let image = self.image.image();
        let limit = (image.code.as_slice().len() as u64 + 1) * (steps + 1);
        self.fresh = false;
        self.execution.steps = steps;
        let ending = self
            .execution
            .run_out(image, &mut self.ports, maker, watchers, input, out, limit);
        maker.stands();
        ending
    }
}
