ghost use Rattle.std.specs.Prelude.{◌≡◌, ◌≤◌, ◌^◌, length, map};
ghost use Rattle.ob_base.specs.Devices.{IsUnread, Reading};
ghost use Rattle.ob_model.specs.Settings.{IsFit};
ghost use Rattle.ob_commands.specs.Run.{Run};
ghost use Rattle.ob_commands.specs.Top.{IsIdle, OnSource};
ghost use Rattle.ob_commands.specs.Delivery.{CameTo};
ghost use Rattle.ob_program.specs.Language.{language};
ghost use Rattle.ob_program.specs.Refusals.{faulty, refused};

use crate::no_input::NoInput;
use ob_base::{Folder, Sink};
use ob_commands::{Answer, Came, load, run_image};
use ob_first::{Refusal, compile_first};
use ob_maker::Maker;
use ob_settings::Job;
use ob_tree::SourceFault;
use ob_watch::Watcher;
use std::alloc::Global;

/// The most bytes that a source has.
pub(crate) const MOST_SOURCE_BYTES: usize = 1_048_576;

/// What a source with this fault came to.
pub(crate) fn faulty(fault: SourceFault) -> Came
    ensures { result ≡ faulty fault }
{
    match fault {
        SourceFault::NoMemory => Came::Starved,
        _ => Came::Due(Answer::Refused(fault), 0),
    }
}

/// What a source that isn't compiled came to.
fn refused(refusal: Refusal) -> Came
    ensures { result ≡ refused refusal }
{
    match refusal {
        Refusal::Fault(fault) => faulty(fault),
        Refusal::NotYet => Came::Due(Answer::NotYet, 0),
    }
}

/// Compiles a source and runs it, on no input.
fn run_source<K: Sink, M: Maker, W: Watcher>(
    alloc: Global,
    job: &Job,
    bytes: &[u8],
    maker: &mut M,
    watchers: &mut Vec<W>,
    out: &mut K,
) -> Came
    requires fit { IsFit job.now.settings }
    requires steps { job.now.steps ≤ 1000000000 }
    requires short { length bytes.now ≤ 2 ^ 20 }
    ensures { (input : Reading) → IsUnread input → CameTo (record { job = job.now; supply = record { cycle = M.cycle maker.old; place = M.place maker.old }; watchers = map (λ w. record { capacity = W.capacity w; kept = W.kept w; total = W.told w }) watchers.old.items })
        (map (λ w. record { capacity = W.capacity w; kept = W.kept w; total = W.told w }) watchers.new.items)
        (Run language (record { job = job.now; supply = record { cycle = M.cycle maker.old; place = M.place maker.old }; watchers = map (λ w. record { capacity = W.capacity w; kept = W.kept w; total = W.told w }) watchers.old.items }) bytes.now input)
        (IsUnread input)
        result
        (record { taken_before = K.taken out.old; taken_now = K.taken out.new; tally_before = K.tally out.old; tally_now = K.tally out.new; faults_before = K.faults out.old; faults_now = K.faults out.new }) }
{
    match compile_first(alloc, bytes) {
        Ok(image) => run_image(alloc, job, image, maker, watchers, &mut NoInput, out),
        Err(refusal) => refused(refusal),
    }
}

/// Does a job of `run`: the source in the file is compiled and run.
pub(crate) fn run<F: Folder, K: Sink, M: Maker, W: Watcher>(
    alloc: Global,
    job: &Job,
    name: &str,
    maker: &mut M,
    watchers: &mut Vec<W>,
    folder: &mut F,
    out: &mut K,
) -> Came
    requires fit { IsFit job.now.settings }
    requires steps { job.now.steps ≤ 1000000000 }
    requires named { name.now ≡ job.now.argument }
    ensures { (input : Reading) → IsUnread input → CameTo (record { job = job.now; supply = record { cycle = M.cycle maker.old; place = M.place maker.old }; watchers = map (λ w. record { capacity = W.capacity w; kept = W.kept w; total = W.told w }) watchers.old.items })
        (map (λ w. record { capacity = W.capacity w; kept = W.kept w; total = W.told w }) watchers.new.items)
        (λ o. OnSource (record { job = job.now; supply = record { cycle = M.cycle maker.old; place = M.place maker.old }; watchers = map (λ w. record { capacity = W.capacity w; kept = W.kept w; total = W.told w }) watchers.old.items }) (record { files = F.files folder.old; faults_before = F.faults folder.old; faults_now = F.faults folder.new }) input o (λ source. Run language (record { job = job.now; supply = record { cycle = M.cycle maker.old; place = M.place maker.old }; watchers = map (λ w. record { capacity = W.capacity w; kept = W.kept w; total = W.told w }) watchers.old.items }) source input o))
        (IsIdle (record { files = F.files folder.old; faults_before = F.faults folder.old; faults_now = F.faults folder.new }) input)
        result
        (record { taken_before = K.taken out.old; taken_now = K.taken out.new; tally_before = K.tally out.old; tally_now = K.tally out.new; faults_before = K.faults out.old; faults_now = K.faults out.new }) }
{
    match load(alloc, name, MOST_SOURCE_BYTES, folder) {
        Ok(bytes) => run_source(alloc, job, &bytes, maker, watchers, out),
        Err(came) => came,
    }
}
