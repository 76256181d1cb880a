ghost use Rattle.std.specs.Prelude.{◌≡◌, ◌≤◌, map};
ghost use Rattle.ob_base.specs.Devices.{IsUnread};
ghost use Rattle.ob_model.specs.Settings.{IsFit};
ghost use Rattle.ob_commands.specs.Parts.{RunsOn, settings_for};
ghost use Rattle.ob_commands.specs.Delivery.{CameTo};

use crate::came::Came;
use ob_base::{Sink, Source};
use ob_code::{Verified, law_endings};
use ob_machine::Machine;
use ob_maker::Maker;
use ob_model::{Profile, RunSettings};
use ob_settings::Job;
use ob_watch::Watcher;
use std::alloc::Global;

/// A job's settings, with the image's profile where the job names none.
fn settings_for(job: &Job, profile: Profile) -> RunSettings
    ensures { result ≡ settings_for job.now profile }
{
    if job.profile == 0 {
        RunSettings {
            profile,
            ..job.settings
        }
    } else {
        job.settings
    }
}

/// Runs an image on the input, with a maker of manufactured values and watchers of stray accesses.
pub fn run_image<S: Source, K: Sink, M: Maker, W: Watcher>(
    alloc: Global,
    job: &Job,
    image: Verified,
    maker: &mut M,
    watchers: &mut Vec<W>,
    input: &mut S,
    out: &mut K,
) -> Came
    requires fit { IsFit job.now.settings }
    requires steps { job.now.steps ≤ 1000000000 }
    ensures { CameTo (record { job = job.now; supply = record { cycle = M.cycle maker.old; place = M.place maker.old }; watchers = map (λ w. record { capacity = W.capacity w; kept = W.kept w; total = W.told w }) watchers.old.items })
        (map (λ w. record { capacity = W.capacity w; kept = W.kept w; total = W.told w }) watchers.new.items)
        (RunsOn (record { job = job.now; supply = record { cycle = M.cycle maker.old; place = M.place maker.old }; watchers = map (λ w. record { capacity = W.capacity w; kept = W.kept w; total = W.told w }) watchers.old.items }) image (record { left_before = S.left input.old; left_now = S.left input.new; faults_before = S.faults input.old; faults_now = S.faults input.new }))
        (IsUnread (record { left_before = S.left input.old; left_now = S.left input.new; faults_before = S.faults input.old; faults_now = S.faults input.new }))
        result
        (record { taken_before = K.taken out.old; taken_now = K.taken out.new; tally_before = K.tally out.old; tally_now = K.tally out.new; faults_before = K.faults out.old; faults_now = K.faults out.new }) }
{
    law_endings();
    let settings = settings_for(job, image.image().profile);
    let Ok(mut machine) = Machine::load(alloc, image, &settings) else {
        return Came::Starved;
    };
    let ending = machine.run(job.steps, maker, watchers, input, out);
    Came::of_run(ending, machine.instructions())
}
