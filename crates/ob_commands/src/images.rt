ghost use Rattle.std.specs.Prelude.{◌≡◌, ◌≤◌, map, MatchResult};
ghost use Rattle.ob_base.specs.Devices.{IsUnread, Reading};
ghost use Rattle.ob_model.specs.Settings.{IsFit};
ghost use Rattle.ob_code.specs.Rules.{IsVerified};
ghost use Rattle.ob_image.specs.Faults.{Spells};
ghost use Rattle.ob_settings.specs.declared.job.Job.{Job as JobValue};
ghost use Rattle.ob_commands.specs.Exec.{Exec};
ghost use Rattle.ob_commands.specs.Migrate.{Migrate};
ghost use Rattle.ob_commands.specs.Top.{IsIdle, OnImage};
ghost use Rattle.ob_commands.specs.Delivery.{CameFor, CameTo, IsNoImage};

use crate::answer::Answer;
use crate::came::Came;
use crate::files::load;
use crate::running::run_image;
use crate::writing::written;
use ob_base::{Folder, NoMemory, Sink, Source};
use ob_code::{BadImage, Part, Verified, verify};
use ob_image::{ImageFault, read_image, write_image};
use ob_maker::Maker;
use ob_settings::Job;
use ob_watch::Watcher;
use std::alloc::Global;

/// The most bytes that an image file has.
const MOST_IMAGE_BYTES: usize = 67_108_864;

/// The image that the bytes spell, which keeps every rule; or what it came to that there is none.
fn image_of(alloc: Global, bytes: &[u8]) -> Result<Verified, Came>
    ensures { MatchResult result (λ image. Spells bytes.now image × IsVerified image) (IsNoImage bytes.now) }
{
    let image = match read_image(alloc, bytes) {
        Ok(image) => image,
        Err(ImageFault::At(at)) => {
            let part = Part::Bytes;
            return Err(Came::Due(Answer::Bad(BadImage { part, at }), 0));
        }
        Err(ImageFault::NoMemory) => return Err(Came::Starved),
    };
    match verify(image) {
        Ok(image) => Ok(image),
        Err(bad) => Err(Came::Due(Answer::Bad(bad), 0)),
    }
}

/// Verifies the image that the bytes spell, and runs it.
fn exec_bytes<S: Source, K: Sink, M: Maker, W: Watcher>(
    alloc: Global,
    job: &Job,
    bytes: &[u8],
    maker: &mut M,
    watchers: &mut Vec<W>,
    input: &mut S,
    out: &mut K,
) -> Came
    requires fit { IsFit job.now.settings }
    requires steps { job.now.steps ≤ 1000000000 }
    ensures { CameTo (record { job = job.now; supply = record { cycle = M.cycle maker.old; place = M.place maker.old }; watchers = map (λ w. record { capacity = W.capacity w; kept = W.kept w; total = W.told w }) watchers.old.items })
        (map (λ w. record { capacity = W.capacity w; kept = W.kept w; total = W.told w }) watchers.new.items)
        (Exec (record { job = job.now; supply = record { cycle = M.cycle maker.old; place = M.place maker.old }; watchers = map (λ w. record { capacity = W.capacity w; kept = W.kept w; total = W.told w }) watchers.old.items }) bytes.now (record { left_before = S.left input.old; left_now = S.left input.new; faults_before = S.faults input.old; faults_now = S.faults input.new }))
        (IsUnread (record { left_before = S.left input.old; left_now = S.left input.new; faults_before = S.faults input.old; faults_now = S.faults input.new }))
        result
        (record { taken_before = K.taken out.old; taken_now = K.taken out.new; tally_before = K.tally out.old; tally_now = K.tally out.new; faults_before = K.faults out.old; faults_now = K.faults out.new }) }
{
    match image_of(alloc, bytes) {
        Ok(image) => run_image(alloc, job, image, maker, watchers, input, out),
        Err(came) => came,
    }
}

/// Does a job of `exec`: the image in the file is verified and run.
pub fn exec<F: Folder, S: Source, K: Sink, M: Maker, W: Watcher>(
    alloc: Global,
    job: &Job,
    name: &str,
    maker: &mut M,
    watchers: &mut Vec<W>,
    folder: &mut F,
    input: &mut S,
    out: &mut K,
) -> Came
    requires fit { IsFit job.now.settings }
    requires steps { job.now.steps ≤ 1000000000 }
    requires named { name.now ≡ job.now.argument }
    ensures { CameTo (record { job = job.now; supply = record { cycle = M.cycle maker.old; place = M.place maker.old }; watchers = map (λ w. record { capacity = W.capacity w; kept = W.kept w; total = W.told w }) watchers.old.items })
        (map (λ w. record { capacity = W.capacity w; kept = W.kept w; total = W.told w }) watchers.new.items)
        (λ o. OnImage (record { job = job.now; supply = record { cycle = M.cycle maker.old; place = M.place maker.old }; watchers = map (λ w. record { capacity = W.capacity w; kept = W.kept w; total = W.told w }) watchers.old.items }) (record { files = F.files folder.old; faults_before = F.faults folder.old; faults_now = F.faults folder.new }) (record { left_before = S.left input.old; left_now = S.left input.new; faults_before = S.faults input.old; faults_now = S.faults input.new }) o (λ bytes. Exec (record { job = job.now; supply = record { cycle = M.cycle maker.old; place = M.place maker.old }; watchers = map (λ w. record { capacity = W.capacity w; kept = W.kept w; total = W.told w }) watchers.old.items }) bytes (record { left_before = S.left input.old; left_now = S.left input.new; faults_before = S.faults input.old; faults_now = S.faults input.new }) o))
        (IsIdle (record { files = F.files folder.old; faults_before = F.faults folder.old; faults_now = F.faults folder.new }) (record { left_before = S.left input.old; left_now = S.left input.new; faults_before = S.faults input.old; faults_now = S.faults input.new }))
        result
        (record { taken_before = K.taken out.old; taken_now = K.taken out.new; tally_before = K.tally out.old; tally_now = K.tally out.new; faults_before = K.faults out.old; faults_now = K.faults out.new }) }
{
    match load(alloc, name, MOST_IMAGE_BYTES, folder) {
        Ok(bytes) => exec_bytes(alloc, job, &bytes, maker, watchers, input, out),
        Err(came) => came,
    }
}

/// Writes the image that the bytes spell in version 2.
fn migrate_bytes<K: Sink>(alloc: Global, bytes: &[u8], out: &mut K) -> Came
    ensures { (job : JobValue) (input : Reading) → IsUnread input → CameFor job
        (λ a o. Migrate a bytes.now input o)
        (IsUnread input)
        result
        (record { taken_before = K.taken out.old; taken_now = K.taken out.new; tally_before = K.tally out.old; tally_now = K.tally out.new; faults_before = K.faults out.old; faults_now = K.faults out.new }) }
{
    let image = match image_of(alloc, bytes) {
        Ok(image) => image,
        Err(came) => return came,
    };
    match write_image(alloc, &image) {
        Ok(spelling) => written(&spelling, out),
        Err(NoMemory) => Came::Starved,
    }
}

/// Does a job of `migrate`: the image in the file is written in version 2.
pub fn migrate<F: Folder, K: Sink>(
    alloc: Global,
    job: &Job,
    name: &str,
    folder: &mut F,
    out: &mut K,
) -> Came
    requires { name.now ≡ job.now.argument }
    ensures { (input : Reading) → IsUnread input → CameFor job.now
        (λ a o. OnImage a (record { files = F.files folder.old; faults_before = F.faults folder.old; faults_now = F.faults folder.new }) input o (λ bytes. Migrate a bytes input o))
        (IsIdle (record { files = F.files folder.old; faults_before = F.faults folder.old; faults_now = F.faults folder.new }) input)
        result
        (record { taken_before = K.taken out.old; taken_now = K.taken out.new; tally_before = K.tally out.old; tally_now = K.tally out.new; faults_before = K.faults out.old; faults_now = K.faults out.new }) }
{
    match load(alloc, name, MOST_IMAGE_BYTES, folder) {
        Ok(bytes) => migrate_bytes(alloc, &bytes, out),
        Err(came) => came,
    }
}
