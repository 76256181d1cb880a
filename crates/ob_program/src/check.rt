ghost use Rattle.std.specs.Prelude.{◌≡◌, ◌≤◌, ◌^◌, length};
ghost use Rattle.ob_base.specs.Devices.{IsUnread, Reading};
ghost use Rattle.ob_settings.specs.declared.job.Job.{Job as JobValue};
ghost use Rattle.ob_commands.specs.Check.{Check};
ghost use Rattle.ob_commands.specs.Top.{IsIdle, OnSource};
ghost use Rattle.ob_commands.specs.Delivery.{CameFor};
ghost use Rattle.ob_program.specs.Language.{whole_sources};

use crate::run::{MOST_SOURCE_BYTES, faulty};
use ob_base::{Folder, Sink};
use ob_commands::{Came, load, written};
use ob_compile::examine;
use ob_settings::Job;
use std::alloc::Global;

/// Writes `ok` where the source is accepted.
fn check_source<K: Sink>(alloc: Global, bytes: &[u8], out: &mut K) -> Came
    requires { length bytes.now ≤ 2 ^ 20 }
    ensures { (job : JobValue) (input : Reading) → IsUnread input → CameFor job
        (λ a o. Check whole_sources a bytes.now input o)
        (IsUnread input)
        result
        (record { taken_before = K.taken out.old; taken_now = K.taken out.new; tally_before = K.tally out.old; tally_now = K.tally out.new; faults_before = K.faults out.old; faults_now = K.faults out.new }) }
{
    match examine(alloc, bytes) {
        Ok(()) => written(b"ok\n", out),
        Err(fault) => faulty(fault),
    }
}

/// Does a job of `check`: the source in the file is compiled as far as its faults go.
pub(crate) fn check<F: Folder, K: Sink>(
    alloc: Global,
    job: &Job,
    name: &str,
    folder: &mut F,
    out: &mut K,
) -> Came
    requires { name.now ≡ job.now.argument }
    ensures { (input : Reading) → IsUnread input → CameFor job.now
        (λ a o. OnSource a (record { files = F.files folder.old; faults_before = F.faults folder.old; faults_now = F.faults folder.new }) input o (λ source. Check whole_sources a source input o))
        (IsIdle (record { files = F.files folder.old; faults_before = F.faults folder.old; faults_now = F.faults folder.new }) input)
        result
        (record { taken_before = K.taken out.old; taken_now = K.taken out.new; tally_before = K.tally out.old; tally_now = K.tally out.new; faults_before = K.faults out.old; faults_now = K.faults out.new }) }
{
    match load(alloc, name, MOST_SOURCE_BYTES, folder) {
        Ok(bytes) => check_source(alloc, &bytes, out),
        Err(came) => came,
    }
}
