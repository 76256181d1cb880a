ghost use Rattle.std.specs.Prelude.{map};
ghost use Rattle.ob_commands.specs.Delivery.{Delivered, Told};

use crate::came::Came;
use crate::line::line_of;
use crate::status::Status;
use ob_base::{NoMemory, Sink, write_all};
use ob_watch::Watcher;
use std::alloc::Global;

/// The status for a sink that failed.
const WRITE_FAULT: u8 = 143;

/// The status for want of memory.
const NO_MEMORY: u8 = 144;

/// Writes a line to the error sink, and gives a status, or that of a failed write.
fn tell<E: Sink>(line: &[u8], status: u8, err: &mut E) -> u8
    ensures { Told line.now status (record { taken_before = E.taken err.old; taken_now = E.taken err.new; tally_before = E.tally err.old; tally_now = E.tally err.new; faults_before = E.faults err.old; faults_now = E.faults err.new }) result }
{
    if write_all(err, line).is_err() {
        WRITE_FAULT
    } else {
        status
    }
}

/// Tells the error sink what a job came to: the line of its answer for a file of this name, and behind that
/// of a run the report, where one is asked for. Gives the status: that of the answer, 143 where a sink
/// failed, 144 for want of memory.
pub fn deliver<E: Sink>(
    alloc: Global,
    name: &str,
    asked: bool,
    watchers: &Vec<Box<dyn Watcher>>,
    came: Came,
    err: &mut E,
) -> Status
    ensures { Delivered name.now asked (map (λ w. record { capacity = capacity w; kept = kept w; total = told w }) watchers.now.items) came (record { taken_before = E.taken err.old; taken_now = E.taken err.new; tally_before = E.tally err.old; tally_now = E.tally err.new; faults_before = E.faults err.old; faults_now = E.faults err.new }) result.code result.instructions }
{
    match came {
        Came::Due(answer, count) => match line_of(alloc, name, asked, watchers, answer) {
            Ok(line) => Status::new(tell(line.bytes(), answer.status(), err), count),
            Err(NoMemory) => Status::new(NO_MEMORY, count),
        },
        Came::Cut(count) => Status::new(WRITE_FAULT, count),
        Came::Lost(count) => Status::new(NO_MEMORY, count),
        Came::Starved => Status::new(NO_MEMORY, 0),
    }
}
