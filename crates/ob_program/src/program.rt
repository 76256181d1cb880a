ghost use Rattle.std.specs.Prelude.{◌≡◌, ◌≤◌, [], map, string_bytes, false};
ghost use Rattle.ob_base.specs.Devices.{IsUnread, Reading};
ghost use Rattle.ob_model.specs.Settings.{IsFit};
ghost use Rattle.ob_commands.specs.Top.{Answers, ComesOf, IsIdle};
ghost use Rattle.ob_commands.specs.Delivery.{CameFor, CameTo, Delivered};
ghost use Rattle.ob_program.specs.Language.{language};
ghost use Rattle.ob_program.specs.Refusals.{came_of_fault, runs};

use crate::check::check;
use crate::run::run;
use ob_base::{Folder, Sink, Source};
use ob_commands::{Answer, Came, Status, deliver, exec, job_of, migrate};
use ob_maker::Maker;
use ob_settings::{Job, Verb, WordsFault, law_jobs};
use ob_watch::Watcher;
use std::alloc::Global;

/// Whether a command runs a source or an image, on the maker that the job names.
fn runs(verb: Verb) -> bool
    ensures { result ≡ runs verb }
{
    match verb {
        Verb::Run | Verb::Exec => true,
        _ => false,
    }
}

/// Does a job that runs nothing, but for what the error sink is told.
fn perform_alone<F: Folder, K: Sink>(
    alloc: Global,
    job: &Job,
    name: &str,
    folder: &mut F,
    out: &mut K,
) -> Came
    requires alone { runs job.now.verb ≡ false }
    requires named { name.now ≡ job.now.argument }
    ensures { (input : Reading) → IsUnread input → CameFor job.now
        (λ a o. ComesOf language job.now.verb a (record { files = F.files folder.old; faults_before = F.faults folder.old; faults_now = F.faults folder.new }) input o)
        (IsIdle (record { files = F.files folder.old; faults_before = F.faults folder.old; faults_now = F.faults folder.new }) input)
        result
        (record { taken_before = K.taken out.old; taken_now = K.taken out.new; tally_before = K.tally out.old; tally_now = K.tally out.new; faults_before = K.faults out.old; faults_now = K.faults out.new }) }
{
    match job.verb {
        Verb::Check => check(alloc, job, name, folder, out),
        Verb::Migrate => migrate(alloc, job, name, folder, out),
        _ => Came::Due(Answer::NotYet, 0),
    }
}

/// Does a job, but for what the error sink is told, with the maker that it names.
fn perform<F: Folder, S: Source, K: Sink, M: Maker, W: Watcher>(
    alloc: Global,
    job: &Job,
    name: &str,
    maker: &mut M,
    watchers: &mut Vec<W>,
    folder: &mut F,
    input: &mut S,
    out: &mut K,
) -> Came
    requires fit { IsFit job.now.settings }
    requires steps { job.now.steps ≤ 1000000000 }
    requires named { name.now ≡ job.now.argument }
    ensures { CameTo (record { job = job.now; supply = record { cycle = M.cycle maker.old; place = M.place maker.old }; watchers = map (λ w. record { capacity = W.capacity w; kept = W.kept w; total = W.told w }) watchers.old.items })
        (map (λ w. record { capacity = W.capacity w; kept = W.kept w; total = W.told w }) watchers.new.items)
        (λ o. ComesOf language job.now.verb (record { job = job.now; supply = record { cycle = M.cycle maker.old; place = M.place maker.old }; watchers = map (λ w. record { capacity = W.capacity w; kept = W.kept w; total = W.told w }) watchers.old.items }) (record { files = F.files folder.old; faults_before = F.faults folder.old; faults_now = F.faults folder.new }) (record { left_before = S.left input.old; left_now = S.left input.new; faults_before = S.faults input.old; faults_now = S.faults input.new }) o)
        (IsIdle (record { files = F.files folder.old; faults_before = F.faults folder.old; faults_now = F.faults folder.new }) (record { left_before = S.left input.old; left_now = S.left input.new; faults_before = S.faults input.old; faults_now = S.faults input.new }))
        result
        (record { taken_before = K.taken out.old; taken_now = K.taken out.new; tally_before = K.tally out.old; tally_now = K.tally out.new; faults_before = K.faults out.old; faults_now = K.faults out.new }) }
{
    match job.verb {
        Verb::Run => run(alloc, job, name, maker, watchers, folder, out),
        Verb::Exec => exec(alloc, job, name, maker, watchers, folder, input, out),
        _ => perform_alone(alloc, job, name, folder, out),
    }
}

/// Tells the error sink that there is no job to do.
fn refuse<E: Sink>(
    alloc: Global,
    fault: WordsFault,
    watchers: &Vec<Box<dyn Watcher>>,
    err: &mut E,
) -> Status
    ensures { Delivered [] false (map (λ w. record { capacity = capacity w; kept = kept w; total = told w }) watchers.now.items) (came_of_fault fault) (record { taken_before = E.taken err.old; taken_now = E.taken err.new; tally_before = E.tally err.old; tally_now = E.tally err.new; faults_before = E.faults err.old; faults_now = E.faults err.new }) result.code result.instructions }
{
    let came = match fault {
        WordsFault::Usage => Came::Due(Answer::Usage, 0),
        WordsFault::NoMemory => Came::Starved,
    };
    deliver(alloc, "", false, watchers, came, err)
}

/// Does what the words ask for: a command, one argument, and options (`ob_settings::read_words`).
///
/// `run FILE` loads a source from `folder`, compiles it and runs it on `out`. A program that can be compiled
/// so far reads nothing, so no byte of `input` is taken. `exec IMAGE` loads an image, verifies it and runs
/// it on `input` and `out`, with the image's profile where no `--profile` is given. `check FILE` loads a source
/// and writes `ok` and a line feed where it is accepted. `migrate IMAGE` writes an image to `out` in version 2
/// of its format. Manufactured values come from the maker that `--maker`
/// names, the first, second or third of `makers`. Where a run doesn't end by the program's own ending, and
/// where there is none, `err` gets one line that says why; with `--report` it gets behind that of a run what
/// each of the `watchers` was told. Makers and watchers are dropped at the end, after that.
///
/// The status is that of the run's number modulo 128, 0 for `check` and `migrate`, or
///
/// - 128: the words ask for nothing, or for a maker that isn't there.
/// - 129: the folder failed, or has no such file.
/// - 130: the file is too long: over 1,048,576 bytes for a source, over 67,108,864 for an image.
/// - 131: no token can be taken at a place of the source (C99 6.4).
/// - 132: no program goes on with the token at a place, or none ends where the source ends (C99 6.7 to
///   6.9).
/// - 133: a rule of types is broken at a place of the source, which `check` alone looks for (C99 6.5 to 6.9).
/// - 134: only programs that are nested too deep go on with the token at a place; or, for `check`, the static objects or
///   the functions of the source are over a limit.
/// - 135: the file is no image, or its image breaks a rule.
/// - 136: the steps of the run ended.
/// - 137: a division by zero.
/// - 138: the stack was full.
/// - 139, 140: too many pointers out of bounds, or one too far out of bounds.
/// - 141: the run did as many instructions as a run of so many steps may do.
/// - 142: `input` failed, after every byte that was read before was given to the run.
/// - 143: `out` or `err` failed. Each has taken a prefix of what was due to it.
/// - 144: want of memory: before the job was begun, so that nothing was read, written and run; in a run of
///   boundless mode, for a store outside of its object, so that `out` has taken a prefix of what was due to
///   it and `err` nothing; or for a line that names a place and for a report, so that `out` has taken all that
///   was due to it and `err` nothing.
/// - 145: the command or the source can't be done yet.
pub fn top<F: Folder, S: Source, K: Sink, E: Sink>(
    alloc: Global,
    words: Vec<String>,
    folder: &mut F,
    input: &mut S,
    out: &mut K,
    err: &mut E,
    mut makers: Vec<Box<dyn Maker>>,
    mut watchers: Vec<Box<dyn Watcher>>,
) -> Status
    ensures { Answers language
        (record {
          words = map string_bytes words.items;
          makers = map (λ m. record { cycle = cycle m; place = place m }) makers.items;
          watchers = map (λ w. record { capacity = capacity w; kept = kept w; total = told w }) watchers.items;
        })
        (record {
          folder = (record { files = F.files folder.old; faults_before = F.faults folder.old; faults_now = F.faults folder.new });
          input = (record { left_before = S.left input.old; left_now = S.left input.new; faults_before = S.faults input.old; faults_now = S.faults input.new });
          out = (record { taken_before = K.taken out.old; taken_now = K.taken out.new; tally_before = K.tally out.old; tally_now = K.tally out.new; faults_before = K.faults out.old; faults_now = K.faults out.new });
          err = (record { taken_before = E.taken err.old; taken_now = E.taken err.new; tally_before = E.tally err.old; tally_now = E.tally err.new; faults_before = E.faults err.old; faults_now = E.faults err.new });
        })
        result.code result.instructions }
{
    let job = match job_of(alloc, &words, makers.len()) {
        Ok(job) => job,
        Err(fault) => return refuse(alloc, fault, &watchers, err),
    };
    law_jobs();
    let name = words[job.at].as_str();
    if runs(job.verb) {
        let maker = &mut makers[usize::from(job.maker)];
        let came = perform(alloc, &job, name, maker, &mut watchers, folder, input, out);
        deliver(alloc, name, job.report, &watchers, came, err)
    } else {
        let came = perform_alone(alloc, &job, name, folder, out);
        deliver(alloc, name, job.report, &watchers, came, err)
    }
}
