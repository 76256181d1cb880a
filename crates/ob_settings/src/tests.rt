//! The reader on rows that were worked out by hand from the table of options.

use crate::{Verb, WordsFault, read_words};
use ob_model::{Mode, Profile};
use std::alloc::{AllocError, Global};
use std::test::Fail;

fn words(alloc: Global, line: &str) -> Result<Vec<String>, AllocError> {
    let mut all = Vec::new(alloc);
    for word in line.split(' ') {
        all.push(String::from_str(alloc, word)?)?;
    }
    Ok(all)
}

// Each line with the place of its argument; 0 where it asks for nothing.
const ROWS: [(&str, usize); 124] = [
    ("run hello.c", 1),
    ("compile hello.c", 1),
    ("exec hello.image", 1),
    ("check hello.c", 1),
    ("audit hello.c", 1),
    ("migrate hello.image", 1),
    ("run", 0),
    ("", 0),
    ("help", 0),
    ("--help", 0),
    ("-h", 0),
    ("run --help", 0),
    ("walk hello.c", 0),
    ("run a.c b.c", 0),
    ("run -a.c", 0),
    ("run -", 1),
    ("run -- -a.c", 2),
    ("run a.c --", 1),
    ("run a.c -- b.c", 0),
    ("run -- --", 2),
    ("run -- a.c --steps 5", 0),
    ("run --", 0),
    ("run --steps=5 a.c", 2),
    ("run --steps 5 a.c", 3),
    ("run a.c --steps 5", 1),
    ("run a.c --steps 5 --steps 6", 0),
    ("run a.c --steps=5 --steps=5", 0),
    ("run a.c --steps", 0),
    ("run a.c --steps=", 0),
    ("run --steps a.c", 0),
    ("run a.c --steps 0", 1),
    ("run a.c --steps 1000000000", 1),
    ("run a.c --steps 1000000001", 0),
    ("run a.c --steps 0000000005", 1),
    ("run a.c --steps 00000000005", 0),
    ("run a.c --steps 5x", 0),
    ("run a.c --steps -5", 0),
    ("run a.c --store 0", 0),
    ("run a.c --store 1", 1),
    ("run a.c --store 1048576", 1),
    ("run a.c --store 1048577", 0),
    ("run a.c --away 0", 1),
    ("run a.c --away 1048576", 1),
    ("run a.c --away 1048577", 0),
    ("run a.c --heap 0", 1),
    ("run a.c --heap 67108864", 1),
    ("run a.c --heap 67108865", 0),
    ("run a.c --mode boundless", 1),
    ("run a.c --mode Boundless", 0),
    ("run a.c --maker count", 1),
    ("run a.c --maker three", 0),
    ("run a.c --profile 2", 1),
    ("run a.c --profile 3", 0),
    ("run a.c --profile 0", 0),
    ("run a.c --report", 1),
    ("run a.c --report --report", 0),
    ("run a.c --report=x", 0),
    ("audit a.c --report", 0),
    ("check a.c --steps 5", 0),
    ("compile a.c --profile 2", 1),
    ("compile a.c --steps 5", 0),
    ("sample 1000 --steps 5", 1),
    ("sample 1001", 0),
    ("sample 0", 0),
    ("run ", 1),
    ("run --steps 5", 0),
    ("run --steps 5 a.c --heap=6", 3),
    ("run a.c --steps 5 b.c", 0),
    ("run a.c -", 0),
    ("run - -", 0),
    ("run -h", 0),
    ("run a.c -h", 0),
    ("run a.c --verbose", 0),
    ("run a.c --Steps 5", 0),
    ("run a.c --step 5", 0),
    ("run a.c -steps 5", 0),
    ("run a.c --steps 5=", 0),
    ("run a.c --steps=-1", 0),
    ("run a.c --steps=+1", 0),
    ("run a.c --steps -- 5", 0),
    ("run a.c --steps=01000000000", 0),
    ("run a.c --steps 9999999999", 0),
    ("run a.c --store=0000000001", 1),
    ("run a.c --store=01048577", 0),
    ("run a.c --store 1 --store=1", 0),
    ("run --away=1 a.c --away 1", 0),
    ("run a.c --away -1", 0),
    ("run a.c --heap=1 --away=1 --heap=1", 0),
    ("run a.c --heap", 0),
    ("run a.c --mode oblivious", 1),
    ("run a.c --mode=oblivious", 1),
    ("run a.c --mode=", 0),
    ("run a.c --mode=bounded", 0),
    ("run a.c --mode=boundless --mode=boundless", 0),
    ("run a.c --maker small", 1),
    ("run a.c --maker=zero", 1),
    ("run a.c --maker=0", 0),
    ("run a.c --maker small --maker zero", 0),
    ("run a.c --profile 1", 1),
    ("run a.c --profile 01", 0),
    ("run a.c --profile=1 --profile 2", 0),
    ("run --report a.c", 2),
    ("run --report --report a.c", 0),
    ("run a.c --report=", 0),
    ("run a.c --report yes", 0),
    ("run a.c --report --", 1),
    ("run -- a.c", 2),
    ("run -- -x.c", 2),
    ("run --steps 5 -- -x.c", 4),
    ("run --steps 5 --", 0),
    ("run a.c --steps --", 0),
    ("sample", 0),
    ("sample 1", 1),
    ("sample 7 8", 0),
    ("sample 0000000007", 1),
    ("sample 00000000007", 0),
    ("sample -7", 0),
    ("sample -- 7", 2),
    ("sample x", 0),
    ("sample ", 0),
    ("migrate", 0),
    ("migrate a b", 0),
    ("Run a.c", 0),
    ("--steps 5 run a.c", 0),
];

#[test]
fn lines(rt: HostRuntime) -> Result<(), Fail> {
    for (line, place) in &ROWS {
        let given = words(rt.alloc(), line)?;
        let at = match read_words(rt.alloc(), &given) {
            Ok(job) => job.at,
            Err(WordsFault::Usage) => 0,
            Err(WordsFault::NoMemory) => 999,
        };
        assert_eq!(&rt; at, *place, "at {line}");
    }
    Ok(())
}

const OPTIONS: [&str; 8] = [
    "--mode=boundless",
    "--steps=5",
    "--store=5",
    "--away=5",
    "--heap=5",
    "--maker=zero",
    "--profile=2",
    "--report",
];

// Each command with an argument, and which of these options it has.
const COMMANDS: [(&str, [bool; 8]); 7] = [
    ("run a", [true, true, true, true, true, true, true, true]),
    ("exec a", [true, true, true, true, true, true, true, true]),
    ("audit a", [true, true, true, true, true, true, true, false]),
    (
        "sample 7",
        [true, true, true, true, true, true, true, false],
    ),
    (
        "compile a",
        [false, false, false, false, false, false, true, false],
    ),
    (
        "check a",
        [false, false, false, false, false, false, false, false],
    ),
    (
        "migrate a",
        [false, false, false, false, false, false, false, false],
    ),
];

#[test]
fn options_of_commands(rt: HostRuntime) -> Result<(), Fail> {
    let alloc = rt.alloc();
    for (line, had) in &COMMANDS {
        for i in 0..8 {
            let mut given = words(alloc, line)?;
            given.push(String::from_str(alloc, OPTIONS[i])?)?;
            let answer = read_words(alloc, &given);
            assert_eq!(&rt; answer.is_ok(), had[i], "{line} {i}");
        }
    }
    Ok(())
}

#[test]
fn defaults(rt: HostRuntime) -> Result<(), Fail> {
    let given = words(rt.alloc(), "run a.c")?;
    let Ok(job) = read_words(rt.alloc(), &given) else {
        assert!(&rt; false, "no job");
        return Ok(());
    };
    assert_eq!(&rt; (job.has_maker(0), job.has_maker(1)), (false, true));
    assert_eq!(&rt; (job.verb, job.at, job.steps), (Verb::Run, 1, 10_000_000));
    assert_eq!(&rt;
        (job.maker, job.report, job.number, job.profile),
        (0, false, 0, 0)
    );
    let settings = job.settings;
    assert_eq!(&rt;
        (settings.mode, settings.profile),
        (Mode::Oblivious, Profile::One)
    );
    assert_eq!(&rt;
        (settings.store, settings.away, settings.heap),
        (65_536, 65_536, 4_194_304)
    );
    Ok(())
}

#[test]
fn number_of_a_sample(rt: HostRuntime) -> Result<(), Fail> {
    let given = words(rt.alloc(), "sample --steps 5 0017")?;
    let Ok(job) = read_words(rt.alloc(), &given) else {
        assert!(&rt; false, "no job");
        return Ok(());
    };
    assert_eq!(&rt; (job.verb, job.number, job.steps), (Verb::Sample, 17, 5));
    assert_eq!(&rt; job.argument.bytes(), b"0017".as_slice());
    Ok(())
}

#[test]
fn whole_job(rt: HostRuntime) -> Result<(), Fail> {
    let line =
        "run --mode=boundless --store 7 a.c --away 8 --heap 9 --steps 10 --maker count --profile 2 --report";
    let given = words(rt.alloc(), line)?;
    let answer = read_words(rt.alloc(), &given);
    assert!(&rt; answer.is_ok());
    let Ok(job) = answer else {
        return Ok(());
    };
    assert_eq!(&rt; (job.has_maker(2), job.has_maker(3)), (false, true));
    assert_eq!(&rt;
        (job.verb, job.at, job.steps, job.maker),
        (Verb::Run, 4, 10, 2)
    );
    assert_eq!(&rt; (job.report, job.number, job.profile), (true, 0, 2));
    assert_eq!(&rt; job.argument.bytes(), b"a.c".as_slice());
    let settings = job.settings;
    assert_eq!(&rt;
        (settings.mode, settings.profile),
        (Mode::Boundless, Profile::Two)
    );
    assert_eq!(&rt; (settings.store, settings.away, settings.heap), (7, 8, 9));
    Ok(())
}
