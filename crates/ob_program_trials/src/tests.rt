//! The program over devices in memory: rows of a table where the devices don't fail, and one test
//! for each way in which one fails.
ghost use Rattle.std.specs.Prelude.{◌<◌};

mod checks;
mod exec;
mod faults;
mod forms;
mod images;

use ob_base::{Folder, MemFolder, MemSink, MemSource, NoMemory, Sink, Source};
use ob_maker::{Count, Maker, Small, Zero};
use ob_program::top;
use ob_watch::{Counter, FirstEvents, Watcher};
use std::alloc::{AllocError, Global};
use std::test::Fail;

pub(crate) const HELLO: &[u8] = b"int main(void){putchar(72);putchar(105);return 3;}";

pub(crate) const ROOM: usize = 1_048_576;

/// What the program did: its status, its number of instructions, and what the sinks took.
#[derive(Drop)]
pub(crate) struct Ran {
    pub status: u8,
    pub instructions: u64,
    pub out: String,
    pub err: String,
}

/// The devices of a run: what the input gives, which calls fail, and how many bytes a call takes or gives at
/// most.
#[derive(Drop)]
pub(crate) struct Devices<'a> {
    pub input: &'a [u8],
    pub loads: &'a [u64],
    pub reads: &'a [u64],
    pub outs: &'a [u64],
    pub errs: &'a [u64],
    pub most: usize,
    ghost some: { 0 < most },
}

/// Devices that don't fail, but for the first read.
pub(crate) fn sound<'a>() -> Devices<'a> {
    Devices {
        input: b"",
        loads: &[],
        reads: &[0],
        outs: &[],
        errs: &[],
        most: 4096,
    }
}

pub(crate) fn text(alloc: Global, bytes: &[u8]) -> Result<String, AllocError> {
    String::from_str(alloc, str::from_utf8(bytes).unwrap_or("not text"))
}

pub(crate) fn words(alloc: Global, line: &str) -> Result<Vec<String>, AllocError> {
    let mut all = Vec::new(alloc);
    for word in line.split_whitespace() {
        all.push(String::from_str(alloc, word)?)?;
    }
    Ok(all)
}

/// Calls the program with three makers and two watchers; its status and its number of instructions.
pub(crate) fn call<F: Folder, S: Source, K: Sink, E: Sink>(
    alloc: Global,
    line: &str,
    folder: &mut F,
    input: &mut S,
    out: &mut K,
    err: &mut E,
) -> Result<(u8, u64), NoMemory> {
    let words = words(alloc, line)?;
    let mut makers: Vec<Box<dyn Maker>> = Vec::new(alloc);
    makers.push(Box::new(alloc, Small::new())?)?;
    makers.push(Box::new(alloc, Zero::new())?)?;
    makers.push(Box::new(alloc, Count::new())?)?;
    let mut watchers: Vec<Box<dyn Watcher>> = Vec::new(alloc);
    watchers.push(Box::new(alloc, FirstEvents::new(alloc, 16)?)?)?;
    watchers.push(Box::new(alloc, Counter::new())?)?;
    let status = top(alloc, words, folder, input, out, err, makers, watchers);
    Ok((status.code(), status.instructions()))
}

/// Does what the words of the line ask for, and tells what the sinks took.
fn told<F: Folder, S: Source>(
    alloc: Global,
    line: &str,
    folder: &mut F,
    input: &mut S,
    devices: &Devices,
) -> Result<Ran, NoMemory> {
    let mut out = MemSink::new(alloc, ROOM, devices.outs, devices.most)?;
    let mut err = MemSink::new(alloc, ROOM, devices.errs, devices.most)?;
    let (status, instructions) = call(alloc, line, folder, input, &mut out, &mut err)?;
    Ok(Ran {
        status,
        instructions,
        out: text(alloc, out.taken())?,
        err: text(alloc, err.taken())?,
    })
}

/// Does what the words of the line ask for, where a file of that name has these bytes.
pub(crate) fn run(
    alloc: Global,
    line: &str,
    name: &str,
    bytes: &[u8],
    devices: &Devices,
) -> Result<Ran, NoMemory> {
    let mut folder = MemFolder::new(alloc, devices.loads)?;
    folder.add(name, bytes)?;
    let mut input = MemSource::new(alloc, devices.input, devices.reads, devices.most)?;
    told(alloc, line, &mut folder, &mut input, devices)
}

/// Runs a source under the name `c.c`.
pub(crate) fn run_source(alloc: Global, source: &[u8]) -> Result<Ran, NoMemory> {
    run(alloc, "run c.c", "c.c", source, &sound())
}

const USAGE: &str =
    "usage: oblivious run|compile|exec|check|audit|sample|migrate ARGUMENT [OPTIONS]\n";

/// Rows of words with the output, the error line and the status that they come to.
const ROWS: [(&str, &str, &str, u8); 22] = [
    ("run hello.c", "Hi", "", 3),
    ("run", "", USAGE, 128),
    ("run hello.c --steps 5 --steps 6", "", USAGE, 128),
    ("run -hello.c", "", USAGE, 128),
    ("exec hello.c", "", "oblivious: BadImage Bytes 0\n", 135),
    ("", "", USAGE, 128),
    ("run gone.c", "", "oblivious: FileFault\n", 129),
    ("run hello.c hello.c", "", USAGE, 128),
    ("run --steps=50 hello.c", "Hi", "", 3),
    ("run hello.c --steps 0", "", "oblivious: Steps\n", 136),
    ("run -- hello.c", "Hi", "", 3),
    (
        "run hello.c --mode boundless --store 1 --away 0 --heap 0 --maker count --profile 2",
        "Hi",
        "",
        3,
    ),
    (
        "run hello.c --report",
        "Hi",
        "watcher 0: 0 events\nwatcher 1: 0 events\n",
        3,
    ),
    (
        "run hello.c --steps 0 --report",
        "",
        "oblivious: Steps\nwatcher 0: 0 events\nwatcher 1: 0 events\n",
        136,
    ),
    ("check hello.c", "ok\n", "", 0),
    ("check gone.c", "", "oblivious: FileFault\n", 129),
    ("compile gone.c", "", "oblivious: NotYet\n", 145),
    ("audit hello.c --maker zero", "", "oblivious: NotYet\n", 145),
    ("sample 3", "", "oblivious: NotYet\n", 145),
    ("check hello.c --steps 5", "", USAGE, 128),
    ("help", "", USAGE, 128),
    ("migrate gone.image", "", "oblivious: FileFault\n", 129),
];

#[test]
fn words_that_ask(rt: HostRuntime) -> Result<(), Fail> {
    for (line, out, err, status) in &ROWS {
        let ran = run(rt.alloc(), line, "hello.c", HELLO, &sound())?;
        assert_eq!(rt; ran.status, *status, "at {line}");
        assert_eq!(rt; ran.out.as_str(), *out, "at {line}");
        assert_eq!(rt; ran.err.as_str(), *err, "at {line}");
    }
    Ok(())
}

/// A source of a mebibyte is read whole; one byte more is too long.
#[test]
fn longest_sources(rt: HostRuntime) -> Result<(), Fail> {
    let alloc = rt.alloc();
    let mut source = Vec::new(alloc);
    source.extend_from_slice(HELLO)?;
    source.resize(1_048_576, b' ')?;
    let at_limit = run_source(alloc, &source)?;
    assert_eq!(rt; (at_limit.status, at_limit.out.as_str()), (3, "Hi"));
    source.push(b' ')?;
    let past = run_source(alloc, &source)?;
    assert_eq!(rt;
        (past.status, past.err.as_str()),
        (130, "oblivious: FileLong\n")
    );
    Ok(())
}

#[test]
fn longest_blank_source(rt: HostRuntime) -> Result<(), Fail> {
    let blank = vec![in rt.alloc(); b' '; 1_048_576]?;
    let nothing = run_source(rt.alloc(), &blank)?;
    assert_eq!(rt;
        (nothing.status, nothing.err.as_str()),
        (132, "c.c:1:1048577: syntax NoTree\n")
    );
    Ok(())
}

#[test]
fn devices_that_fail(rt: HostRuntime) -> Result<(), Fail> {
    let alloc = rt.alloc();
    let mut devices = sound();
    devices.loads = &[0];
    let load = run(alloc, "run hello.c", "hello.c", HELLO, &devices)?;
    assert_eq!(rt;
        (load.status, load.err.as_str()),
        (129, "oblivious: FileFault\n")
    );

    let mut devices = sound();
    devices.outs = &[0];
    let first = run(alloc, "run hello.c", "hello.c", HELLO, &devices)?;
    assert_eq!(rt;
        (first.status, first.out.as_str(), first.err.as_str()),
        (143, "", "")
    );

    let mut devices = sound();
    devices.errs = &[0];
    let told = run(alloc, "run", "hello.c", HELLO, &devices)?;
    assert_eq!(rt; (told.status, told.err.as_str()), (143, ""));
    let fault = run(alloc, "run hello.c", "hello.c", b"int", &devices)?;
    assert_eq!(rt; (fault.status, fault.err.as_str()), (143, ""));
    Ok(())
}

/// Sinks that take one byte a call get all, and one that fails in mid-stream has got a prefix.
#[test]
fn sinks_that_take_one_byte(rt: HostRuntime) -> Result<(), Fail> {
    let alloc = rt.alloc();
    let mut devices = sound();
    devices.most = 1;
    let slow = run(alloc, "run hello.c", "hello.c", HELLO, &devices)?;
    assert_eq!(rt; (slow.status, slow.out.as_str()), (3, "Hi"));
    let line = run(alloc, "run", "hello.c", HELLO, &devices)?;
    assert_eq!(rt; line.err.as_str(), USAGE);
    let fault = run(alloc, "run hello.c", "hello.c", b"int", &devices)?;
    assert_eq!(rt; fault.err.as_str(), "hello.c:1:4: syntax NoTree\n");
    devices.outs = &[1];
    let cut = run(alloc, "run hello.c", "hello.c", HELLO, &devices)?;
    assert_eq!(rt; (cut.status, cut.out.as_str()), (143, "H"));
    devices.errs = &[4];
    let told = run(alloc, "run hello.c", "hello.c", b"int", &devices)?;
    assert_eq!(rt; (told.status, told.err.as_str()), (143, "hell"));
    Ok(())
}
