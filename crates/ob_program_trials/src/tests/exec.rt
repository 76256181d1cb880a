//! `exec`: what images do, which bytes and words are refused, and what devices that fail come to.
use crate::tests::images::{
    CALLS, DIVIDES, ECHO, HEAP, HELLO, OPEN, OVERRUN, PLACE, STILL, TICKS, image,
};
use crate::tests::{Devices, ROOM, Ran, call, run, words};
use ob_base::{Folder, MemFolder, MemSink, MemSource, NoMemory, Source};
use ob_program::top;
use std::alloc::Global;
use std::test::Fail;

fn sound<'a>() -> Devices<'a> {
    Devices {
        input: b"",
        loads: &[],
        reads: &[],
        outs: &[],
        errs: &[],
        most: 4096,
    }
}

fn exec(alloc: Global, line: &str, bytes: &[u8], devices: &Devices) -> Result<Ran, NoMemory> {
    run(alloc, line, "an.image", bytes, devices)
}

#[test]
fn endings(rt: HostRuntime) -> Result<(), Fail> {
    let alloc = rt.alloc();
    let hello = exec(alloc, "exec an.image", &image(alloc, &HELLO)?, &sound())?;
    assert_eq!(rt; (hello.status, hello.instructions), (3, 4));
    assert_eq!(rt; (hello.out.as_str(), hello.err.as_str()), ("H", ""));

    let place = exec(alloc, "exec an.image", &image(alloc, &PLACE)?, &sound())?;
    assert_eq!(rt; (place.status, place.out.as_str()), (0, "\x03"));

    let still = exec(
        alloc,
        "exec an.image --steps 10",
        &image(alloc, &STILL)?,
        &sound(),
    )?;
    assert_eq!(rt; (still.status, still.instructions), (141, 22));
    assert_eq!(rt; still.err.as_str(), "oblivious: Spent\n");

    let ticks = exec(
        alloc,
        "exec an.image --steps 10",
        &image(alloc, &TICKS)?,
        &sound(),
    )?;
    assert_eq!(rt; (ticks.status, ticks.instructions), (136, 19));
    assert_eq!(rt; ticks.err.as_str(), "oblivious: Steps\n");
    Ok(())
}

#[test]
fn endings_without_a_number(rt: HostRuntime) -> Result<(), Fail> {
    let alloc = rt.alloc();
    let divides = exec(alloc, "exec an.image", &image(alloc, &DIVIDES)?, &sound())?;
    assert_eq!(rt; (divides.status, divides.instructions), (137, 4));
    assert_eq!(rt;
        (divides.out.as_str(), divides.err.as_str()),
        ("A", "oblivious: Divide\n")
    );

    let calls = exec(alloc, "exec an.image", &image(alloc, &CALLS)?, &sound())?;
    assert_eq!(rt; (calls.status, calls.instructions), (138, 21_845));
    assert_eq!(rt; calls.err.as_str(), "oblivious: Stack\n");
    Ok(())
}

#[test]
fn bytes_and_words_that_are_refused(rt: HostRuntime) -> Result<(), Fail> {
    let alloc = rt.alloc();
    let mut bytes = image(alloc, &HELLO)?;
    for line in [
        "exec",
        "exec -an.image",
        "exec an.image --steps",
        "exec an.image --steps ten",
        "exec an.image --steps 1000000001",
        "exec an.image --steps 00000000010",
        "exec an.image --steps 5 --steps 5",
    ] {
        let usage = exec(alloc, line, &bytes, &sound())?;
        assert_eq!(rt; (usage.status, usage.instructions), (128, 0), "at {line}");
    }
    let gone = exec(alloc, "exec gone.image", &bytes, &sound())?;
    assert_eq!(rt;
        (gone.status, gone.err.as_str()),
        (129, "oblivious: FileFault\n")
    );

    bytes.pop();
    let cut = exec(alloc, "exec an.image", &bytes, &sound())?;
    assert_eq!(rt;
        (cut.status, cut.err.as_str()),
        (135, "oblivious: BadImage Bytes 167\n")
    );

    let version = exec(alloc, "exec an.image", b"OBLV\x03\0\0\0", &sound())?;
    assert_eq!(rt; version.err.as_str(), "oblivious: BadImage Bytes 4\n");

    let open = exec(alloc, "exec an.image", &image(alloc, &OPEN)?, &sound())?;
    assert_eq!(rt;
        (open.status, open.err.as_str()),
        (135, "oblivious: BadImage Code 0\n")
    );

    let heap = exec(alloc, "exec an.image", &image(alloc, &HEAP)?, &sound())?;
    assert_eq!(rt;
        (heap.status, heap.instructions, heap.err.as_str()),
        (0, 2, "")
    );
    Ok(())
}

const TOLD: &str = "watcher 0: 2 events\n\
    0: Store object 1 offset 4 size 1\n\
    0: Load object 1 offset 4 size 1\n\
    watcher 1: 2 events\n";

// The words of a run of the overrun, its status, and what it tells on the error sink.
const OVERRUNS: [(&str, u8, &str); 6] = [
    ("exec an.image --report", 0, TOLD),
    ("exec an.image --mode boundless --report", 9, TOLD),
    ("exec an.image --mode boundless --store 1", 9, ""),
    ("exec an.image --maker count --report", 0, TOLD),
    ("exec an.image --profile 2 --mode=boundless", 9, ""),
    (
        "exec an.image --heap 0 --report",
        0,
        "watcher 0: 2 events\n\
        0: Store object 0 offset 4 size 1\n\
        0: Load object 0 offset 4 size 1\n\
        watcher 1: 2 events\n",
    ),
];

#[test]
fn overruns(rt: HostRuntime) -> Result<(), Fail> {
    let alloc = rt.alloc();
    let bytes = image(alloc, &OVERRUN)?;
    for (line, status, err) in &OVERRUNS {
        let came = exec(alloc, line, &bytes, &sound())?;
        assert_eq!(rt;
            (came.status, came.err.as_str()),
            (*status, *err),
            "at {line}"
        );
    }
    Ok(())
}

const REPORT: &str = "watcher 0: 0 events\nwatcher 1: 0 events\n";

// The words of an echo of two bytes by devices that give and take one at a time; which device fails (0 the
// folder, 1 the input, 2 the output, 3 the error sink) and at which of its calls; the status, and what the
// sinks took. The rows have each call that the run makes of the first three, and one behind the last, which
// it doesn't make.
const FAILURES: [(&str, u8, u64, u8, &str, &str); 14] = [
    ("exec an.image", 0, 0, 129, "", "oblivious: FileFault\n"),
    ("exec an.image", 0, 1, 0, "ab", ""),
    ("exec an.image", 1, 0, 142, "", "oblivious: ReadFault\n"),
    ("exec an.image", 1, 1, 142, "a", "oblivious: ReadFault\n"),
    ("exec an.image", 1, 2, 142, "ab", "oblivious: ReadFault\n"),
    ("exec an.image", 1, 3, 0, "ab", ""),
    ("exec an.image", 2, 0, 143, "", ""),
    ("exec an.image", 2, 1, 143, "a", ""),
    ("exec an.image", 2, 2, 0, "ab", ""),
    ("exec an.image --report", 3, 0, 143, "ab", ""),
    (
        "exec an.image --report",
        3,
        20,
        143,
        "ab",
        "watcher 0: 0 events\n",
    ),
    ("exec an.image --report", 3, 40, 0, "ab", REPORT),
    ("exec an.image --steps 0", 3, 0, 143, "", ""),
    ("exec gone.image", 3, 11, 143, "", "oblivious: "),
];

/// Runs the echo where a device fails at a call.
fn echoed(alloc: Global, line: &str, device: u8, call: u64) -> Result<Ran, NoMemory> {
    let bytes = image(alloc, &ECHO)?;
    let fails = [call];
    let mut devices = sound();
    devices.input = b"ab";
    devices.most = 1;
    match device {
        0 => devices.loads = &fails,
        1 => devices.reads = &fails,
        2 => devices.outs = &fails,
        _ => devices.errs = &fails,
    }
    exec(alloc, line, &bytes, &devices)
}

#[test]
fn devices_that_fail_at_each_call(rt: HostRuntime) -> Result<(), Fail> {
    for (line, device, call, status, out, err) in &FAILURES {
        let came = echoed(rt.alloc(), line, *device, *call)?;
        assert_eq!(rt;
            (came.status, came.out.as_str(), came.err.as_str()),
            (*status, *out, *err),
            "at {line}"
        );
    }
    Ok(())
}

/// The status of `migrate`, and what it wrote.
fn rewritten<F: Folder, S: Source>(
    alloc: Global,
    folder: &mut F,
    input: &mut S,
) -> Result<(u8, Vec<u8>), NoMemory> {
    let mut out = MemSink::new(alloc, ROOM, &[], 4096)?;
    let mut err = MemSink::new(alloc, ROOM, &[], 4096)?;
    let (status, _) = call(alloc, "migrate an.image", folder, input, &mut out, &mut err)?;
    Ok((status, Vec::from_slice(alloc, out.taken())?))
}

/// The same of an image with these bytes.
fn migrate(alloc: Global, bytes: &[u8]) -> Result<(u8, Vec<u8>), NoMemory> {
    let mut folder = MemFolder::new(alloc, &[])?;
    folder.add("an.image", bytes)?;
    let mut input = MemSource::new(alloc, b"", &[0], 1)?;
    rewritten(alloc, &mut folder, &mut input)
}

/// An image is written anew in version 2: its version, its profile and an empty list of names are what is
/// added, and it runs as before.
#[test]
fn migrated(rt: HostRuntime) -> Result<(), Fail> {
    let alloc = rt.alloc();
    let bytes = image(alloc, &HELLO)?;
    let (status, written) = migrate(alloc, &bytes)?;
    assert_eq!(rt; (status, bytes.len(), written.len()), (0, 168, 176));
    let again = exec(alloc, "exec an.image", &written, &sound())?;
    assert_eq!(rt; (again.status, again.out.as_str()), (3, "H"));
    Ok(())
}

/// The status where there are no makers.
fn without_makers<F: Folder, S: Source>(
    alloc: Global,
    folder: &mut F,
    input: &mut S,
) -> Result<u8, NoMemory> {
    let words = words(alloc, "exec an.image")?;
    let mut out = MemSink::new(alloc, ROOM, &[], 4096)?;
    let mut err = MemSink::new(alloc, ROOM, &[], 4096)?;
    let status = top(
        alloc,
        words,
        folder,
        input,
        &mut out,
        &mut err,
        Vec::new(alloc),
        Vec::new(alloc),
    );
    Ok(status.code())
}

/// Without makers a job that takes one is faulty usage.
#[test]
fn no_makers(rt: HostRuntime) -> Result<(), Fail> {
    let alloc = rt.alloc();
    let mut folder = MemFolder::new(alloc, &[])?;
    folder.add("an.image", &image(alloc, &HELLO)?)?;
    let mut input = MemSource::new(alloc, b"", &[], 1)?;
    let status = without_makers(alloc, &mut folder, &mut input)?;
    assert_eq!(rt; status, 128);
    Ok(())
}
