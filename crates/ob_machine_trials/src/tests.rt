//! That the calls find memory, how devices that fail end a run, that output goes out before a read, and which calls of
//! its devices a run makes.

ghost use Rattle.ob_model.specs.Settings.{IsFit};

use ob_base::{MemSink, MemSource, Sink, Source, let_go};
use ob_code::{FunctionRow, Image, Instr, Rows, verify};
use ob_machine::Machine;
use ob_maker::Zero;
use ob_model::{Ending, Mode, Profile, RunSettings};
use ob_watch::Counter;
use ob_words::{BinOp, IntType, Relation};
use std::alloc::{AllocError, Global};
use std::process::Abort;
use std::test::Fail;

// Writes what it reads, to the end of the input.
const ECHO: [Instr; 8] = [
    Instr::GetChar { a: 2 },
    Instr::Set { a: 3, imm: -1 },
    Instr::Compare {
        kind: IntType::Long,
        relation: Relation::Eq,
        a: 4,
        b: 2,
        c: 3,
    },
    Instr::JumpNonzero { b: 4, imm: 6 },
    Instr::PutChar { a: 3, b: 2 },
    Instr::Jump { imm: 0 },
    Instr::Set { a: 2, imm: 0 },
    Instr::Return { b: 2 },
];

// Asks by `?`, reads a byte and writes it, to the end of the input.
const PROMPTS: [Instr; 10] = [
    Instr::Set { a: 2, imm: 63 },
    Instr::PutChar { a: 3, b: 2 },
    Instr::GetChar { a: 2 },
    Instr::Set { a: 3, imm: -1 },
    Instr::Compare {
        kind: IntType::Long,
        relation: Relation::Eq,
        a: 4,
        b: 2,
        c: 3,
    },
    Instr::JumpNonzero { b: 4, imm: 8 },
    Instr::PutChar { a: 3, b: 2 },
    Instr::Jump { imm: 0 },
    Instr::Set { a: 2, imm: 0 },
    Instr::Return { b: 2 },
];

// Reads three times, and gives the sum of the last two.
const READ_ON: [Instr; 5] = [
    Instr::GetChar { a: 2 },
    Instr::GetChar { a: 2 },
    Instr::GetChar { a: 3 },
    Instr::Binary {
        kind: IntType::Int,
        operator: BinOp::Add,
        a: 2,
        b: 2,
        c: 3,
    },
    Instr::Return { b: 2 },
];

fn image(alloc: Global, code: &[Instr]) -> Result<Image, AllocError> {
    let mut functions = Vec::new(alloc);
    functions.push(FunctionRow {
        entry: 0,
        params: 0,
        words: 7,
        vars: 0,
        allowance: 64,
        locals: Rows::from_vec(Vec::new(alloc)),
    })?;
    Ok(Image {
        profile: Profile::One,
        statics: Rows::from_vec(Vec::new(alloc)),
        pointers: Rows::from_vec(Vec::new(alloc)),
        functions: Rows::from_vec(functions),
        main: 0,
        code: Rows::from_vec(Vec::from_slice(alloc, code)?),
        names: Rows::from_vec(Vec::new(alloc)),
    })
}

/// A fresh machine with this code.
pub fn loaded(
    rt: &impl Abort,
    alloc: Global,
    code: &[Instr],
    settings: &RunSettings,
) -> Result<Machine, Fail>
    requires { IsFit settings.now }
{
    let v = verify(image(alloc, code)?)
        .ok()
        .expect(rt, "the image keeps the rules");
    Ok(Machine::load(alloc, v, settings)?)
}

const SETTINGS: RunSettings = RunSettings {
    mode: Mode::Oblivious,
    store: 65_536,
    away: 65_536,
    heap: 0,
    profile: Profile::One,
};

// How a run ends on these devices; the machine is fresh, and nobody watches.
fn run_fresh(
    rt: &impl Abort,
    alloc: Global,
    machine: &mut Machine,
    input: &mut MemSource,
    out: &mut MemSink,
) -> Ending {
    assert!(rt; machine.is_fresh());
    let mut maker = Zero::new();
    let mut watchers: Vec<Counter> = Vec::new(alloc);
    machine.run(5_000, &mut maker, &mut watchers, input, out)
}

// How a run of this code ends on these devices.
fn ending(
    rt: &impl Abort,
    alloc: Global,
    code: &[Instr],
    input: &mut MemSource,
    out: &mut MemSink,
) -> Result<Ending, Fail> {
    let mut machine = loaded(rt, alloc, code, &SETTINGS)?;
    let came = run_fresh(rt, alloc, &mut machine, input, out);
    let_go(machine);
    Ok(came)
}

// The echo of `x`, one byte a call, takes 12 instructions.
fn echoes(rt: &impl Abort, alloc: Global, machine: &mut Machine) -> Result<(), Fail> {
    let mut input = MemSource::new(alloc, b"x", &[], 1)?;
    let mut out = MemSink::new(alloc, 16, &[], 1)?;
    let came = run_fresh(rt, alloc, machine, &mut input, &mut out);
    assert_eq!(rt; (came, machine.instructions()), (Ending::Ended(0), 12));
    Ok(())
}

// How the echo ends on these devices, on a machine with its code that runs before and is reset.
fn runs_again(
    rt: &impl Abort,
    alloc: Global,
    machine: &mut Machine,
    input: &mut MemSource,
    out: &mut MemSink,
) -> Result<Ending, Fail> {
    echoes(rt, alloc, machine)?;
    machine.reset();
    Ok(run_fresh(rt, alloc, machine, input, out))
}

// The same on a machine that is made for it.
fn ending_again(
    rt: &impl Abort,
    alloc: Global,
    input: &mut MemSource,
    out: &mut MemSink,
) -> Result<Ending, Fail> {
    let mut machine = loaded(rt, alloc, &ECHO, &SETTINGS)?;
    let came = runs_again(rt, alloc, &mut machine, input, out);
    let_go(machine);
    came
}

// The echo of `ab`, on devices that move one byte a call, whose read and write of these numbers fail.
fn runs(
    rt: &impl Abort,
    alloc: Global,
    read: u64,
    write: u64,
    wanted: Ending,
    written: &[u8],
) -> Result<(), Fail> {
    let mut input = MemSource::new(alloc, b"ab", &[read], 1)?;
    let mut out = MemSink::new(alloc, 16, &[write], 1)?;
    let came = ending_again(rt, alloc, &mut input, &mut out)?;
    assert_eq!(rt; came, wanted);
    assert_eq!(rt; out.taken(), written);
    Ok(())
}

#[test]
fn devices_that_fail(rt: HostRuntime) -> Result<(), Fail> {
    runs(&rt, rt.alloc(), 9, 9, Ending::Ended(0), b"ab")?;
    runs(&rt, rt.alloc(), 1, 9, Ending::ReadFault, b"a")?;
    runs(&rt, rt.alloc(), 2, 9, Ending::ReadFault, b"ab")?;
    runs(&rt, rt.alloc(), 9, 1, Ending::WriteFault, b"a")
}

// Runs on the input `x`, one byte a call, whose read of this number fails; the program reads past the end
// twice.
fn reads_on(rt: &impl Abort, alloc: Global, read: u64, wanted: Ending) -> Result<MemSource, Fail> {
    let mut input = MemSource::new(alloc, b"x", &[read], 1)?;
    let mut out = MemSink::new(alloc, 16, &[], 1)?;
    let came = ending(rt, alloc, &READ_ON, &mut input, &mut out)?;
    assert_eq!(rt; came, wanted);
    Ok(input)
}

// Read 0 gives the byte, and read 1 the end. Read 2 is still to come after the run.
#[test]
fn no_read_after_the_end(rt: HostRuntime) -> Result<(), Fail> {
    let mut input = reads_on(&rt, rt.alloc(), 2, Ending::Ended(-2))?;
    assert!(rt; input.read(&mut [0]).is_err());
    assert!(rt; input.read(&mut [0]).is_ok());
    let mut input = reads_on(&rt, rt.alloc(), 1, Ending::ReadFault)?;
    assert!(rt; input.read(&mut [0]).is_ok());
    Ok(())
}

// Writes dots for ever.
const DOTS: [Instr; 3] = [
    Instr::Set { a: 2, imm: 46 },
    Instr::PutChar { a: 3, b: 2 },
    Instr::Jump { imm: 1 },
];

// Output is written in pieces of 4,096 bytes: the second write is the one that fails.
#[test]
fn pieces_of_4096_bytes(rt: HostRuntime) -> Result<(), Fail> {
    let mut input = MemSource::new(rt.alloc(), b"", &[0], 1)?;
    let mut out = MemSink::new(rt.alloc(), 16_384, &[1], 16_384)?;
    let came = ending(&rt, rt.alloc(), &DOTS, &mut input, &mut out)?;
    assert_eq!(&rt; came, Ending::WriteFault);
    assert_eq!(&rt; out.taken().len(), 4_096);
    Ok(())
}

// A run that reads and writes nothing makes no call of a device.
#[test]
fn no_call_without_need(rt: HostRuntime) -> Result<(), Fail> {
    let code = [Instr::Set { a: 2, imm: 7 }, Instr::Return { b: 2 }];
    let mut input = MemSource::new(rt.alloc(), b"x", &[0], 1)?;
    let mut out = MemSink::new(rt.alloc(), 16, &[0], 1)?;
    let came = ending(&rt, rt.alloc(), &code, &mut input, &mut out)?;
    assert_eq!(&rt; came, Ending::Ended(7));
    assert!(&rt; input.read(&mut [0]).is_err() && out.write(b"c").is_err());
    Ok(())
}

// The echo of two bytes takes two reads, of the bytes and of the end, and one write, since nothing is pending before the
// first read and after the last.
#[test]
fn calls_of_a_run(rt: HostRuntime) -> Result<(), Fail> {
    let mut input = MemSource::new(rt.alloc(), b"ab", &[2], 16)?;
    let mut out = MemSink::new(rt.alloc(), 16, &[1], 16)?;
    let came = ending(&rt, rt.alloc(), &ECHO, &mut input, &mut out)?;
    assert_eq!(&rt; came, Ending::Ended(0));
    assert!(&rt; input.read(&mut [0]).is_err() && out.write(b"c").is_err());
    Ok(())
}

// Runs on `ab`, one byte a read, where this write fails. So many reads are made, and the next would fail too.
fn prompted(
    rt: &impl Abort,
    alloc: Global,
    write: u64,
    reads: u64,
    written: &str,
) -> Result<(), Fail> {
    let mut input = MemSource::new(alloc, b"ab", &[reads], 1)?;
    let mut out = MemSink::new(alloc, 16, &[write], 16)?;
    let came = ending(rt, alloc, &PROMPTS, &mut input, &mut out)?;
    assert_eq!(rt; came, Ending::WriteFault);
    assert_eq!(rt; out.taken(), written.as_bytes());
    assert!(rt; input.read(&mut [0]).is_err());
    Ok(())
}

// Each prompt is written before its answer is read: where that write fails, the read isn't made.
#[test]
fn prompts_before_reads(rt: HostRuntime) -> Result<(), Fail> {
    prompted(&rt, rt.alloc(), 0, 0, "")?;
    prompted(&rt, rt.alloc(), 1, 1, "?")?;
    prompted(&rt, rt.alloc(), 2, 2, "?a?")
}
