//! That stray accesses are told once, and what becomes of them in both modes and under both profiles.

ghost use Rattle.ob_model.specs.Settings.{IsFit};

use crate::tests::loaded;
use ob_base::{MemSink, MemSource, NoMemory, let_go, listed};
use ob_code::Instr;
use ob_machine::Machine;
use ob_maker::{Maker, Small};
use ob_model::{Act, Ending, LoadKind, Mode, Profile, RunSettings, StrayEvent};
use ob_watch::{FirstEvents, Watcher};
use ob_words::IntType;
use std::alloc::Global;
use std::process::Abort;
use std::test::Fail;

const LONG: LoadKind = LoadKind::Num(IntType::Long);

// Stores 77 just past an object of 8 bytes, and gives what it loads there.
const OVERRUN: [Instr; 7] = [
    Instr::Set { a: 2, imm: 8 },
    Instr::Malloc { a: 3, b: 2 },
    Instr::Set { a: 4, imm: 8 },
    Instr::Set { a: 5, imm: 77 },
    Instr::Store {
        kind: LONG,
        line: 9,
        a: 5,
        b: 3,
        c: 4,
    },
    Instr::Load {
        kind: LONG,
        line: 10,
        a: 6,
        b: 3,
        c: 4,
    },
    Instr::Return { b: 6 },
];

// Stores 8 through the pointer of an object that was freed, and gives what it loads there.
const AFTER_FREE: [Instr; 7] = [
    Instr::Set { a: 2, imm: 8 },
    Instr::Malloc { a: 3, b: 2 },
    Instr::Set { a: 4, imm: 0 },
    Instr::Free { line: 8, b: 3 },
    Instr::Store {
        kind: LONG,
        line: 9,
        a: 2,
        b: 3,
        c: 4,
    },
    Instr::Load {
        kind: LONG,
        line: 10,
        a: 6,
        b: 3,
        c: 4,
    },
    Instr::Return { b: 6 },
];

fn settings(mode: Mode, profile: Profile) -> RunSettings
    ensures { IsFit result }
{
    RunSettings {
        mode,
        store: 16,
        away: 16,
        heap: 4_096,
        profile,
    }
}

fn event(line: u32, act: Act, object: u64, offset: i64) -> Option<StrayEvent> {
    Some(StrayEvent {
        line,
        act,
        object,
        offset,
        size: 8,
    })
}

// Has a watcher been told a store and a load of an object at this offset, each once?
fn told(rt: &impl Abort, watchers: &[FirstEvents], object: u64, offset: i64) {
    for watcher in watchers {
        assert_eq!(rt; watcher.total(), 2);
        assert_eq!(rt; watcher.kept_at(0), event(9, Act::Store, object, offset));
        assert_eq!(rt; watcher.kept_at(1), event(10, Act::Load, object, offset));
    }
}

// Runs a machine, which is fresh, with no input.
fn run(
    rt: &impl Abort,
    alloc: Global,
    machine: &mut Machine,
    maker: &mut Small,
    watchers: &mut Vec<FirstEvents>,
) -> Result<Ending, NoMemory> {
    let mut input = MemSource::new(alloc, b"", &[], 1)?;
    let mut out = MemSink::new(alloc, 16, &[], 1)?;
    assert!(rt; machine.is_fresh());
    Ok(machine.run(100, maker, watchers, &mut input, &mut out))
}

// Runs a machine whose maker gives 2 next. It has to give a number and tell a store and a load of an object at this
// offset, each once; afterwards the maker gives another number.
fn goes_astray(
    rt: &impl Abort,
    alloc: Global,
    machine: &mut Machine,
    at: (u64, i64),
    wanted: (i64, u64),
) -> Result<(), NoMemory> {
    let mut maker = Small::new();
    let _first = maker.next();
    let _second = maker.next();
    let mut watchers = listed(alloc, FirstEvents::new(alloc, 4)?)?;
    let came = run(rt, alloc, machine, &mut maker, &mut watchers)?;
    assert_eq!(rt; (came, maker.next()), (Ending::Ended(wanted.0), wanted.1));
    told(rt, &watchers, at.0, at.1);
    Ok(())
}

// The same for this code under these settings.
fn strays(
    rt: &impl Abort,
    alloc: Global,
    code: &[Instr],
    settings: &RunSettings,
    at: (u64, i64),
    wanted: (i64, u64),
) -> Result<(), Fail>
    requires { IsFit settings.now }
{
    let mut machine = loaded(rt, alloc, code, settings)?;
    let came = goes_astray(rt, alloc, &mut machine, at, wanted);
    let_go(machine);
    Ok(came?)
}

// In oblivious mode the store vanishes, and the load takes 2, whose successor is 0; in boundless mode it is kept.
#[test]
fn overruns(rt: HostRuntime) -> Result<(), Fail> {
    let oblivious = settings(Mode::Oblivious, Profile::One);
    strays(&rt, rt.alloc(), &OVERRUN, &oblivious, (1, 8), (2, 0))?;
    let boundless = settings(Mode::Boundless, Profile::One);
    strays(&rt, rt.alloc(), &OVERRUN, &boundless, (1, 8), (77, 2))
}

// Under profile 1 the pointer of a dead object is treated as null, which counts as object 0; under profile 2 the object stays
// known.
#[test]
fn use_after_free(rt: HostRuntime) -> Result<(), Fail> {
    for mode in [Mode::Oblivious, Mode::Boundless] {
        let dead = settings(mode, Profile::One);
        strays(&rt, rt.alloc(), &AFTER_FREE, &dead, (0, 0), (2, 0))?;
        let known = settings(mode, Profile::Two);
        strays(&rt, rt.alloc(), &AFTER_FREE, &known, (1, 0), (2, 0))?;
    }
    Ok(())
}
