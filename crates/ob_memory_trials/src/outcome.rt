//! What a program comes to, as a text.

ghost use Rattle.std.specs.Prelude.{IsTrue};
ghost use Rattle.ob_model.specs.Settings.{IsFit};

use crate::assembler::image;
use ob_base::{MemSink, MemSource, NoMemory, let_go, listed};
use ob_code::{Verified, verify};
use ob_machine::Machine;
use ob_maker::Small;
use ob_model::{Act, Ending, Mode, Profile, RunSettings, Shown, StrayEvent};
use ob_watch::{FirstEvents, Watcher};
use std::alloc::{AllocError, Global};
use std::fmt::Write;

// The number behind a word such as `store=2`, or the usual one.
fn setting(flags: &str, name: &str, usual: u64) -> u64 {
    let mut value = usual;
    for word in flags.split_whitespace() {
        if let Some(number) = word.strip_prefix(name) {
            value = number.parse::<u64>().unwrap_or(usual);
        }
    }
    value
}

fn has(flags: &str, wanted: &str) -> bool {
    flags.split_whitespace().any(|word| word == wanted)
}

/// The settings of words: `boundless`, `two` for the second profile, and `store=`, `away=`, `heap=`.
fn settings(flags: &str) -> RunSettings
    ensures { IsFit result }
{
    RunSettings {
        mode: if has(flags, "boundless") {
            Mode::Boundless
        } else {
            Mode::Oblivious
        },
        store: setting(flags, "store=", 64).clamp(1, 1_048_576),
        away: setting(flags, "away=", 64).min(1_048_576),
        heap: setting(flags, "heap=", 4096).min(67_108_864),
        profile: if has(flags, "two") {
            Profile::Two
        } else {
            Profile::One
        },
    }
}

fn add_event(told: &mut String, e: StrayEvent) -> Result<(), AllocError> {
    let act = match e.act {
        Act::Load => "load",
        Act::Store => "store",
        Act::Free => "free",
    };
    write!(
        told,
        " | {} {act} {} {} {}",
        e.line, e.object, e.offset, e.size
    )
}

// The stray accesses that a watcher was told.
fn add_events(told: &mut String, watcher: &FirstEvents) -> Result<(), AllocError> {
    for i in 0..16 {
        if let Some(e) = watcher.kept_at(i) {
            add_event(told, e)?;
        }
    }
    Ok(())
}

// What the variable of a row of names holds, where it shows and isn't 0.
fn number_in(machine: &Machine, row: u32) -> Option<i128> {
    if row as usize >= machine.image().names.as_slice().len() {
        return None;
    }
    match machine.shown(row) {
        Some(Shown::Num(number)) if number != 0 => Some(number),
        _ => None,
    }
}

// The words of the first call that aren't 0, each with its number.
fn add_words(told: &mut String, machine: &Machine) -> Result<(), AllocError> {
    for row in 0..10u32 {
        if let Some(number) = number_in(machine, row) {
            write!(told, " {}={number}", row + 2)?;
        }
    }
    Ok(())
}

fn name_of(ending: Ending) -> &'static str {
    match ending {
        Ending::Ended(_) => "ends",
        Ending::Steps => "Steps",
        Ending::Stack => "Stack",
        Ending::Descriptors => "Descriptors",
        Ending::Far => "Far",
        _ => "otherwise",
    }
}

fn tell(
    told: &mut String,
    ending: Ending,
    machine: &Machine,
    watchers: &[FirstEvents],
) -> Result<(), NoMemory> {
    told.push_str(name_of(ending))?;
    add_words(told, machine)?;
    for watcher in watchers {
        add_events(told, watcher)?;
    }
    Ok(())
}

// Runs a fresh machine with the usual maker.
fn run(
    alloc: Global,
    machine: &mut Machine,
    watchers: &mut Vec<FirstEvents>,
) -> Result<Ending, NoMemory>
    requires { IsTrue machine.old.is_fresh }
{
    let mut input = MemSource::new(alloc, b"", &[], 1)?;
    let mut out = MemSink::new(alloc, 16, &[], 1)?;
    Ok(machine.run(1_000, &mut Small::new(), watchers, &mut input, &mut out))
}

// Runs a fresh machine with one watcher, and tells what came of it.
fn run_and_tell(alloc: Global, machine: &mut Machine, told: &mut String) -> Result<(), NoMemory>
    requires { IsTrue machine.old.is_fresh }
{
    let mut watchers = listed(alloc, FirstEvents::new(alloc, 16)?)?;
    let ending = run(alloc, machine, &mut watchers)?;
    tell(told, ending, machine, &watchers)
}

fn load_and_tell(
    alloc: Global,
    v: Verified,
    settings: &RunSettings,
    told: &mut String,
) -> Result<(), NoMemory>
    requires { IsFit settings.now }
{
    let mut machine = Machine::load(alloc, v, settings)?;
    let came = run_and_tell(alloc, &mut machine, told);
    let_go(machine);
    came
}

fn assemble_and_tell(
    alloc: Global,
    flags: &str,
    text: &str,
    told: &mut String,
) -> Result<(), NoMemory> {
    match verify(image(alloc, text)?) {
        Ok(v) => load_and_tell(alloc, v, &settings(flags), told),
        Err(_) => Ok(told.push_str("breaks a rule")?),
    }
}

/// What the program of a text comes to under the settings of some words: how it ends; the words of the first call, 2 to
/// 11, that aren't 0, where that call is in progress; and the stray accesses that were told, each with its line, act,
/// object, offset and size.
pub fn outcome(alloc: Global, flags: &str, text: &str) -> Result<String, NoMemory> {
    let mut told = String::new(alloc);
    assemble_and_tell(alloc, flags, text, &mut told)?;
    Ok(told)
}
