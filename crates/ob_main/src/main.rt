//! The program `oblivious`: makes the real files, input and sinks, the makers of manufactured values and the
//! watchers of stray accesses, and calls `ob_program::top` with the words after the program's name. Stands
//! on `ob_program`, which promises what it does.
#![tactic(auto)]

use ob_base::{Folder, NoMemory, Sink, Source, StdFolder, StdSink, StdSource};
use ob_maker::{Count, Maker, Small, Zero};
use ob_program::top;
use ob_watch::{Counter, FirstEvents, Watcher};
use std::alloc::Global;
use std::env::Env;
use std::process::ExitCode;
use std::{env, io};

/// The exit status for want of memory.
const NO_MEMORY: u8 = 144;

/// How many stray accesses the first watcher keeps.
const KEPT_EVENTS: usize = 16;

fn main(rt: HostRuntime) -> ExitCode {
    let Ok(words) = words(&rt) else {
        return ExitCode::from(NO_MEMORY);
    };
    let mut folder = StdFolder::new(&rt);
    let mut input = StdSource::new(rt.stdin());
    let stdout = rt.stdout();
    let stderr = rt.stderr();
    let mut out = StdSink::new(io::writer(&stdout));
    let mut err = StdSink::new(io::writer(&stderr));
    let status = answer(
        rt.alloc(),
        words,
        &mut folder,
        &mut input,
        &mut out,
        &mut err,
    );
    ExitCode::from(status.unwrap_or(NO_MEMORY))
}

/// Makes the makers that `--maker` names (`small`, `zero`, `count`) and the watchers that `--report` tells
/// of, does what the words ask for, and gives the status.
///
/// - `NoMemory`: too little memory for these; nothing was read and written.
fn answer<F: Folder, S: Source, K: Sink, E: Sink>(
    alloc: Global,
    words: Vec<String>,
    folder: &mut F,
    input: &mut S,
    out: &mut K,
    err: &mut E,
) -> Result<u8, NoMemory> {
    let mut makers: Vec<Box<dyn Maker>> = Vec::new(alloc);
    makers.push(Box::new(alloc, Small::new())?)?;
    makers.push(Box::new(alloc, Zero::new())?)?;
    makers.push(Box::new(alloc, Count::new())?)?;
    let mut watchers: Vec<Box<dyn Watcher>> = Vec::new(alloc);
    watchers.push(Box::new(alloc, FirstEvents::new(alloc, KEPT_EVENTS)?)?)?;
    watchers.push(Box::new(alloc, Counter::new())?)?;
    Ok(top(alloc, words, folder, input, out, err, makers, watchers).code())
}

/// The words after the program's name. Where one isn't UTF-8 there are none, which asks for nothing,
/// as a faulty command line does. An error is want of memory.
fn words<R: Env + AllocGlobal>(rt: &R) -> io::Result<Vec<String>> {
    match env::args(rt) {
        Ok(args) => Ok(args.skip(1).collect(rt.alloc())?),
        Err(error) if error.kind() == io::ErrorKind::OutOfMemory => Err(error),
        Err(_) => Ok(Vec::new(rt.alloc())),
    }
}
