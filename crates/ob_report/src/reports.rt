ghost use Rattle.std.specs.Prelude.{◌≡◌, ◌++◌, map, slice_get, IfOk, OnOk};
ghost use Rattle.ob_report.specs.Reports.{act_word, event_line, event_lines, report_text, section, watcher_line};

use crate::numbers::put_number;
use ob_base::{NoMemory, Text};
use ob_model::{Act, StrayEvent};
use ob_watch::Watcher;
use std::alloc::Global;

fn act_word(act: Act) -> &'static str
    ensures { result.now ≡ act_word act }
{
    match act {
        Act::Load => "Load",
        Act::Store => "Store",
        Act::Free => "Free",
    }
}

fn put_event(text: &mut Text, e: StrayEvent) -> Result<(), NoMemory>
    ensures { OnOk result (text.new ≡ text.old ++ event_line e) }
{
    put_number(text, e.line)?;
    text.add(b": ")?;
    text.add(act_word(e.act).as_bytes())?;
    text.add(b" object ")?;
    put_number(text, e.object)?;
    text.add(b" offset ")?;
    put_number(text, e.offset)?;
    text.add(b" size ")?;
    put_number(text, e.size)?;
    text.add(b"\n")
}

fn put_watcher_line(text: &mut Text, number: usize, total: u64) -> Result<(), NoMemory>
    ensures { OnOk result (text.new ≡ text.old ++ watcher_line number total) }
{
    text.add(b"watcher ")?;
    put_number(text, number)?;
    text.add(b": ")?;
    put_number(text, total)?;
    text.add(b" events\n")
}

fn total_of(watcher: &Box<dyn Watcher>) -> u64
    ensures { result ≡ told watcher.now }
{
    watcher.total()
}

fn event_at(watcher: &Box<dyn Watcher>, i: usize) -> Option<StrayEvent>
    ensures { result ≡ slice_get (kept watcher.now) i }
{
    watcher.kept_at(i)
}

/// A line for each event that the watcher kept. No memory holds the lines of 2^64 - 1 events.
fn put_events(text: &mut Text, watcher: &Box<dyn Watcher>) -> Result<(), NoMemory>
    ensures { OnOk result (text.new ≡ text.old ++ event_lines (kept watcher.now)) }
{
    for i in 0..usize::MAX {
        match event_at(watcher, i) {
            Some(e) => put_event(text, e)?,
            None => return Ok(()),
        }
    }
    Err(NoMemory)
}

fn put_section(text: &mut Text, number: usize, watcher: &Box<dyn Watcher>) -> Result<(), NoMemory>
    ensures { OnOk result (text.new ≡ text.old ++ section number (record { total = told watcher.now; kept = kept watcher.now })) }
{
    put_watcher_line(text, number, total_of(watcher))?;
    put_events(text, watcher)?;
    Ok(())
}

/// How many stray accesses each watcher was told, watchers counted from 0, with a line for each that it
/// kept.
///
/// - `NoMemory`: too little memory for the text.
pub fn report(alloc: Global, watchers: &Vec<Box<dyn Watcher>>) -> Result<Text, NoMemory>
    ensures { IfOk result (λ text. text ≡ report_text (map (λ w. record { total = told w; kept = kept w }) watchers.now.items)) }
{
    let mut text = Text::new(alloc);
    for (number, watcher) in watchers.iter().enumerate() {
        put_section(&mut text, number, watcher)?;
    }
    Ok(text)
}
