ghost use Rattle.std.specs.Prelude.{◌≡◌, ◌++◌, IfOk, OnOk};
ghost use Rattle.ob_report.specs.Verdicts.{IsVerdict, verdict_line};

use crate::numbers::put_numbered;
use ob_base::{NoMemory, Text};
use ob_model::Ending;
use std::alloc::Global;

/// How a run by the definition of the language ended.
#[derive(Clone, Copy, Debug, PartialEq, Eq)]
pub enum VerdictLine {
    /// As a run of the machine can end.
    Plain(Ending),
    /// A dead object was reached, at this line of the source, counted from 1.
    Dead(u32),
    /// A store, at this line of the source, counted from 1, found the list of stray granules full.
    Dropped(u32),
}

/// Puts the line of a verdict at the end; nothing for a failed device and for want of memory.
pub(crate) fn put_verdict(text: &mut Text, v: VerdictLine) -> Result<(), NoMemory>
    ensures { OnOk result (text.new ≡ text.old ++ verdict_line v) }
{
    match v {
        VerdictLine::Plain(Ending::Ended(number)) => put_numbered(text, "Ended ", number),
        VerdictLine::Plain(Ending::Steps) => text.add(b"Steps\n"),
        VerdictLine::Plain(Ending::Divide) => text.add(b"Divide\n"),
        VerdictLine::Plain(Ending::Stack) => text.add(b"Stack\n"),
        VerdictLine::Plain(Ending::Descriptors) => text.add(b"Descriptors\n"),
        VerdictLine::Plain(Ending::Far) => text.add(b"Far\n"),
        VerdictLine::Plain(Ending::Spent) => text.add(b"Spent\n"),
        VerdictLine::Plain(Ending::ReadFault | Ending::WriteFault | Ending::NoMemory) => Ok(()),
        VerdictLine::Dead(line) => put_numbered(text, "Dead ", line),
        VerdictLine::Dropped(line) => put_numbered(text, "Dropped ", line),
    }
}

/// The line of a verdict. A failed device and want of memory are none.
///
/// - `NoMemory`: too little memory for the line.
pub fn verdict_text(alloc: Global, v: &VerdictLine) -> Result<Text, NoMemory>
    requires { IsVerdict v.now }
    ensures { IfOk result (λ text. text ≡ verdict_line v.now) }
{
    let mut text = Text::new(alloc);
    put_verdict(&mut text, *v)?;
    Ok(text)
}
