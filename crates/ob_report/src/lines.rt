ghost use Rattle.std.specs.Prelude.{◌≡◌, ◌++◌, IfOk, OnOk, codes, decimal};
ghost use Rattle.ob_report.specs.Lines as lines;

use crate::numbers::put_number;
use ob_base::{NoMemory, Text};
use ob_code::{BadImage, Part};
use ob_model::Ending;
use std::alloc::Global;

/// The line for words of the command line that ask for nothing.
pub fn usage_line() -> &'static str
    ensures { result.now ≡ lines.usage_line }
{
    "usage: oblivious run|compile|exec|check|audit|sample|migrate ARGUMENT [OPTIONS]\n"
}

/// The line for a file that can't be had.
pub fn file_fault_line() -> &'static str
    ensures { result.now ≡ lines.file_fault_line }
{
    "oblivious: FileFault\n"
}

/// The line for a file that is too long.
pub fn file_long_line() -> &'static str
    ensures { result.now ≡ lines.file_long_line }
{
    "oblivious: FileLong\n"
}

/// The line for a program that can't be compiled yet.
pub fn not_yet_line() -> &'static str
    ensures { result.now ≡ lines.not_yet_line }
{
    "oblivious: NotYet\n"
}

/// The line for a run that was cut off; empty for one that ended, for a failed write and for want of
/// memory.
pub fn ending_line(ending: Ending) -> &'static str
    ensures { result.now ≡ lines.ending_line ending }
{
    match ending {
        Ending::Steps => "oblivious: Steps\n",
        Ending::Divide => "oblivious: Divide\n",
        Ending::Stack => "oblivious: Stack\n",
        Ending::Descriptors => "oblivious: Descriptors\n",
        Ending::Far => "oblivious: Far\n",
        Ending::Spent => "oblivious: Spent\n",
        Ending::ReadFault => "oblivious: ReadFault\n",
        Ending::Ended(_) | Ending::WriteFault | Ending::NoMemory => "",
    }
}

fn part_word(part: Part) -> &'static str
    ensures { result.now ≡ lines.part_word part }
{
    match part {
        Part::Bytes => "Bytes",
        Part::Static => "Static",
        Part::Pointer => "Pointer",
        Part::Function => "Function",
        Part::Main => "Main",
        Part::Code => "Code",
        Part::Names => "Names",
    }
}

/// Some words, the part and the number of its row or byte.
fn put_fault(text: &mut Text, words: &str, fault: BadImage) -> Result<(), NoMemory>
    ensures { OnOk result (text.new ≡ text.old ++ (words.now ++ lines.part_word fault.part ++ codes " " ++ decimal fault.at ++ codes "\n")) }
{
    text.add(words.as_bytes())?;
    text.add(part_word(fault.part).as_bytes())?;
    text.add(b" ")?;
    put_number(text, fault.at)?;
    text.add(b"\n")
}

/// The line for bytes that are no image: the part at fault, and the number of its row or byte.
///
/// - `NoMemory`: too little memory for the line.
pub fn bad_image_line(alloc: Global, fault: BadImage) -> Result<Text, NoMemory>
    ensures { IfOk result (λ text. text ≡ lines.bad_image_line fault) }
{
    let mut text = Text::new(alloc);
    put_fault(&mut text, "oblivious: BadImage ", fault)?;
    Ok(text)
}
