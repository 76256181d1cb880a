ghost use Rattle.std.specs.Prelude.{◌≡◌, ◌++◌, map, IfOk, IsErr};
ghost use Rattle.ob_report.specs.Lines.{ending_line};
ghost use Rattle.ob_report.specs.Reports.{report_text};
ghost use Rattle.ob_commands.specs.Answers.{TakesMemory, line_of};
ghost use Rattle.ob_commands.specs.Delivery.{bytes_of, err_of};

use crate::answer::Answer;
use ob_base::{NoMemory, Text};
use ob_model::Ending;
use ob_report::{
    bad_image_line, diagnostic, ending_line, file_fault_line, file_long_line, not_yet_line, report,
    usage_line,
};
use ob_watch::Watcher;
use std::alloc::Global;

/// Text for the error sink: one that stands in the program, or one that was made in memory.
#[derive(Drop)]
pub(crate) enum Line {
    Fixed(&'static str),
    Made(Text),
}

impl Line {
    pub(crate) fn bytes(&self) -> &[u8]
        ensures { result.now ≡ bytes_of self.now }
    {
        match self {
            Line::Fixed(text) => text.as_bytes(),
            Line::Made(text) => text.bytes(),
        }
    }
}

/// The line of a run's ending, and behind it what each watcher was told.
fn ending_and_report(
    alloc: Global,
    ending: Ending,
    watchers: &Vec<Box<dyn Watcher>>,
) -> Result<Text, NoMemory>
    ensures { IfOk result (λ text. text ≡ ending_line ending ++ report_text (map (λ w. record { total = told w; kept = kept w }) watchers.now.items)) }
{
    let mut text = Text::new(alloc);
    text.add(ending_line(ending).as_bytes())?;
    text.add(report(alloc, watchers)?.bytes())?;
    Ok(text)
}

/// The line of an answer for a file of this name, and behind that of a run the report, where one is asked
/// for.
///
/// - `NoMemory`: too little memory for a line that names a place, or for a report.
pub(crate) fn line_of(
    alloc: Global,
    name: &str,
    asked: bool,
    watchers: &Vec<Box<dyn Watcher>>,
    answer: Answer,
) -> Result<Line, NoMemory>
    ensures line { IfOk result (λ line. bytes_of line ≡ err_of name.now asked (map (λ w. record { capacity = capacity w; kept = kept w; total = told w }) watchers.now.items) answer) }
    ensures memory { IsErr result → TakesMemory asked answer }
{
    Ok(match answer {
        Answer::Done => Line::Fixed(""),
        Answer::Usage => Line::Fixed(usage_line()),
        Answer::FileFault => Line::Fixed(file_fault_line()),
        Answer::FileLong => Line::Fixed(file_long_line()),
        Answer::NotYet => Line::Fixed(not_yet_line()),
        Answer::Refused(fault) => Line::Made(diagnostic(alloc, name, &fault)?),
        Answer::Bad(bad) => Line::Made(bad_image_line(alloc, bad)?),
        Answer::Ran(ending) if asked => { Line::Made(ending_and_report(alloc, ending, watchers)?) }
        Answer::Ran(ending) => Line::Fixed(ending_line(ending)),
    })
}
