ghost use Rattle.std.specs.Prelude.{◌≡◌, ◌++◌, IfOk, OnOk};
ghost use Rattle.ob_report.specs.Samples.{lengths, sample_line, sum_and_ending};
ghost use Rattle.ob_report.specs.Verdicts.{IsVerdict};
ghost use Rattle.ob_report.specs.declared.verdicts.VerdictLine.TheVariants.{Plain};

use crate::numbers::put_number;
use crate::verdicts::{VerdictLine, put_verdict};
use ob_base::{NoMemory, Text};
use ob_model::Ending;
use std::alloc::Global;

/// The run of a sample: the sample's number, from 1 to 1000, the length of its source in bytes, how many
/// bytes it put out, their sum modulo 65,536, and how it ended.
#[derive(Clone, Copy, Debug, PartialEq, Eq)]
pub struct SampleRun {
    pub number: u32,
    pub source: usize,
    pub count: u64,
    pub sum: u64,
    pub ending: Ending,
}

fn put_lengths(text: &mut Text, run: &SampleRun) -> Result<(), NoMemory>
    ensures { OnOk result (text.new ≡ text.old ++ lengths run.now) }
{
    text.add(b"sample ")?;
    put_number(text, run.number)?;
    text.add(b": ")?;
    put_number(text, run.source)?;
    text.add(b" bytes of source, ")?;
    put_number(text, run.count)?;
    text.add(b" bytes of output, ")
}

fn put_sum(text: &mut Text, run: &SampleRun) -> Result<(), NoMemory>
    ensures { OnOk result (text.new ≡ text.old ++ sum_and_ending run.now) }
{
    text.add(b"sum ")?;
    put_number(text, run.sum)?;
    text.add(b", ")?;
    put_verdict(text, VerdictLine::Plain(run.ending))
}

fn put_sample(text: &mut Text, run: &SampleRun) -> Result<(), NoMemory>
    ensures { OnOk result (text.new ≡ text.old ++ sample_line run.now) }
{
    put_lengths(text, run)?;
    put_sum(text, run)
}

/// The line of a sample's run. A run that a failed device or want of memory ended has none.
///
/// - `NoMemory`: too little memory for the line.
pub fn sample_line(alloc: Global, run: &SampleRun) -> Result<Text, NoMemory>
    requires { IsVerdict (Plain run.now.ending) }
    ensures { IfOk result (λ text. text ≡ sample_line run.now) }
{
    let mut text = Text::new(alloc);
    put_sample(&mut text, run)?;
    Ok(text)
}
