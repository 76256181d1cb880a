//! The words of the command line. `read_words` gives the job that they ask for, or says that they ask for
//! none: a line of words is a command, one argument and any of the command's options, in any order, each
//! at most once, as `--name value`, `--name=value` or, for `--report`, alone; a word `--` ends the
//! options.
//!
//! Which words ask for which job is said by the definitions under `specs/`: how numbers are spelled
//! (`Numbers`), the table of options (`Options`), what lines there are (`Lines`) and what they ask for
//! (`Jobs`) are to be believed; `Reading` serves the proof. Words ask for one job at most
//! (`law_one_job`), whose numbers are in range (`law_jobs`), and whether the makers that were handed in have the one that it takes is a test of
//! its own (`Job::has_maker`). Stands on `ob_model` for the settings of a run, and on
//! `ob_base` for bytes.
#![tactic(auto)]

pub use job::{Job, WordsFault};
pub use laws::{law_jobs, law_one_job};
pub use reader::read_words;
pub use verb::Verb;

mod choices;
mod job;
mod laws;
mod numbers;
mod option;
mod reader;
#[cfg(test)]
mod tests;
mod verb;
