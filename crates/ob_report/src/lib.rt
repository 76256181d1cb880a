//! The lines that the program prints: usage, errors, diagnostics of a source, reports of stray accesses,
//! verdicts of audits and the runs of samples. Each function gives exactly the text that `specs/` defines,
//! which is to be believed: `Lines`, `Diagnostics`, `Reports`, `Verdicts` and `Samples`. `proofs/` serves
//! the proofs alone. Stands on `ob_base`, on `ob_tree`, `ob_code`, `ob_model` and `ob_watch` for what is
//! told, and on `itoa` for numbers.
#![tactic(auto)]

pub use diagnostics::diagnostic;
pub use lines::{
    bad_image_line, ending_line, file_fault_line, file_long_line, not_yet_line, usage_line,
};
pub use reports::report;
pub use samples::{SampleRun, sample_line};
pub use verdicts::{VerdictLine, verdict_text};

mod diagnostics;
mod lines;
mod numbers;
mod reports;
mod samples;
#[cfg(test)]
mod tests;
mod verdicts;
