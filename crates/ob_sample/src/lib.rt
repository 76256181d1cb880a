//! Large sources from a number, and a sink that counts. `sample_source` gives exactly the text of
//! `specs/Samples`, which is to be believed; `CountSink` takes every byte, keeps none, and tells how many
//! it took and their sum. Stands on `ob_base` for sinks, and on `itoa` for numbers.
#![tactic(auto)]

pub use count_sink::CountSink;
pub use source::sample_source;

mod count_sink;
mod source;
#[cfg(test)]
mod tests;
