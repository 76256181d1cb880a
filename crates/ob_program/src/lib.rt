//! The program behind its `main`: `top` reads the words of the command line, does what they ask for, and
//! answers with a status. Its contract is one clause: the words ask for a job or for none, by its command the
//! job comes to an outcome, and the outcome is delivered. The rows of the table of answers and their causes
//! are laws above it.
//!
//! To be believed: `specs/Language` here, by which sources that are run are what `ob_first` says of them, and sources that
//! are checked what `ob_compile` says, and the definitions of `ob_commands`. Stands on `ob_commands` for all that needs no
//! compiler, on `ob_first` and `ob_compile` for sources, on `ob_settings` for the words, and on `ob_base` for its devices.
#![tactic(auto)]

pub use laws::{law_causes, law_faults, law_refusals, law_sources};
pub use ob_commands::Status;
pub use program::top;

mod check;
mod laws;
mod no_input;
mod program;
mod run;
