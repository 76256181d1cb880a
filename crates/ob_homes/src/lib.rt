//! Where the variables of a function are, and which of them an expression assigns. Each call gives exactly what the
//! definitions of `ob_lower` say, and looks at its tree once.
//!
//! `exposed` finds the variables of which more is done than to read and assign them, `placing` the word or the bytes
//! of each, `words` looks up one, and `assigned` says whether an expression assigns a variable's word. Stands on `ob_lower`,
//! whose `Variables`, `Homes` and `Assigned` are to be believed, on `ob_typed` for typed trees, and on `ob_conversions` for tests of
//! types. To be believed here is `HomesView`; `Flags` serves the proof.
#![tactic(auto)]

pub use assigned::{arguments_assign, assigns, lean_assigns, place_assigns};
pub use home::{Home, Homes};
pub use placing::homes;
pub use words::{home_of, local_row, variable_word};

mod adding;
mod assigned;
mod exposed;
mod home;
mod placing;
mod words;
