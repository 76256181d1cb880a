//! The compiler of today: sources of the first form become images. Promises: a text of at most 2^20 bytes
//! comes to exactly one outcome (a fault of its tokens or of its syntax at a place, a program that can't be
//! compiled yet, or one that is compiled), `compile_first` answers with it, and the image of a program does
//! what the program says.
//!
//! To be believed: of specs/ FirstForm (which programs have the form, and what they do), FirstRun (an image
//! that does the same) and Sources (what a text comes to). FirstCode has the image, FirstReading serves the
//! proof. Stands on `ob_sources` for the source, on `ob_code`, `ob_frames` and `ob_flat` for
//! images and their runs, and on what these stand on.
#![tactic(auto)]

pub use compile::compile_first;
pub use laws::{law_first_runs, law_one_outcome, law_some_outcome};
pub use refusal::Refusal;

mod compile;
mod first_form;
mod laws;
mod refusal;
