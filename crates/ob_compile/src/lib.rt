//! The compiler's first half: from the bytes of a source to its typed tree, or to its first fault with its line and
//! column. `front` asks the stages one after another: the tokens, the program, the library functions that it needs, and the types.
//! Stands on `ob_sources` for the first two stages, on `ob_prelude` for the third, on `ob_types` for the fourth, and on `ob_limits`
//! for the limits of programs.
//!
//! To be believed: `Accepted`, which sources are accepted, and the first fault of the others, over `Stages`, `Positions` and `Reading`
//! of `ob_sources`, `Completion` of `ob_prelude`, `Typing` of `ob_typed` and `Limits` of `ob_limits`.
#![tactic(auto)]

pub use laws::{law_before_limits, law_one_outcome, law_some_outcome};
pub use stages::{accept, examine, front};

mod laws;
mod stages;
