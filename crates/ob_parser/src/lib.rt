//! The parser of programs (C99 6.7 to 6.9): it reads the tokens one by one and keeps the statements
//! and declarations that wait for their last part, so that programs of any depth cost no stack. A
//! right answer is the program that the tokens are; or the first token that can't stand where it
//! stands; or the first one with which every program that begins so is nested too deep. Each list of
//! tokens has a right answer, and only one. Stands on `ob_declarations` for what one token does, on
//! `ob_exprs` for expressions and specifiers, and on `ob_tree`.
//!
//! To be believed: `Answer`, over `ob_tree`'s ProgramFronts, ProgramPlaces, ProgramPaths and
//! ProgramValid, and what these stand on. The other specs serve the proof: `DeepestPaths` counts the
//! nodes on the paths that have begun, and `ReadTokens` says what holds while tokens are read.
#![tactic(auto)]

pub use laws::{law_one_answer, law_some_answer};
pub use parser::parse;

mod laws;
mod parser;
mod paths;
mod read;
