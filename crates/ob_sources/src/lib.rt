//! The first stages of a source: its tokens and its program, or the first fault among these with its line and
//! column. Stands on `ob_lexer`, `ob_parser` and `ob_tree`. A text comes to exactly one of the two.
//!
//! To be believed: `Stages`, how stages follow each other; `Positions`, the line and column of a place; and
//! `Reading`, the two stages. `proofs/Stages`, which proofs of other crates may cite, says of any two stages
//! that they come to one outcome, or to some, where each of them does.
#![tactic(auto)]

pub use front::{Source, read};
pub use laws::{law_one_program, law_some_program};
pub use position::{Position, position_at};

mod front;
mod laws;
mod position;
