//! The parser of expressions and specifiers (C99 6.5, 6.7.2). `parse_expr` gives the expression of a
//! level that begins at a token, and the place behind it, where a token stands that can't go on with
//! it; else the first token that can stand in no such expression, or only in those whose paths have
//! more than 256 nodes. `parse_spec` does the same for specifiers. Both stop at the one place that the
//! grammar gives, and the trees stand where their tokens do; each has one clause that says all of this.
//!
//! An operator-precedence parser (shift and reduce): nodes that have begun wait on a stack for their
//! last part, and a token is shifted after those nodes are reduced that bind tighter than it. It keeps
//! to the machine of `ob_tree`'s specs `ExprStates` and `ExprMachine`, token by token.
//!
//! Stands on `ob_tree` for tokens, trees and the grammar, on `ob_base` for names and want of memory,
//! and on `ob_words` for the types of constants.
//!
//! To be believed: `specs/Parsed`, what an answer says, over `ob_tree`'s Fronts, Verdicts and Places.
//! The other specs serve the proof. `DeepestPaths` counts the nodes on the paths that have begun;
//! with it, these lemma files are the crate's laws, for the crates above: `Heights`, `Begun`, `Within`,
//! `Shapes`, `Adding`, `Kept`, `Sound`, `SoundAfter`, `SoundSpecs`, `Filling`, `Fills`, `Complete`,
//! `Reach`, `States` and `Exact`: the machine reads what the grammar spells, and no more.
#![tactic(auto)]

pub use level::Level;
pub use parse::{parse_expr, parse_spec};

mod behind;
mod brackets;
mod integers;
mod level;
mod lists;
mod measured;
mod nodes;
mod operands;
mod operators;
mod parse;
mod paths;
mod postfix;
mod read;
mod reader;
mod reduce;
mod shifts;
mod spec_nodes;
mod specifiers;
mod stack;
mod starts;
mod state;
