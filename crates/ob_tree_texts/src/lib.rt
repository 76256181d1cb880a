//! Trees as texts, for the trials of the parsers: each expression but a name, a constant and a call
//! in braces, each type name in angle brackets, each statement that stands in another in square
//! brackets. Nothing is promised of the texts; the trials compare them with texts that were worked out
//! by hand. Stands on `ob_tree` and `ob_base`; only trials stand on it.
#![tactic(auto)]

pub use expressions::{Shown, show_expr, show_spec};
pub use programs::show_program;

mod expressions;
mod programs;
