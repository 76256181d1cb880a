//! What a name stands for where it is used (C99 6.5.1, 6.5.2.2, 6.5.2.3): an object's name, a member's name behind
//! `.` or `->`, and the name of a called function with its arguments.
//!
//! Each call answers exactly as the definition of its name in `ob_typed` does, or has too little memory; what it was
//! given is let go where it gives a fault. Stands on `ob_base`, `ob_words`, `ob_tree`, `ob_typed`, `ob_layout`, `ob_scopes`,
//! `ob_members`, `ob_conversions`, `ob_rules` and `ob_context`.
//!
//! To be believed are the rules of `ob_typed` (`PostfixRules`, `Expressions`); and here `ArgumentView`, which reads arguments
//! as the definition's. `MemberTypes` and `Passing` serve the proof.
#![tactic(auto)]

pub use arguments::Argument;
pub use calls::{builtin_parameters, builtin_result, calling};
pub use members::{arrow_rule, member_rule};
pub use names::name_rule;

mod arguments;
mod calls;
mod members;
mod names;
mod passing;
