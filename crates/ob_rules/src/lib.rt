//! The rules of operators (C99 6.5.2.1, 6.5.2.4, 6.5.3 to 6.5.17): from what the operands are, what an
//! expression is, or its fault.
//! Each call answers exactly as the definition of its name in `ob_typed` does, or has too little memory; it
//! owns its operands, and lets them go where it gives a fault. Structure members and calls stand in
//! crates above. Stands on `ob_base`, `ob_words`, `ob_tree`, `ob_typed`, `ob_layout` and `ob_conversions`.
//!
//! To be believed are the rules of `ob_typed` (`PostfixRules`, `UnaryRules`, `BinaryRules`, `AssignRules`)
//! and the views of `ob_conversions`; `OperationView` here serves the proof.
#![tactic(auto)]

pub use assign::{assign_rule, assignment_rule, comma_rule, update_rule};
pub use binary::{binary_rule, cond_rule};
pub use postfix::{index_rule, step_rule};
pub use unary::{address_rule, cast_rule, size_rule, star_rule, unary_rule};

mod arithmetic;
mod assign;
mod binary;
mod joined;
mod postfix;
pub mod refused;
mod unary;
