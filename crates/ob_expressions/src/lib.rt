//! Expressions, and the specifiers and type names in them (C99 6.5, 6.7.2, 6.7.6): what each is, or its first fault.
//!
//! `check` and its kin walk a tree of the grammar: the parts from left to right, then the rule of the whole, which is a call
//! of a crate below. Each answers exactly as the definition of its name in `ob_typed` does, or has too little memory, and what
//! is known afterwards is what the definition hands on; after a fault or want of memory what is known is of no use. The walk
//! goes as deep as the tree. Stands on `ob_base`, `ob_tree`, `ob_typed`, `ob_layout`, `ob_scopes`, `ob_members`, `ob_conversions`, `ob_rules`,
//! `ob_context`, `ob_uses` and `ob_specifiers`.
//!
//! To be believed are `Expressions` of `ob_typed` and the views of `ob_context` and `ob_conversions`.
#![tactic(auto)]

pub use expressions::check;
pub use lengths::check_lengths;
pub use specifiers::check_spec;

mod applied;
mod calls;
mod expressions;
mod lengths;
mod operands;
mod specifiers;
