//! Initialisers (C99 6.7.8): what each is for an object or a part of a type, or its first fault, and the length that one
//! tells for an array without a length.
//!
//! `check_init` walks an initialiser: each item is judged when its expression was, before the next item, and a list's own faults
//! come after all its items. It answers exactly as the definition of its name in `ob_typed` does, or has too little memory, and
//! after a fault what is known is of no use. `foreseen` and `completed` are the type of an object before and after its
//! initialiser is walked. Stands on `ob_base`, `ob_tree`, `ob_typed`, `ob_consts`, `ob_conversions`, `ob_context`, `ob_specifiers`
//! and `ob_expressions`.
//!
//! To be believed are `Initialisers` of `ob_typed` and the views of `ob_tree`, `ob_typed`, `ob_conversions` and `ob_context`.
//! `Lists` here, which reads a vector of initialisers as the grammar's list, serves the proof.
#![tactic(auto)]

pub use lengths::{completed, foreseen};
pub use walk::check_init;

mod applied;
mod items;
mod lengths;
mod lists;
mod strings;
mod walk;
