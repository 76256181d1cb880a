//! The structures of a program, whose members are found by their names without a walk over them (C99 6.5.2.3,
//! 6.7.2.1). A structure of many members gets an index of them when it is completed: each name leads to the place of
//! its member. Where memory for that is lacking, and in a structure of few members, these are looked through one by
//! one. What each call gives is exactly the definition's, with an index and without.
//!
//! Stands on `ob_base`, `ob_tree`, `ob_layout` and `ob_scopes`. To be believed are `Sizes` of `ob_tree` and `Capped` of
//! `ob_layout`, and here `StructuresView`; `Indexes` serves the proof.
#![tactic(auto)]

pub use structures::Structures;

mod building;
mod structures;
