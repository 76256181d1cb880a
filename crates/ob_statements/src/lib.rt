//! Statements (C99 6.8): what each is, or its first fault.
//!
//! `check_block` walks what stands in a block, and `check_body` a function's body. Each answers exactly as the definition of
//! `check_block` in `ob_typed` does, or has too little memory, and what is known afterwards is what the definition hands on;
//! after a fault or want of memory it is of no use. The walk goes as deep as the tree. Stands on `ob_base`, `ob_tree`,
//! `ob_typed`, `ob_conversions`, `ob_scopes`, `ob_context`, `ob_expressions`, `ob_initialisers` and `ob_variables`.
//!
//! To be believed are `Statements` of `ob_typed`, and `BlockTrees` here, which reads a vector of items as the grammar's block.
//! `Parts` serves the proof.
#![tactic(auto)]

pub use walk::{check_block, check_body};

mod blocks;
mod controls;
mod iterations;
mod jumps;
mod lists;
mod nodes;
mod selections;
mod walk;
