//! The bytes of the flat machine, with a mark for each granule of eight bytes that says whether it holds
//! a pointer. They lie in three ranges of addresses: statics from 4096, the stack from 2^24, and the heap
//! from 2^25. Each call changes what it names and nothing else. Stands on ob_words for little-endian
//! fields and on ob_base for its one error.
//!
//! To be believed: specs/Memory (the ranges, what a field, a mark and a cleared range are). Laws says in
//! terms of addresses what a write leaves alone, and is proved of Memory.
#![tactic(auto)]

pub use flat::Flat;

mod flat;
pub mod laws;
#[cfg(test)]
mod tests;
