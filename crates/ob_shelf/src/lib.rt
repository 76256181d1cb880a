//! Heap places: which bytes of the heap are taken. Promises: a block gets the least multiple of 16 where
//! it meets no live block and ends within the heap, `None` comes exactly where there is no such place, and
//! freed neighbours count as one gap. Stands on ob_model and ob_words for the rule and on ob_base for
//! `NoMemory`; after `new` it takes no memory.
//!
//! To be believed: specs/Places, over ob_model's Heap (blocks, and the least place for one). Blocks serves
//! the proof.
#![tactic(auto)]

pub use shelf::Shelf;

mod blocks;
mod gaps;
mod hints;
mod shelf;
#[cfg(test)]
mod tests;
