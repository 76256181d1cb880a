//! Out-of-bounds descriptors: the table that gives each pointer outside its object a word of its own.
//! Promises: a pair of an object and an offset has one word for as long as it is listed, a new pair
//! gets the least free slot, and the answer is `Full` exactly where no slot is free. After `new` it takes
//! no memory, and forgetting an object costs in proportion to its own pairs, times a logarithm at most.
//! Stands on ob_model for the slots and their words and on ob_base for `NoMemory`.
//!
//! To be believed: specs/Slots, over ob_model's Descriptors (slots, the least free one, their words).
//! Kept and Enters serve the proof.
#![tactic(auto)]

pub use table::{AwayTable, Full};

mod chains;
mod free;
mod index;
mod table;
#[cfg(test)]
mod tests;
