//! The sizes and alignments of types, the places of structure members, how many numbers and pointers a
//! type holds, and what a call takes of the stack (C99 6.5.3.4, 6.7.2.1). Each call gives exactly the
//! number of the definition, takes no memory but for the list that `offsets` gives, and never overflows: a
//! type that an object can have takes at most 4,194,304 bytes. A structure's layout is computed once, by
//! `complete`, and looked up from then on, so a call is as deep as the type alone. Stands on `ob_base`,
//! `ob_words` and `ob_tree`, whose definitions of sizes are to be believed, and so is `Offsets` here;
//! `Capped` and `Spread` serve the proof, and `Samples` the laws.
#![tactic(auto)]

pub use completing::{NotComplete, complete};
pub use frames::allowance;
pub use member_offsets::offsets;
pub use members::member;
pub use sizes::{align, has_size, is_complete, leaves, size};

mod completing;
mod counted;
mod frames;
pub mod laws;
mod member_offsets;
mod members;
mod sizes;
#[cfg(test)]
mod tests;
