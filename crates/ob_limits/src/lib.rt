//! The limits of programs: the blocks of their static objects have at most 4,194,304 bytes in all, and their
//! functions weigh at most 1,048,576. `limits` looks at the one and then at the other, and stops adding where a sum is
//! over its limit, so that no sum is too great for a number. Takes no memory. Stands on `ob_typed` for typed programs, and on
//! `ob_layout` and `ob_words` for the sizes of objects and of blocks.
//!
//! To be believed: `Limits`, over the typed programs of `ob_typed` and the sizes of `ob_tree`.
#![tactic(auto)]

pub use limit::{Limit, limits};

mod limit;
