//! The static objects of an image: where each lies, and what memory holds once they are laid out, with the
//! pointers that they hold. Promises: the base of each object is that of the definition, and the memory
//! that is laid out is the definition's. Stands on ob_flat for bytes and marks, on ob_code for the rows of
//! images and for where objects lie. After `new` it takes no memory.
//!
//! To be believed are specs/Contents (what memory and the list of objects hold then) and, of specs/Held,
//! `StaticParts` and `KeepsRanges`. The rest of Held serves the proof; Laws ties Contents to ob_code's
//! definition of how an image starts.
#![tactic(auto)]

pub use laws::{law_laid_out, law_ranges, law_zeroed};
pub use statics::Statics;

mod bases;
mod bytes;
mod laws;
mod statics;
#[cfg(test)]
mod tests;
