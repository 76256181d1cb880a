//! What words name as pointers: an address names the object that it lies in, or whose end it is, and the word
//! of a slot names a pointer that left its object (Jones and Kelly, AADEBUG 1997; Ruwase and Lam, NDSS
//! 2004). Promises: each word names what the machine's definition says; moves, comparisons and differences
//! are those of the definition; each object that becomes known, dies or is freed changes what the definition
//! changes. Stands on ob_objects for the table of objects, on ob_away for slots, on ob_access for moves and
//! comparisons, on ob_code and ob_model for the definition, and on ob_base for `NoMemory`. After `new` it
//! takes no memory.
//!
//! To be believed: `specs/Pointing`, over the definitions of ob_code. `specs/Kept` and `specs/Placing` serve the proof.
#![tactic(auto)]

pub use pointers::{Pointers, ShiftAnswer};

mod freed;
mod named;
mod pointers;
#[cfg(test)]
mod tests;
