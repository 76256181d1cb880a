//! What becomes of a checked access or move, once it is known which object its pointer points into: too
//! far, direct, astray, without effect. Promises: each answer is that of the machine's definition, and a
//! load or store by kind reads and writes the flat bytes as the definition does. Stands on ob_flat for
//! bytes, on ob_code for the definition, on ob_model for what goes astray, and on ob_words for numbers.
//! Takes no memory.
//!
//! To be believed: `specs/Pointees`, `specs/Reaches` and `specs/Shifts`, which say what the program's own
//! types stand for, over the definitions of ob_code and ob_model.
#![tactic(auto)]

pub use access::{Access, access_to};
pub use memory::{number_word, read_memory, write_memory};
pub use pointee::{Pointee, difference, is_in_order};
pub use reach::is_far;
pub use shift::{Shift, shift_to};

mod access;
mod memory;
mod pointee;
mod reach;
mod shift;
#[cfg(test)]
mod tests;
