//! Images of the flat machine as bytes, in both versions of the format: version 2 has the profile and the
//! names of variables, version 1 neither. `write_image` writes the one spelling of a verified image in
//! version 2. `read_image` reads both versions, and else tells the first byte from which no image's spelling
//! in either is left. What was written is read back as the same image. Reading takes memory in proportion
//! to the bytes that are there, and time linear in them, as no clause says.
//!
//! Stands on ob_code for images and their rules, on ob_model and ob_words for profiles, kinds, operators and
//! fields of bytes, and on ob_base for byte lists and for what a name is. To be believed: of specs/ Layout
//! and Spelling (the spelling of an image), and Faults (what reading answers). Instructions, Reading and
//! Rules serve the proof.
#![tactic(auto)]

pub use faults::ImageFault;
pub use laws::{law_no_prefix, law_reads_back};
pub use reading::read_image;
pub use writing::write_image;

mod faults;
mod fields;
mod fields_of;
mod given;
mod head;
mod instructions;
mod kinds;
mod laws;
mod layout;
mod names;
mod numbers;
mod parts;
mod reading;
mod rows;
mod writing;
