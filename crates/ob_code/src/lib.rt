//! The instructions and images of the flat machine, the definition of how it runs one, and the test
//! that an image keeps the machine's rules. Promises: `verify` lets an image through exactly where it keeps
//! them all, and else tells the first part and row that doesn't; laws tell what runs of the definition do.
//! Stands on ob_words, ob_model and ob_flat for numbers, memory rules and bytes, and on ob_base for byte
//! lists. Takes no memory. Its tests stand in ob_code_trials.
//!
//! To be believed are, in specs/: State, Frames, Pointers, Accesses, Allocation, Layout, Machine and Start
//! (what each instruction does to a state of lists, and the run of an image), Standing (what it is for a
//! word to stand for a value), Shown (what shows of a state), Rules with Limits and Kinds (the rules
//! of an image; what a name is stands in ob_base), and FirstFault. Examples and Laws are what the laws speak of.
#![tactic(auto)]

pub use faults::{BadImage, Part};
pub use image::{FunctionRow, Image, LocalRow, NameRow, PointerRow, StaticRow};
pub use instructions::Instr;
pub use laws::{
    law_control_runs, law_endings, law_freed_runs, law_names_are_unread, law_number_runs,
    law_object_runs, law_one_word, law_pointer_runs, law_runs_are_bounded, law_shown,
    law_stray_runs,
};
pub use rows::Rows;
pub use rules::functions::frame_length;
pub use verified::{Verified, verify};

mod faults;
mod image;
mod instructions;
mod laws;
mod rows;
mod rules;
mod verified;
