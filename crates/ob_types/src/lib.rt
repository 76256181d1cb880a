//! The types of a program (C99 6.9): its typed tree, or its first fault.
//!
//! `check` walks the items of a program in order, after the functions of the library, whose trees have no places, and looks for
//! the functions without a body last. It answers exactly as the definition `typing` of `ob_typed` says, or has too little memory.
//! The time that it takes grows with the program, and no list is walked for each of its items. Stands on all other crates of
//! the type checker.
//!
//! To be believed are `Typing` of `ob_typed` with what it names, and `Answered` here; `FileView` reads what items add to as
//! the definition's.
#![tactic(auto)]

pub use programs::check;

mod beginning;
mod declarations;
mod file;
mod functions;
mod heads;
mod items;
mod missing;
mod programs;
