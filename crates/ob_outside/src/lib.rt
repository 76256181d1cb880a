//! Granules outside of objects, as loads and stores of numbers and pointers see them (boundless memory
//! blocks: Rinard and others, ACSAC 2004). Promises: the list of granules is that of the machine's
//! definition after each call; a load finds what was stored, or nothing where a byte that it reads was
//! never stored; `NoMemory` comes only at a store to a granule that isn't listed, and leaves the list as it
//! was. Stands on ob_stray for the bounded list, on ob_code and ob_model for what a granule gives and takes,
//! on ob_words for numbers and on ob_base for `NoMemory`. A store alone takes memory.
//!
//! To be believed: `specs/Granules`. `specs/Digits` serves the proof.
#![tactic(auto)]

pub use outside::Outside;

mod cells;
mod digits;
mod outside;
