//! The life of objects: static ones, those of calls, and those of the heap. Promises: each object that is made,
//! dies or is freed changes the objects, slots, blocks and outside granules exactly as the machine's
//! definition does, in time that depends on that object's own slots and granules alone; words name what the
//! definition says. Stands on ob_pointers for words, on ob_shelf for the heap's places, on ob_outside for
//! granules outside of objects, on ob_code, ob_model and ob_standing for the definition, and on ob_base for
//! `NoMemory`. After `new` only `store_outside` takes memory.
//!
//! To be believed: `specs/Living`, over the definitions of ob_code and ob_model. `specs/Kept` serves the proof.
#![tactic(auto)]

pub use lifetimes::{Freed, Lifetimes};

mod calls;
mod heap;
mod lifetimes;
mod outside;
