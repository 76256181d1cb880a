//! Checked memory of the flat machine: static objects, frames of calls, the heap, and what lies outside of
//! objects. Promises: each call does what its part of the machine's definition does, in both modes and
//! profiles: what a load gives, which bytes a store changes, which event is told; whatever word stood for a
//! value before a call stands for it afterwards, where a pointer to an object that died is read as a dead
//! object's; and no call but `clear` changes the link words of a call in progress. Stands on ob_frames for
//! flat memory and frames, on ob_lifetimes for objects and words, on ob_access and ob_events for accesses and
//! their events, on ob_telling, ob_watch and ob_maker for whom they are told and what is made up, on
//! ob_standing for words that stand for values, and on ob_code and ob_model for the definition. After `new`
//! only `store` takes memory, in boundless mode, at a granule outside of its object that isn't listed.
//!
//! To be believed are specs/Loaded (what a space is seen as, and what calls do to it), specs/Accesses (loads
//! and stores) and specs/Granules (what a store changes). specs/Kept serves the proof.
#![tactic(auto)]

pub use access::{FarOut, StoreAnswer};
pub use ob_frames::StackFull;
pub use ob_pointers::ShiftAnswer;
pub use space::Space;

mod access;
mod objects;
mod pointers;
mod space;
mod statics;
