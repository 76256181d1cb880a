//! The flat memory of an image with its static objects and the frames of its calls. Promises: memory and
//! the calls in progress are what the definition of the machine says after each call, and the place that a
//! call returns to, which lies in the bytes of its frame, stays what it was until the call is left. Stands
//! on ob_flat for bytes, on ob_statics for static objects, on ob_access for loads and stores by kind, and
//! on ob_code for images and for what the machine does. After `new` it takes no memory.
//!
//! To be believed are specs/Framed (what the frames are seen as, and what entering and leaving a call do)
//! and specs/Links (the link words and what it is to keep them). specs/Calls, Kept and Writes serve the
//! proof; Leaving, Examples and Laws are what the laws speak of.
#![tactic(auto)]

pub use frames::{Frames, Left, StackFull};

mod calls;
mod frames;
pub mod laws;
mod opening;
mod rows;
#[cfg(test)]
mod tests;
mod writing;
