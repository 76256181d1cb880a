//! Makers of manufactured values: what a load that goes astray gives (Rinard and others, OSDI 2004).
//! Promises: a maker gives the numbers of its cycle one after another, from the last to the first
//! again, and `restart` goes back to the first. The cycles of `Small`, `Zero` and `Count` are exactly
//! those of `specs/Cycles`, which are to be believed; each number is computed from its place, and
//! none is stored. A box with a maker is a maker. No call takes memory. Stands on ob_model for what a
//! cycle and its places are.
#![tactic(auto)]

pub use count::Count;
pub use maker::Maker;
pub use small::Small;
pub use zero::Zero;

mod boxed;
mod count;
mod maker;
mod small;
#[cfg(test)]
mod tests;
mod zero;
