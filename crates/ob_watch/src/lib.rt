//! Watchers of stray accesses. Promises: a watcher keeps the first events that it is told, as many as
//! it has room for, and counts all of them, up to 2^64 - 1. `FirstEvents` reserves its room when it is
//! made, `Counter` keeps none; telling an event takes no memory. A box with a watcher is a watcher.
//! `specs/Watching` is to be believed. Stands on ob_model for the event and on ob_base for `NoMemory`.
#![tactic(auto)]

pub use counter::Counter;
pub use first_events::FirstEvents;
pub use watcher::Watcher;

mod boxed;
mod counter;
mod first_events;
#[cfg(test)]
mod tests;
mod watcher;
