//! Telling a stray access to watchers. Promises: each watcher is told the event once, whatever it kept before;
//! where there is no event, nothing changes. Stands on ob_watch for watchers and on ob_model for events.
//! Takes no memory.
//!
//! To be believed: `specs/Telling`.
#![tactic(auto)]

pub use telling::tell_each;

mod telling;
#[cfg(test)]
mod tests;
