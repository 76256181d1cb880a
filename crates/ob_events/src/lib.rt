//! What a stray access tells and takes: its event, and where a load finds nothing the next manufactured
//! value. Promises: the event is that of the machine's definition, and comes exactly where it has one; the
//! word is the one that the maker's cycle has at its place, which moves on. Stands on ob_access for accesses,
//! on ob_maker for makers, on ob_code and ob_model for the definition, and on ob_words for numbers. Takes no
//! memory, and has no definitions of its own.
#![tactic(auto)]

pub use event::event_of;
pub use making::make_word;

mod event;
mod making;
#[cfg(test)]
mod tests;
