//! Each law is the contract of a function that does nothing.

ghost use Rattle.ob_standing.specs.Laws.{OtherChangesKeep, MovesKeep, CallsKeep, AllocationsKeep, ReturnsKeep, FreesKeep};

/// Loads, stores, words of frames and wiped objects change no object and no slot, and so no word's value.
pub fn law_other_changes()
    ensures { OtherChangesKeep }
{}

/// A move gives a pointer out of bounds a slot that was free, and leaves the others.
pub fn law_moves()
    ensures { MovesKeep }
{}

/// New objects have numbers that no pointer had.
pub fn law_new_objects()
    ensures calls { CallsKeep }
    ensures allocations { AllocationsKeep }
{}

/// Where objects die or are freed, the words of others stand for what they stood for, and those of a dead
/// object's pointers aren't 0.
pub fn law_deaths()
    ensures returns { ReturnsKeep }
    ensures frees { FreesKeep }
{}
