//! What holds of the definitions alone. Each law is the contract of a function that does nothing.

ghost use Rattle.ob_frames.specs.Laws.{LeaveGivesItsLink, FramesLieInARow, LinksLieFirst, OldBytesAreGone, LocalsLieInMemory, LocalsMeetNoLink, OthersMeetNoLink, StaticsLieInMemory, KeptOnceEntered, KeptOnceLeft};

/// In the definition, leaving a call gives the place that entering it was given, whatever words were
/// written and whatever other calls came and went. This speaks of the definition's list of calls, which
/// has each place beside the bytes; the words of `Between` may be any, links too. That the bytes of a
/// frame keep the place is promised elsewhere: the view of `Frames` takes its list of calls from the link
/// words in its bytes, and each of its calls but `clear` keeps them, by the clause `LinksAreKept`.
pub fn law_links()
    ensures { LeaveGivesItsLink }
{}

/// Two small frames: where they lie, what their link words hold, and that a frame begins with zero bytes
/// where another one was left.
pub fn law_frames()
    ensures bases { FramesLieInARow }
    ensures links { LinksLieFirst }
    ensures zeros { OldBytesAreGone }
{}

/// The bytes of a local object of a call in progress, and those of a static object, lie in memory. They
/// meet no link word of any call in progress, and neither do bytes of the heap.
pub fn law_objects()
    ensures locals_lie { LocalsLieInMemory }
    ensures locals_meet { LocalsMeetNoLink }
    ensures others_meet { OthersMeetNoLink }
    ensures statics_lie { StaticsLieInMemory }
{}

/// What keeps the links of some calls, and happens after others were entered or left, keeps the links of
/// the calls of before.
pub fn law_kept()
    ensures entered { KeptOnceEntered }
    ensures left { KeptOnceLeft }
{}
