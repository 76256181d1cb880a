ghost use Rattle.ob_statics.specs.Laws.{LaidOutIsStatic, RangesAreKept, ZeroedIsLaidOut};

/// The space in which an image's run begins: its memory is what laying out the static objects makes of
/// zero bytes, its objects are the static ones, and it holds nothing else. The next object's number comes
/// after theirs.
pub fn law_laid_out()
    ensures { LaidOutIsStatic }
{}

/// Zero bytes are laid out in their three ranges.
pub fn law_zeroed()
    ensures { ZeroedIsLaidOut }
{}

/// Static objects that are laid out leave the three ranges as long as they were.
pub fn law_ranges()
    ensures { RangesAreKept }
{}
