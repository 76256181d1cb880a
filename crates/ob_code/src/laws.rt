ghost use Rattle.ob_code.specs.Laws.{HelloIsWritten, ReturnPlaceIsCodeLength, EndlessIsSpent, TicksTakeSteps, JumpsGoByZero, ArgumentsAndResultArrive, CallReturnsAfterItself, StackHoldsTwoHalves, CharIsSigned, DivisionByZeroEnds, DisplacementsAreExact, InputEnds, InputIsBytes, FarPointerHasSlot, PointerComesBack, NullIsFirst, ObjectsAreInOrder, StaticsHoldPointers, HeapStartsAtItsPlace, FreedPlaceIsReused, ArrayHasItsProduct, OtherFreesAreTold, InnerFreeIsTold, LocalIsStoredAndWiped, StoreVanishesOrIsKept, LeastRecentlyUsedLeaves, VanishesInBothModes, PointerIsStoredWhole, FreedSlotIsReused, DeadGranulesAreForgotten, FreedAccessIsStray, FreedBlockStays, FreedPointerMoves, FreedGranulesLeave, VariablesShow, EndedRunShowsStatics, ValuesHaveOneWord, RunsAreBounded, SpentRunsAreExact, RunsEndSo, NamesAreUnread};

/// Runs of the machine's definition on small images: steps, jumps, calls and returns.
pub fn law_control_runs()
    ensures hello { HelloIsWritten }
    ensures return_place { ReturnPlaceIsCodeLength }
    ensures endless { EndlessIsSpent }
    ensures ticks { TicksTakeSteps }
    ensures jumps { JumpsGoByZero }
    ensures arguments { ArgumentsAndResultArrive }
    ensures links { CallReturnsAfterItself }
    ensures stack { StackHoldsTwoHalves }
{}

/// Runs on small images: numbers, displacements and input.
pub fn law_number_runs()
    ensures chars { CharIsSigned }
    ensures division { DivisionByZeroEnds }
    ensures displacements { DisplacementsAreExact }
    ensures input { InputEnds }
    ensures bytes { InputIsBytes }
{}

/// Runs on small images: pointers out of bounds, their order, and those that static objects hold.
pub fn law_pointer_runs()
    ensures slots { FarPointerHasSlot }
    ensures back { PointerComesBack }
    ensures order { NullIsFirst }
    ensures objects { ObjectsAreInOrder }
    ensures statics { StaticsHoldPointers }
{}

/// Runs on small images: the heap, local objects, and stray accesses in both modes.
pub fn law_object_runs()
    ensures heap { HeapStartsAtItsPlace }
    ensures reuse { FreedPlaceIsReused }
    ensures array { ArrayHasItsProduct }
    ensures frees { OtherFreesAreTold }
    ensures inner { InnerFreeIsTold }
    ensures locals { LocalIsStoredAndWiped }
    ensures strays { StoreVanishesOrIsKept }
{}

/// Runs on small images: which granules the bounded list keeps, accesses that always vanish, pointers in
/// memory, and what is forgotten when an object dies.
pub fn law_stray_runs()
    ensures recency { LeastRecentlyUsedLeaves }
    ensures vanishing { VanishesInBothModes }
    ensures pointers { PointerIsStoredWhole }
    ensures slots { FreedSlotIsReused }
    ensures granules { DeadGranulesAreForgotten }
{}

/// Every run of every image does at most `(instructions in the code + 1) * (steps + 1)` instructions, and
/// exactly so many where it ends with Spent.
pub fn law_runs_are_bounded()
    ensures most { RunsAreBounded }
    ensures spent { SpentRunsAreExact }
{}

/// Runs on small images under both profiles: a freed object that stays known has stray accesses alone, its
/// block and its pointers stay, and what was stored outside of it is forgotten.
pub fn law_freed_runs()
    ensures accesses { FreedAccessIsStray }
    ensures block { FreedBlockStays }
    ensures pointer { FreedPointerMoves }
    ensures granules { FreedGranulesLeave }
{}

/// What shows of a run that has no step left, and of one that has ended.
pub fn law_shown()
    ensures variables { VariablesShow }
    ensures ended { EndedRunShowsStatics }
{}

/// A value has one word at most, unless it is a dead object's pointer.
pub fn law_one_word()
    ensures { ValuesHaveOneWord }
{}

/// No run ends by a fault of a write or for want of memory, and one ends by a fault of a read only where
/// its input ends in one.
pub fn law_endings()
    ensures { RunsEndSo }
{}

/// A run is the same for each profile that its image names, and whatever names it has.
pub fn law_names_are_unread()
    ensures { NamesAreUnread }
{}
