ghost use Rattle.ob_meaning.specs.World.{vanish, kept, unlimited};
ghost use Rattle.ob_meaning.specs.ExampleRuns.{GranulesBefore, UnsetByteIsMade, PointerIsKeptOutside, OverrunReads, StrayStoreVanishes, StrayStoreIsKept, NeighbourIsUntouched, NumberAtNull, IllAlignedVanishes, LastGranule, PointerIsLost, DropChangesAnswer, UnlimitedEndsAtDrop, FirstDropIsTold, RecentUseKeeps, PointerComesBack, PointersAreEqualByObject, PointersAreCounted, OffsetsAreBounded, FreedPlaceIsTaken, HeapIsFull, UseAfterFreeEnds, OtherFreesAreTold, DivisionByZeroEnds, StepsRunOut, StackIsBounded, InputEnds};
ghost use Rattle.ob_meaning.specs.ValueTypes.{CallsHaveTypes, RunsBeginTyped, ValuesHaveTypes};
ghost use Rattle.ob_meaning.specs.TypeLaws.{ScalarsAreCounted};
ghost use Rattle.ob_meaning.specs.TypedPrograms.{RulesGiveValues, TypedProgramsGiveValues};
ghost use Rattle.ob_meaning.specs.MemoryLaws.{LoadsInsideTakeNone, RunsKeepObjectsWhole, RunsKeepOutsidesWhole, OtherGranulesStay, OtherOutsidesStay, OthersStayUndropped, SizesAndLivesStay, AllElseStays, StoredIsLoaded, StoredOutsideIsLoaded, StrayStoresVanish, StrayLoadsTakeOne, UnsetByteTakesOne, SetBytesTakeNone, NamedAreDead, GranulesOfTheDeadLeave, GranulesOfTheDeadDoNotCount, FreedStaysKnown, GranulesOfTheFreedLeave, OthersStayAsTheyAre, FirstByteIsFreed, FreedAgainIsTold, FreedStoresVanish, FreedLoadsTakeOne, KnownAreMoved, KnownAreCompared, KnownAreSubtracted};
ghost use Rattle.ob_meaning.specs.RunEnds.{RunsEndByThemselves};
ghost use Rattle.ob_meaning.specs.Lives.{NoneIsFreed, AutomaticsAloneDie, LiveObjectsAloneCount};
ghost use Rattle.ob_meaning.specs.Shown.{ShownIsLoaded};
ghost use Rattle.ob_meaning.specs.RuleRuns.{OperatorsCompute, ElseIsTheOther, SubscriptsAreInOrder, StructureIsInitial, StringFitsExactly, RelationsOfPointers, TwoObjectsAreOrdered, ProductIsExact, InnerFreeIsTold, StackIsFull};
ghost use Rattle.ob_meaning.specs.FreedRuns.{FreedStoreVanishes, BlockIsGivenAgain, FreedIsFreedAgain, FreedGranuleIsGone, FreedIsCompared, FreedPairStays, GranuleMakesRoom, AutomaticsDie, VariablesShow, StaticsShowAtTheEnd};
ghost use Rattle.ob_model.specs.declared.settings.Profile.TheVariants.{One, Two};
ghost use Rattle.ob_meaning.specs.FirstDrop.{AgreementGoesThrough, RunsAreAlikeToTheFirstDrop, RunsOfSettingsAreAlike, VanishingRunsDropNothing};
ghost use Rattle.ob_meaning.specs.Depth.{BoundOnCallsIsFree, BoundOnTurnsIsFree};
ghost use Rattle.ob_meaning.specs.LineExample.{LineIsCut, LineIsWhole};
ghost use Rattle.ob_meaning.specs.ControlRuns.{LeastSteps, LoopsTakeSteps, ChoicesSkip, CallsRecur, DanglingPointerEnds, ExitEnds, EndsGiveZeroOrNull, StaticsHoldPointers, ArraysAreInitialised, FinalZeroIsStored, StepsGiveOldOrNew, PointersWalk, StructuresAreCopied, ScalarsGoAstray};

/// Runs of small programs that read and write past their objects.
pub fn law_overruns()
    ensures reads { OverrunReads }
    ensures vanishes { StrayStoreVanishes }
    ensures kept { StrayStoreIsKept (kept 2) }
    ensures unlimited { StrayStoreIsKept (unlimited 2) }
    ensures neighbour { NeighbourIsUntouched vanish }
    ensures neighbour_of_kept { NeighbourIsUntouched (kept 2) }
    ensures neighbour_of_unlimited { NeighbourIsUntouched (unlimited 2) }
    ensures pointer { PointerIsLost }
    ensures last_granule { LastGranule vanish 48 1 }
    ensures last_granule_kept { LastGranule (kept 2) 57 0 }
{}

/// Runs of small programs with accesses through null and ill-aligned ones, which vanish under each rule.
pub fn law_no_place()
    ensures null { NumberAtNull vanish }
    ensures null_kept { NumberAtNull (kept 2) }
    ensures null_unlimited { NumberAtNull (unlimited 2) }
    ensures ill_aligned { IllAlignedVanishes vanish }
    ensures ill_aligned_kept { IllAlignedVanishes (kept 2) }
    ensures ill_aligned_unlimited { IllAlignedVanishes (unlimited 2) }
{}

/// Runs of small programs with more granules outside of objects than are kept.
pub fn law_drops()
    ensures kept { DropChangesAnswer }
    ensures unlimited { UnlimitedEndsAtDrop }
    ensures first { FirstDropIsTold }
    ensures recent { RecentUseKeeps }
{}

/// Runs of small programs with granules outside of objects: before them, partly stored, and with pointers.
pub fn law_outside()
    ensures before { GranulesBefore (kept 2) }
    ensures before_unlimited { GranulesBefore (unlimited 2) }
    ensures unset { UnsetByteIsMade (kept 2) }
    ensures unset_unlimited { UnsetByteIsMade (unlimited 2) }
    ensures pointer { PointerIsKeptOutside (kept 2) }
    ensures pointer_unlimited { PointerIsKeptOutside (unlimited 2) }
{}

/// Runs of small programs whose pointers leave their objects.
pub fn law_pointers()
    ensures back { PointerComesBack }
    ensures equality { PointersAreEqualByObject }
    ensures count { PointersAreCounted }
    ensures far { OffsetsAreBounded }
{}

/// Runs of small programs with objects of the heap.
pub fn law_heap()
    ensures first_fit { FreedPlaceIsTaken }
    ensures full { HeapIsFull }
    ensures dead { UseAfterFreeEnds vanish }
    ensures dead_kept { UseAfterFreeEnds (kept 2) }
    ensures dead_unlimited { UseAfterFreeEnds (unlimited 2) }
    ensures other { OtherFreesAreTold }
{}

/// Runs of small programs that end otherwise than by `main`'s return.
pub fn law_ends()
    ensures division { DivisionByZeroEnds }
    ensures steps { StepsRunOut }
    ensures stack { StackIsBounded }
    ensures input { InputEnds }
{}

/// Runs of small programs with loops, choices and calls.
pub fn law_control()
    ensures least { LeastSteps }
    ensures loops { LoopsTakeSteps }
    ensures choices { ChoicesSkip }
    ensures calls { CallsRecur }
    ensures dangling { DanglingPointerEnds }
    ensures exit { ExitEnds }
    ensures ends { EndsGiveZeroOrNull }
{}

/// Runs of small programs with initialisers, assignments and structures.
pub fn law_assignments()
    ensures statics { StaticsHoldPointers }
    ensures arrays { ArraysAreInitialised }
    ensures final_zero { FinalZeroIsStored }
    ensures steps { StepsGiveOldOrNew }
    ensures pointers { PointersWalk }
    ensures structures { StructuresAreCopied }
    ensures scalars { ScalarsGoAstray vanish 48 1 }
    ensures scalars_kept { ScalarsGoAstray (kept 1) 50 0 }
{}

/// Runs of small programs, each about one or two rules: operators, `else`, the order of a subscript, copies and
/// strings as initialisers, comparisons of pointers, the product of `calloc`, `free` of an inner pointer, and the
/// stack at its bound.
pub fn law_rules()
    ensures operators { OperatorsCompute }
    ensures choices { ElseIsTheOther }
    ensures subscripts { SubscriptsAreInOrder }
    ensures copy { StructureIsInitial }
    ensures string { StringFitsExactly }
    ensures relations { RelationsOfPointers }
    ensures two_objects { TwoObjectsAreOrdered }
    ensures product { ProductIsExact }
    ensures inner_free { InnerFreeIsTold }
    ensures stack { StackIsFull }
{}

/// Runs of small programs that use heap objects after they were freed, under the second profile, and some of
/// them under the first; an automatic object dies under both.
pub fn law_freed_runs()
    ensures store { FreedStoreVanishes vanish }
    ensures store_kept { FreedStoreVanishes (kept 2) }
    ensures store_unlimited { FreedStoreVanishes (unlimited 2) }
    ensures block_stays { BlockIsGivenAgain Two 48 }
    ensures block_is_given { BlockIsGivenAgain One 49 }
    ensures again { FreedIsFreedAgain vanish }
    ensures again_kept { FreedIsFreedAgain (kept 2) }
    ensures granule { FreedGranuleIsGone (kept 2) }
    ensures granule_unlimited { FreedGranuleIsGone (unlimited 2) }
    ensures compared { FreedIsCompared }
    ensures pair { FreedPairStays }
    ensures room { GranuleMakesRoom Two (unlimited 1) }
    ensures room_kept { GranuleMakesRoom Two (kept 1) }
    ensures room_of_dead { GranuleMakesRoom One (unlimited 1) }
    ensures automatic { AutomaticsDie One }
    ensures automatic_two { AutomaticsDie Two }
{}

/// What shows of two runs at their ends, one of which has a call in progress. The value that shows of an object is
/// the one that a load of it gives, which tells nothing and takes nothing.
pub fn law_shown()
    ensures variables { VariablesShow }
    ensures statics { StaticsShowAtTheEnd }
    ensures loaded { ShownIsLoaded }
{}

/// A program that reads a line into a buffer that is too short, and prints it.
pub fn law_line()
    ensures cut { LineIsCut }
    ensures whole { LineIsWhole }
{}

/// For all programs, settings, inputs and steps: where the run with unlimited objects ends by itself, the
/// run with a bounded list of stray granules is the same and drops none. Where the unlimited run ends
/// because a store would keep one granule too many, the bounded run begins as it does, and that store is
/// the first that drops. Where stray accesses vanish, nothing is dropped. So each run goes as the one of
/// its mode where objects are unlimited, and what agrees with the one agrees with the other.
pub fn law_first_drop()
    ensures bounded { RunsAreAlikeToTheFirstDrop }
    ensures vanishing { VanishingRunsDropNothing }
    ensures settings { RunsOfSettingsAreAlike }
    ensures machine { AgreementGoesThrough }
{}

/// Calls and loop turns have a meaning for each bound on how many of them stand one in another. A bound of
/// more than the steps left makes no difference.
pub fn law_depth()
    ensures calls { BoundOnCallsIsFree }
    ensures turns { BoundOnTurnsIsFree }
{}

/// A store through a pointer changes at most one granule of that pointer's object, or one granule outside of it. Each
/// other granule of that object and of every other stays, and so do sizes, lives and all that is no memory. Of the
/// granules outside this holds where objects are unlimited, and of a bounded list for as long as nothing was
/// dropped: a store that drops one takes that one away as well.
pub fn law_stores()
    ensures granules { OtherGranulesStay }
    ensures outsides { OtherOutsidesStay }
    ensures undropped { OthersStayUndropped }
    ensures lives { SizesAndLivesStay }
    ensures rest { AllElseStays }
{}

/// What is stored inside of an object is loaded again, converted to the type, and pointers as they are. A
/// load inside takes no manufactured value, since no object of a run has an unset byte of its own. What is stored
/// outside of an object is loaded again while objects are unlimited, since each granule of a run has eight bytes.
pub fn law_loads()
    ensures stored { StoredIsLoaded }
    ensures inside { LoadsInsideTakeNone }
    ensures whole { RunsKeepObjectsWhole }
    ensures outside { StoredOutsideIsLoaded }
    ensures eight { RunsKeepOutsidesWhole }
{}

/// Where stray accesses vanish, a stray store changes no memory and a stray load takes exactly one
/// manufactured value. Where objects are unlimited, a load outside takes exactly one where it meets an
/// unset byte, and else none.
pub fn law_strays()
    ensures stores { StrayStoresVanish }
    ensures loads { StrayLoadsTakeOne }
    ensures unset { UnsetByteTakesOne }
    ensures set { SetBytesTakeNone }
{}

/// When objects die, their granules leave and no longer count, and those of all others stay.
pub fn law_deaths()
    ensures dead { NamedAreDead }
    ensures granules { GranulesOfTheDeadLeave }
    ensures count { GranulesOfTheDeadDoNotCount }
{}

/// A heap object that is freed under the second profile stays known, with its size, its block and its out-of-bounds
/// pointers, while its granules outside leave. Through its pointer a store changes nothing, a load takes exactly one
/// manufactured value and `free` does nothing; each of them is told. Pointers to live and freed objects alike are
/// moved, compared and subtracted.
pub fn law_frees()
    ensures first { FirstByteIsFreed }
    ensures known { FreedStaysKnown }
    ensures granules { GranulesOfTheFreedLeave }
    ensures others { OthersStayAsTheyAre }
    ensures again { FreedAgainIsTold }
    ensures stores { FreedStoresVanish }
    ensures loads { FreedLoadsTakeOne }
    ensures moved { KnownAreMoved }
    ensures compared { KnownAreCompared }
    ensures subtracted { KnownAreSubtracted }
{}

/// In no run is an object freed under the first profile. Under the second one automatic objects alone die. The
/// granules that are kept outside of objects, and count against the bound, are those of live objects.
pub fn law_lives()
    ensures none_freed { NoneIsFreed }
    ensures automatic { AutomaticsAloneDie }
    ensures live { LiveObjectsAloneCount }
{}

/// No run ends for want of memory, with a failed write or for its number of instructions, and one ends with a failed
/// read only where the input ends in a failure.
pub fn law_endings()
    ensures { RunsEndByThemselves }
{}

/// The scalars that a structure assignment copies are as many as the structure's layout counts.
pub fn law_scalars()
    ensures { ScalarsAreCounted }
{}

/// In a typed program an expression of an integer type gives a number of that type, and one of a pointer
/// type gives null or a pointer; so do calls. A run begins in a world of which this holds, on any input. A program is
/// typed in this sense where its functions keep the rules of typing, and the typed tree of each program does.
pub fn law_values()
    ensures rules { RulesGiveValues }
    ensures programs { TypedProgramsGiveValues }
    ensures expressions { ValuesHaveTypes }
    ensures calls { CallsHaveTypes }
    ensures runs { RunsBeginTyped }
{}
