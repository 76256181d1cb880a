ghost use Rattle.ob_model.specs.Laws.{GranulesHaveEightPlaces, OwnGranulesAreCounted, LastGranuleIsInBlock, FreesAreOwn, FreedDieOrStay, KnownAreInserted, KnownSurvive, FreedKeepTheirEntries, KnownAreFound, MovesStayInBounds, NullIsBeforeObjects, StraysAreTheOthers, OthersStayInside, StraysVanish, IllAlignedVanish, FreedVanish, HeapIsFirstFit, BlocksAreInserted, OneBlockLeaves, WordsNamePairs, OtherWordsNameNothing, LoadMovesToFront, OtherLoadsChangeNothing, StoreMovesToFront, FullListDropsItsLast, StoredIsListed, OthersStayListed, WrittenIsRead, KindsAreKept, CellsHoldWords, OwnStatusIsBelow, OtherStatusIsAbove, StatusOfSmallNumbers, OutcomesAgree, PlainOutcomesAreEqual, UsualSettingsAreFit, PlacesStayInTheCycle};

/// A granule has eight places, and an object's own granules are those that its bytes touch. The last one
/// lies in the object's block as a whole.
pub fn law_granules()
    ensures places { GranulesHaveEightPlaces }
    ensures own { OwnGranulesAreCounted }
    ensures last { LastGranuleIsInBlock }
{}

/// An access is astray unless its object isn't freed and it is aligned and inside. A stray access vanishes
/// where strays aren't kept, where it is ill aligned, and through a freed object's pointer.
pub fn law_strays()
    ensures others { StraysAreTheOthers }
    ensures inside { OthersStayInside }
    ensures vanishing { StraysVanish }
    ensures ill_aligned { IllAlignedVanish }
    ensures freed { FreedVanish }
{}

/// The heap's place for a block is the least multiple of 16 where it fits; there is none only where no
/// place fits.
pub fn law_first_fit()
    ensures { HeapIsFirstFit }
{}

/// The blocks of the heap's list of objects change as the list does.
pub fn law_heap_blocks()
    ensures inserted { BlocksAreInserted }
    ensures leaves { OneBlockLeaves }
{}

/// `free` frees an object by a pointer to its first byte, where it is live and of the heap. A freed object
/// dies or stays known, as the profile says.
pub fn law_freeing()
    ensures own { FreesAreOwn }
    ensures states { FreedDieOrStay }
{}

/// The entries of live and freed objects change as these do, and name the same ones.
pub fn law_known()
    ensures inserted { KnownAreInserted }
    ensures survive { KnownSurvive }
    ensures freed { FreedKeepTheirEntries }
    ensures found { KnownAreFound }
{}

/// A moved pointer is in bounds from its object's first byte to one past its last. No pointer is before
/// itself, and null is before the pointers to objects.
pub fn law_pointers()
    ensures moves { MovesStayInBounds }
    ensures order { NullIsBeforeObjects }
{}

/// A slot's word names what the slot holds, and no other word names a pair.
pub fn law_descriptors()
    ensures slots { WordsNamePairs }
    ensures others { OtherWordsNameNothing }
{}

/// Loads and stores at a listed granule bring it to the front and keep the order of the others. A store
/// at a new granule goes first, and the last entry of a full list leaves.
pub fn law_recency()
    ensures load { LoadMovesToFront }
    ensures other_load { OtherLoadsChangeNothing }
    ensures store { StoreMovesToFront }
    ensures full { FullListDropsItsLast }
{}

/// After a store the bounded list holds what was stored, and no more than its bound. Where nothing was
/// dropped, each other granule is as it was.
pub fn law_bounded_list()
    ensures stored { StoredIsListed }
    ensures others { OthersStayListed }
{}

/// Bytes that were written to a granule are read back. A pointer that a number was written over is gone,
/// and a pointer reads as the number 0. A cell holds a pointer's word, or those bytes of a word that are
/// set.
pub fn law_cells()
    ensures bytes { WrittenIsRead }
    ensures kinds { KindsAreKept }
    ensures cells { CellsHoldWords }
{}

/// The status of a program's own ending is its `int` modulo 128, and every other ending's is above 128.
pub fn law_status()
    ensures own { OwnStatusIsBelow }
    ensures other { OtherStatusIsAbove }
    ensures small { StatusOfSmallNumbers }
{}

/// Each outcome agrees with itself. With an outcome that tells a whole run no other agrees.
pub fn law_agreement()
    ensures itself { OutcomesAgree }
    ensures plain { PlainOutcomesAreEqual }
{}

/// The usual settings are fit, and the places of a cycle of manufactured values come round.
pub fn law_settings()
    ensures usual { UsualSettingsAreFit }
    ensures cycle { PlacesStayInTheCycle }
{}
