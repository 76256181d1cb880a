ghost use Rattle.std.specs.Prelude.{◌≡◌, ◌↔◌, None, Err, map, IsErr, IfOk, OnOk, OnErr};
ghost use Rattle.ob_model.specs.Accesses.{granule};
ghost use Rattle.ob_model.specs.Bounded.{listed_cell};
ghost use Rattle.ob_frames.specs.Links.{KeepsLinks};
ghost use Rattle.ob_standing.specs.Laws.{KeepsStanding};
ghost use Rattle.ob_telling.specs.Telling.{watches_after};
ghost use Rattle.ob_code.specs.Accesses.{after_direct_store, after_outside_store, found_word, outside, space_after_load, space_after_store, too_far};
ghost use Rattle.ob_access.specs.Reaches.{as_access};
ghost use Rattle.ob_space.specs.declared.access.StoreAnswer.TheVariants.{Far, NoMemory};
ghost use Rattle.ob_space.specs.Accesses.{access_of, load_event, store_event, found, given_word, given_place, after_load, after_store, IsUnlisted, NeedsMemory, StoresAt};
ghost use Rattle.ob_space.specs.Granules.{WritesGranule};
ghost use Rattle.ob_space.specs.Loaded.{with_space};
ghost use Rattle.ob_space.specs.Reached.{IsReached, Reaches};

use crate::Space;
use ob_access::{Access, access_to};
use ob_events::{event_of, make_word};
use ob_flat::laws::{law_fields, law_layout, law_marks, law_zeros};
use ob_frames::laws::law_objects;
use ob_maker::Maker;
use ob_model::{Act, LoadKind, size_of_kind};
use ob_telling::tell_each;
use ob_watch::Watcher;

/// The answer of a load whose displacement, or whose pointer's offset plus the displacement, lies outside -2^62
/// to 2^62.
#[derive(Clone, Copy, Debug, PartialEq, Eq)]
pub struct FarOut;

/// Why a store isn't done: its displacement, or its pointer's offset plus the displacement, lies outside -2^62
/// to 2^62; or there is no memory for a granule outside of its object.
#[derive(Clone, Copy, Debug, PartialEq, Eq)]
pub enum StoreAnswer {
    Far,
    NoMemory,
}

// The word that a load gives: what it found, or the next manufactured value.
fn word_or_made<M: Maker>(found: Option<u64>, kind: LoadKind, maker: &mut M) -> u64
    ensures word { result ≡ given_word found kind (M.cycle maker.old) (M.place maker.old) }
    ensures place { M.place maker.new ≡ given_place found (M.cycle maker.old) (M.place maker.old) }
    ensures cycle { M.cycle maker.new ≡ M.cycle maker.old }
{
    match found {
        Some(w) => w,
        None => make_word(maker, kind),
    }
}

impl Space {
    // What becomes of an access, and what it rests on.
    fn access(&mut self, w: u64, displacement: i64, kind: LoadKind) -> Access
        ensures access { as_access result ≡ access_of self.old w displacement kind }
        ensures reached { Reaches (as_access result) kind self.old }
        ensures kept { self.new ≡ self.old }
        ensures links { KeepsLinks self.old.space self.new.space }
    {
        law_objects();
        self.frames.law_framed();
        self.living.stands();
        let pointer = self.living.resolve(w);
        access_to(
            self.settings.mode,
            pointer,
            displacement,
            size_of_kind(kind),
        )
    }

    // What a load finds.
    fn find(&mut self, access: Access, kind: LoadKind) -> Option<u64>
        requires { Reaches (as_access access) kind self.old }
        ensures word { result ≡ found_word (as_access access) kind self.old.space }
        ensures space { self.new ≡ with_space self.old (space_after_load (as_access access) self.old.space) }
        ensures links { KeepsLinks self.old.space self.new.space }
        ensures standing { KeepsStanding self.old.space self.new.space }
    {
        self.frames.law_framed();
        match access {
            Access::Direct { address } | Access::Own { address, .. } => Some(
                self.frames.read(kind, address),
            ),
            Access::Outside { object, offset } => self.living.load_outside(kind, object, offset),
            Access::Vanishing { .. } | Access::TooFar => None,
        }
    }

    // Writes a granule of a live object's own.
    fn write(&mut self, kind: LoadKind, address: u64, value: u64)
        requires { IsReached self.old kind address }
        ensures space { self.new ≡ with_space self.old (after_direct_store kind address value self.old.space) }
        ensures granule { WritesGranule kind address value self.old.space.memory self.new.space.memory }
        ensures links { KeepsLinks self.old.space self.new.space }
        ensures standing { KeepsStanding self.old.space self.new.space }
    {
        law_fields();
        law_marks();
        law_zeros();
        law_layout();
        self.frames.law_framed();
        self.frames.write(kind, address, value);
    }

    // Writes a granule outside of its object.
    fn write_outside(
        &mut self,
        kind: LoadKind,
        object: u64,
        offset: i64,
        value: u64,
    ) -> Result<(), ob_base::NoMemory>
        requires { Reaches (outside object offset) kind self.old }
        ensures no_memory { IsErr result → listed_cell object (granule offset) self.old.space.outside ≡ None }
        ensures space { OnOk result (self.new ≡ with_space self.old (after_outside_store self.old.settings.store kind object offset value self.old.space)) }
        ensures unchanged { OnErr result (self.new ≡ self.old) }
        ensures links { KeepsLinks self.old.space self.new.space }
        ensures standing { KeepsStanding self.old.space self.new.space }
    {
        self.frames.law_framed();
        self.living.store_outside(kind, object, offset, value)
    }

    // Does a store that is not too far.
    fn put(&mut self, access: Access, kind: LoadKind, value: u64) -> Result<(), ob_base::NoMemory>
        requires { Reaches (as_access access) kind self.old }
        ensures no_memory { IsErr result → IsUnlisted (as_access access) self.old }
        ensures space { OnOk result (self.new ≡ with_space self.old (space_after_store (as_access access) self.old.settings.store kind value self.old.space)) }
        ensures changes { OnOk result (StoresAt (as_access access) kind value self.old self.new) }
        ensures unchanged { OnErr result (self.new ≡ self.old) }
        ensures links { KeepsLinks self.old.space self.new.space }
        ensures standing { KeepsStanding self.old.space self.new.space }
    {
        self.frames.law_framed();
        match access {
            Access::Direct { address } | Access::Own { address, .. } => {
                self.write(kind, address, value);
                Ok(())
            }
            Access::Outside { object, offset } => self.write_outside(kind, object, offset, value),
            Access::Vanishing { .. } | Access::TooFar => Ok(()),
        }
    }

    /// What a load of this kind gives through a pointer, displaced by so many bytes: what lies in the pointer's
    /// own object there, or in a granule outside of it where strays are kept; or else the next manufactured
    /// value. A load that goes astray is told to each watcher once, before its effect, with its source line.
    /// `FarOut` comes exactly where the displacement, or the pointer's offset plus the displacement, lies
    /// outside -2^62 to 2^62; then nothing is told and nothing changes. Takes no memory.
    pub fn load<M: Maker, W: Watcher>(
        &mut self,
        w: u64,
        displacement: i64,
        kind: LoadKind,
        line: u32,
        maker: &mut M,
        watchers: &mut Vec<W>,
    ) -> Result<u64, FarOut>
        ensures far { IsErr result ↔ (access_of self.old w displacement kind ≡ too_far) }
        ensures word { IfOk result (λ word. word ≡ given_word (found self.old w displacement kind) kind (M.cycle maker.old) (M.place maker.old)) }
        ensures place { OnOk result (M.place maker.new ≡ given_place (found self.old w displacement kind) (M.cycle maker.old) (M.place maker.old)) }
        ensures unmoved { OnErr result (M.place maker.new ≡ M.place maker.old) }
        ensures cycle { M.cycle maker.new ≡ M.cycle maker.old }
        ensures told { map (λ w. record { capacity = W.capacity w; kept = W.kept w; total = W.told w }) watchers.new.items ≡ watches_after (load_event self.old w displacement kind line) (map (λ w. record { capacity = W.capacity w; kept = W.kept w; total = W.told w }) watchers.old.items) }
        ensures space { self.new ≡ after_load self.old w displacement kind }
        ensures links { KeepsLinks self.old.space self.new.space }
        ensures standing { KeepsStanding self.old.space self.new.space }
    {
        let access = self.access(w, displacement, kind);
        if matches!(access, Access::TooFar) {
            return Err(FarOut);
        }
        tell_each(
            watchers,
            event_of(access, line, Act::Load, size_of_kind(kind)),
        );
        let found = self.find(access, kind);
        Ok(word_or_made(found, kind, maker))
    }

    /// Stores a word through a pointer, displaced by so many bytes: the bytes of this kind in a granule of the
    /// pointer's own live object, or in one outside of it where strays are kept; any other store has no effect. A store
    /// that goes astray is told to each watcher once, before its effect, with its source line. `Far` comes
    /// exactly where the displacement, or the pointer's offset plus the displacement, lies outside -2^62 to
    /// 2^62; then nothing is told. `NoMemory` comes only in boundless mode, at a granule outside of its object
    /// that isn't listed; then the event was told. Both leave memory as it was.
    pub fn store<W: Watcher>(
        &mut self,
        w: u64,
        displacement: i64,
        kind: LoadKind,
        value: u64,
        line: u32,
        watchers: &mut Vec<W>,
    ) -> Result<(), StoreAnswer>
        ensures far { (result ≡ Err Far) ↔ (access_of self.old w displacement kind ≡ too_far) }
        ensures no_memory { result ≡ Err NoMemory → NeedsMemory self.old w displacement kind }
        ensures told { map (λ w. record { capacity = W.capacity w; kept = W.kept w; total = W.told w }) watchers.new.items ≡ watches_after (store_event self.old w displacement kind line) (map (λ w. record { capacity = W.capacity w; kept = W.kept w; total = W.told w }) watchers.old.items) }
        ensures space { OnOk result (self.new ≡ after_store self.old w displacement kind value) }
        ensures changes { OnOk result (StoresAt (access_of self.old w displacement kind) kind value self.old self.new) }
        ensures unchanged { OnErr result (self.new ≡ self.old) }
        ensures links { KeepsLinks self.old.space self.new.space }
        ensures standing { KeepsStanding self.old.space self.new.space }
    {
        let access = self.access(w, displacement, kind);
        if matches!(access, Access::TooFar) {
            return Err(StoreAnswer::Far);
        }
        tell_each(
            watchers,
            event_of(access, line, Act::Store, size_of_kind(kind)),
        );
        match self.put(access, kind, value) {
            Ok(()) => Ok(()),
            Err(_) => Err(StoreAnswer::NoMemory),
        }
    }
}
