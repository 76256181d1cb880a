ghost use Rattle.std.specs.Prelude.{◌≡◌, ◌≢◌, ◌+◌, ◌<◌, ◌≤◌, ◌^◌, ◌==◌, [], false, length, unsigned_abs, IfOk, IfSome, OnErr};
ghost use Rattle.std.specs.List.{All, Contains};
ghost use Rattle.std.specs.Option.{ForSome};
ghost use Rattle.ob_code.specs.Pointers.{base_of};
ghost use Rattle.ob_words.specs.Conversion.{convert};
ghost use Rattle.ob_words.specs.declared.types.IntType.TheVariants.{Long};
ghost use Rattle.ob_model.specs.Accesses.{is_far};
ghost use Rattle.ob_model.specs.Descriptors.{surviving_pairs};
ghost use Rattle.ob_model.specs.Entries.{with_live, with_freed, surviving_known, entries_of};
ghost use Rattle.ob_model.specs.Limits.{heap_start};
ghost use Rattle.ob_model.specs.Pointers.{pointers_compare, difference};
ghost use Rattle.ob_objects.specs.Objects.{AreApart};
ghost use Rattle.ob_access.specs.Pointees.{target_of};
ghost use Rattle.ob_access.specs.Shifts.{IsNear};
ghost use Rattle.ob_pointers.specs.Pointing.{Shifts, IsSound, IsHeapPlace, IsAt, IsKnownPointee, target_in, pointer_in};
ghost use Rattle.ob_pointers.specs.Placing.{Places, IsSlotted, IsMoveOf, as_answer};

use crate::freed::{no_marks, set_mark};
use crate::named::named;
use ob_access::{Pointee, Shift, difference, is_in_order, shift_to};
use ob_away::{AwayTable, Full};
use ob_base::NoMemory;
use ob_model::Entry;
use ob_objects::ObjectTable;
use ob_words::Relation;
use std::alloc::Global;
use std::marker::Model;

/// Why a pointer isn't moved: as many pointers as the settings allow are out of bounds already; or the
/// displacement, or the offset that it leads to, lies outside -2^62 to 2^62.
#[derive(Clone, Copy, Debug, PartialEq, Eq)]
pub enum ShiftAnswer {
    Full,
    Far,
}

/// The objects that the machine knows, live ones and freed ones, and the slots of pointers out of bounds.
#[derive(Drop)]
pub struct Pointers {
    objects: ObjectTable,
    freed: Vec<bool>,
    away: AwayTable,
    heap: u64,
}

impl Model for Pointers {
    ghost use Rattle.ob_pointers.specs.Pointing.{Pointing};
    ghost use Rattle.ob_pointers.specs.Kept.{pointing_in, IsKept};

    ghost Value = { Pointing };

    ghost view = { λ p. pointing_in p.objects p.freed.items p.away p.heap };

    ghost invariant = { λ p. IsKept p.objects.entries p.freed.items p.away.slots p.heap };
}

impl Pointers {
    /// No objects, of which `most` may be known at a time (at most 2^24), and no pointers out of bounds, of
    /// which `away` may stand; the heap has `heap` bytes (at most 67,108,864). Takes all the memory that it
    /// will ever take, and answers `NoMemory` where there is too little.
    pub fn new(alloc: Global, most: usize, heap: u64, away: u32) -> Result<Pointers, NoMemory>
        requires most { most ≤ 2 ^ 24 }
        requires heap { heap ≤ 67108864 }
        ensures { IfOk result (λ p. p ≡ record { most = most; away = away; heap = heap; entries = []; slots = [] }) }
    {
        Ok(Pointers {
            objects: ObjectTable::new(alloc, most)?,
            freed: no_marks(alloc, heap)?,
            away: AwayTable::new(alloc, away)?,
            heap,
        })
    }

    /// Forgets all objects and slots, which gives the state that `new` gave. Takes no memory.
    pub fn clear(&mut self)
        ensures { self.new ≡ record self.old { entries = []; slots = [] } }
    {
        self.objects.clear();
        self.freed.fill(false);
        self.away.clear();
    }

    /// Does nothing; its clause says what holds of the objects and slots at any time.
    pub fn stands(&self)
        ensures { IsSound self.now }
    {
        let _ = &self.heap;
    }

    /// What a word names: the object in which it is an address, one past the end included; or else the pointer
    /// out of bounds whose slot has that word; or nothing, which counts as null.
    pub fn resolve(&mut self, w: u64) -> Option<Pointee>
        ensures target { target_of result ≡ target_in self.old w }
        ensures kept { self.new ≡ self.old }
        ensures known { IfSome result (λ p. Contains self.old.entries (record { entry = p.entry; freed = p.freed })) }
        ensures sound { IsSound self.old }
    {
        named(&mut self.objects, self.freed.as_slice(), &self.away, w)
    }

    /// The word of a pointer moved by so many bytes (C99 6.5.6): null stays null; within its object, one past
    /// the end included, a pointer is an address; any other has the word of its slot, which it keeps for as
    /// long as its object is known. `Far` comes exactly where the displacement, or the offset plus the
    /// displacement, lies outside -2^62 to 2^62, `Full` exactly where the pointer out of bounds has no slot yet
    /// and as many others as the limit stand. Both leave everything as it was.
    pub fn shift(&mut self, w: u64, displacement: i64) -> Result<u64, ShiftAnswer>
        ensures moved { Shifts w displacement self.old result self.new }
        ensures entries { self.new ≡ record self.old { slots = self.new.slots } }
        ensures unchanged { OnErr result (self.new ≡ self.old) }
    {
        let pointer = self.resolve(w);
        self.place(pointer, shift_to(pointer, displacement))
    }

    /// Whether what two words name stands in a relation (C99 6.5.8 and 6.5.9): by the objects' numbers, and
    /// then by offsets, where null is object 0.
    pub fn order(&mut self, relation: Relation, a: u64, b: u64) -> bool
        ensures answer { result ≡ pointers_compare relation (pointer_in self.old a) (pointer_in self.old b) }
        ensures kept { self.new ≡ self.old }
    {
        let first = self.resolve(a);
        let second = self.resolve(b);
        is_in_order(relation, first, second)
    }

    /// How many elements of `size` bytes lie from what `b` names to what `a` names, truncated toward zero and
    /// converted to `long`; 0 between two objects (C99 6.5.6). `size` is at least 1.
    pub fn difference(&mut self, a: u64, b: u64, size: u64) -> i64
        requires { 1 ≤ size }
        ensures answer { result ≡ convert Long (difference size (pointer_in self.old a) (pointer_in self.old b)) }
        ensures kept { self.new ≡ self.old }
    {
        let first = self.resolve(a);
        let second = self.resolve(b);
        difference(first, second, size)
    }

    /// A new live object. There is room for it, its addresses, the one past its end included, are no other
    /// object's, its number is no other's, and one of the heap begins at a multiple of 16 there.
    pub fn insert(&mut self, e: Entry)
        requires room { length self.old.entries < self.old.most }
        requires end { e.base + e.size < 2 ^ 63 }
        requires apart { All (AreApart e) (entries_of self.old.entries) }
        requires number { All (λ k. k.entry.object ≢ e.object) self.old.entries }
        requires place { IsHeapPlace self.old.heap e }
        ensures { self.new ≡ record self.old { entries = with_live e self.old.entries } }
    {
        self.objects.insert(e);
    }

    /// The object that begins at `base` and has this number dies: it is known no more, and its pointers have
    /// no slots.
    pub fn die(&mut self, base: u64, object: u64)
        requires { IsAt base object self.old }
        ensures { self.new ≡ record self.old { entries = surviving_known (λ other. other == object) self.old.entries; slots = surviving_pairs (λ other. other == object) self.old.slots } }
    {
        let _ = self.objects.remove(base);
        set_mark(&mut self.freed, base, false);
        self.away.forget(base);
    }

    /// The object of the heap that begins at `base` and has this number is freed, and stays known.
    pub fn free(&mut self, base: u64, object: u64)
        requires known { IsAt base object self.old }
        requires heap { heap_start ≤ base }
        ensures { self.new ≡ record self.old { entries = with_freed object self.old.entries } }
    {
        set_mark(&mut self.freed, base, true);
    }

    // The word of a pointer that goes there.
    fn place(&mut self, pointer: Option<Pointee>, to: Shift) -> Result<u64, ShiftAnswer>
        requires known { ForSome pointer (IsKnownPointee self.old.entries) }
        requires near { IsNear to }
        requires goes { IsMoveOf (target_of pointer) to }
        ensures placed { Places (target_of pointer) to self.old result self.new }
        ensures entries { self.new ≡ record self.old { slots = self.new.slots } }
        ensures unchanged { OnErr result (self.new ≡ self.old) }
    {
        match to {
            Shift::StaysNull => Ok(0),
            Shift::TooFar => Err(ShiftAnswer::Far),
            Shift::InBounds { offset, .. } => {
                self.stands();
                Ok(address_of(pointer, offset))
            }
            Shift::OutOfBounds { offset, .. } => self.slot_word(pointer, offset),
        }
    }

    // The word of a pointer out of bounds.
    fn slot_word(&mut self, pointer: Option<Pointee>, offset: i64) -> Result<u64, ShiftAnswer>
        requires { ForSome pointer (IsKnownPointee self.old.entries) }
        ensures slotted { ForSome pointer (λ p. IsSlotted (p.entry.object, offset) self.old result self.new) }
        ensures entries { self.new ≡ record self.old { slots = self.new.slots } }
        ensures unchanged { OnErr result (self.new ≡ self.old) }
    {
        let Some(pointee) = pointer else {
            return Ok(0);
        };
        answered(self.away.word_for(pointee.entry.base, offset))
    }
}

fn answered(word: Result<u64, Full>) -> Result<u64, ShiftAnswer>
    ensures { result ≡ as_answer word }
{
    match word {
        Ok(w) => Ok(w),
        Err(Full) => Err(ShiftAnswer::Full),
    }
}

// The address of an offset in bounds.
fn address_of(pointer: Option<Pointee>, offset: i64) -> u64
    requires base { ForSome pointer (λ p. p.entry.base < 2 ^ 63) }
    requires near { is_far offset ≡ false }
    ensures { result ≡ base_of (target_of pointer) + unsigned_abs offset }
{
    match pointer {
        Some(pointee) => pointee.entry.base + offset.unsigned_abs(),
        None => offset.unsigned_abs(),
    }
}
