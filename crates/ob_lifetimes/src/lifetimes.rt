ghost use Rattle.std.specs.Prelude.{◌≡◌, ◌+◌, ◌<◌, ◌≤◌, ◌^◌, [], IfOk, IfSome, OnErr};
ghost use Rattle.std.specs.List.{All, Contains};
ghost use Rattle.ob_words.specs.Conversion.{convert};
ghost use Rattle.ob_words.specs.declared.types.IntType.TheVariants.{Long};
ghost use Rattle.ob_model.specs.declared.objects.Sort.TheVariants.{Static};
ghost use Rattle.ob_model.specs.Entries.{with_live};
ghost use Rattle.ob_model.specs.Limits.{stack_start};
ghost use Rattle.ob_model.specs.Pointers.{pointers_compare, difference};
ghost use Rattle.ob_model.specs.Settings.{IsFit};
ghost use Rattle.ob_access.specs.Pointees.{target_of};
ghost use Rattle.ob_pointers.specs.Pointing.{Shifts, target_in, pointer_in};
ghost use Rattle.ob_lifetimes.specs.Living.{IsSound, emptied, pointing_of};

use ob_access::Pointee;
use ob_base::NoMemory;
use ob_model::{Entry, Profile, RunSettings, Sort};
use ob_outside::Outside;
use ob_pointers::{Pointers, ShiftAnswer};
use ob_shelf::Shelf;
use ob_words::Relation;
use std::alloc::Global;
use std::marker::Model;

/// The most objects of calls at a time: each takes 16 bytes of the stack at least.
const MOST_LOCALS: usize = 65_536;

/// What `free` did: nothing, through null; a live object of the heap was freed by its own pointer; or the pointer
/// was any other, which is a stray access, and nothing changed.
#[derive(Clone, Copy, Debug, PartialEq, Eq)]
pub enum Freed {
    NoEffect,
    Own { object: u64 },
    Stray { object: u64, offset: i64 },
}

/// The objects of a run, with their pointers' slots, their blocks of the heap, and the granules outside of
/// them.
#[derive(Drop)]
pub struct Lifetimes {
    pub(crate) pointers: Pointers,
    pub(crate) shelf: Shelf,
    pub(crate) outside: Outside,
    pub(crate) profile: Profile,
    most_statics: usize,
    statics: usize,
    pub(crate) locals: usize,
    pub(crate) next: u64,
}

impl Model for Lifetimes {
    ghost use Rattle.ob_lifetimes.specs.Living.{Living};
    ghost use Rattle.ob_lifetimes.specs.Kept.{living_in, IsKept};

    ghost Value = { Living };

    ghost view = { λ l. living_in l.pointers l.shelf l.outside l.profile l.most_statics l.statics l.locals l.next };

    ghost invariant = { λ l. IsKept l.pointers l.shelf l.outside l.most_statics l.statics l.locals l.next };
}

impl Lifetimes {
    /// No objects under these settings, of which at most `statics` may be static (at most 262,144). Takes all the
    /// memory that it will ever take but for granules outside of objects, and answers `NoMemory` where there is
    /// too little.
    pub fn new(alloc: Global, settings: &RunSettings, statics: usize) -> Result<Lifetimes, NoMemory>
        requires settings { IsFit settings.now }
        requires statics { statics ≤ 262144 }
        ensures { IfOk result (λ l. l ≡ record { profile = settings.now.profile; cap = settings.now.store; away = settings.now.away; heap = settings.now.heap; most_statics = statics; statics = 0; locals = 0; entries = []; slots = []; blocks = []; outside = []; next = 1 }) }
    {
        let most = statics + MOST_LOCALS + (settings.heap / 16) as usize;
        Ok(Lifetimes {
            pointers: Pointers::new(alloc, most, settings.heap, settings.away as u32)?,
            shelf: Shelf::new(alloc, settings.heap)?,
            outside: Outside::new(alloc, settings.store as usize)?,
            profile: settings.profile,
            most_statics: statics,
            statics: 0,
            locals: 0,
            next: 1,
        })
    }

    /// No objects again, as `new` gave it. Takes no memory.
    pub fn clear(&mut self)
        ensures { self.new ≡ emptied self.old }
    {
        self.pointers.clear();
        self.shelf.clear();
        self.outside.clear();
        self.statics = 0;
        self.locals = 0;
        self.next = 1;
    }

    /// Does nothing; its clause says what holds of the objects at any time.
    pub fn stands(&self)
        ensures { IsSound self.now }
    {
        self.pointers.stands();
    }

    /// The number of the next object, from 1.
    pub fn next(&self) -> u64
        ensures { result ≡ self.now.next }
    {
        self.next
    }

    /// A new static object, which has the next number. There are fewer than there may be, it lies behind all
    /// objects that there are, and ends before the stack.
    pub fn add_static(&mut self, base: u64, size: u64)
        requires few { self.old.statics < self.old.most_statics }
        requires behind { All (λ k. k.entry.base + k.entry.size < base) self.old.entries }
        requires before { base + size < stack_start }
        requires base { 1 ≤ base }
        requires next { self.old.next < 2 ^ 63 }
        ensures { self.new ≡ record self.old { statics = self.old.statics + 1; entries = with_live (record { base = base; size = size; object = self.old.next; sort = Static }) self.old.entries; next = self.old.next + 1 } }
    {
        self.pointers.stands();
        let object = self.next;
        self.statics += 1;
        self.next += 1;
        self.pointers.insert(Entry {
            base,
            size,
            object,
            sort: Sort::Static,
        });
    }

    /// What a word names: an object, live or freed, with an offset; or nothing.
    pub fn resolve(&mut self, w: u64) -> Option<Pointee>
        ensures target { target_of result ≡ target_in (pointing_of self.old) w }
        ensures kept { self.new ≡ self.old }
        ensures known { IfSome result (λ p. Contains self.old.entries (record { entry = p.entry; freed = p.freed })) }
        ensures sound { IsSound self.old }
    {
        self.pointers.resolve(w)
    }

    /// The word of a pointer moved by so many bytes. `Far` and `Full` come as in `Pointers::shift`, and change
    /// nothing.
    pub fn shift(&mut self, w: u64, displacement: i64) -> Result<u64, ShiftAnswer>
        ensures moved { Shifts w displacement (pointing_of self.old) result (pointing_of self.new) }
        ensures others { self.new ≡ record self.old { slots = self.new.slots } }
        ensures unchanged { OnErr result (self.new ≡ self.old) }
    {
        self.pointers.shift(w, displacement)
    }

    /// Whether what two words name stands in a relation.
    pub fn order(&mut self, relation: Relation, a: u64, b: u64) -> bool
        ensures answer { result ≡ pointers_compare relation (pointer_in (pointing_of self.old) a) (pointer_in (pointing_of self.old) b) }
        ensures kept { self.new ≡ self.old }
    {
        self.pointers.order(relation, a, b)
    }

    /// How many elements of `size` bytes lie from what `b` names to what `a` names, as `long`. `size` is at least
    /// 1.
    pub fn difference(&mut self, a: u64, b: u64, size: u64) -> i64
        requires { 1 ≤ size }
        ensures answer { result ≡ convert Long (difference size (pointer_in (pointing_of self.old) a) (pointer_in (pointing_of self.old) b)) }
        ensures kept { self.new ≡ self.old }
    {
        self.pointers.difference(a, b, size)
    }
}
