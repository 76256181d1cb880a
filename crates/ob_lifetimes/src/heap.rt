ghost use Rattle.std.specs.Prelude.{◌≡◌, ◌==◌, ◌<◌, ◌^◌, false};
ghost use Rattle.std.specs.List.{Contains};
ghost use Rattle.ob_model.specs.declared.objects.Sort.TheVariants.{Heap};
ghost use Rattle.ob_model.specs.Bounded.{surviving_cells};
ghost use Rattle.ob_model.specs.Descriptors.{surviving_pairs};
ghost use Rattle.ob_model.specs.Entries.{surviving_known, with_freed};
ghost use Rattle.ob_model.specs.Heap.{place_for, surviving_blocks};
ghost use Rattle.ob_model.specs.Objects.{frees};
ghost use Rattle.ob_code.specs.Allocation.{freeing};
ghost use Rattle.ob_pointers.specs.Pointing.{target_in};
ghost use Rattle.ob_lifetimes.specs.Living.{Allocates, Frees, as_freeing, pointing_of};

use crate::{Freed, Lifetimes};
use ob_access::Pointee;
use ob_model::{Entry, Profile, Sort, law_first_fit, law_heap_blocks};

/// Where the heap begins.
const HEAP_START: u64 = 0x0200_0000;

// Whether `free` of this pointer frees its object.
fn frees(pointer: &Pointee) -> bool
    ensures { result ≡ frees pointer.now.freed pointer.now.entry.sort pointer.now.offset }
{
    !pointer.freed && pointer.entry.sort == Sort::Heap && pointer.offset == 0
}

impl Lifetimes {
    /// A new object of the heap with `n` bytes, which has the next number; gives the place of its block in the
    /// heap, the least multiple of 16 where the block fits. `None` exactly where there is no such place, and
    /// then nothing changes. The next number is below 2^63.
    pub fn allocate(&mut self, n: u128) -> Option<u64>
        requires { self.old.next < 2 ^ 63 }
        ensures place { result ≡ place_for self.old.blocks self.old.heap n }
        ensures made { Allocates n self.old result self.new }
    {
        law_first_fit();
        law_heap_blocks();
        self.pointers.stands();
        let place = self.shelf.take(n)?;
        let object = self.next;
        self.next += 1;
        self.pointers.insert(Entry {
            base: HEAP_START + place,
            size: n as u64,
            object,
            sort: Sort::Heap,
        });
        Some(place)
    }

    // An object of the heap dies.
    fn end_block(&mut self, entry: &Entry)
        requires heap { entry.now.sort ≡ Heap }
        requires known { Contains self.old.entries (record { entry = entry.now; freed = false }) }
        ensures { self.new ≡ record self.old { entries = surviving_known (λ other. other == entry.now.object) self.old.entries; slots = surviving_pairs (λ other. other == entry.now.object) self.old.slots; blocks = surviving_blocks (λ other. other == entry.now.object) self.old.blocks; outside = surviving_cells (λ other. other == entry.now.object) self.old.outside } }
    {
        law_heap_blocks();
        self.pointers.stands();
        self.pointers.die(entry.base, entry.object);
        self.shelf.give(entry.base - HEAP_START);
        self.outside.forget(entry.object);
    }

    // An object of the heap is freed, and stays known.
    fn keep_freed(&mut self, entry: &Entry)
        requires heap { entry.now.sort ≡ Heap }
        requires known { Contains self.old.entries (record { entry = entry.now; freed = false }) }
        ensures { self.new ≡ record self.old { entries = with_freed entry.now.object self.old.entries; outside = surviving_cells (λ other. other == entry.now.object) self.old.outside } }
    {
        self.pointers.stands();
        self.pointers.free(entry.base, entry.object);
        self.outside.forget(entry.object);
    }

    // A live object of the heap is freed, as the profile has it.
    fn release(&mut self, entry: &Entry)
        requires heap { entry.now.sort ≡ Heap }
        requires known { Contains self.old.entries (record { entry = entry.now; freed = false }) }
        ensures { Frees self.old (Freed.Own entry.now.object) self.new }
    {
        match self.profile {
            Profile::One => self.end_block(entry),
            Profile::Two => self.keep_freed(entry),
        }
    }

    /// Frees what a word names (C99 7.20.3.2): a live object of the heap, by the pointer to its first byte. It
    /// dies under profile 1, and stays known under profile 2. Through null nothing happens; with any other
    /// pointer nothing changes, and the answer tells the stray access.
    pub fn free(&mut self, w: u64) -> Freed
        ensures freed { as_freeing result ≡ freeing (target_in (pointing_of self.old) w) }
        ensures after { Frees self.old result self.new }
    {
        let Some(pointer) = self.pointers.resolve(w) else {
            return Freed::NoEffect;
        };
        let object = pointer.entry.object;
        if !frees(&pointer) {
            return Freed::Stray {
                object,
                offset: pointer.offset,
            };
        }
        self.release(&pointer.entry);
        Freed::Own { object }
    }
}
