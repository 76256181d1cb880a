ghost use Rattle.std.specs.Prelude.{◌≡◌, ◌<◌, ◌^◌, length, map};
ghost use Rattle.std.specs.Option.{option_map};
ghost use Rattle.ob_code.specs.Accesses.{read_memory};
ghost use Rattle.ob_code.specs.Allocation.{allocated_at, free_event};
ghost use Rattle.ob_code.specs.Frames.{top_function};
ghost use Rattle.ob_code.specs.Layout.{static_base, local_base, wiped};
ghost use Rattle.ob_code.specs.Rules.{HasStatic};
ghost use Rattle.ob_frames.specs.Links.{KeepsLinks};
ghost use Rattle.ob_standing.specs.Laws.{KeepsStanding};
ghost use Rattle.ob_telling.specs.Telling.{watches_after};
ghost use Rattle.ob_lifetimes.specs.Living.{as_freeing};
ghost use Rattle.ob_space.specs.Loaded.{IsShowable, address_in_heap, after_free, freeing_of, heap_place, with_space};

use crate::Space;
use ob_frames::laws::law_objects;
use ob_lifetimes::Freed;
use ob_model::{Act, LoadKind, StrayEvent, law_first_fit};
use ob_standing::laws::{law_deaths, law_new_objects};
use ob_telling::tell_each;
use ob_watch::Watcher;
use ob_words::block;

/// Where the heap begins.
const HEAP_START: u64 = 0x0200_0000;

// The event of a `free` that went astray; none of any other.
fn event_of(freed: Freed, line: u32) -> Option<StrayEvent>
    ensures { result ≡ free_event (as_freeing freed) line }
{
    match freed {
        Freed::Stray { object, offset } => Some(StrayEvent {
            line,
            act: Act::Free,
            object,
            offset,
            size: 0,
        }),
        Freed::NoEffect | Freed::Own { .. } => None,
    }
}

impl Space {
    /// A new object of `n` zero bytes on the heap (C99 7.20.3), which has the next number; gives its address.
    /// `None` exactly where no place fits, and then nothing changes. The next number is below 2^63. Takes no
    /// memory of the host.
    pub fn alloc_object(&mut self, n: u128) -> Option<u64>
        requires { self.old.space.next < 2 ^ 63 }
        ensures address { result ≡ option_map address_in_heap (heap_place self.old n) }
        ensures space { self.new ≡ with_space self.old (allocated_at (heap_place self.old n) n self.old.space) }
        ensures links { KeepsLinks self.old.space self.new.space }
        ensures standing { KeepsStanding self.old.space self.new.space }
    {
        law_first_fit();
        law_new_objects();
        law_objects();
        self.frames.law_framed();
        self.living.stands();
        let place = self.living.allocate(n)?;
        let address = HEAP_START + place;
        self.frames.zero(address, block(n as u64));
        Some(address)
    }

    /// Frees what a word names (C99 7.20.3.2): a live object of the heap, by the pointer to its first byte. Under
    /// profile 1 it dies; under profile 2 it stays known, and its block isn't given out again. Through null
    /// nothing happens; with any other pointer nothing changes, and each watcher is told the stray access once,
    /// with its source line.
    pub fn free<W: Watcher>(&mut self, w: u64, line: u32, watchers: &mut Vec<W>)
        ensures space { self.new ≡ after_free self.old w }
        ensures told { map (λ w. record { capacity = W.capacity w; kept = W.kept w; total = W.told w }) watchers.new.items ≡ watches_after (free_event (freeing_of self.old w) line) (map (λ w. record { capacity = W.capacity w; kept = W.kept w; total = W.told w }) watchers.old.items) }
        ensures links { KeepsLinks self.old.space self.new.space }
        ensures standing { KeepsStanding self.old.space self.new.space }
    {
        law_deaths();
        self.frames.law_framed();
        self.living.stands();
        let freed = self.living.free(w);
        tell_each(watchers, event_of(freed, line));
    }

    /// Makes the granules of a local object of the innermost call zero bytes. The innermost call's function has
    /// that row.
    pub fn wipe(&mut self, row: u32)
        requires { row < length (top_function self.old.functions self.old.space.calls).locals }
        ensures space { self.new ≡ with_space self.old (wiped self.old.functions row self.old.space) }
        ensures links { KeepsLinks self.old.space self.new.space }
        ensures standing { KeepsStanding self.old.space self.new.space }
    {
        law_objects();
        self.frames.law_framed();
        let base = self.frames.local_base(row);
        let size = self.frames.local_row(row).size;
        self.frames.zero(base, 8 * size.div_ceil(8));
    }

    /// The base of a static object, by its number from 1. There is such an object.
    pub fn static_word(&self, number: u32) -> u64
        requires { HasStatic self.now.statics number }
        ensures { result ≡ static_base self.now.statics number }
    {
        self.frames.static_base(number)
    }

    /// The base of a local object of the innermost call, by its row from 0. Its function has that row.
    pub fn local_word(&self, row: u32) -> u64
        requires { row < length (top_function self.now.functions self.now.space.calls).locals }
        ensures { result ≡ local_base self.now.functions self.now.space row }
    {
        self.frames.local_base(row)
    }

    /// What a static object, or a local object of the innermost call, holds at its base `w`, as a load of this
    /// kind reads it; the object has the bytes of the kind at least. Tells nothing and takes no manufactured
    /// value.
    pub fn peek(&self, w: u64, kind: LoadKind) -> u64
        requires { IsShowable self.now w kind }
        ensures { result ≡ read_memory kind self.now.space.memory w }
    {
        law_objects();
        self.frames.law_framed();
        self.frames.read(kind, w)
    }
}
