ghost use Rattle.std.specs.Prelude.{◌≡◌, ◌+◌, ◌-◌, ◌*◌, ◌%◌, ◌<◌, ◌≤◌, [], length, IfOk, MatchOption, MatchResult};
ghost use Rattle.ob_model.specs.Accesses.{bytes_of_kind};
ghost use Rattle.ob_model.specs.Limits.{most_heap_bytes};
ghost use Rattle.ob_flat.specs.Memory.{IsIn, field, with_field, with_zeros};
ghost use Rattle.ob_code.specs.Accesses.{read_memory, write_memory};
ghost use Rattle.ob_code.specs.Frames.{function_at};
ghost use Rattle.ob_code.specs.Layout.{static_base};
ghost use Rattle.ob_code.specs.Rules.{HasStatic, static_at};
ghost use Rattle.ob_statics.specs.Held.{KeepsRanges};
ghost use Rattle.ob_frames.specs.Framed.{framed, cleared, local_base, top_local, top_locals, top_words, word_at, Enters, HasNoCall, IsRefused, IsTop, Leaves};
ghost use Rattle.ob_frames.specs.Kept.{IsFramed};
ghost use Rattle.ob_frames.specs.Links.{LinksAreKept, MeetsNoLink};
ghost use Rattle.ob_frames.specs.Writes.{WritesWord};

use crate::calls::{Active, add_call, top_base};
use crate::opening::{open_frame, put_in_frame};
use crate::rows::{copy_rows, row_of};
use crate::writing::{write_granule, zero_bytes};
use ob_access::read_memory;
use ob_base::NoMemory;
use ob_code::{FunctionRow, LocalRow, Rows, Verified, frame_length};
use ob_flat::Flat;
use ob_model::LoadKind;
use ob_statics::Statics;
use std::alloc::Global;
use std::marker::Model;

const STACK_START: u64 = 0x0100_0000;

const STACK_BYTES: u64 = 1_048_576;

// No more calls are in progress at a time, since each takes 16 bytes of the stack at least.
const MOST_CALLS: usize = 65_536;

const NO_LOCAL: LocalRow = LocalRow {
    ordinal: 0,
    place: 0,
    size: 0,
};

/// The answer of `Frames::enter` where the stack has no room for the call.
#[derive(Clone, Copy, Debug, PartialEq, Eq)]
pub struct StackFull;

/// A call that was left: its function, the place that it returns to, the address of its frame, and the
/// number of its first object.
#[derive(Clone, Copy, Debug, PartialEq, Eq)]
pub struct Left {
    pub function: u32,
    pub link: u64,
    pub base: u64,
    pub first: u64,
}

/// The memory of an image: its static objects, the frames of the calls in progress, and the bytes of the
/// heap. It is seen as the rows of the image, memory, and the calls in progress, the innermost first. No
/// call but `clear` changes the link words of a call in progress: the place that it returns to, and the
/// base of its caller's frame.
#[derive(Drop)]
pub struct Frames {
    flat: Flat,
    statics: Statics,
    functions: Rows<FunctionRow>,
    calls: Vec<Active>,
    taken: u64,
    end: u64,
    top: u64,
}

impl Model for Frames {
    ghost use Rattle.ob_frames.specs.Framed.{Framed};
    ghost use Rattle.ob_frames.specs.Kept.{IsPlaced, framed_in};

    ghost Value = { Framed };

    ghost view = { λ s. framed_in s.statics s.functions s.flat s.calls.items };

    ghost invariant = { λ s. IsPlaced (framed_in s.statics s.functions s.flat s.calls.items) s.calls s.taken s.end s.top };
}

impl Frames {
    /// The memory of an image, with `heap` bytes of heap, at most 67,108,864. Its static objects are laid
    /// out, and no call is in progress. Takes all the memory that it will ever take, and answers `NoMemory`
    /// where there is too little.
    pub fn new(alloc: Global, v: &Verified, heap: u64) -> Result<Frames, NoMemory>
        requires heap { heap ≤ most_heap_bytes }
        ensures value { IfOk result (λ frames. frames ≡ framed v.now heap) }
        ensures heap { IfOk result (λ frames. frames.memory.heap ≡ heap) }
    {
        let image = v.image();
        let functions = copy_rows(alloc, image.functions.as_slice())?;
        let statics = Statics::new(alloc, image.statics.as_slice(), image.pointers.as_slice())?;
        let calls = Vec::with_capacity(alloc, MOST_CALLS)?;
        let mut flat = Flat::new(alloc, statics.blocks(), STACK_BYTES, heap)?;
        statics.lay_out(&mut flat);
        Ok(Frames {
            flat,
            statics,
            functions,
            calls,
            taken: 0,
            end: STACK_START,
            top: 0,
        })
    }

    /// Makes the memory what `new` made it. No call is in progress then. Takes no memory.
    pub fn clear(&mut self)
        ensures memory { self.new ≡ cleared self.old }
        ensures heap { self.new.memory.heap ≡ self.old.memory.heap }
        ensures links { LinksAreKept self.old.calls self.new.calls self.new.memory }
    {
        self.flat.clear();
        self.statics.lay_out(&mut self.flat);
        self.calls.clear();
        self.taken = 0;
        self.end = STACK_START;
        self.top = 0;
    }

    /// What holds of the memory between calls: its rows keep the rules of images, and its frames lie one
    /// behind another, with their link words.
    pub fn law_framed(&self)
        ensures { IsFramed self.now }
    {
        let _ = &self.calls;
    }

    /// Enters a function of the image, and gives the base of its frame, which becomes zero bytes with its
    /// two link words: `link`, and the base of the caller's frame, which is 0 for the first call. `first` is
    /// the number of the call's first object. `StackFull` comes exactly where the allowances of the calls in
    /// progress and the function's sum to more than 1,048,576, and changes nothing.
    pub fn enter(&mut self, function: u32, link: u64, first: u64) -> Result<u64, StackFull>
        requires { function < length self.old.functions }
        ensures answer { MatchResult result (λ base. Enters function link first base self.old self.new) (λ _. IsRefused function self.old self.new) }
        ensures links { LinksAreKept self.old.calls self.new.calls self.new.memory }
    {
        let row = row_of(self.functions.as_slice(), function);
        let allowance = row.allowance;
        if allowance > STACK_BYTES - self.taken {
            return Err(StackFull);
        }
        let length = frame_length(row) as u64;
        let base = self.end;
        open_frame(&mut self.flat, base, length, link, self.top);
        add_call(
            &mut self.calls,
            Active {
                function,
                base,
                first,
            },
        );
        self.taken += allowance;
        self.end += length;
        self.top = base;
        Ok(base)
    }

    /// Leaves the innermost call, and gives what it was entered with. Its bytes stay. `None` comes exactly
    /// where no call is in progress, and changes nothing.
    pub fn leave(&mut self) -> Option<Left>
        ensures answer { MatchOption result (HasNoCall self.old self.new) (λ left. Leaves left self.old self.new) }
        ensures links { LinksAreKept self.old.calls self.new.calls self.new.memory }
    {
        let call = self.calls.pop()?;
        let link = self.flat.get(call.base, 8);
        self.taken -= row_of(self.functions.as_slice(), call.function).allowance;
        self.end = call.base;
        self.top = top_base(self.calls.as_slice());
        Some(Left {
            function: call.function,
            link,
            base: call.base,
            first: call.first,
        })
    }

    /// The row of a function of the image.
    pub fn row(&self, function: u32) -> &FunctionRow
        requires { function < length self.now.functions }
        ensures { result.now ≡ function_at self.now.functions function }
    {
        row_of(self.functions.as_slice(), function)
    }

    /// The function of the innermost call, and the base of its frame. `None` comes exactly where no call is
    /// in progress.
    pub fn top(&self) -> Option<(u32, u64)>
        ensures { MatchOption result (self.now.calls ≡ []) (λ top. IsTop self.now top.0 top.1) }
    {
        let call = self.calls.last()?;
        Some((call.function, call.base))
    }

    /// The address of the object of a local row of the innermost call's function.
    pub fn local_base(&self, row: u32) -> u64
        requires { row < length (top_locals self.now) }
        ensures { result ≡ local_base self.now row }
    {
        self.top + self.local_row(row).place
    }

    /// A local row of the innermost call's function.
    pub fn local_row(&self, row: u32) -> LocalRow
        requires { row < length (top_locals self.now) }
        ensures { result ≡ top_local self.now row }
    {
        match self.calls.last() {
            Some(call) => {
                let function = row_of(self.functions.as_slice(), call.function);
                function.locals.as_slice()[row as usize]
            }
            None => NO_LOCAL,
        }
    }

    /// How many static objects the image has.
    pub fn statics(&self) -> u32
        ensures { result ≡ length self.now.statics }
    {
        self.statics.len()
    }

    /// The size in bytes of a static object, numbered from 1.
    pub fn static_size(&self, number: u32) -> u64
        requires { HasStatic self.now.statics number }
        ensures { result ≡ (static_at self.now.statics (number - 1)).size }
    {
        self.statics.size(number)
    }

    /// The address of a static object, numbered from 1.
    pub fn static_base(&self, number: u32) -> u64
        requires { HasStatic self.now.statics number }
        ensures { result ≡ static_base self.now.statics number }
    {
        self.statics.base(number)
    }

    /// A word of the innermost call's frame, counted from 0. The frame has more than `index` words.
    #[inline(always)]
    pub fn get_word(&self, index: u32) -> u64
        requires { index < top_words self.now }
        ensures { result ≡ field self.now.memory (word_at self.now index) 8 }
    {
        self.flat.get(self.top + 8 * u64::from(index), 8)
    }

    /// Writes a word of the innermost call's frame, behind its two link words: `index` is at least 2, and
    /// the frame has more words. Nothing else changes.
    #[inline(always)]
    pub fn put_word(&mut self, index: u32, w: u64)
        requires least { 2 ≤ index }
        requires most { index < top_words self.old }
        ensures memory { self.new ≡ record self.old { memory = with_field self.old.memory (word_at self.old index) 8 w } }
        ensures word { WritesWord (word_at self.old index) w self.old.memory self.new.memory }
        ensures links { LinksAreKept self.old.calls self.new.calls self.new.memory }
    {
        put_in_frame(&mut self.flat, self.top, self.top + 8 * u64::from(index), w);
    }

    /// What a load of this kind reads at an address. The bytes lie in one of the three ranges.
    pub fn read(&self, kind: LoadKind, address: u64) -> u64
        requires { IsIn self.now.memory address (bytes_of_kind kind) }
        ensures { result ≡ read_memory kind self.now.memory address }
    {
        read_memory(&self.flat, kind, address)
    }

    /// Writes what a store of this kind writes at an address. The address is a multiple of the bytes that
    /// the store writes, and its granule lies in one of the three ranges and meets no link word of a call in
    /// progress. Nothing else changes.
    pub fn write(&mut self, kind: LoadKind, address: u64, w: u64)
        requires granule { IsIn self.old.memory (address - address % 8) 8 }
        requires aligned { address % bytes_of_kind kind ≡ 0 }
        requires apart { MeetsNoLink self.old.calls (address - address % 8) 8 }
        ensures memory { self.new ≡ record self.old { memory = write_memory kind self.old.memory address w } }
        ensures ranges { KeepsRanges self.old.memory self.new.memory }
        ensures links { LinksAreKept self.old.calls self.new.calls self.new.memory }
    {
        write_granule(&mut self.flat, kind, address, w);
    }

    /// Makes the `length` bytes from `address` on zero bytes, in granules that hold no pointer. Both are
    /// multiples of 8, and the bytes lie in one of the three ranges and meet no link word of a call in
    /// progress. Nothing else changes.
    pub fn zero(&mut self, address: u64, length: u64)
        requires address { address % 8 ≡ 0 }
        requires length { length % 8 ≡ 0 }
        requires inside { IsIn self.old.memory address length }
        requires apart { MeetsNoLink self.old.calls address length }
        ensures memory { self.new ≡ record self.old { memory = with_zeros self.old.memory address length } }
        ensures links { LinksAreKept self.old.calls self.new.calls self.new.memory }
    {
        zero_bytes(&mut self.flat, address, length);
    }
}
