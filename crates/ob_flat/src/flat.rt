ghost use Rattle.std.specs.Prelude.{◌≡◌, ◌+◌, ◌*◌, ◌/◌, ◌%◌, ◌≤◌, ◌<◌, ◌^◌, IfOk};
ghost use Rattle.ob_model.specs.Limits.{most_static_bytes, stack_bytes, most_heap_bytes, statics_start};
ghost use Rattle.ob_words.specs.Fields.{IsFieldSize};
ghost use Rattle.ob_flat.specs.Memory.{whole_granules, index_of, capacity, field, with_field, has_mark, with_mark, with_zeros, zeroed, IsIn};

use ob_base::NoMemory;
use ob_words::{get_le, put_le};
use std::alloc::Global;
use std::marker::Model;

const STACK_START: u64 = 0x0100_0000;

const HEAP_START: u64 = 0x0200_0000;

const STATICS_START: u64 = 4096;

/// Bytes and granule marks in three ranges of addresses: `statics` bytes from 4096 on, `stack` bytes from
/// 2^24 on, and `heap` bytes from 2^25 on.
#[derive(Drop)]
pub struct Flat {
    statics: u64,
    stack: u64,
    heap: u64,
    bytes: Vec<u8>,
    marks: Vec<bool>,
}

impl Model for Flat {
    ghost use Rattle.ob_flat.specs.Memory.{Memory, IsLaidOut};

    ghost Value = { Memory };

    ghost view = { λ f. record { statics = f.statics; stack = f.stack; heap = f.heap; bytes = f.bytes.items; marks = f.marks.items } };

    ghost invariant = { λ f. IsLaidOut (record { statics = f.statics; stack = f.stack; heap = f.heap; bytes = f.bytes.items; marks = f.marks.items }) };
}

impl Flat {
    /// Three ranges of so many bytes, at most 4,194,304 of statics, 1,048,576 of stack and 67,108,864 of
    /// heap. Every byte is 0 and no granule holds a pointer.
    pub fn new(alloc: Global, statics: u64, stack: u64, heap: u64) -> Result<Flat, NoMemory>
        requires statics { statics ≤ most_static_bytes }
        requires stack { stack ≤ stack_bytes }
        requires heap { heap ≤ most_heap_bytes }
        ensures { IfOk result (λ f. f ≡ zeroed statics stack heap) }
    {
        let bytes = whole_granules(statics) + whole_granules(stack) + whole_granules(heap);
        Ok(Flat {
            statics,
            stack,
            heap,
            bytes: vec![in alloc; 0; bytes]?,
            marks: vec![in alloc; false; bytes / 8]?,
        })
    }

    /// The number of the `size` bytes from `address` on, the lowest first.
    pub fn get(&self, address: u64, size: u32) -> u64
        requires size { IsFieldSize size }
        requires inside { IsIn self.now address size }
        ensures { result ≡ field self.now address size }
    {
        let at = index(self.statics, self.stack, address);
        get_le(self.bytes.as_slice(), at, size as usize)
    }

    /// Puts the low bytes of `w` into the `size` bytes from `address` on.
    pub fn put(&mut self, address: u64, size: u32, w: u64)
        requires size { IsFieldSize size }
        requires inside { IsIn self.old address size }
        ensures { self.new ≡ with_field self.old address size w }
    {
        let at = index(self.statics, self.stack, address);
        put_le(self.bytes.as_mut_slice(), at, size as usize, w);
    }

    /// Whether the granule of `address` holds a pointer.
    pub fn is_pointer(&self, address: u64) -> bool
        requires { IsIn self.now address 1 }
        ensures { result ≡ has_mark self.now address }
    {
        self.marks[index(self.statics, self.stack, address) / 8]
    }

    /// Says whether the granule of `address` holds a pointer.
    pub fn mark(&mut self, address: u64, pointer: bool)
        requires { IsIn self.old address 1 }
        ensures { self.new ≡ with_mark self.old address pointer }
    {
        let at = index(self.statics, self.stack, address);
        self.marks[at / 8] = pointer;
    }

    /// Makes the `length` bytes from `address` on zero bytes, in granules that hold no pointer. Both are
    /// multiples of 8.
    pub fn zero(&mut self, address: u64, length: u64)
        requires address { address % 8 ≡ 0 }
        requires length { length % 8 ≡ 0 }
        requires inside { IsIn self.old address length }
        ensures { self.new ≡ with_zeros self.old address length }
    {
        let from = index(self.statics, self.stack, address);
        let to = from + length as usize;
        self.bytes[from..to].fill(0);
        self.marks[from / 8..to / 8].fill(false);
    }

    /// Makes all bytes 0 and all granules free of pointers, as `new` did. Takes no memory.
    pub fn clear(&mut self)
        ensures { self.new ≡ zeroed self.old.statics self.old.stack self.old.heap }
    {
        self.bytes.fill(0);
        self.marks.fill(false);
    }
}

// How many bytes keep so many bytes in whole granules.
fn whole_granules(bytes: u64) -> usize
    requires { bytes < 2 ^ 32 }
    ensures { result ≡ whole_granules bytes }
{
    (bytes as usize + 7) / 8 * 8
}

// Where the byte of an address stands among all bytes.
fn index(statics: u64, stack: u64, address: u64) -> usize
    requires statics { statics < 2 ^ 32 }
    requires stack { stack < 2 ^ 32 }
    requires start { statics_start ≤ address }
    requires address { address < 2 ^ 32 }
    ensures { result ≡ index_of statics stack address }
{
    if address < STACK_START {
        (address - STATICS_START) as usize
    } else if address < HEAP_START {
        whole_granules(statics) + (address - STACK_START) as usize
    } else {
        whole_granules(statics) + whole_granules(stack) + (address - HEAP_START) as usize
    }
}
