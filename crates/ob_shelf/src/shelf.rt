ghost use Rattle.std.specs.Prelude.{◌≡◌, ◌≤◌, ◌%◌, [], IfOk, IfSome, IfNone};
ghost use Rattle.ob_words.specs.Words.{block};
ghost use Rattle.ob_model.specs.Heap.{heap_place, with_block, without_place};

use crate::blocks::LiveBlock;
use crate::gaps::{gap_for, gap_start, index_of, merged_gap};
use crate::hints::{CLASSES, hint_for, lower, raise};
use ob_base::NoMemory;
use ob_model::law_first_fit;
use ob_words::block;
use std::alloc::Global;
use std::marker::Model;

/// The live blocks of a heap, in order of their places. A gap is what lies between two of them, so freed
/// neighbours count as one. For each small size a hint says how many gaps from the first on are too short,
/// so that a search goes over each of them once for as long as no block there is freed.
#[derive(Drop)]
pub struct Shelf {
    heap: u64,
    blocks: Vec<LiveBlock>,
    hints: [usize; CLASSES],
}

impl Model for Shelf {
    ghost use Rattle.ob_shelf.specs.Places.{Places};
    ghost use Rattle.ob_shelf.specs.Blocks.{IsKept, as_blocks};

    ghost Value = { Places };

    ghost view = { λ s. record { heap = s.heap; blocks = as_blocks s.blocks.items } };

    ghost invariant = { λ s. IsKept s.heap s.blocks s.hints };
}

impl Shelf {
    /// A heap of `heap` bytes, at most 67,108,864, without blocks. Takes all the memory that it will ever
    /// take, in proportion to `heap`, and answers `NoMemory` where there is too little.
    pub fn new(alloc: Global, heap: u64) -> Result<Shelf, NoMemory>
        requires { heap ≤ 67108864 }
        ensures { IfOk result (λ shelf. shelf ≡ record { heap = heap; blocks = [] }) }
    {
        let room = (heap / 16) as usize + 1;
        Ok(Shelf {
            heap,
            blocks: Vec::with_capacity(alloc, room)?,
            hints: [0; CLASSES],
        })
    }

    /// Takes a block of `size` bytes and gives its place.
    fn take_block(&mut self, size: u64) -> Option<u64>
        requires most { size ≤ 67108864 }
        requires least { 16 ≤ size }
        requires whole { size % 16 ≡ 0 }
        ensures place { result ≡ heap_place self.old.blocks self.old.heap size }
        ensures taken { IfSome result (λ place. self.new ≡ record self.old { blocks = with_block (record { place = place; length = size }) self.old.blocks }) }
        ensures none { IfNone result (self.new ≡ self.old) }
    {
        let from = hint_for(&self.hints, size);
        let index = gap_for(self.blocks.as_slice(), self.heap, from, size)?;
        let place = gap_start(self.blocks.as_slice(), index);
        let taken = LiveBlock {
            place: place as u32,
            length: size as u32,
        };
        let _ = self.blocks.insert(index, taken);
        raise(&mut self.hints, size, index);
        Some(place)
    }

    /// Takes a block for `n` bytes, which is the least multiple of 16 that is at least n + 1, and gives
    /// its place, counted from the heap's first byte: the least multiple of 16 where it meets no live
    /// block and ends within the heap. `None` exactly where there is no such place, and then nothing
    /// changes.
    pub fn take(&mut self, n: u128) -> Option<u64>
        ensures place { result ≡ heap_place self.old.blocks self.old.heap (block n) }
        ensures taken { IfSome result (λ place. self.new ≡ record self.old { blocks = with_block (record { place = place; length = block n }) self.old.blocks }) }
        ensures none { IfNone result (self.new ≡ self.old) }
    {
        law_first_fit();
        if n >= u128::from(self.heap) {
            return None;
        }
        self.take_block(block(n as u64))
    }

    /// Frees the block that starts at `place`; where none does, nothing changes.
    pub fn give(&mut self, place: u64)
        ensures { self.new ≡ record self.old { blocks = without_place place self.old.blocks } }
    {
        if let Some(index) = index_of(self.blocks.as_slice(), place) {
            let merged = merged_gap(self.blocks.as_slice(), self.heap, index);
            let _ = self.blocks.remove(index);
            lower(&mut self.hints, merged, index);
        }
    }

    /// Frees all blocks, which gives the state that `new` gave, in the memory that the shelf has.
    pub fn clear(&mut self)
        ensures { self.new ≡ record self.old { blocks = [] } }
    {
        self.blocks.clear();
        self.hints = [0; CLASSES];
    }
}
