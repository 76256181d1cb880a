ghost use Rattle.std.specs.Prelude.{◌≡◌, ℕ, ◌+◌, ◌-◌, ◌<◌, ◌≤◌, length, Some, None, MatchOption};
ghost use Rattle.ob_model.specs.Heap.{heap_place};
ghost use Rattle.std.specs.List.{All};
ghost use Rattle.ob_shelf.specs.Blocks.{AreLaid, IsGranular, IsInOrder, IsIndexOf, IsFirstGap, IsShorter, Splits, as_blocks, gap_start, gap_end};

use crate::blocks::LiveBlock;
use ob_model::law_first_fit;

/// Where gap `index` begins: at the end of the block before it.
pub(crate) fn gap_start(blocks: &[LiveBlock], index: usize) -> u64
    requires index { index ≤ length blocks.now }
    requires short { All (λ b. b.place + b.length ≤ 67108864) blocks.now }
    ensures value { result ≡ gap_start blocks.now index }
    ensures short { result ≤ 67108864 }
{
    if index == 0 {
        return 0;
    }
    let before = blocks[index - 1];
    u64::from(before.place) + u64::from(before.length)
}

/// Where gap `index` ends: at the block after it, or at the heap's end.
fn gap_end(blocks: &[LiveBlock], heap: u64, index: usize) -> u64
    ensures { result ≡ gap_end heap blocks.now index }
{
    match blocks.get(index) {
        Some(after) => u64::from(after.place),
        None => heap,
    }
}

/// The first gap from index `from` on that has `size` bytes; the gaps before are shorter.
fn first_gap(blocks: &[LiveBlock], heap: u64, from: usize, size: u64) -> Option<usize>
    requires laid { AreLaid heap blocks.now }
    requires size { size ≤ 67108864 }
    requires shorter { (k : ℕ) → k < from → IsShorter heap blocks.now size k }
    ensures { IsFirstGap heap blocks.now size result }
{
    for index in from..blocks.len() + 1 {
        if gap_start(blocks, index) + size <= gap_end(blocks, heap, index) {
            return Some(index);
        }
    }
    None
}

/// The gap that a block of `size` bytes goes into: its start is the heap's place for the block.
/// The gaps before index `from` are shorter.
pub(crate) fn gap_for(blocks: &[LiveBlock], heap: u64, from: usize, size: u64) -> Option<usize>
    requires laid { AreLaid heap blocks.now }
    requires size { size ≤ 67108864 }
    requires shorter { (k : ℕ) → k < from → IsShorter heap blocks.now size k }
    ensures gap { IsFirstGap heap blocks.now size result }
    ensures place { MatchOption result (heap_place (as_blocks blocks.now) heap size ≡ None) (λ i. heap_place (as_blocks blocks.now) heap size ≡ Some (gap_start blocks.now i)) }
{
    law_first_fit();
    first_gap(blocks, heap, from, size)
}

/// How long the gap is that comes to be when block `index` is freed.
pub(crate) fn merged_gap(blocks: &[LiveBlock], heap: u64, index: usize) -> u64
    requires index { index < length blocks.now }
    requires short { All (λ b. b.place + b.length ≤ 67108864) blocks.now }
    ensures { result ≡ gap_end heap blocks.now (index + 1) - gap_start blocks.now index }
{
    gap_end(blocks, heap, index + 1).saturating_sub(gap_start(blocks, index))
}

/// How many blocks have a place of at most `place`, by a binary search.
fn count_up_to(blocks: &[LiveBlock], place: u64) -> usize
    requires { IsInOrder blocks.now }
    ensures { Splits blocks.now place result }
{
    let mut low = 0;
    let mut high = blocks.len();
    while low < high {
        let middle = low + (high - low) / 2;
        if u64::from(blocks[middle].place) <= place {
            low = middle + 1;
        } else {
            high = middle;
        }
    }
    low
}

/// The index of the block at `place`, by a binary search.
pub(crate) fn index_of(blocks: &[LiveBlock], place: u64) -> Option<usize>
    requires in_order { IsInOrder blocks.now }
    requires granular { All IsGranular blocks.now }
    ensures { IsIndexOf blocks.now place result }
{
    let count = count_up_to(blocks, place);
    if count != 0 && u64::from(blocks[count - 1].place) == place {
        Some(count - 1)
    } else {
        None
    }
}
