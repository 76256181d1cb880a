ghost use Rattle.std.specs.Prelude.{◌≡◌, ◌≤◌, ◌+◌, ◌/◌, false, replicate, IfOk};
ghost use Rattle.ob_pointers.specs.Kept.{is_marked, with_mark};

use ob_base::NoMemory;
use std::alloc::Global;

/// Where the heap begins.
const HEAP_START: u64 = 0x0200_0000;

/// A mark for each multiple of 16 of the heap: whether the object that begins there was freed.
pub(crate) fn no_marks(alloc: Global, heap: u64) -> Result<Vec<bool>, NoMemory>
    requires { heap ≤ 67108864 }
    ensures { IfOk result (λ marks. marks.items ≡ replicate (heap / 16 + 1) false) }
{
    Ok(vec![in alloc; false; (heap / 16) as usize + 1]?)
}

/// Whether the object that begins at `base` was freed.
pub(crate) fn is_marked(marks: &[bool], base: u64) -> bool
    ensures { result ≡ is_marked marks.now base }
{
    if base < HEAP_START {
        return false;
    }
    match marks.get(((base - HEAP_START) / 16) as usize) {
        Some(mark) => *mark,
        None => false,
    }
}

/// Says whether the object that begins at `base` was freed; nothing changes outside of the heap.
pub(crate) fn set_mark(marks: &mut Vec<bool>, base: u64, freed: bool)
    ensures { marks.new.items ≡ with_mark marks.old.items base freed }
{
    if base < HEAP_START {
        return;
    }
    let index = ((base - HEAP_START) / 16) as usize;
    if index < marks.len() {
        marks[index] = freed;
    }
}
