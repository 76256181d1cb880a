ghost use Rattle.std.specs.Prelude.{◌≡◌, ℕ, ◌/◌, ◌%◌, ◌<◌, length, min, slice_index};
ghost use Rattle.ob_shelf.specs.Blocks.{IsLowered, Lowers, Raises};

/// How many classes of sizes there are: a size of so many granules of 16 bytes has that number as its
/// class, up to the last, which larger sizes share.
pub(crate) const CLASSES: usize = 65;

/// The hint for a size: a number of gaps, from the first on, that are shorter.
pub(crate) fn hint_for(hints: &[usize], size: u64) -> usize
    requires { length hints.now ≡ 65 }
    ensures { result ≡ slice_index hints.now (min (size / 16) 64) }
{
    hints[(size / 16).min(64) as usize]
}

/// After a block of `size` bytes went into gap `index`, the first that was long enough.
pub(crate) fn raise(hints: &mut [usize], size: u64, index: usize)
    requires { size % 16 ≡ 0 }
    ensures { Raises hints.old hints.new size index }
{
    let class = (size / 16) as usize;
    if class < hints.len() && hints[class] < index {
        hints[class] = index;
    }
}

/// What a hint still says once a gap of `merged` bytes stands at `index` in place of two.
fn lowered(hint: usize, class: usize, merged: u64, index: usize) -> usize
    requires { class < 65 }
    ensures { (k : ℕ) → k < result → IsLowered hint class merged index k }
{
    if hint <= index {
        hint
    } else if merged < 16 * class as u64 {
        hint - 1
    } else {
        index
    }
}

/// After a block was freed, and a gap of `merged` bytes stands at `index` in place of two.
pub(crate) fn lower(hints: &mut [usize], merged: u64, index: usize)
    requires { length hints.old ≡ 65 }
    ensures { Lowers hints.old hints.new merged index }
{
    for (class, hint) in hints.iter_mut().enumerate() {
        *hint = lowered(*hint, class, merged, index);
    }
}
