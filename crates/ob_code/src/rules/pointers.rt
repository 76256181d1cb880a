ghost use Rattle.std.specs.Prelude.{◌≡◌, ℕ, ◌+◌, ◌<◌, ◌≤◌, ◌^◌, ◌↔◌, IsTrue, length, slice_index};
ghost use Rattle.ob_code.specs.Rules.{HasStatic, IsBefore, IsHolderSound, IsTargetSound, IsPointerSound};
ghost use Rattle.ob_code.specs.FirstFault.{IsPartAnswer};
ghost use Rattle.ob_code.specs.Limits.{most_pointers};

use crate::image::{Image, PointerRow, StaticRow};

const MOST_POINTERS: usize = 524_288;

// Whether there is a static object of this number, from 1.
pub fn has_static(statics: &[StaticRow], object: u32) -> bool
    ensures { IsTrue result ↔ HasStatic statics.now object }
{
    1 <= object && object as usize <= statics.len()
}

// The byte at a place, or 0 past the end.
fn byte_at(given: &[u8], place: u64) -> u8
    ensures { result ≡ slice_index given.now place }
{
    match given.get(place as usize) {
        Some(b) => *b,
        None => 0,
    }
}

// Whether the eight bytes from a place on are 0 or past the end.
fn eight_are_zero(given: &[u8], place: u64) -> bool
    requires { place + 8 < 2 ^ 64 }
    ensures { IsTrue result ↔ ((k : ℕ) → k < 8 → slice_index given.now (place + k) ≡ 0) }
{
    for k in 0..8 {
        if byte_at(given, place + k) != 0 {
            return false;
        }
    }
    true
}

// Whether the eight bytes from an offset on lie in an object of this size.
fn granule_fits(offset: u64, size: u64) -> bool
    ensures fits { IsTrue result ↔ (offset + 8 ≤ size) }
    ensures word { IsTrue result → offset + 8 < 2 ^ 64 }
{
    u128::from(offset) + 8 <= u128::from(size)
}

fn holder_is_sound(statics: &[StaticRow], p: PointerRow) -> bool
    ensures { IsTrue result ↔ IsHolderSound statics.now p }
{
    if !has_static(statics, p.holder) {
        return false;
    }
    let row = &statics[p.holder as usize - 1];
    p.offset % 8 == 0
        && granule_fits(p.offset, row.size)
        && eight_are_zero(row.given.bytes(), p.offset)
}

fn target_is_sound(statics: &[StaticRow], p: PointerRow) -> bool
    ensures { IsTrue result ↔ IsTargetSound statics.now p }
{
    has_static(statics, p.target) && p.target_offset <= statics[p.target as usize - 1].size
}

// Whether a row stands before another: by holder, then by offset.
fn is_before(p: PointerRow, q: PointerRow) -> bool
    ensures { IsTrue result ↔ IsBefore p q }
{
    p.holder < q.holder || (p.holder == q.holder && p.offset < q.offset)
}

fn pointer_is_sound(image: &Image, i: usize) -> bool
    requires { i < length image.now.pointers }
    ensures { IsTrue result ↔ IsPointerSound image.now.statics image.now.pointers i }
{
    let statics = image.statics.as_slice();
    let rows = image.pointers.as_slice();
    holder_is_sound(statics, rows[i])
        && target_is_sound(statics, rows[i])
        && (i == 0 || is_before(rows[i - 1], rows[i]))
}

/// The first pointer row that breaks a rule.
pub fn pointer_fault(image: &Image) -> Option<u64>
    ensures { IsPartAnswer most_pointers (length image.now.pointers) (IsPointerSound image.now.statics image.now.pointers) result }
{
    let count = image.pointers.as_slice().len();
    if count > MOST_POINTERS {
        return Some(MOST_POINTERS as u64);
    }
    for i in 0..count {
        if !pointer_is_sound(image, i) {
            return Some(i as u64);
        }
    }
    None
}
