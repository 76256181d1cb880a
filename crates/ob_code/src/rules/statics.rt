ghost use Rattle.std.specs.Prelude.{◌≡◌, ◌≢◌, ◌+◌, ◌-◌, ◌<◌, ◌≤◌, ◌↔◌, IsTrue, length, slice_index, take};
ghost use Rattle.ob_code.specs.Layout.{static_blocks};
ghost use Rattle.ob_code.specs.Rules.{IsStaticSound, static_at};
ghost use Rattle.ob_code.specs.FirstFault.{IsPartAnswer};
ghost use Rattle.ob_code.specs.Limits.{most_statics};
ghost use Rattle.ob_model.specs.Limits.{most_object_bytes, most_static_bytes};

use crate::image::{Image, StaticRow};
use ob_words::block;

const MOST_STATICS: usize = 262_144;

const MOST_BYTES: u64 = 4_194_304;

// Whether the last of the bytes, if there is one, isn't 0.
fn ends_well(given: &[u8]) -> bool
    ensures { IsTrue result ↔ (0 < length given.now → slice_index given.now (length given.now - 1) ≢ 0) }
{
    match given.last() {
        Some(last) => *last != 0,
        None => true,
    }
}

// Whether the blocks up to row i, which has this size, fit. `blocks` is what those of the rows before take.
#[tactic(auto, using(crate::proofs::Blocks::blocks_up_to))]
fn blocks_fit(rows: &[StaticRow], i: usize, size: u64, blocks: u64) -> bool
    requires row { i < length rows.now }
    requires size { size ≡ (static_at rows.now i).size }
    requires small { size ≤ most_object_bytes }
    requires blocks { blocks ≡ static_blocks (take i rows.now) }
    requires few { blocks ≤ most_static_bytes }
    ensures { IsTrue result ↔ (static_blocks (take (i + 1) rows.now) ≤ most_static_bytes) }
{
    blocks + block(size) <= MOST_BYTES
}

fn static_is_sound(rows: &[StaticRow], i: usize, blocks: u64) -> bool
    requires row { i < length rows.now }
    requires blocks { blocks ≡ static_blocks (take i rows.now) }
    requires few { blocks ≤ most_static_bytes }
    ensures { IsTrue result ↔ IsStaticSound rows.now i }
{
    let row = &rows[i];
    let given = row.given.bytes();
    row.size <= MOST_BYTES
        && given.len() as u64 <= row.size
        && ends_well(given)
        && blocks_fit(rows, i, row.size, blocks)
}

/// The first static row that breaks a rule.
#[tactic(auto, using(crate::proofs::Blocks::blocks_up_to))]
pub fn static_fault(image: &Image) -> Option<u64>
    ensures { IsPartAnswer most_statics (length image.now.statics) (IsStaticSound image.now.statics) result }
{
    let rows = image.statics.as_slice();
    if rows.len() > MOST_STATICS {
        return Some(MOST_STATICS as u64);
    }
    let mut blocks = 0;
    for i in 0..rows.len() {
        if !static_is_sound(rows, i, blocks) {
            return Some(i as u64);
        }
        blocks += block(rows[i].size);
    }
    None
}
