ghost use Rattle.std.specs.Prelude.{◌≡◌, ℕ, ◌+◌, ◌-◌, ◌<◌, ◌≤◌, ◌⊎◌, ◌↔◌, IsTrue, length};
ghost use Rattle.ob_code.specs.Frames.{function_at};
ghost use Rattle.ob_code.specs.Layout.{local_of};
ghost use Rattle.ob_code.specs.Rules.{IsNamedBefore, least_bytes, IsWritten, IsStaticNameSound, IsLocalLong, IsVariableNameSound, IsHeldSound, IsShortName, IsNameRowSound};
ghost use Rattle.ob_code.specs.FirstFault.{IsPartAnswer};
ghost use Rattle.ob_code.specs.Limits.{most_names};

use crate::image::{FunctionRow, Image, LocalRow, NameRow, StaticRow};
use crate::rules::code::is_written;
use crate::rules::pointers::has_static;
use ob_base::is_name;

const MOST_NAMES: usize = 1_048_576;

const MOST_NAME_BYTES: usize = 1_048_576;

// The number of arrays and structures among the kinds of names.
const NO_LOAD_KIND: u32 = 12;

fn is_short_name(text: &[u8]) -> bool
    ensures { IsTrue result ↔ IsShortName text.now }
{
    is_name(text) && text.len() <= MOST_NAME_BYTES
}

// How many bytes a variable of this kind has at least.
fn least_bytes(kind: u32) -> u64
    ensures { result ≡ least_bytes kind }
{
    match kind {
        0..=2 => 1,
        3 | 4 => 2,
        5 | 6 => 4,
        7..=11 => 8,
        _ => 0,
    }
}

// Whether a row stands before another: by holder, then by ordinal.
fn is_named_before(p: &NameRow, q: &NameRow) -> bool
    ensures { IsTrue result ↔ IsNamedBefore p.now q.now }
{
    p.holder < q.holder || (p.holder == q.holder && p.ordinal < q.ordinal)
}

fn static_name_is_sound(image: &Image, row: &NameRow) -> bool
    ensures { IsTrue result ↔ IsStaticNameSound image.now row.now }
{
    let statics = image.statics.as_slice();
    has_static(statics, row.ordinal)
        && row.word == 0
        && least_bytes(row.kind) <= statics[row.ordinal as usize - 1].size
}

// The local row of a variable, by its ordinal.
fn local_of(f: &FunctionRow, ordinal: u32) -> Option<LocalRow>
    ensures { result ≡ local_of f.now ordinal }
{
    f.locals
        .as_slice()
        .iter()
        .copied()
        .find(|l| l.ordinal == ordinal)
}

fn local_is_long(f: &FunctionRow, row: &NameRow) -> bool
    ensures { IsTrue result ↔ IsLocalLong (local_of f.now row.now.ordinal) row.now.kind }
{
    match local_of(f, row.ordinal) {
        Some(l) => least_bytes(row.kind) <= l.size,
        None => false,
    }
}

fn variable_name_is_sound(f: &FunctionRow, row: &NameRow) -> bool
    ensures { IsTrue result ↔ IsVariableNameSound f.now row.now }
{
    row.ordinal < f.vars
        && if row.word == 0 {
            local_is_long(f, row)
        } else {
            is_written(f.words, row.word)
        }
}

fn held_is_sound(image: &Image, row: &NameRow) -> bool
    ensures { IsTrue result ↔ IsHeldSound image.now row.now }
{
    if row.holder == 0 {
        return static_name_is_sound(image, row);
    }
    match image.functions.as_slice().get(row.holder as usize - 1) {
        Some(f) => variable_name_is_sound(f, row),
        None => false,
    }
}

fn kind_is_sound(row: &NameRow) -> bool
    ensures { IsTrue result ↔ ((row.now.kind ≤ 12) × (row.now.kind ≡ 12 → row.now.word ≡ 0)) }
{
    row.kind <= NO_LOAD_KIND && (row.kind != NO_LOAD_KIND || row.word == 0)
}

fn name_row_is_sound(image: &Image, i: usize) -> bool
    requires { i < length image.now.names }
    ensures { IsTrue result ↔ IsNameRowSound image.now i }
{
    let rows = image.names.as_slice();
    (i == 0 || is_named_before(&rows[i - 1], &rows[i]))
        && held_is_sound(image, &rows[i])
        && kind_is_sound(&rows[i])
        && is_short_name(rows[i].name.bytes())
}

/// The first row of names that breaks a rule.
pub fn name_fault(image: &Image) -> Option<u64>
    ensures { IsPartAnswer most_names (length image.now.names) (IsNameRowSound image.now) result }
{
    let count = image.names.as_slice().len();
    if count > MOST_NAMES {
        return Some(MOST_NAMES as u64);
    }
    for i in 0..count {
        if !name_row_is_sound(image, i) {
            return Some(i as u64);
        }
    }
    None
}
