ghost use Rattle.std.specs.Prelude.{◌≡◌, ◌+◌, ◌-◌, ◌*◌, ◌/◌, ◌%◌, ◌^◌, ◌≤◌, ◌<◌, ◌==◌, true, unwrap_or};
ghost use Rattle.std.specs.Option.{option_map};
ghost use Rattle.ob_words.specs.Fields.{low_bytes};
ghost use Rattle.ob_model.specs.Accesses.{bytes_of_kind, is_aligned, place_in_granule};
ghost use Rattle.ob_model.specs.Cells.{bytes, content, entries_of, put_bytes, read_number, read_pointer, unset, written};
ghost use Rattle.ob_code.specs.Accesses.{number_word, read_cell, read_listed, write_cell};
ghost use Rattle.ob_outside.specs.Digits.{digits_at};

use crate::digits::{digits_at, low_digits, ones, spliced};
use ob_model::{Cell, LoadKind, size_of_kind};
use ob_words::{IntType, number, word};

// A granule that nothing was stored in.
fn unset() -> Cell
    ensures { content result ≡ unset }
{
    Cell {
        pointer: false,
        set: 0,
        word: 0,
    }
}

// Whether the bytes from a place on were all stored.
fn are_set(set: u8, place: u32, count: u32) -> bool
    requires { place + count ≤ 8 }
    ensures { result ≡ (digits_at set place count == 2 ^ count - 1) }
{
    digits_at(u64::from(set), place, count) == (1u128 << count) - 1
}

// The number of some bytes from a place on.
fn read_number(cell: Cell, place: u32, count: u32) -> Option<u64>
    requires { place + count ≤ 8 }
    ensures { result ≡ read_number count place (content cell) }
{
    if cell.pointer {
        Some(0)
    } else if are_set(cell.set, place, count) {
        Some(digits_at(cell.word, 8 * place, 8 * count) as u64)
    } else {
        None
    }
}

// The pointer, which is null among bytes, and nothing where one of them was never stored.
fn read_pointer(cell: Cell) -> Option<u64>
    ensures { result ≡ read_pointer 0 (content cell) }
{
    if cell.pointer {
        Some(cell.word)
    } else if are_set(cell.set, 0, 8) {
        Some(0)
    } else {
        None
    }
}

fn as_byte(n: u128) -> u8
    ensures { result ≡ n % 256 }
{
    (n % 256) as u8
}

fn as_word(n: u128) -> u64
    ensures { result ≡ n % 2 ^ 64 }
{
    (n % (1u128 << 64)) as u64
}

// Some bytes written from a place on among others.
fn write_bytes(set: u8, old: u64, place: u32, count: u32, w: u64) -> Cell
    requires { place + count ≤ 8 }
    ensures { content result ≡ bytes (put_bytes place (low_bytes count w) (entries_of 8 set old)) }
{
    let bits = spliced(u64::from(set), place, count, ones(count));
    let word = spliced(old, 8 * place, 8 * count, low_digits(w, 8 * count));
    Cell {
        pointer: false,
        set: as_byte(bits),
        word: as_word(word),
    }
}

// Some bytes written from a place on; a pointer that stood there leaves zero bytes.
fn write_number(cell: Cell, place: u32, count: u32, w: u64) -> Cell
    requires { place + count ≤ 8 }
    ensures { content result ≡ written place (low_bytes count w) (content cell) }
{
    if cell.pointer {
        write_bytes(255, 0, place, count, w)
    } else {
        write_bytes(cell.set, cell.word, place, count, w)
    }
}

// The place in its granule of an offset.
fn place_of(offset: i64) -> u32
    ensures { result ≡ place_in_granule offset }
{
    offset.rem_euclid(8) as u32
}

fn number_of(t: IntType, w: Option<u64>) -> Option<u64>
    ensures { result ≡ option_map (number_word t) w }
{
    match w {
        Some(w) => Some(word(number(t, w))),
        None => None,
    }
}

/// The cell that is listed, or a granule that nothing was stored in.
pub(crate) fn cell_or_unset(found: Option<Cell>) -> Cell
    ensures { content result ≡ unwrap_or (option_map content found) unset }
{
    match found {
        Some(cell) => cell,
        None => unset(),
    }
}

/// What a load of this kind finds where its granule is listed or isn't.
pub(crate) fn read_found(found: Option<Cell>, kind: LoadKind, offset: i64) -> Option<u64>
    requires { is_aligned offset (bytes_of_kind kind) ≡ true }
    ensures { result ≡ read_listed kind offset (option_map content found) }
{
    match found {
        Some(cell) => read_cell(cell, kind, offset),
        None => None,
    }
}

// What a load of this kind finds in its granule, or nothing where a byte that it reads was never stored.
fn read_cell(cell: Cell, kind: LoadKind, offset: i64) -> Option<u64>
    requires { is_aligned offset (bytes_of_kind kind) ≡ true }
    ensures { result ≡ read_cell kind offset (content cell) }
{
    match kind {
        LoadKind::Num(t) => number_of(t, read_number(cell, place_of(offset), size_of_kind(kind))),
        LoadKind::Ptr => read_pointer(cell),
    }
}

/// The granule once a store of this kind has written a word.
pub(crate) fn write_cell(cell: Cell, kind: LoadKind, offset: i64, w: u64) -> Cell
    requires { is_aligned offset (bytes_of_kind kind) ≡ true }
    ensures { content result ≡ write_cell kind offset w (content cell) }
{
    match kind {
        LoadKind::Num(_) => write_number(cell, place_of(offset), size_of_kind(kind), w),
        LoadKind::Ptr => Cell {
            pointer: true,
            set: 0,
            word: w,
        },
    }
}
