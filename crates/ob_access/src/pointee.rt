ghost use Rattle.std.specs.Prelude.{◌≡◌, ◌≤◌, pos, ◌-ℤ◌, int_div};
ghost use Rattle.ob_words.specs.Conversion.{convert};
ghost use Rattle.ob_words.specs.declared.types.IntType.TheVariants.{Long};
ghost use Rattle.ob_model.specs.Pointers.{difference, is_before, is_same, object_of, offset_of, pointers_compare};
ghost use Rattle.ob_access.specs.Pointees.{value_of};

use ob_model::Entry;
use ob_words::{IntType, Relation, convert};

/// What a pointer that isn't null points into: a live or freed object, and the offset in bytes from its
/// first byte, which may lie outside of the object.
#[derive(Clone, Copy, Debug, PartialEq, Eq)]
pub struct Pointee {
    pub entry: Entry,
    pub freed: bool,
    pub offset: i64,
}

// Null counts as object 0 with offset 0.
fn place_of(pointer: Option<Pointee>) -> (u64, i64)
    ensures object { result.0 ≡ object_of (value_of pointer) }
    ensures offset { result.1 ≡ offset_of (value_of pointer) }
{
    match pointer {
        Some(p) => (p.entry.object, p.offset),
        None => (0, 0),
    }
}

fn is_before(p: Option<Pointee>, q: Option<Pointee>) -> bool
    ensures { result ≡ is_before (value_of p) (value_of q) }
{
    let (object, offset) = place_of(p);
    let (other, place) = place_of(q);
    object < other || (object == other && offset < place)
}

fn is_same(p: Option<Pointee>, q: Option<Pointee>) -> bool
    ensures { result ≡ is_same (value_of p) (value_of q) }
{
    match (p, q) {
        (Some(p), Some(q)) => p.entry.object == q.entry.object && p.offset == q.offset,
        (None, None) => true,
        _ => false,
    }
}

/// Whether two pointers stand in a relation: they are in order of their objects' numbers, and then of their
/// offsets, and null is object 0 with offset 0 (C99 6.5.8 and 6.5.9).
pub fn is_in_order(relation: Relation, p: Option<Pointee>, q: Option<Pointee>) -> bool
    ensures { result ≡ pointers_compare relation (value_of p) (value_of q) }
{
    match relation {
        Relation::Lt => is_before(p, q),
        Relation::Gt => is_before(q, p),
        Relation::Le => !is_before(q, p),
        Relation::Ge => !is_before(p, q),
        Relation::Eq => is_same(p, q),
        Relation::Ne => !is_same(p, q),
    }
}

fn elements(from: i64, to: i64, size: u64) -> i128
    requires { 1 ≤ size }
    ensures { result ≡ int_div (to -ℤ from) (pos size) }
{
    (i128::from(to) - i128::from(from)) / i128::from(size)
}

fn distance(p: Option<Pointee>, q: Option<Pointee>, size: u64) -> i128
    requires { 1 ≤ size }
    ensures { result ≡ difference size (value_of p) (value_of q) }
{
    let (object, to) = place_of(p);
    let (other, from) = place_of(q);
    if object == other {
        elements(from, to, size)
    } else {
        0
    }
}

/// How many elements of `size` bytes lie from `q` to `p`, truncated toward zero and converted to `long`; 0
/// between two objects (C99 6.5.6). `size` is at least 1.
pub fn difference(p: Option<Pointee>, q: Option<Pointee>, size: u64) -> i64
    requires { 1 ≤ size }
    ensures { result ≡ convert Long (difference size (value_of p) (value_of q)) }
{
    convert(IntType::Long, distance(p, q, size)) as i64
}
