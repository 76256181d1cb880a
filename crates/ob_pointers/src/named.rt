ghost use Rattle.std.specs.Prelude.{◌≡◌, ℕ, ◌+◌, ◌<◌, ◌^◌, IfSome};
ghost use Rattle.std.specs.List.{All, Contains};
ghost use Rattle.std.specs.Option.{option_map};
ghost use Rattle.ob_code.specs.Pointers.{by_address, by_slot};
ghost use Rattle.ob_model.specs.Descriptors.{named_pair};
ghost use Rattle.ob_model.specs.Entries.{entry_at, known_at};
ghost use Rattle.ob_access.specs.Pointees.{target_of};
ghost use Rattle.ob_pointers.specs.Kept.{IsKept, pointee_at, with_offset, known_in, slots_in};
ghost use Rattle.ob_pointers.specs.Pointing.{IsKnownPointee};

use crate::freed::is_marked;
use ob_access::Pointee;
use ob_away::AwayTable;
use ob_objects::ObjectTable;

// The object at an address, with the address's offset.
fn at_address(objects: &mut ObjectTable, marks: &[bool], w: u64) -> Option<Pointee>
    requires { All (λ e. e.base + e.size < 2 ^ 63) objects.old.entries }
    ensures pointee { result ≡ option_map (pointee_at marks.now w) (entry_at w objects.old.entries) }
    ensures entries { objects.new.entries ≡ objects.old.entries }
    ensures most { objects.new.most ≡ objects.old.most }
{
    let entry = objects.find(w)?;
    Some(Pointee {
        entry,
        freed: is_marked(marks, entry.base),
        offset: (w - entry.base) as i64,
    })
}

// The same object at another offset.
fn at_offset(pointee: Pointee, offset: i64) -> Pointee
    ensures { result ≡ with_offset offset pointee }
{
    Pointee { offset, ..pointee }
}

// The object that begins at the base of a pair, with the pair's offset.
fn at_pair(objects: &mut ObjectTable, marks: &[bool], pair: (u64, i64)) -> Option<Pointee>
    requires { All (λ e. e.base + e.size < 2 ^ 63) objects.old.entries }
    ensures pointee { result ≡ option_map (λ e. with_offset pair.1 (pointee_at marks.now pair.0 e)) (entry_at pair.0 objects.old.entries) }
    ensures entries { objects.new.entries ≡ objects.old.entries }
    ensures most { objects.new.most ≡ objects.old.most }
{
    match at_address(objects, marks, pair.0) {
        Some(pointee) => Some(at_offset(pointee, pair.1)),
        None => None,
    }
}

// The object whose pair stands in the slot of a word, with the pair's offset.
fn at_slot(objects: &mut ObjectTable, marks: &[bool], away: &AwayTable, w: u64) -> Option<Pointee>
    requires { (heap : ℕ) × IsKept objects.old.entries marks.now away.now.slots heap }
    ensures target { target_of result ≡ by_slot (named_pair (slots_in objects.old.entries away.now.slots) w) (known_in marks.now objects.old.entries) }
    ensures known { IfSome result (IsKnownPointee (known_in marks.now objects.old.entries)) }
    ensures entries { objects.new.entries ≡ objects.old.entries }
    ensures most { objects.new.most ≡ objects.old.most }
{
    let pair = away.read(w)?;
    at_pair(objects, marks, pair)
}

/// What a word names: the object in which it is an address, or else the one of its slot.
pub(crate) fn named(
    objects: &mut ObjectTable,
    marks: &[bool],
    away: &AwayTable,
    w: u64,
) -> Option<Pointee>
    requires { (heap : ℕ) × IsKept objects.old.entries marks.now away.now.slots heap }
    ensures target { target_of result ≡ by_address (known_at w (known_in marks.now objects.old.entries)) w (by_slot (named_pair (slots_in objects.old.entries away.now.slots) w) (known_in marks.now objects.old.entries)) }
    ensures known { IfSome result (IsKnownPointee (known_in marks.now objects.old.entries)) }
    ensures entries { objects.new.entries ≡ objects.old.entries }
    ensures most { objects.new.most ≡ objects.old.most }
{
    match at_address(objects, marks, w) {
        Some(pointee) => Some(pointee),
        None => at_slot(objects, marks, away, w),
    }
}
