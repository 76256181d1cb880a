ghost use Rattle.std.specs.Prelude.{◌≡◌, ℕ, ◌+◌, ◌^◌, ◌<◌, ◌≤◌, List, length, false, None, Some};
ghost use Rattle.std.specs.HashMap.{spare};
ghost use Rattle.ob_model.specs.Descriptors.{Pair, same_pair, IsInterned, holds, slot_of, pair_in};
ghost use Rattle.ob_away.specs.Kept.{named, capacity, IsIndexed, NamesOthers};

use std::collections::HashMap;

/// Names the slot of each listed pair. It may also name a slot for a pair that no longer stands there,
/// so what it names is compared with the slot.
pub(crate) type Index = HashMap<(u64, i64), u32>;

/// The slot that the index names for `pair`.
fn named_slot(index: &Index, pair: (u64, i64)) -> Option<u32>
    ensures { result ≡ named index.now pair }
{
    index.get(&pair).copied()
}

/// Whether `slot` holds `pair`.
fn holds_pair(slots: &[Option<(u64, i64)>], slot: u32, pair: (u64, i64)) -> bool
    ensures { result ≡ holds pair (pair_in slots.now slot) }
{
    match slots.get(slot as usize) {
        Some(Some(other)) => pair == *other,
        _ => false,
    }
}

/// The slot that holds `pair`.
pub(crate) fn find(index: &Index, slots: &[Option<(u64, i64)>], pair: (u64, i64)) -> Option<u32>
    requires { IsIndexed index.now slots.now }
    ensures { result ≡ slot_of slots.now pair }
{
    match named_slot(index, pair) {
        Some(slot) if holds_pair(slots, slot, pair) => Some(slot),
        _ => None,
    }
}

/// Names `slot` for a pair that has no name yet.
fn add(index: &mut Index, pair: (u64, i64), slot: u32)
    requires { 0 < spare index.old }
    ensures named { named index.new pair ≡ Some slot }
    ensures others { NamesOthers index.old index.new pair }
    ensures room { named index.old pair ≡ None → capacity index.old ≤ capacity index.new }
    ensures spare { spare index.old ≤ spare index.new + 1 }
{
    let _ = index.insert(pair, slot);
}

/// Makes `slot` what the index names for `pair`.
pub(crate) fn point(index: &mut Index, pair: (u64, i64), slot: u32)
    requires { 0 < spare index.old }
    ensures named { named index.new pair ≡ Some slot }
    ensures others { NamesOthers index.old index.new pair }
    ensures room { capacity index.old ≤ capacity index.new }
    ensures spare { spare index.old ≤ spare index.new + 1 }
{
    if let Some(known) = index.get_mut(&pair) {
        *known = slot;
        return;
    }
    add(index, pair, slot);
}

/// Names the slots anew, and no other pair.
fn renew(index: &mut Index, slots: &[Option<(u64, i64)>])
    requires distinct { IsInterned slots.now }
    requires count { length slots.now < 2 ^ 32 }
    requires enough { length slots.now < capacity index.old }
    ensures indexed { IsIndexed index.new slots.now }
    ensures room { capacity index.old ≤ capacity index.new }
    ensures spare { 0 < spare index.new }
{
    index.clear();
    for (slot, held) in slots.iter().enumerate() {
        if let Some(pair) = held {
            point(index, *pair, slot as u32);
        }
    }
}

/// Leaves room for one more pair, and each slot named.
fn make_spare(index: &mut Index, slots: &[Option<(u64, i64)>])
    requires indexed { IsIndexed index.old slots.now }
    requires distinct { IsInterned slots.now }
    requires count { length slots.now < 2 ^ 32 }
    requires enough { length slots.now < capacity index.old }
    ensures indexed { IsIndexed index.new slots.now }
    ensures room { capacity index.old ≤ capacity index.new }
    ensures spare { 0 < spare index.new }
{
    if index.len() == index.capacity() {
        renew(index, slots);
    }
}

/// Names `slot` for a pair that isn't listed, and each slot as before.
pub(crate) fn note(index: &mut Index, slots: &[Option<(u64, i64)>], pair: (u64, i64), slot: u32)
    requires indexed { IsIndexed index.old slots.now }
    requires distinct { IsInterned slots.now }
    requires absent { slot_of slots.now pair ≡ None }
    requires count { length slots.now < 2 ^ 32 }
    requires enough { length slots.now < capacity index.old }
    ensures indexed { IsIndexed index.new slots.now }
    ensures named { named index.new pair ≡ Some slot }
    ensures room { capacity index.old ≤ capacity index.new }
{
    make_spare(index, slots);
    point(index, pair, slot);
}
