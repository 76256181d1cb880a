ghost use Rattle.std.specs.Prelude.{◌≡◌, ℕ, ◌+◌, ◌^◌, ◌<◌, ◌≤◌, length, nat_eq, true, false, None, Some, MatchOption, slice_set, vec_capacity};
ghost use Rattle.std.specs.HashMap.{spare};
ghost use Rattle.std.specs.BinaryHeap.{heap_capacity};
ghost use Rattle.ob_model.specs.Descriptors.{Pair, pair_in};
ghost use Rattle.ob_away.specs.Slots.{without};
ghost use Rattle.ob_away.specs.Kept.{head_of, capacity, owns, Chained, IsLinked, IsListed, LeadsOthers};

use crate::free::{Free, free_slot};
use std::collections::HashMap;

/// Names the first slot of each object's chain: the slots that hold its pairs, each naming the next.
/// A slot that holds no pair of the object ends a chain.
pub(crate) type Heads = HashMap<u64, u32>;

/// The first slot of the chain of `object`.
pub(crate) fn head(heads: &Heads, object: u64) -> Option<u32>
    ensures { result ≡ head_of heads.now object }
{
    heads.get(&object).copied()
}

/// Makes `slot` the head of an object that has no head yet.
fn add_head(heads: &mut Heads, object: u64, slot: u32)
    requires { 0 < spare heads.old }
    ensures head { head_of heads.new object ≡ Some slot }
    ensures others { LeadsOthers heads.old heads.new object }
    ensures room { head_of heads.old object ≡ None → capacity heads.old ≤ capacity heads.new }
    ensures spare { spare heads.old ≤ spare heads.new + 1 }
{
    let _ = heads.insert(object, slot);
}

/// Makes `slot` the head of `object`.
fn lead(heads: &mut Heads, object: u64, slot: u32)
    requires { 0 < spare heads.old }
    ensures head { head_of heads.new object ≡ Some slot }
    ensures others { LeadsOthers heads.old heads.new object }
    ensures room { capacity heads.old ≤ capacity heads.new }
    ensures spare { spare heads.old ≤ spare heads.new + 1 }
{
    if let Some(known) = heads.get_mut(&object) {
        *known = slot;
        return;
    }
    add_head(heads, object, slot);
}

/// Puts `slot` in front of the chain of `object`.
fn chain(heads: &mut Heads, next: &mut Vec<Option<u32>>, object: u64, slot: u32)
    requires inside { slot < length next.old.items }
    requires spare { 0 < spare heads.old }
    ensures next { next.new.items ≡ slice_set next.old.items slot (head_of heads.old object) }
    ensures head { head_of heads.new object ≡ Some slot }
    ensures others { LeadsOthers heads.old heads.new object }
    ensures room { capacity heads.old ≤ capacity heads.new }
    ensures spare { spare heads.old ≤ spare heads.new + 1 }
{
    next[slot as usize] = head(heads, object);
    lead(heads, object, slot);
}

/// Makes the chains anew.
fn rechain(heads: &mut Heads, next: &mut Vec<Option<u32>>, slots: &[Option<(u64, i64)>])
    requires count { length slots.now < 2 ^ 32 }
    requires long { length slots.now ≤ length next.old.items }
    requires enough { length slots.now < capacity heads.old }
    ensures linked { IsLinked heads.new next.new.items slots.now }
    ensures long { length next.new.items ≡ length next.old.items }
    ensures room { capacity heads.old ≤ capacity heads.new }
    ensures spare { 0 < spare heads.new }
{
    heads.clear();
    for (slot, held) in slots.iter().enumerate() {
        if let Some((object, _)) = held {
            chain(heads, next, *object, slot as u32);
        }
    }
}

/// Leaves room for one more head, and each object's slots chained.
fn make_spare(heads: &mut Heads, next: &mut Vec<Option<u32>>, slots: &[Option<(u64, i64)>])
    requires linked { IsLinked heads.old next.old.items slots.now }
    requires count { length slots.now < 2 ^ 32 }
    requires long { length slots.now ≤ length next.old.items }
    requires enough { length slots.now < capacity heads.old }
    ensures linked { IsLinked heads.new next.new.items slots.now }
    ensures long { length next.new.items ≡ length next.old.items }
    ensures room { capacity heads.old ≤ capacity heads.new }
    ensures spare { 0 < spare heads.new }
{
    if heads.len() == heads.capacity() {
        rechain(heads, next, slots);
    }
}

/// Chains a free slot to those of `object`, for a pair that goes into it.
pub(crate) fn link(
    heads: &mut Heads,
    next: &mut Vec<Option<u32>>,
    slots: &[Option<(u64, i64)>],
    object: u64,
    slot: u32,
)
    requires linked { IsLinked heads.old next.old.items slots.now }
    requires inside { slot < length slots.now }
    requires vacant { pair_in slots.now slot ≡ None }
    requires count { length slots.now < 2 ^ 32 }
    requires long { length slots.now ≤ length next.old.items }
    requires enough { length slots.now < capacity heads.old }
    ensures linked { (pair : Pair) → pair.0 ≡ object → IsLinked heads.new next.new.items (slice_set slots.now slot (Some pair)) }
    ensures long { length next.new.items ≡ length next.old.items }
    ensures room { capacity heads.old ≤ capacity heads.new }
{
    make_spare(heads, next, slots);
    chain(heads, next, object, slot);
}

/// The slot at hand, where it holds a pair of `object`.
fn own_slot(slots: &[Option<(u64, i64)>], at: Option<u32>, object: u64) -> Option<u32>
    ensures { MatchOption result ((k : ℕ) → at ≡ Some k → owns slots.now object k ≡ false) (λ slot. (at ≡ Some slot) × (owns slots.now object slot ≡ true)) }
{
    let slot = at?;
    match slots.get(slot as usize) {
        Some(Some((owner, _))) if *owner == object => Some(slot),
        _ => None,
    }
}

/// Frees the slots of `object`, along its chain from `first` on.
pub(crate) fn free_chain(
    slots: &mut Vec<Option<(u64, i64)>>,
    free: &mut Free,
    next: &[Option<u32>],
    first: Option<u32>,
    object: u64,
)
    requires chained { Chained next.now first (owns slots.old.items object) }
    requires listed { IsListed free.old slots.old.items }
    requires fit { length slots.old.items ≤ heap_capacity free.old }
    requires long { length slots.old.items ≤ length next.now }
    ensures slots { slots.new.items ≡ without object slots.old.items }
    ensures listed { IsListed free.new slots.new.items }
    ensures fit { heap_capacity free.old ≤ heap_capacity free.new }
    ensures capacity { vec_capacity slots.new ≡ vec_capacity slots.old }
{
    let mut at = first;
    while let Some(slot) = own_slot(slots.as_slice(), at, object) {
        free_slot(slots, free, slot);
        at = next[slot as usize];
    }
}
