ghost use Rattle.std.specs.Prelude.{◌≡◌, ℕ, ◌<◌, ◌≤◌, [], ◌∷◌, ◌++◌, length, if◌then◌else◌, Some, None, is_some, IsSome, MatchOption, IfSome, IfNone, slice_set, vec_capacity};
ghost use Rattle.std.specs.BinaryHeap.{heap_capacity};
ghost use Rattle.ob_model.specs.Descriptors.{Pair, pair_count, vacant, free_slot, with_pair, pair_in};
ghost use Rattle.ob_away.specs.Kept.{IsListed};

use std::cmp::Reverse;
use std::collections::BinaryHeap;

/// The free ones of the slots that were ever used, the least one on top.
pub(crate) type Free = BinaryHeap<Reverse<u32>>;

/// The least free one of the slots that were ever used, taken off the heap.
fn reuse(slots: &[Option<(u64, i64)>], free: &mut Free) -> Option<u32>
    requires { IsListed free.old slots.now }
    ensures slot { result ≡ vacant slots.now }
    ensures others { IfSome result (λ slot. (pair : Pair) → IsListed free.new (slice_set slots.now slot (Some pair))) }
    ensures none { IfNone result (IsListed free.new slots.now) }
    ensures capacity { heap_capacity free.new ≡ heap_capacity free.old }
{
    match free.pop() {
        Some(Reverse(slot)) => Some(slot),
        None => None,
    }
}

/// One slot more, which is free, where the limit leaves room.
fn extend(limit: u32, slots: &mut Vec<Option<(u64, i64)>>) -> Option<u32>
    requires within { length slots.old.items ≤ limit }
    requires fit { limit ≤ vec_capacity slots.old }
    ensures slot { MatchOption result (limit ≤ length slots.old.items) (λ slot. (slot ≡ length slots.old.items) × (slot < limit)) }
    ensures slots { slots.new.items ≡ (if is_some result then slots.old.items ++ None ∷ [] else slots.old.items) }
    ensures fit { limit ≤ vec_capacity slots.new }
{
    let slot = slots.len();
    if slot >= limit as usize {
        return None;
    }
    let _ = slots.push(None);
    Some(slot as u32)
}

/// The least free slot, taken off the heap; `None` where as many slots as the limit are used.
pub(crate) fn claim(limit: u32, slots: &mut Vec<Option<(u64, i64)>>, free: &mut Free) -> Option<u32>
    requires within { length slots.old.items ≤ limit }
    requires fit { limit ≤ vec_capacity slots.old }
    requires listed { IsListed free.old slots.old.items }
    ensures count { MatchOption result (limit ≤ pair_count slots.old.items) (λ slot. pair_count slots.old.items < limit) }
    ensures slot { IfSome result (λ slot. slot ≡ free_slot slots.old.items) }
    ensures put { IfSome result (λ slot. (pair : Pair) → slice_set slots.new.items slot (Some pair) ≡ with_pair pair slots.old.items) }
    ensures kept { (k : ℕ) → pair_in slots.new.items k ≡ pair_in slots.old.items k }
    ensures none { IfNone result (slots.new.items ≡ slots.old.items) }
    ensures within { length slots.new.items ≤ limit }
    ensures fit { limit ≤ vec_capacity slots.new }
    ensures inside { IfSome result (λ slot. slot < length slots.new.items) }
    ensures vacant { IfSome result (λ slot. pair_in slots.new.items slot ≡ None) }
    ensures listed { IfSome result (λ slot. (pair : Pair) → IsListed free.new (slice_set slots.new.items slot (Some pair))) }
    ensures unlisted { IfNone result (IsListed free.new slots.old.items) }
    ensures capacity { heap_capacity free.new ≡ heap_capacity free.old }
{
    if let Some(slot) = reuse(slots, free) {
        return Some(slot);
    }
    extend(limit, slots)
}

/// Frees a slot that holds a pair.
pub(crate) fn free_slot(slots: &mut Vec<Option<(u64, i64)>>, free: &mut Free, slot: u32)
    requires listed { IsListed free.old slots.old.items }
    requires used { IsSome (pair_in slots.old.items slot) }
    requires fit { length slots.old.items ≤ heap_capacity free.old }
    ensures slots { slots.new.items ≡ slice_set slots.old.items slot None }
    ensures listed { IsListed free.new slots.new.items }
    ensures fit { heap_capacity free.old ≤ heap_capacity free.new }
    ensures capacity { vec_capacity slots.new ≡ vec_capacity slots.old }
{
    slots[slot as usize] = None;
    let _ = free.push(Reverse(slot));
}
