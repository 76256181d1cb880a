ghost use Rattle.std.specs.Prelude.{◌≡◌};

use crate::SortedTable;
use ob_model::{Entry, Sort};
use ob_objects::ObjectTable;
use std::test::Fail;

/// The next of a sequence of pseudo-random numbers (Knuth's MMIX generator, its high bits).
fn next(state: &mut u64) -> u64 {
    *state = state
        .wrapping_mul(6_364_136_223_846_793_005)
        .wrapping_add(1_442_695_040_888_963_407);
    *state >> 33
}

/// Enters an object into both tables where it fits.
fn enter(tree: &mut ObjectTable, sorted: &mut SortedTable, base: u32, size: u32) -> bool
    requires entries { tree.old.entries ≡ sorted.old.entries }
    requires most { tree.old.most ≡ sorted.old.most }
    ensures entries { tree.new.entries ≡ sorted.new.entries }
    ensures most { tree.new.most ≡ sorted.new.most }
{
    let entry = Entry {
        base: u64::from(base),
        size: u64::from(size),
        object: u64::from(base) + 1,
        sort: Sort::Heap,
    };
    if !sorted.takes(entry) {
        return false;
    }
    tree.insert(entry);
    sorted.insert(entry);
    true
}

/// Whether both tables take the same entry out.
fn remove_both(tree: &mut ObjectTable, sorted: &mut SortedTable, base: u64) -> bool
    requires entries { tree.old.entries ≡ sorted.old.entries }
    requires most { tree.old.most ≡ sorted.old.most }
    ensures entries { tree.new.entries ≡ sorted.new.entries }
    ensures most { tree.new.most ≡ sorted.new.most }
{
    let taken = tree.remove(base);
    taken == sorted.remove(base)
}

/// Whether both tables find the same entry, which then is the root.
fn find_both(tree: &mut ObjectTable, sorted: &SortedTable, address: u64) -> bool
    ensures entries { tree.new.entries ≡ tree.old.entries }
    ensures most { tree.new.most ≡ tree.old.most }
{
    let found = tree.find(address);
    if found != sorted.find(address) {
        return false;
    }
    found.is_none() || tree.root() == found
}

/// One call, on both tables: whether they answer alike.
fn call_both(tree: &mut ObjectTable, sorted: &mut SortedTable, kind: u64, at: u32) -> bool
    requires entries { tree.old.entries ≡ sorted.old.entries }
    requires most { tree.old.most ≡ sorted.old.most }
    ensures entries { tree.new.entries ≡ sorted.new.entries }
    ensures most { tree.new.most ≡ sorted.new.most }
{
    if kind < 3 {
        let _ = enter(tree, sorted, at, at % 24);
        return true;
    }
    if kind == 3 {
        return remove_both(tree, sorted, u64::from(at));
    }
    if kind > 4 {
        return find_both(tree, sorted, u64::from(at));
    }
    match tree.root() {
        Some(root) => remove_both(tree, sorted, root.base),
        None => true,
    }
}

/// Some thousands of random calls, the removal of the root among them.
#[test]
fn random_calls(rt: HostRuntime) -> Result<(), Fail> {
    let mut tree = ObjectTable::new(rt.alloc(), 300)?;
    let mut sorted = SortedTable::new(rt.alloc(), 300)?;
    let mut state = 20_261_201;
    for call in 0..6_000 {
        let kind = next(&mut state) % 8;
        let at = (next(&mut state) % 8_192) as u32;
        assert!(rt;
            call_both(&mut tree, &mut sorted, kind, at),
            "at call {call}"
        );
    }
    assert!(rt; tree.root().is_some());
    Ok(())
}

/// Entries that come in order, are found from both ends and leave in order.
#[test]
fn sorted_calls(rt: HostRuntime) -> Result<(), Fail> {
    let mut tree = ObjectTable::new(rt.alloc(), 1_000)?;
    let mut sorted = SortedTable::new(rt.alloc(), 1_000)?;
    for k in 0..1_000u32 {
        assert!(rt; enter(&mut tree, &mut sorted, 32 * k, 15));
        assert!(rt;
            find_both(&mut tree, &sorted, u64::from(16 * k)),
            "at entry {k}"
        );
    }
    for n in 0..1_000u32 {
        assert!(rt;
            find_both(&mut tree, &sorted, u64::from(31_990 - 31 * n)),
            "at entry {n}"
        );
        assert!(rt;
            remove_both(&mut tree, &mut sorted, u64::from(32 * n)),
            "at entry {n}"
        );
    }
    assert_eq!(rt; tree.root(), None);
    Ok(())
}
