//! The cells of granules in order of use, beside the set of the granules that are listed.
ghost use Rattle.std.specs.Prelude.{◌≡◌, ◌<◌, [], length, true, false, ℤ, FitsSigned, IsTrue, IfSome, IfNone, IfOk, OnOk, OnErr};
ghost use Rattle.std.specs.Int.{w64};
ghost use Rattle.std.specs.NonZero.{non_zero_usize_get};
ghost use Rattle.std.specs.Map.{lookup};
ghost use Rattle.std.specs.BTreeSet.{contains};
ghost use Rattle.lru.specs.LruCache.{lru_cache, promoted, put_entries, displaced, IsValid};
ghost use Rattle.ob_model.specs.Descriptors.{same_pair};
ghost use Rattle.ob_stray.specs.Kept.{is_listed, others, pair_cmp};

use lru::LruCache;
use ob_base::NoMemory;
use ob_model::Cell;
use std::alloc::Global;
use std::collections::BTreeSet;
use std::marker::Model;
use std::num::NonZeroUsize;

/// A granule: its object, and its number in it.
pub(crate) type Granule = (u64, i64);

/// The cells of granules, most recently used first, and the granules by object.
#[derive(Drop)]
pub(crate) struct IndexedCells {
    cells: LruCache<Granule, Cell>,
    index: BTreeSet<Granule>,
}

impl Model for IndexedCells {
    ghost use Rattle.lru.specs.LruCache.{LruCache as Cached};
    ghost use Rattle.ob_model.specs.Descriptors.{Pair};
    ghost use Rattle.ob_model.specs.declared.values.Cell.{Cell as CellSeen};
    ghost use Rattle.ob_stray.specs.Kept.{IsIndex};

    ghost Value = { Cached Pair CellSeen };

    ghost view = { λ s. s.cells };

    ghost invariant = { λ s. IsIndex s.index s.cells.entries };
}

/// The first granule of an object in the set.
fn first_of(index: &BTreeSet<Granule>, object: u64) -> Option<Granule>
    ensures own { IfSome result (λ k. k.0 ≡ object) }
    ensures found { IfSome result (λ k. contains pair_cmp index.now k ≡ true) }
    ensures none { IfNone result ((z : ℤ) → FitsSigned w64 z → contains pair_cmp index.now (object, z) ≡ false) }
{
    let Some(first) = index.range((object, i64::MIN)..).next() else {
        return None;
    };
    if first.0 == object {
        Some(*first)
    } else {
        None
    }
}

impl IndexedCells {
    /// No cells, for at most `bound` of them.
    pub(crate) fn new(alloc: Global, bound: NonZeroUsize) -> Result<IndexedCells, NoMemory>
        ensures { IfOk result (λ c. c ≡ lru_cache [] (non_zero_usize_get bound)) }
    {
        Ok(IndexedCells {
            cells: LruCache::sparse(alloc, bound)?,
            index: BTreeSet::new(alloc),
        })
    }

    /// Whether a granule is listed.
    pub(crate) fn lists(&self, key: Granule) -> bool
        ensures value { result ≡ is_listed key self.now.entries }
        ensures valid { IsValid same_pair self.now }
    {
        self.cells.len() > 0 && self.cells.contains(&key)
    }

    /// The cell of a granule, which comes to the front.
    pub(crate) fn bring(&mut self, key: Granule) -> Option<Cell>
        ensures value { result ≡ lookup (same_pair key) self.old.entries }
        ensures entries { self.new ≡ lru_cache (promoted (same_pair key) self.old.entries) self.old.cap }
        ensures valid { IsValid same_pair self.old }
    {
        if self.cells.len() == 0 {
            return None;
        }
        self.cells.get(&key).copied()
    }

    /// Makes `cell` the cell of a listed granule, which comes to the front.
    pub(crate) fn put_again(&mut self, key: Granule, cell: Cell)
        requires listed { is_listed key self.old.entries ≡ true }
        requires valid { IsValid same_pair self.old }
        ensures { self.new ≡ lru_cache (put_entries same_pair self.old key cell) self.old.cap }
    {
        let _ = self.cells.push(key, cell);
    }

    /// Puts a granule that isn't listed first. Answers the entry that left a full list.
    pub(crate) fn put_new(
        &mut self,
        key: Granule,
        cell: Cell,
    ) -> Result<Option<(Granule, Cell)>, NoMemory>
        requires new { is_listed key self.old.entries ≡ false }
        requires valid { IsValid same_pair self.old }
        ensures left { IfOk result (λ e. e ≡ displaced same_pair self.old key cell) }
        ensures entries { OnOk result (self.new ≡ lru_cache (put_entries same_pair self.old key cell) self.old.cap) }
        ensures err { OnErr result (self.new ≡ self.old) }
    {
        self.index.insert(key)?;
        let Ok(left) = self.cells.push(key, cell) else {
            let _ = self.index.remove(&key);
            return Err(NoMemory);
        };
        if let Some((gone, _)) = left {
            let _ = self.index.remove(&gone);
        }
        Ok(left)
    }

    /// Takes out one granule of an object, and answers whether there was one.
    fn take_one(&mut self, object: u64) -> bool
        ensures same { others object self.new.entries ≡ others object self.old.entries }
        ensures bound { self.new.cap ≡ self.old.cap }
        ensures less { IsTrue result → length self.new.entries < length self.old.entries }
        ensures none { result ≡ false → others object self.new.entries ≡ self.new.entries }
    {
        if self.cells.len() == 0 {
            return false;
        }
        let Some(key) = first_of(&self.index, object) else {
            return false;
        };
        let _ = self.index.remove(&key);
        let _ = self.cells.pop(&key);
        true
    }

    /// Takes out every granule of an object.
    pub(crate) fn forget(&mut self, object: u64)
        ensures { self.new ≡ lru_cache (others object self.old.entries) self.old.cap }
    {
        while self.take_one(object) {}
    }

    /// Takes out every granule.
    pub(crate) fn clear(&mut self)
        ensures { self.new ≡ lru_cache [] self.old.cap }
    {
        self.cells.clear();
        self.index.clear();
    }
}
