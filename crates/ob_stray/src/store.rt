ghost use Rattle.std.specs.Prelude.{◌≡◌, ◌≤◌, ◌==◌, [], is_some, IsSome, IsOk, IfOk, OnOk, OnErr, option_map};
ghost use Rattle.ob_model.specs.Bounded.{listed_cell, after_load, after_store, surviving_cells};
ghost use Rattle.ob_model.specs.Descriptors.{Pair};
ghost use Rattle.ob_model.specs.declared.values.Cell.{Cell};
ghost use Rattle.ob_stray.specs.Store.{as_dropped, answer_of, drops};
ghost use Rattle.ob_stray.specs.Kept.{entry_of};

use crate::indexed::IndexedCells;
use ob_base::NoMemory;
use ob_model::Cell;
use std::alloc::Global;
use std::marker::Model;
use std::num::NonZeroUsize;

/// The entry that left a full list: its object, its granule, counted in eights of bytes from the
/// object's first byte, and its cell.
#[derive(Clone, Copy, Debug, PartialEq, Eq)]
pub struct Dropped {
    pub object: u64,
    pub granule: i64,
    pub cell: Cell,
}

/// The cells of granules outside of objects, most recently used first, each granule once, and how many
/// of them are kept at a time.
#[derive(Drop)]
pub struct StrayStore {
    cells: IndexedCells,
}

impl Model for StrayStore {
    ghost use Rattle.ob_stray.specs.Store.{BoundedList};
    ghost use Rattle.ob_stray.specs.Kept.{listing};

    ghost Value = { BoundedList };

    ghost view = { λ s. record { cap = s.cells.cap; listed = listing s.cells.entries } };
}

/// An entry of the cache as the one that left.
fn as_dropped(entry: Option<((u64, i64), Cell)>) -> Option<Dropped>
    ensures { result ≡ option_map (λ e. as_dropped (entry_of e)) entry }
{
    match entry {
        Some(((object, granule), cell)) => Some(Dropped {
            object,
            granule,
            cell,
        }),
        None => None,
    }
}

impl StrayStore {
    /// The empty list, for at most `cap` entries, which is at least 1. Takes no memory in proportion to
    /// `cap`. `NoMemory` where there is too little.
    pub fn new(alloc: Global, cap: usize) -> Result<StrayStore, NoMemory>
        requires { 1 ≤ cap }
        ensures { IfOk result (λ s. s ≡ record { cap = cap; listed = [] }) }
    {
        let Some(bound) = NonZeroUsize::new(cap) else {
            return Err(NoMemory);
        };
        Ok(StrayStore {
            cells: IndexedCells::new(alloc, bound)?,
        })
    }

    /// The cell of a granule, which comes to the front; `None` exactly where it isn't listed, which
    /// changes nothing. Takes no memory.
    pub fn load(&mut self, object: u64, granule: i64) -> Option<Cell>
        ensures cell { result ≡ listed_cell object granule self.old.listed }
        ensures moved { self.new ≡ record self.old { listed = after_load object granule self.old.listed } }
    {
        self.cells.bring((object, granule))
    }

    /// Makes `cell` the cell of a granule, which comes to the front. Answers the entry that left: the
    /// one that was used longest ago, exactly where the granule is new and the list was full. `NoMemory`
    /// comes only where the granule isn't listed, and leaves the list as it was.
    pub fn store(
        &mut self,
        object: u64,
        granule: i64,
        cell: Cell,
    ) -> Result<Option<Dropped>, NoMemory>
        ensures stored { OnOk result (self.new ≡ record self.old { listed = after_store self.old.cap object granule cell self.old.listed }) }
        ensures left { IfOk result (λ d. d ≡ answer_of self.old object granule cell) }
        ensures exact { IfOk result (λ d. is_some d ≡ drops self.old object granule) }
        ensures kept { IsSome (listed_cell object granule self.old.listed) → IsOk result }
        ensures err { OnErr result (self.new ≡ self.old) }
    {
        let key = (object, granule);
        if self.cells.lists(key) {
            self.cells.put_again(key, cell);
            return Ok(None);
        }
        Ok(as_dropped(self.cells.put_new(key, cell)?))
    }

    /// Takes out every entry of an object that dies or is freed. Takes no memory.
    pub fn forget(&mut self, object: u64)
        ensures { self.new ≡ record self.old { listed = surviving_cells (λ o. o == object) self.old.listed } }
    {
        self.cells.forget(object);
    }

    /// Takes out every entry, which gives the state that `new` gave. Takes no memory.
    pub fn clear(&mut self)
        ensures { self.new ≡ record self.old { listed = [] } }
    {
        self.cells.clear();
    }
}
