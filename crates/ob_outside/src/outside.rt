ghost use Rattle.std.specs.Prelude.{◌≡◌, ◌≤◌, ◌==◌, true, [], unwrap_or, IsSome, IsOk, IfOk, OnOk, OnErr};
ghost use Rattle.ob_model.specs.Accesses.{bytes_of_kind, granule, is_aligned};
ghost use Rattle.ob_model.specs.Bounded.{after_load, after_store, listed_cell, surviving_cells};
ghost use Rattle.ob_model.specs.Cells.{unset};
ghost use Rattle.ob_code.specs.Accesses.{read_listed, write_cell};

use crate::cells::{cell_or_unset, read_found, write_cell};
use ob_base::NoMemory;
use ob_model::{LoadKind, granule_of};
use ob_stray::StrayStore;
use std::alloc::Global;
use std::marker::Model;

/// The granules outside of objects that stores have reached, most recently used first, and how many of them
/// are kept at a time.
#[derive(Drop)]
pub struct Outside {
    store: StrayStore,
}

impl Model for Outside {
    ghost use Rattle.ob_outside.specs.Granules.{Granules, contents};

    ghost Value = { Granules };

    ghost view = { λ s. record { cap = s.store.cap; listed = contents s.store.listed } };
}

impl Outside {
    /// No granules, of which at most `cap` are kept; at least 1. `NoMemory` where there is too little.
    pub fn new(alloc: Global, cap: usize) -> Result<Outside, NoMemory>
        requires { 1 ≤ cap }
        ensures { IfOk result (λ s. s ≡ record { cap = cap; listed = [] }) }
    {
        Ok(Outside {
            store: StrayStore::new(alloc, cap)?,
        })
    }

    /// What a load finds at an offset of an object, which lies outside of the object's own granules: nothing
    /// where its granule isn't listed, or a byte that it reads was never stored. A listed granule comes to the
    /// front. The bytes that a load of this kind reads divide the offset. Takes no memory.
    pub fn load(&mut self, kind: LoadKind, object: u64, offset: i64) -> Option<u64>
        requires { is_aligned offset (bytes_of_kind kind) ≡ true }
        ensures word { result ≡ read_listed kind offset (listed_cell object (granule offset) self.old.listed) }
        ensures moved { self.new ≡ record self.old { listed = after_load object (granule offset) self.old.listed } }
    {
        read_found(self.store.load(object, granule_of(offset)), kind, offset)
    }

    /// Stores a word at an offset of an object, which lies outside of the object's own granules. Its granule
    /// comes to the front, and the last one leaves where the list was full. The bytes that a store of this kind
    /// writes divide the offset. `NoMemory` comes only where the granule isn't listed, and changes nothing.
    pub fn store(
        &mut self,
        kind: LoadKind,
        object: u64,
        offset: i64,
        w: u64,
    ) -> Result<(), NoMemory>
        requires { is_aligned offset (bytes_of_kind kind) ≡ true }
        ensures stored { OnOk result (self.new ≡ record self.old { listed = after_store self.old.cap object (granule offset) (write_cell kind offset w (unwrap_or (listed_cell object (granule offset) self.old.listed) unset)) self.old.listed }) }
        ensures kept { IsSome (listed_cell object (granule offset) self.old.listed) → IsOk result }
        ensures err { OnErr result (self.new ≡ self.old) }
    {
        let granule = granule_of(offset);
        let found = self.store.load(object, granule);
        let cell = write_cell(cell_or_unset(found), kind, offset, w);
        let _ = self.store.store(object, granule, cell)?;
        Ok(())
    }

    /// Takes out every granule of an object that dies or is freed. Takes no memory.
    pub fn forget(&mut self, object: u64)
        ensures { self.new ≡ record self.old { listed = surviving_cells (λ other. other == object) self.old.listed } }
    {
        self.store.forget(object);
    }

    /// Takes out every granule, which gives the state that `new` gave. Takes no memory.
    pub fn clear(&mut self)
        ensures { self.new ≡ record self.old { listed = [] } }
    {
        self.store.clear();
    }
}
