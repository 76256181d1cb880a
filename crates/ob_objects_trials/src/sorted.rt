ghost use Rattle.std.specs.Prelude.{◌≡◌, ◌+◌, ◌<◌, ◌≤◌, ◌^◌, [], length, IfOk, IsTrue, take};
ghost use Rattle.std.specs.List.{All};
ghost use Rattle.ob_model.specs.Entries.{entry_at, at_base, with_entry, without_base};
ghost use Rattle.ob_objects.specs.Objects.{AreApart, IsInOrder};

use crate::search::{count_up_to, index_of, named};
use ob_base::NoMemory;
use ob_model::Entry;
use std::alloc::Global;
use std::marker::Model;

/// The object table as a vector in order of the entries' bases, with which the tree is compared.
#[derive(Drop)]
pub struct SortedTable {
    most: usize,
    entries: Vec<Entry>,
}

impl Model for SortedTable {
    ghost use Rattle.ob_objects_trials.specs.Sorted.{Sorted, IsKept};

    ghost Value = { Sorted };

    ghost view = { λ t. record { most = t.most; entries = t.entries.items } };

    ghost invariant = { λ t. IsKept t.most t.entries };
}

/// Whether no address is one of both entries.
fn are_apart(e: Entry, f: Entry) -> bool
    ensures { IsTrue result → AreApart e f }
{
    if e.base < f.base {
        return e.size < f.base - e.base;
    }
    f.size < e.base - f.base
}

impl SortedTable {
    /// The table without entries, in which `most` entries may stand.
    pub fn new(alloc: Global, most: usize) -> Result<SortedTable, NoMemory>
        requires { most ≤ 2 ^ 24 }
        ensures most { IfOk result (λ table. table.most ≡ most) }
        ensures empty { IfOk result (λ table. table.entries ≡ []) }
    {
        Ok(SortedTable {
            most,
            entries: Vec::with_capacity(alloc, most)?,
        })
    }

    /// Whether an entry can be entered: there is room, and it shares no address with another.
    pub fn takes(&self, e: Entry) -> bool
        ensures room { IsTrue result → length self.now.entries < self.now.most }
        ensures apart { IsTrue result → All (AreApart e) self.now.entries }
    {
        let room = self.entries.len() < self.most;
        for f in &self.entries {
            if !are_apart(e, *f) {
                return false;
            }
        }
        room
    }

    /// Enters an object.
    pub fn insert(&mut self, e: Entry)
        requires room { length self.old.entries < self.old.most }
        requires apart { All (AreApart e) self.old.entries }
        ensures entries { self.new.entries ≡ with_entry e self.old.entries }
        ensures most { self.new.most ≡ self.old.most }
    {
        let count = count_up_to(self.entries.as_slice(), e.base);
        let _ = self.entries.insert(count, e);
    }

    /// Takes out the entry at `base`.
    pub fn remove(&mut self, base: u64) -> Option<Entry>
        ensures entry { result ≡ at_base base self.old.entries }
        ensures others { self.new.entries ≡ without_base base self.old.entries }
        ensures most { self.new.most ≡ self.old.most }
    {
        let index = index_of(self.entries.as_slice(), base)?;
        Some(self.entries.remove(index))
    }

    /// The one entry that has an address.
    pub fn find(&self, address: u64) -> Option<Entry>
        ensures { result ≡ entry_at address self.now.entries }
    {
        named(self.entries.as_slice(), address)
    }
}
