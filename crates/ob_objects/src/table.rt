ghost use Rattle.std.specs.Prelude.{◌≡◌, ◌+◌, ◌<◌, ◌≤◌, ◌^◌, ◌↔◌, [], Some, None, length, IfOk, IfSome, IsNone};
ghost use Rattle.std.specs.List.{All, Contains};
ghost use Rattle.ob_model.specs.Entries.{entry_at, at_base, with_entry, without_base};
ghost use Rattle.ob_objects.specs.Objects.{AreApart, IsInOrder};

use crate::arena::{look_up, open, put_node, take_out};
use crate::node::Node;
use ob_base::NoMemory;
use ob_model::{Entry, Sort};
use std::alloc::Global;
use std::marker::Model;

/// The node at which the parts of a splay hang; its entry is never read.
const HEADER: Node = Node {
    entry: Entry {
        base: 0,
        size: 0,
        object: 0,
        sort: Sort::Static,
    },
    less: 0,
    more: 0,
};

/// The live objects, in order of their bases, and how many may stand at a time. No address lies in two
/// of them, where an object has the address past its end as well.
#[derive(Drop)]
pub struct ObjectTable {
    most: usize,
    nodes: Vec<Node>,
    root: u32,
    free: u32,
}

impl Model for ObjectTable {
    ghost use Rattle.ob_objects.specs.Objects.{Objects};
    ghost use Rattle.ob_objects.specs.Arena.{objects, IsKept};

    ghost Value = { Objects };

    ghost view = { λ t. objects t.most t.nodes.items t.root };

    ghost invariant = { λ t. IsKept t.most t.nodes t.root t.free };
}

impl ObjectTable {
    /// The table without entries, in which `most` entries may stand; at most 2^24. Takes all the memory
    /// that it will ever take, in proportion to `most`, and answers `NoMemory` where there is too little.
    pub fn new(alloc: Global, most: usize) -> Result<ObjectTable, NoMemory>
        requires { most ≤ 2 ^ 24 }
        ensures most { IfOk result (λ table. table.most ≡ most) }
        ensures empty { IfOk result (λ table. table.entries ≡ []) }
    {
        let mut nodes = Vec::with_capacity(alloc, most + 1)?;
        nodes.push_reserved(HEADER);
        Ok(ObjectTable {
            most,
            nodes,
            root: 0,
            free: 0,
        })
    }

    /// Enters an object. There is room for it, and its addresses, the one past its end included, are
    /// no other entry's.
    pub fn insert(&mut self, e: Entry)
        requires room { length self.old.entries < self.old.most }
        requires end { e.base + e.size < 2 ^ 63 }
        requires apart { All (AreApart e) self.old.entries }
        ensures entries { self.new.entries ≡ with_entry e self.old.entries }
        ensures most { self.new.most ≡ self.old.most }
    {
        let node = open(self.nodes.as_mut_slice(), self.root, e);
        self.root = put_node(&mut self.nodes, &mut self.free, node);
    }

    /// Takes out the entry at `base` and gives it; `None` exactly where no entry has that base, and then
    /// the entries stay.
    pub fn remove(&mut self, base: u64) -> Option<Entry>
        ensures entry { result ≡ at_base base self.old.entries }
        ensures others { self.new.entries ≡ without_base base self.old.entries }
        ensures most { self.new.most ≡ self.old.most }
    {
        let taken = take_out(self.nodes.as_mut_slice(), self.root, self.free, base);
        self.root = taken.root;
        self.free = taken.free;
        taken.entry
    }

    /// The one entry with `base <= address <= base + size`; `None` exactly where there is none. The
    /// entries stay.
    pub fn find(&mut self, address: u64) -> Option<Entry>
        ensures entry { result ≡ entry_at address self.old.entries }
        ensures root { IfSome result (λ e. self.new.root ≡ Some e) }
        ensures kept { self.new.entries ≡ self.old.entries }
        ensures most { self.new.most ≡ self.old.most }
        ensures in_order { IsInOrder self.new.entries }
    {
        let (root, entry) = look_up(self.nodes.as_mut_slice(), self.root, address);
        self.root = root;
        entry
    }

    /// The entry at the root of the tree: the one that the last `find` gave, where it gave one and the
    /// entries stayed since then. `None` exactly where the table has no entry.
    pub fn root(&self) -> Option<Entry>
        ensures root { result ≡ self.now.root }
        ensures none { IsNone result ↔ (self.now.entries ≡ []) }
        ensures among { IfSome result (Contains self.now.entries) }
    {
        if self.root == 0 {
            return None;
        }
        Some(self.nodes[self.root as usize].entry)
    }

    /// Takes out all entries, which gives the state that `new` gave, in the memory that the table has.
    pub fn clear(&mut self)
        ensures empty { self.new.entries ≡ [] }
        ensures most { self.new.most ≡ self.old.most }
    {
        self.nodes.truncate(1);
        self.root = 0;
        self.free = 0;
    }
}
