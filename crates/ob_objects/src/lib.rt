//! The object table: the live objects of a machine with one flat range of addresses. Promises: the
//! entries stand in order of their bases, no two share an address, the one past an end included, and
//! `find` gives the one entry that an address names, or `None` exactly where there is none, and leaves it
//! at the root. The clauses speak of the entries, of how many may stand and of the root, and leave open how
//! the table holds them. Stands on ob_model for the entry and on ob_base for `NoMemory`; after `new` it
//! takes no memory.
//!
//! Behind it lies a splay tree in an arena of nodes with 32-bit indices: the simple top-down splaying of
//! Sleator and Tarjan ("Self-Adjusting Binary Search Trees", JACM 1985, section 4), without links to
//! parents and without recursion. The node of index 0 has no entry; the parts of a splay hang at it. Each
//! other node stands once in the tree, or once in the list of free nodes.
//!
//! To be believed: of `specs/Objects` the record `Objects`, `Precedes`, `AreApart` and `IsInOrder`, and
//! ob_model's `Entries`. The other specs serve the proof.
#![tactic(auto)]

pub use table::ObjectTable;

mod arena;
mod node;
mod splay;
mod table;
