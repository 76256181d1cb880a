//! Scopes and name spaces (C99 6.2.1, 6.2.3): the one place where the checker looks names up. A block is
//! entered and left; a name is declared in the innermost open block, and found as the newest declaration of
//! it that is in force. What each call gives is exactly the definition's, where the declarations in force are a
//! list, the newest first, and what follows a block sees the list before it. Here no list is copied and none is
//! walked: a name leads to its newest declaration by a hash map, each declaration to the one that it hides,
//! and to leave a block takes time in proportion to what was declared in it.
//!
//! `Table` is the symbol table, for values of any type. `Names` is the table of ordinary identifiers,
//! and `Tags` that of the tags of structures. Stands on `ob_base`, `ob_tree` and `ob_typed`, whose `Scopes` are
//! to be believed; so are here `Bindings`, which says what a table holds, and `Names` and `Tags`, which read a table
//! as the definition's declarations. `Newest` and `Kept` serve the proof.
#![tactic(auto)]

pub use names::{Meaning, Named, Names, Storage, find_name};
pub use table::Table;
pub use tags::{Tag, Tags};

mod entries;
mod names;
mod newest;
mod table;
mod tags;
