//! The index of the members of a structure.
ghost use Rattle.std.specs.Prelude.{◌≡◌, [], IfOk, length, option_map};
ghost use Rattle.ob_tree.specs.Types.{PlainType};
ghost use Rattle.ob_tree.specs.TypeView.{plain_members};
ghost use Rattle.ob_tree.specs.StructsView.{plain_structs};
ghost use Rattle.ob_tree.specs.Sizes.{IsComplete};
ghost use Rattle.ob_members.specs.Indexes.{IsIndex, IsNamed, kept_index};

use ob_base::{NoMemory, boxed};
use ob_layout::offsets;
use ob_scopes::Table;
use ob_tree::{MemberRow, Structs};
use std::alloc::Global;

/// Where the members of a structure lie, by their names: how many bytes behind its begin, and which of the members
/// each is, counted from 0.
#[derive(Drop)]
pub(crate) struct Index {
    pub places: Table<(u64, usize)>,
}

/// Without members.
fn no_index(alloc: Global) -> Index
    ensures { IsNamed [] [] result.places.bindings }
{
    Index {
        places: Table::new(alloc),
    }
}

/// The places of members by their names, from how far each lies behind the begin.
fn named(alloc: Global, members: &Vec<MemberRow>, offsets: &Vec<u64>) -> Result<Index, NoMemory>
    requires { length offsets.now.items ≡ length members.now.items }
    ensures { IfOk result (λ index. IsNamed offsets.now.items (plain_members members.now.items) index.places.bindings) }
{
    let mut places = Table::new(alloc);
    // The last binding of a name is the one that is found, and of two members of a name the first is meant.
    for i in (0..members.len()).rev() {
        places.declare(alloc, &members[i].name, (offsets[i], i))?;
    }
    Ok(Index { places })
}

/// The index of the members of a complete structure.
fn index_of(alloc: Global, s: &Structs, number: u32) -> Result<Index, NoMemory>
    requires { IsComplete (plain_structs s.now) (PlainType.Struct number) }
    ensures { IfOk result (λ index. IsIndex (plain_structs s.now) number index.places.bindings) }
{
    let offsets = offsets(alloc, s, number)?;
    match s.row(number) {
        Some(row) => named(alloc, &row.members, &offsets),
        None => Ok(no_index(alloc)),
    }
}

/// The index of the members of a complete structure, in a box.
pub(crate) fn boxed_index(alloc: Global, s: &Structs, number: u32) -> Result<Box<Index>, NoMemory>
    requires { IsComplete (plain_structs s.now) (PlainType.Struct number) }
    ensures { IfOk result (λ index. IsIndex (plain_structs s.now) number index.value.places.bindings) }
{
    let index = index_of(alloc, s, number)?;
    boxed(alloc, index)
}

/// The index that is kept for the structure of a number.
pub(crate) fn index_at(indexes: &Vec<Option<Box<Index>>>, number: u32) -> Option<&Index>
    ensures { option_map (λ index. index.now) result ≡ kept_index indexes.now.items number }
{
    match indexes.get(number as usize) {
        Some(Some(index)) => Some(index),
        _ => None,
    }
}
