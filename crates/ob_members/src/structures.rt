ghost use Rattle.ob_tree.specs.StructsView.{plain_structs};
ghost use Rattle.ob_members.specs.Indexes.{AreRight};

use crate::building::{Index, boxed_index, index_at};
use ob_base::{NoMemory, Text};
use ob_layout::{NotComplete, complete, member};
use ob_tree::{MemberRow, StructRow, Structs};
use std::alloc::Global;

/// The most members that are looked through one by one. A structure of more has an index.
const FEW: usize = 16;

/// The structure types of a program (C99 6.7.2.1), as [`Structs`] has them, and beside them an index by name of the
/// members of each complete structure that has more than 16, where there was memory for it.
#[derive(Drop)]
pub struct Structures {
    rows: Structs,
    indexes: Vec<Option<Box<Index>>>,
    ghost right: { AreRight (plain_structs rows) indexes.items },
}

impl Structures {
    ghost use Rattle.std.specs.Prelude.{◌≡◌, ◌++◌, [], ◌∷◌, Some, OnOk, OnErr, is_ok, length, option_map, slice_get};
    ghost use Rattle.ob_tree.specs.Types.{PlainType, unknown_struct, with_members};
    ghost use Rattle.ob_tree.specs.TypeView.{plain_members, plain_struct};
    ghost use Rattle.ob_tree.specs.Sizes.{IsComplete, is_complete, member};
    ghost use Rattle.ob_layout.specs.Capped.{placed};
    ghost use Rattle.ob_members.specs.StructuresView.{plain_structures};

    /// No structures. Takes no memory.
    pub fn new(alloc: Global) -> Structures
        ensures { plain_structures result ≡ [] }
    {
        Structures {
            rows: Structs::new(alloc),
            indexes: Vec::new(alloc),
        }
    }

    /// The rows of the structures.
    pub fn rows(&self) -> &Structs
        ensures { plain_structs result.now ≡ plain_structures self.now }
    {
        &self.rows
    }

    /// The rows of the structures, in the memory that they have.
    pub fn into_rows(self) -> Structs
        ensures { plain_structs result ≡ plain_structures self }
    {
        self.rows
    }

    /// The row of the structure numbered `number`; `None` exactly where none has that number.
    pub fn row(&self, number: u32) -> Option<&StructRow>
        ensures { option_map (λ row. plain_struct row.now) result ≡ slice_get (plain_structures self.now) number }
    {
        self.rows.row(number)
    }

    /// How many structures are declared.
    pub fn len(&self) -> usize
        ensures { result ≡ length (plain_structures self.now) }
    {
        self.rows.len()
    }

    /// Declares one more structure, without its members. Its number is the one that `len` gave.
    pub fn declare(&mut self, alloc: Global) -> Result<(), NoMemory>
        ensures ok { OnOk result (plain_structures self.new ≡ plain_structures self.old ++ unknown_struct ∷ []) }
        ensures err { OnErr result (plain_structures self.new ≡ plain_structures self.old) }
    {
        self.indexes.push(None)?;
        self.rows.declare(alloc)
    }

    /// Gives the structure numbered `number` its members (C99 6.7.2.1). It is declared and has none yet.
    /// Refused exactly where it would not be complete with them, and then the structures stay as they were. Want of
    /// memory is no fault: there is no index then.
    pub fn complete(
        &mut self,
        alloc: Global,
        number: u32,
        members: Vec<MemberRow>,
    ) -> Result<(), NotComplete>
        requires { slice_get (plain_structures self.old) number ≡ Some unknown_struct }
        ensures when { is_ok result ≡ is_complete (with_members (plain_structures self.old) number (plain_members members.items)) (PlainType.Struct number) }
        ensures ok { OnOk result (plain_structures self.new ≡ with_members (plain_structures self.old) number (plain_members members.items)) }
        ensures err { OnErr result (plain_structures self.new ≡ plain_structures self.old) }
    {
        let many = members.len() > FEW;
        complete(&mut self.rows, number, members)?;
        if many {
            self.index(alloc, number);
        }
        Ok(())
    }

    /// Keeps an index of the members of a complete structure, where there is memory for it.
    fn index(&mut self, alloc: Global, number: u32)
        requires { IsComplete (plain_structures self.old) (PlainType.Struct number) }
        ensures { plain_structures self.new ≡ plain_structures self.old }
    {
        if let Ok(index) = boxed_index(alloc, &self.rows, number) {
            if let Some(place) = self.indexes.get_mut(number as usize) {
                *place = Some(index);
            }
        }
    }

    /// The member of a name in the structure numbered `number`: how many bytes it lies behind the begin of
    /// the structure, at most 4,194,304, and which of the members it is, counted from 0 (C99 6.7.2.1).
    /// `None` exactly where the structure has no such member. The structure is complete.
    pub fn member(&self, number: u32, name: &Text) -> Option<(u64, usize)>
        requires { IsComplete (plain_structures self.now) (PlainType.Struct number) }
        ensures { result ≡ option_map placed (member (plain_structures self.now) number name.now) }
    {
        match index_at(&self.indexes, number) {
            Some(index) => index.places.find(name).copied(),
            None => member(&self.rows, number, name),
        }
    }
}
