ghost use Rattle.std.specs.Prelude.{map};
ghost use Rattle.ob_tree.specs.StructLayouts.{AreKnown, AreRight, kept_layout, plain_row};

use crate::types::{KeptRow, MemberRow, StructLayout, StructRow};
use ob_base::NoMemory;
use std::alloc::Global;

/// The structure types of a program (C99 6.7.2.1): one row for each, in the order in which they are
/// declared, and counted from 0. A structure is declared first and gets its members later, once, so that
/// it can hold pointers to itself. It holds only structures that were complete before it.
#[derive(Drop)]
pub struct Structs {
    rows: Vec<KeptRow>,
    ghost right: { AreRight (map plain_row rows.items) (kept_layout rows.items) },
    ghost known: { AreKnown (map plain_row rows.items) (kept_layout rows.items) },
}

impl Structs {
    ghost use Rattle.std.specs.Prelude.{◌≡◌, ◌++◌, List, [], ◌∷◌, Some, OnOk, OnErr, length, option_map, slice_get};
    ghost use Rattle.ob_tree.specs.Sizes.{layout, members_layout, no_layout, struct_layout};
    ghost use Rattle.ob_tree.specs.Types.{PlainMember, PlainType, unknown_struct, with_members};
    ghost use Rattle.ob_tree.specs.TypeView.{plain_members, plain_struct};
    ghost use Rattle.ob_tree.specs.StructsView.{plain_structs};
    ghost use Rattle.ob_tree.specs.StructLayouts.{shown_layout};

    /// No structures. Takes no memory.
    pub fn new(alloc: Global) -> Structs
        ensures { plain_structs result ≡ [] }
    {
        Structs {
            rows: Vec::new(alloc),
        }
    }

    /// How many structures are declared.
    pub fn len(&self) -> usize
        ensures { result ≡ length (plain_structs self.now) }
    {
        self.rows.len()
    }

    /// Declares one more structure, without its members. Its number is the one that `len` gave.
    pub fn declare(&mut self, alloc: Global) -> Result<(), NoMemory>
        ensures ok { OnOk result (plain_structs self.new ≡ plain_structs self.old ++ unknown_struct ∷ []) }
        ensures err { OnErr result (plain_structs self.new ≡ plain_structs self.old) }
    {
        self.rows.push(KeptRow {
            row: StructRow {
                complete: false,
                members: Vec::new(alloc),
            },
            layout: None,
        })?;
        Ok(())
    }

    /// Gives the members of a structure that is declared and has none yet, with the layout that they make.
    /// That is computed by the crate of sizes and alignments, whose `complete` calls this one.
    pub fn complete(&mut self, number: u32, members: Vec<MemberRow>, layout: StructLayout)
        requires declared { slice_get (plain_structs self.old) number ≡ Some unknown_struct }
        requires layout { members_layout (struct_layout (length (plain_structs self.old)) (plain_structs self.old)) no_layout (plain_members members.items) ≡ Some (shown_layout layout) }
        ensures { plain_structs self.new ≡ with_members (plain_structs self.old) number (plain_members members.items) }
    {
        self.rows[number as usize] = KeptRow {
            row: StructRow {
                complete: true,
                members,
            },
            layout: Some(layout),
        };
    }

    /// What the members of a structure make together is its layout once it has them. Does nothing.
    pub fn law_members(&self, number: u32)
        ensures { (members : List PlainMember) → slice_get (plain_structs self.now) number ≡ Some unknown_struct → layout (with_members (plain_structs self.now) number members) (PlainType.Struct number) ≡ members_layout (struct_layout (length (plain_structs self.now)) (plain_structs self.now)) no_layout members }
    {
        let _rows = &self.rows;
        let _number = number;
    }

    /// The row of the structure numbered `number`; `None` exactly where none has that number.
    pub fn row(&self, number: u32) -> Option<&StructRow>
        ensures { option_map (λ row. plain_struct row.now) result ≡ slice_get (plain_structs self.now) number }
    {
        match self.kept(number) {
            Some(kept) => Some(&kept.row),
            None => None,
        }
    }

    /// The layout of the structure numbered `number`, which is looked up; `None` exactly where none of that
    /// number is complete.
    pub fn layout(&self, number: u32) -> Option<StructLayout>
        ensures { option_map shown_layout result ≡ struct_layout (length (plain_structs self.now)) (plain_structs self.now) number }
    {
        self.kept(number)?.layout
    }

    fn kept(&self, number: u32) -> Option<&KeptRow>
        ensures { option_map (λ row. row.now) result ≡ slice_get self.now.rows.items number }
    {
        self.rows.get(number as usize)
    }
}
