//! Tags of structures (C99 6.2.3, 6.7.2.3), which are a name space of their own.
ghost use Rattle.std.specs.Prelude.{◌≡◌, OnOk, OnErr, length, option_map};
ghost use Rattle.ob_typed.specs.Scopes.{find_tag, tag_at};
ghost use Rattle.ob_scopes.specs.Bindings.{entered, left, no_scopes, with_binding};

use crate::table::Table;
use ob_base::{NoMemory, Text};
use std::alloc::Global;
use std::marker::Model;

/// The structure that a tag names, by its number, and the depth of the block that the tag is declared in, 0 at file scope.
#[derive(Clone, Copy)]
pub struct Tag {
    pub depth: usize,
    pub number: u32,
}

/// The tags in force.
#[derive(Drop)]
pub struct Tags {
    table: Table<Tag>,
}

impl Model for Tags {
    ghost use Rattle.ob_typed.specs.Scopes.{TagDeclared};
    ghost use Rattle.ob_scopes.specs.Bindings.{Scopes};

    ghost Value = { Scopes TagDeclared };

    ghost use Rattle.std.specs.Prelude.{map};
    ghost use Rattle.ob_scopes.specs.Tags.{AreLayered, tag_as, tags_of};

    ghost view = { λ t. tags_of t.table };

    ghost invariant = { λ t. AreLayered (map tag_as t.table.bindings) (map (map tag_as) t.table.outer) };
}

impl Tags {
    ghost use Rattle.std.specs.Prelude.{ℕ, List};
    ghost use Rattle.ob_scopes.specs.Tags.{AreWithin, here, tag_as};

    /// No tags and no open blocks. Takes no memory.
    pub fn new(alloc: Global) -> Tags
        ensures { result ≡ no_scopes }
    {
        Tags {
            table: Table::new(alloc),
        }
    }

    /// How many blocks are open.
    pub fn depth(&self) -> usize
        ensures { result ≡ length self.now.outer }
    {
        self.table.depth()
    }

    /// The tag of a name that is in force; `None` exactly where there is none. No tag in force is declared
    /// deeper than the innermost open block, and none deeper than those after it.
    pub fn find(&self, name: &Text) -> Option<Tag>
        ensures found { option_map (λ tag. tag_as (name.now, tag)) result ≡ find_tag name.now self.now.bindings }
        ensures within { AreWithin (length self.now.outer) self.now.bindings }
    {
        match self.table.find(name) {
            Some(tag) => Some(Tag {
                depth: tag.depth,
                number: tag.number,
            }),
            None => None,
        }
    }

    /// The tag of a name in the innermost open block; `None` exactly where there is none.
    pub fn find_here(&self, name: &Text) -> Option<Tag>
        ensures { option_map (λ tag. tag_as (name.now, tag)) result ≡ tag_at name.now (length self.now.outer) self.now.bindings }
    {
        Tags::here(self.find(name), self.depth())
    }

    /// A tag, where it stands in the block of a depth.
    fn here(tag: Option<Tag>, depth: usize) -> Option<Tag>
        ensures { (name : List ℕ) → option_map (λ t. tag_as (name, t)) result ≡ here depth (option_map (λ t. tag_as (name, t)) tag) }
    {
        match tag {
            Some(tag) => if tag.depth == depth { Some(tag) } else { None },
            None => None,
        }
    }

    /// Declares a tag in the innermost open block, for the structure of a number.
    pub fn declare(&mut self, alloc: Global, name: &Text, number: u32) -> Result<(), NoMemory>
        ensures ok { OnOk result (self.new ≡ with_binding (record { name = name.now; depth = length self.old.outer; number = number }) self.old) }
        ensures err { OnErr result (self.new ≡ self.old) }
    {
        let depth = self.table.depth();
        self.table.declare(alloc, name, Tag { depth, number })
    }

    /// Opens a block.
    pub fn enter(&mut self) -> Result<(), NoMemory>
        ensures ok { OnOk result (self.new ≡ entered self.old) }
        ensures err { OnErr result (self.new ≡ self.old) }
    {
        self.table.enter()
    }

    /// Leaves the innermost open block: the tags before it are in force again. Does nothing where none is open.
    pub fn leave(&mut self)
        ensures { self.new ≡ left self.old }
    {
        self.table.leave()
    }
}
