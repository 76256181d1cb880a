ghost use Rattle.std.specs.Prelude.{◌≡◌, OnOk, OnErr, length, option_map};
ghost use Rattle.ob_scopes.specs.Bindings.{bound, entered, left, no_scopes, with_binding};

use crate::entries::{Entry, add, find, take_some};
use crate::newest::Newest;
use ob_base::{NoMemory, Text, push_on};
use std::alloc::Global;
use std::marker::Model;

/// A symbol table (C99 6.2.1): what names are bound to, the newest binding of each in force. A block is entered and left, and after it the bindings before it are in
/// force again. A name is found without a walk over others, and to leave a block takes time in proportion to
/// what was declared in it.
#[derive(Drop)]
pub struct Table<T> {
    entries: Vec<Entry<T>>,
    newest: Newest,
    here: usize,
    around: Vec<usize>,
}

impl<T> Model for Table<T> {
    ghost use Rattle.std.specs.Prelude.{ℕ, List, reverse};
    ghost use Rattle.std.specs.Coded.{coded×, coded_list, coded_ℕ};
    ghost use Rattle.ob_scopes.specs.Bindings.{Scopes, scopes_code};

    ghost Value = { Scopes (List ℕ × T) };

    ghost coded = { scopes_code (coded× (coded_list coded_ℕ) T.code) };

    ghost use Rattle.ob_scopes.specs.Kept.{IsKept, scopes_of};

    ghost view = { λ t. scopes_of t.here (reverse t.around.items) (reverse t.entries.items) };

    ghost invariant = { λ t. IsKept t.newest t.here (reverse t.around.items) (reverse t.entries.items) };
}

impl<T: Drop> Table<T> {
    /// A table without bindings or open blocks. Takes no memory.
    pub fn new(alloc: Global) -> Table<T>
        ensures { result ≡ no_scopes }
    {
        Table {
            entries: Vec::new(alloc),
            newest: Newest::new(alloc),
            here: 0,
            around: Vec::new(alloc),
        }
    }

    /// How many blocks are open.
    pub fn depth(&self) -> usize
        ensures { result ≡ length self.now.outer }
    {
        self.around.len()
    }

    /// What the newest binding of a name binds it to; `None` exactly where it has none.
    pub fn find(&self, name: &Text) -> Option<&T>
        ensures { option_map (λ value. value.now) result ≡ bound name.now self.now.bindings }
    {
        find(&self.entries, &self.newest, name)
    }

    /// Binds a name, in the innermost open block.
    pub fn declare(&mut self, alloc: Global, name: &Text, value: T) -> Result<(), NoMemory>
        ensures ok { OnOk result (self.new ≡ with_binding (name.now, value) self.old) }
        ensures err { OnErr result (self.new ≡ self.old) }
    {
        add(alloc, &mut self.entries, &mut self.newest, name, value)?;
        self.here += 1;
        Ok(())
    }

    /// Opens a block.
    pub fn enter(&mut self) -> Result<(), NoMemory>
        ensures ok { OnOk result (self.new ≡ entered self.old) }
        ensures err { OnErr result (self.new ≡ self.old) }
    {
        push_on(&mut self.around, self.here)?;
        self.here = 0;
        Ok(())
    }

    /// Leaves the innermost open block: what was in force before it is in force again. Does nothing where
    /// none is open.
    #[tactic(auto, using(crate::proofs::Chains::scopes_left, crate::proofs::Chains::within_left, crate::proofs::Chains::scopes_none))]
    pub fn leave(&mut self)
        ensures { self.new ≡ left self.old }
    {
        match self.around.pop() {
            Some(here) => {
                take_some(&mut self.entries, &mut self.newest, self.here);
                self.here = here;
            }
            None => {}
        }
    }
}
