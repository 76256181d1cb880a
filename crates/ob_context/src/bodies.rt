//! The functions with a body (C99 6.9.1), and their numbers.
ghost use Rattle.std.specs.Prelude.{◌≡◌, [], ◌∷◌, ◌++◌, OnErr, OnOk};
ghost use Rattle.ob_typed.specs.Expressions.{number_from};
ghost use Rattle.ob_typed.specs.Functions.{is_one_of};

use ob_base::{NoMemory, Text};
use ob_scopes::Table;
use std::alloc::Global;
use std::marker::Model;

/// The names of the functions with a body, in the order of the bodies, by which they are numbered from 0. A name is found
/// without a walk over the others.
#[derive(Drop)]
pub struct Bodies {
    numbers: Table<u32>,
    count: u32,
}

impl Model for Bodies {
    ghost use Rattle.std.specs.Prelude.{◌≡◌, ℕ, List, length};
    ghost use Rattle.std.specs.Coded.{coded_list, coded_ℕ};
    ghost use Rattle.ob_context.specs.Numbered.{AreNumbered, names_of};

    ghost Value = { List (List ℕ) };

    ghost coded = { coded_list (coded_list coded_ℕ) };

    ghost view = { λ b. names_of b.numbers.bindings };

    ghost invariant = { λ b. AreNumbered b.numbers.bindings × (b.count ≡ length b.numbers.bindings) };
}

impl Bodies {
    /// None. Takes no memory.
    pub fn new(alloc: Global) -> Bodies
        ensures { result ≡ [] }
    {
        Bodies {
            numbers: Table::new(alloc),
            count: 0,
        }
    }

    /// The number of the first function of a name; where none has it, how many there are.
    pub fn number(&self, name: &Text) -> u32
        ensures { result ≡ number_from 0 name.now self.now }
    {
        match self.numbers.find(name) {
            Some(number) => *number,
            None => self.count,
        }
    }

    /// Whether a function of this name has a body.
    pub fn has(&self, name: &Text) -> bool
        ensures { result ≡ is_one_of name.now self.now }
    {
        self.numbers.find(name).is_some()
    }

    /// One more function, whether its name is there already or not. More than a `u32` counts find too little memory.
    pub fn add(&mut self, alloc: Global, name: &Text) -> Result<(), NoMemory>
        ensures ok { OnOk result (self.new ≡ self.old ++ name.now ∷ []) }
        ensures err { OnErr result (self.new ≡ self.old) }
    {
        if self.count == u32::MAX {
            return Err(NoMemory);
        }
        let number = self.number(name);
        self.numbers.declare(alloc, name, number)?;
        self.count += 1;
        Ok(())
    }
}
