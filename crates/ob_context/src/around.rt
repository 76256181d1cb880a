//! The structures whose member lists are open (C99 6.7.2.1).
ghost use Rattle.std.specs.Prelude.{◌≡◌, [], ◌∷◌, OnErr, OnOk, drop};
ghost use Rattle.ob_typed.specs.Specifiers.{is_around};

use ob_base::{NoMemory, push_on};
use std::alloc::Global;
use std::marker::Model;

/// The numbers of structures whose member lists are open, the innermost first. There are as many as lists stand one in
/// another, at most 256.
#[derive(Drop)]
pub struct Around {
    numbers: Vec<u32>,
}

impl Model for Around {
    ghost use Rattle.std.specs.Prelude.{ℕ, List, reverse};
    ghost use Rattle.std.specs.Coded.{coded_list, coded_ℕ};

    ghost Value = { List ℕ };

    ghost coded = { coded_list coded_ℕ };

    ghost view = { λ a. reverse a.numbers.items };
}

impl Around {
    /// None. Takes no memory.
    pub fn new(alloc: Global) -> Around
        ensures { result ≡ [] }
    {
        Around {
            numbers: Vec::new(alloc),
        }
    }

    /// The member list of one more is open.
    pub fn push(&mut self, number: u32) -> Result<(), NoMemory>
        ensures ok { OnOk result (self.new ≡ number ∷ self.old) }
        ensures err { OnErr result (self.new ≡ self.old) }
    {
        push_on(&mut self.numbers, number)
    }

    /// The innermost list is closed. Does nothing where none is open.
    pub fn pop(&mut self)
        ensures { self.new ≡ drop 1 self.old }
    {
        self.numbers.pop();
    }

    /// Whether the member list of this structure is open.
    pub fn has(&self, number: u32) -> bool
        ensures { result ≡ is_around number self.now }
    {
        self.numbers.iter().any(|n| *n == number)
    }
}
