//! What expressions, specifiers and declarations add to.
ghost use Rattle.std.specs.Prelude.{◌≡◌, ◌≤◌, [], IfOk, OnErr, OnOk, length};
ghost use Rattle.ob_typed.specs.Declarations.{set_static};
ghost use Rattle.ob_typed.specs.Strings.{with_static};
ghost use Rattle.ob_typed.specs.TypedView.{typed_object};
ghost use Rattle.ob_context.specs.KnownView.{known_of, left_stand, left_tags, stand_of, with_call, with_tags, within};

use crate::around::Around;
use ob_base::{NoMemory, Text, push_on};
use ob_members::Structures;
use ob_scopes::Tags;
use ob_typed::TStatic;
use std::alloc::Global;

/// A call of a function that isn't built in: its name, and the place of the call's first token.
#[derive(Drop)]
pub struct Called {
    pub name: Text,
    pub place: u32,
}

/// The structures, the tags in force, the static objects and the calls so far; and where this stands: the open
/// blocks, which the tags count, and the structures whose member lists are open.
#[derive(Drop)]
pub struct Known {
    pub structs: Structures,
    pub tags: Tags,
    pub statics: Vec<TStatic>,
    pub calls: Vec<Called>,
    pub around: Around,
}

impl Known {
    /// Nothing, at file scope. Takes no memory.
    pub fn new(alloc: Global) -> Known
        ensures known { known_of result ≡ record { structs = []; tags = []; statics = []; calls = [] } }
        ensures stand { stand_of result ≡ record { outer = []; around = [] } }
    {
        Known {
            structs: Structures::new(alloc),
            tags: Tags::new(alloc),
            statics: Vec::new(alloc),
            calls: Vec::new(alloc),
            around: Around::new(alloc),
        }
    }

    /// Opens a block.
    pub fn enter(&mut self) -> Result<(), NoMemory>
        ensures known { known_of self.new ≡ known_of self.old }
        ensures stand { OnOk result (stand_of self.new ≡ within (known_of self.old).tags (stand_of self.old)) }
    {
        self.tags.enter()
    }

    /// Leaves the innermost open block: the tags before it are in force again.
    pub fn leave(&mut self)
        ensures known { known_of self.new ≡ with_tags (left_tags (known_of self.old).tags (stand_of self.old).outer) (known_of self.old) }
        ensures stand { stand_of self.new ≡ left_stand (stand_of self.old) }
    {
        self.tags.leave();
    }

    /// One more static object, and its number. More than a `u32` counts find too little memory.
    pub fn add_static(&mut self, object: TStatic) -> Result<u32, NoMemory>
        ensures number { IfOk result (λ n. n ≡ length (known_of self.old).statics) }
        ensures known { OnOk result (known_of self.new ≡ with_static (known_of self.old) (typed_object object)) }
        ensures stand { stand_of self.new ≡ stand_of self.old }
    {
        let number = self.statics.len();
        push_on(&mut self.statics, object)?;
        match u32::try_from(number) {
            Ok(number) => Ok(number),
            Err(_) => Err(NoMemory),
        }
    }

    /// Gives static object `number` its type and what it holds. Does nothing where there is none.
    pub fn set_static(&mut self, number: u32, object: TStatic)
        ensures known { known_of self.new ≡ set_static number (typed_object object) (known_of self.old) }
        ensures stand { stand_of self.new ≡ stand_of self.old }
    {
        match self.statics.get_mut(number as usize) {
            Some(place) => *place = object,
            None => {}
        }
    }

    /// One more call.
    pub fn add_call(&mut self, alloc: Global, name: &Text, place: u32) -> Result<(), NoMemory>
        ensures known { OnOk result (known_of self.new ≡ with_call name.now place (known_of self.old)) }
        ensures stand { stand_of self.new ≡ stand_of self.old }
    {
        let name = name.copy(alloc)?;
        push_on(&mut self.calls, Called { name, place })
    }
}
