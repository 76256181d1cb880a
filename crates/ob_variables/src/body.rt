ghost use Rattle.std.specs.Prelude.{◌≡◌, IfOk, OnOk, length};
ghost use Rattle.ob_tree.specs.TypeView.{plain_type};
ghost use Rattle.ob_typed.specs.Declarations.{set_local, with_local};
ghost use Rattle.ob_context.specs.KnownView.{stand_of};

use ob_base::{NoMemory, let_go, push_on};
use ob_context::Known;
use ob_tree::CType;
use ob_typed::VarName;

/// What the statements of a function add to: what expressions add to, and the types and the names of its automatic objects,
/// which begin with the parameters.
#[derive(Drop)]
pub struct Body {
    pub known: Known,
    pub locals: Vec<CType>,
    pub names: Vec<VarName>,
}

impl Body {
    ghost use Rattle.ob_variables.specs.BodyView.{body_of};

    /// One more automatic object, and its number. More than a `u32` counts find too little memory.
    pub(crate) fn add_local(&mut self, name: VarName, t: CType) -> Result<u32, NoMemory>
        ensures number { IfOk result (λ n. n ≡ length (body_of self.old).locals) }
        ensures body { OnOk result (body_of self.new ≡ with_local name (plain_type t) (body_of self.old)) }
        ensures stands { stand_of self.new.known ≡ stand_of self.old.known }
    {
        let number = self.locals.len();
        push_on(&mut self.locals, t)?;
        push_on(&mut self.names, name)?;
        match u32::try_from(number) {
            Ok(number) => Ok(number),
            Err(_) => Err(NoMemory),
        }
    }

    /// Gives automatic object `number` its type. Does nothing where there is none.
    pub(crate) fn set_local(&mut self, number: u32, t: CType)
        ensures body { body_of self.new ≡ set_local number (plain_type t) (body_of self.old) }
        ensures stands { stand_of self.new.known ≡ stand_of self.old.known }
    {
        match self.locals.get_mut(number as usize) {
            Some(place) => *place = t,
            None => let_go(t),
        }
    }
}
