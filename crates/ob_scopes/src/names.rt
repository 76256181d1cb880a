//! Ordinary identifiers (C99 6.2.3): objects and functions.
ghost use Rattle.std.specs.Prelude.{◌≡◌, option_map};
ghost use Rattle.ob_typed.specs.Scopes.{find};
ghost use Rattle.ob_scopes.specs.Names.{declared_as, declared_in};

use crate::table::Table;
use ob_base::Text;
use ob_tree::CType;
use ob_typed::Builtin;

/// Where an object lies (C99 6.2.4): the static object of a number, or the automatic one.
#[derive(Clone, Copy)]
pub enum Storage {
    Static(u32),
    Local(u32),
}

/// What an ordinary identifier stands for: an object of a type, where an array that has no length yet has the length 0; a
/// function of a result type and parameter types; a built-in function.
#[derive(Drop)]
pub enum Meaning {
    Variable(CType, Storage),
    Function(CType, Vec<CType>),
    BuiltIn(Builtin),
}

/// What an ordinary identifier stands for, and the depth of the block that it is declared in, 0 at file scope.
#[derive(Drop)]
pub struct Named {
    pub depth: usize,
    pub meaning: Meaning,
}

/// The ordinary identifiers in force.
pub type Names = Table<Named>;

/// The declaration of a name that is in force; `None` exactly where there is none.
pub fn find_name<'a>(names: &'a Names, name: &Text) -> Option<&'a Named>
    ensures { option_map (λ named. declared_as (name.now, named.now)) result ≡ find name.now (declared_in names.now) }
{
    match names.find(name) {
        Some(named) => Some(named),
        None => None,
    }
}
