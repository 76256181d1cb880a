//! Initialisers of named objects (C99 6.2.1): an object is known from its declarator on.
ghost use Rattle.std.specs.Prelude.{◌≡◌, OnOk, Some};
ghost use Rattle.ob_tree.specs.ExpressionView.{init_tree};
ghost use Rattle.ob_tree.specs.TypeView.{plain_type};
ghost use Rattle.ob_typed.specs.Initialisers.{check_init};
ghost use Rattle.ob_typed.specs.Scopes.{declaring};
ghost use Rattle.ob_typed.specs.TypedView.{typed_init};
ghost use Rattle.ob_scopes.specs.Names.{declared_as};
ghost use Rattle.ob_context.specs.KnownView.{env_of, known_of, stand_of};
ghost use Rattle.ob_context.specs.Walks.{Walks};

use ob_base::Text;
use ob_context::{Env, Known};
use ob_conversions::beside;
use ob_initialisers::check_init;
use ob_scopes::Named;
use ob_tree::{CType, Init, TypeFault};
use ob_typed::TInit;
use std::alloc::Global;

/// The initialiser of an object of type `t` and of a name, which is declared in a block of names of its own meanwhile. Where
/// `fixed`, the object is static.
pub(crate) fn check_named(
    alloc: Global,
    env: &mut Env,
    known: &mut Known,
    fixed: bool,
    name: &Text,
    named: Named,
    t: &CType,
    i: &Init,
) -> Result<TInit, TypeFault>
    ensures walks { Walks typed_init result (known_of known.new) (check_init (declaring (env_of env.old (stand_of known.old)) (declared_as (name.now, named))) fixed (Some (plain_type t.now)) (init_tree i.now) (known_of known.old)) }
    ensures stays { OnOk result (stand_of known.new ≡ stand_of known.old) }
    ensures env { OnOk result (env.new ≡ env.old) }
{
    let ((), named) = beside(env.names.enter(), named)?;
    env.names.declare(alloc, name, named)?;
    let x = check_init(alloc, env, known, fixed, Some(t), i)?;
    env.names.leave();
    Ok(x)
}
