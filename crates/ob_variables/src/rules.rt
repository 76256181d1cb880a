//! An object's own faults: a second declaration in its block, then a type that no object has.
ghost use Rattle.std.specs.Prelude.{◌≡◌, IfOk, OnOk, length};
ghost use Rattle.ob_tree.specs.ExpressionView.{obj_tree};
ghost use Rattle.ob_tree.specs.StructsView.{plain_structs};
ghost use Rattle.ob_tree.specs.TypeView.{plain_type};
ghost use Rattle.ob_typed.specs.Declarations.{named, variable_rule, variable_type};
ghost use Rattle.ob_typed.specs.Scopes.{Meaning as PlainMeaning, find, is_at};
ghost use Rattle.ob_typed.specs.Specifiers.{declarator_type, object_type};
ghost use Rattle.ob_scopes.specs.Names.{lean_of, plain_meaning};
ghost use Rattle.ob_conversions.specs.Gives.{Gives};
ghost use Rattle.ob_context.specs.KnownView.{env_of, known_of, stand_of};
ghost use Rattle.ob_context.specs.Walks.{Walks};
ghost use Rattle.ob_variables.specs.Pieces.{own_type};

use ob_base::{NoMemory, Text, let_go};
use ob_context::{Env, Known, refused};
use ob_conversions::types::copy_type;
use ob_expressions::check_lengths;
use ob_scopes::{Meaning, Named, Storage, find_name};
use ob_specifiers::{declarator_type, object_type};
use ob_tree::{CType, ObjDecl, Structs, TypeFault, TypeKind};
use ob_typed::VarName;
use std::alloc::Global;

/// A variable's name and the line of its declaration.
pub(crate) fn named(alloc: Global, name: &Text, line: u32) -> Result<VarName, NoMemory>
    ensures { IfOk result (λ n. n ≡ named name.now line) }
{
    Ok(VarName {
        name: name.copy(alloc)?,
        line,
    })
}

/// An object of a type, declared in the innermost open block.
pub(crate) fn variable(known: &Known, t: CType, storage: Storage) -> Named
    ensures depth { result.depth ≡ length (stand_of known.now).outer }
    ensures meaning { plain_meaning result.meaning ≡ PlainMeaning.Variable (plain_type t) (lean_of storage) }
{
    Named {
        depth: known.tags.depth(),
        meaning: Meaning::Variable(t, storage),
    }
}

/// The type of a declarator whose specifier names `base`.
fn declared_type(
    alloc: Global,
    base: &CType,
    stars: u32,
    lengths: &[u64],
) -> Result<CType, NoMemory>
    ensures { IfOk result (λ t. plain_type t ≡ declarator_type (plain_type base.now) stars lengths.now) }
{
    let base = copy_type(alloc, base)?;
    declarator_type(alloc, base, stars, lengths)
}

/// Whether a name is declared in the innermost open block.
fn is_declared_here(env: &Env, known: &Known, name: &Text) -> bool
    ensures { result ≡ is_at (env_of env.now (stand_of known.now)).depth (find name.now (env_of env.now (stand_of known.now)).declared) }
{
    match find_name(&env.names, name) {
        Some(found) => found.depth == known.tags.depth(),
        None => false,
    }
}

/// That an object may have this type, the structures being known; `at` is the place of its name.
pub(crate) fn whole_type(known: &Known, t: &CType, at: u32) -> Result<(), TypeFault>
    ensures { Gives (λ _. plain_type t.now) result (object_type (known_of known.now).structs (plain_type t.now) at) }
{
    object_type(known.structs.rows(), t, at)
}

/// That an object may have a type. An array without a length gets one from its initialiser.
fn variable_type(s: &Structs, initial: bool, t: &CType, at: u32) -> Result<(), TypeFault>
    ensures { Gives (λ _. plain_type t.now) result (variable_type (plain_structs s.now) initial (plain_type t.now) at) }
{
    match t {
        CType::Array(element, count) => if initial && *count == 0 {
            object_type(s, element, at)
        } else {
            object_type(s, t, at)
        },
        t => object_type(s, t, at),
    }
}

/// An object's own faults; its name stands at `at`. `initial` says that it has an initialiser.
fn variable_rule(
    env: &Env,
    known: &Known,
    initial: bool,
    name: &Text,
    t: CType,
    at: u32,
) -> Result<CType, TypeFault>
    ensures { Gives plain_type result (variable_rule (known_of known.now).structs (env_of env.now (stand_of known.now)) initial name.now (plain_type t) at) }
{
    if is_declared_here(env, known, name) {
        return refused(TypeKind::Twice, at, t);
    }
    match variable_type(known.structs.rows(), initial, &t, at) {
        Ok(()) => Ok(t),
        Err(fault) => {
            let_go(t);
            Err(fault)
        }
    }
}

/// The type of an object, up to its length, after its own faults.
#[tactic(auto, using(crate::proofs::Declarators::own_is))]
pub(crate) fn own_type(
    alloc: Global,
    env: &Env,
    known: &mut Known,
    base: &CType,
    o: &ObjDecl,
) -> Result<CType, TypeFault>
    ensures walks { Walks plain_type result (known_of known.new) (own_type (env_of env.now (stand_of known.old)) (plain_type base.now) (obj_tree o.now) (known_of known.old)) }
    ensures stays { OnOk result (stand_of known.new ≡ stand_of known.old) }
{
    let lengths = check_lengths(alloc, env, known, &o.dims)?;
    let t = declared_type(alloc, base, o.stars, &lengths)?;
    variable_rule(env, known, o.init.is_some(), &o.name, t, o.at)
}
