//! A parameter's own faults: a second declaration of its name, then a type that no parameter has.
ghost use Rattle.std.specs.Prelude.{◌≡◌, IfOk};
ghost use Rattle.ob_tree.specs.ProgramView.{param_tree};
ghost use Rattle.ob_tree.specs.StructsView.{plain_structs};
ghost use Rattle.ob_tree.specs.TypeView.{plain_type};
ghost use Rattle.ob_typed.specs.Functions.{is_declared_here, parameter_rule, points_too_far};
ghost use Rattle.ob_typed.specs.Specifiers.{parameter_type};
ghost use Rattle.ob_conversions.specs.Gives.{Gives};
ghost use Rattle.ob_context.specs.KnownView.{env_of, known_of, stand_of};
ghost use Rattle.ob_functions.specs.FunctionView.{parameter};

use crate::parameters::Parameter;
use ob_base::{NoMemory, Text};
use ob_context::{Env, Known, beside_part};
use ob_conversions::beside;
use ob_conversions::types::is_scalar;
use ob_layout::{has_size, is_complete};
use ob_scopes::find_name;
use ob_specifiers::parameter_type;
use ob_tree::{CType, Param, Structs, TypeFault, TypeKind};
use std::alloc::Global;

/// Whether a name, where there is one, is declared in the innermost open block.
fn is_declared_here(env: &Env, known: &Known, name: &Option<Text>) -> bool
    ensures { result ≡ is_declared_here (env_of env.now (stand_of known.now)) name.now }
{
    match name {
        Some(name) => match find_name(&env.names, name) {
            Some(found) => found.depth == known.tags.depth(),
            None => false,
        },
        None => false,
    }
}

/// Whether a type is that of a pointer to what has too many bytes, as the elements of an array can have.
fn points_too_far(s: &Structs, t: &CType) -> bool
    ensures { result ≡ points_too_far (plain_structs s.now) (plain_type t.now) }
{
    match t {
        CType::Pointer(target) => has_size(s, target) && !is_complete(s, target),
        _ => false,
    }
}

/// That a parameter may have a type: a number or a pointer.
fn parameter_rule(env: &Env, known: &Known, p: &Param, t: &CType) -> Result<(), TypeFault>
    ensures { Gives (λ _. record { name = p.now.name; ty = plain_type t.now; line = p.now.line }) result (parameter_rule (known_of known.now).structs (env_of env.now (stand_of known.now)) (param_tree p.now) (plain_type t.now)) }
{
    if is_declared_here(env, known, &p.name) {
        Err(TypeFault::Fault(TypeKind::Twice, p.at))
    } else if !is_scalar(t) {
        Err(TypeFault::Fault(TypeKind::Incomplete, p.at))
    } else if points_too_far(known.structs.rows(), t) {
        Err(TypeFault::Fault(TypeKind::Constant, p.at))
    } else {
        Ok(())
    }
}

/// A name of its own that is the same, where there is one.
fn copy_name(alloc: Global, name: &Option<Text>) -> Result<Option<Text>, NoMemory>
    ensures { IfOk result (λ copy. copy ≡ name.now) }
{
    match name {
        Some(name) => Ok(Some(name.copy(alloc)?)),
        None => Ok(None),
    }
}

/// A parameter whose specifier names `base`, with these lengths in its brackets.
pub(crate) fn parameter_of(
    alloc: Global,
    env: &Env,
    known: &Known,
    p: &Param,
    base: CType,
    lengths: &[u64],
) -> Result<Parameter, TypeFault>
    ensures { Gives parameter result (parameter_rule (known_of known.now).structs (env_of env.now (stand_of known.now)) (param_tree p.now) (parameter_type (plain_type base) p.now.stars lengths.now)) }
{
    let t = parameter_type(alloc, base, p.stars, lengths)?;
    let ((), t) = beside_part(parameter_rule(env, known, p, &t), t)?;
    let (name, ty) = beside(copy_name(alloc, &p.name), t)?;
    Ok(Parameter {
        name,
        ty,
        line: p.line,
    })
}
