//! Declarations of parameters, which are automatic objects (C99 6.2.4), numbered from 0.
ghost use Rattle.std.specs.Prelude.{◌≡◌, OnOk, Some, length};
ghost use Rattle.ob_tree.specs.TypeView.{plain_type};
ghost use Rattle.ob_typed.specs.Functions.{with_parameter, with_parameters};
ghost use Rattle.ob_scopes.specs.Names.{declared_in};
ghost use Rattle.ob_context.specs.KnownView.{stand_of};
ghost use Rattle.ob_functions.specs.FunctionView.{parameters};

use crate::parameters::Parameter;
use ob_base::{NoMemory, Text};
use ob_context::{Env, Known};
use ob_conversions::types::copy_type;
use ob_scopes::{Meaning, Named, Storage};
use ob_tree::CType;
use std::alloc::Global;

/// Declares the name of parameter `number` of a type, at a depth.
fn declare_name(
    alloc: Global,
    env: &mut Env,
    depth: usize,
    number: usize,
    name: &Text,
    t: &CType,
) -> Result<(), NoMemory>
    ensures declared { OnOk result (declared_in env.new.names ≡ with_parameter depth number (Some name.now) (plain_type t.now) (declared_in env.old.names)) }
    ensures scopes { OnOk result (env.new.names.outer ≡ env.old.names.outer) }
    ensures bodies { env.new.bodies ≡ env.old.bodies }
{
    match u32::try_from(number) {
        Ok(number) => {
            let t = copy_type(alloc, t)?;
            let meaning = Meaning::Variable(t, Storage::Local(number));
            env.names.declare(alloc, name, Named { depth, meaning })
        }
        Err(_) => Err(NoMemory),
    }
}

/// Declares parameter `number`, where it has a name, in the innermost open block. More than a `u32` counts find too little
/// memory.
pub(crate) fn declare_param(
    alloc: Global,
    env: &mut Env,
    known: &Known,
    number: usize,
    p: &Parameter,
) -> Result<(), NoMemory>
    ensures declared { OnOk result (declared_in env.new.names ≡ with_parameter (length (stand_of known.now).outer) number p.now.name (plain_type p.now.ty) (declared_in env.old.names)) }
    ensures scopes { OnOk result (env.new.names.outer ≡ env.old.names.outer) }
    ensures bodies { OnOk result (env.new.bodies ≡ env.old.bodies) }
{
    match &p.name {
        Some(name) => declare_name(alloc, env, known.tags.depth(), number, name, &p.ty),
        None => Ok(()),
    }
}

/// Declares the parameters of a function in the innermost open block, which is that of its body. More than a `u32` counts find
/// too little memory.
pub fn declare_params(
    alloc: Global,
    env: &mut Env,
    known: &Known,
    params: &Vec<Parameter>,
) -> Result<(), NoMemory>
    ensures declared { OnOk result (declared_in env.new.names ≡ with_parameters (length (stand_of known.now).outer) 0 (declared_in env.old.names) (parameters params.now.items)) }
    ensures scopes { OnOk result (env.new.names.outer ≡ env.old.names.outer) }
    ensures bodies { OnOk result (env.new.bodies ≡ env.old.bodies) }
{
    for (number, p) in params.iter().enumerate() {
        declare_param(alloc, env, known, number, p)?;
    }
    Ok(())
}
