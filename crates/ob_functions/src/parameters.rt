//! Parameters (C99 6.7.5.3). Their names are declared in a block of their own, each from its declarator on.
ghost use Rattle.std.specs.Prelude.{◌≡◌, [], Ok, OnOk, map};
ghost use Rattle.ob_tree.specs.ProgramView.{param_tree, params_tree};
ghost use Rattle.ob_typed.specs.Faults.{next};
ghost use Rattle.ob_typed.specs.Functions.{check_each, check_parameter, check_params};
ghost use Rattle.ob_context.specs.KnownView.{env_of, known_of, stand_of, within};
ghost use Rattle.ob_context.specs.Walks.{Walks};
ghost use Rattle.ob_functions.specs.FunctionView.{one_more, parameter, parameters};

use crate::declaring::declare_param;
use crate::rules::parameter_of;
use ob_base::{Text, push_on};
use ob_context::{Env, Known, beside_part};
use ob_conversions::beside;
use ob_expressions::{check_lengths, check_spec};
use ob_tree::{CType, Param, Params, TypeFault};
use std::alloc::Global;

/// A parameter: its name, where it has one, its type, and the line of its first token.
#[derive(Drop)]
pub struct Parameter {
    pub name: Option<Text>,
    pub ty: CType,
    pub line: u32,
}

/// A parameter, among those before it.
fn check_parameter(
    alloc: Global,
    env: &Env,
    known: &mut Known,
    p: &Param,
) -> Result<Parameter, TypeFault>
    ensures walks { Walks parameter result (known_of known.new) (check_parameter (env_of env.now (stand_of known.old)) (param_tree p.now) (known_of known.old)) }
    ensures stays { OnOk result (stand_of known.new ≡ stand_of known.old) }
{
    let base = check_spec(alloc, env, known, &p.spec)?;
    let (lengths, base) = beside_part(check_lengths(alloc, env, known, &p.dims), base)?;
    parameter_of(alloc, env, known, p, base, &lengths)
}

/// One more parameter, which is declared behind those before it.
fn add_parameter(
    alloc: Global,
    env: &mut Env,
    known: &mut Known,
    done: &mut Vec<Parameter>,
    p: &Param,
) -> Result<(), TypeFault>
    ensures walks { Walks (λ _. record { params = parameters done.new.items; env = env_of env.new (stand_of known.new) }) result (known_of known.new) (next (check_parameter (env_of env.old (stand_of known.old)) (param_tree p.now) (known_of known.old)) (λ q k. Ok (one_more (record { params = parameters done.old.items; env = env_of env.old (stand_of known.old) }) q, k))) }
    ensures stays { OnOk result (stand_of known.new ≡ stand_of known.old) }
    ensures scopes { OnOk result (env.new.names.outer ≡ env.old.names.outer) }
    ensures bodies { OnOk result (env.new.bodies ≡ env.old.bodies) }
{
    let q = check_parameter(alloc, env, known, p)?;
    let (_, q) = beside(declare_param(alloc, env, known, done.len(), &q), q)?;
    Ok(push_on(done, q)?)
}

/// The parameters of a list, each among those before it.
fn check_each(
    alloc: Global,
    env: &mut Env,
    known: &mut Known,
    params: &Vec<Param>,
) -> Result<Vec<Parameter>, TypeFault>
    ensures walks { Walks (λ ps. parameters ps.items) result (known_of known.new) (check_each (env_of env.old (stand_of known.old)) [] (map param_tree params.now.items) (known_of known.old)) }
    ensures stands { OnOk result (stand_of known.new ≡ within (known_of known.old).tags (stand_of known.old)) }
    ensures env { OnOk result (env.new ≡ env.old) }
{
    known.enter()?;
    env.names.enter()?;
    let mut done = Vec::new(alloc);
    for p in params {
        add_parameter(alloc, env, known, &mut done, p)?;
    }
    env.names.leave();
    Ok(done)
}

/// The parameters of a function declarator, each among those before it. Opens a block, where the tags in the parameters are
/// declared, and leaves it open, since they are in force in the function's body; the names are no longer declared then.
pub fn check_params(
    alloc: Global,
    env: &mut Env,
    known: &mut Known,
    params: &Params,
) -> Result<Vec<Parameter>, TypeFault>
    ensures walks { Walks (λ ps. parameters ps.items) result (known_of known.new) (check_params (env_of env.old (stand_of known.old)) (params_tree params.now) (known_of known.old)) }
    ensures stands { OnOk result (stand_of known.new ≡ within (known_of known.old).tags (stand_of known.old)) }
    ensures env { OnOk result (env.new ≡ env.old) }
{
    match params {
        Params::List(params) => check_each(alloc, env, known, params),
        _ => {
            known.enter()?;
            Ok(Vec::new(alloc))
        }
    }
}
