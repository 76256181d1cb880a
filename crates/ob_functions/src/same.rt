//! Whether two functions are of one type (C99 6.7.5.3).
ghost use Rattle.std.specs.Prelude.{◌≡◌, ◌&&◌, IfOk, option_map, slice_get};
ghost use Rattle.ob_tree.specs.TypeView.{plain_type, plain_types};
ghost use Rattle.ob_typed.specs.Functions.{is_same_function, parameter_types};
ghost use Rattle.ob_typed.specs.PostfixRules.{builtin_params, builtin_result};
ghost use Rattle.ob_typed.specs.TypeTests.{same_type, same_types};
ghost use Rattle.ob_scopes.specs.Names.{plain_meaning};
ghost use Rattle.ob_functions.specs.FunctionView.{is_type, parameters};

use crate::parameters::Parameter;
use ob_base::NoMemory;
use ob_conversions::beside;
use ob_conversions::types::same_type;
use ob_scopes::Meaning;
use ob_tree::CType;
use ob_typed::Builtin;
use ob_uses::{builtin_parameters, builtin_result};
use std::alloc::Global;

/// The type at an index, counted from 0.
fn type_at(types: &Vec<CType>, index: usize) -> Option<&CType>
    ensures { option_map (λ t. plain_type t.now) result ≡ slice_get (plain_types types.now.items) index }
{
    types.get(index)
}

/// Whether a type is that of a place, where there is one.
fn is_type(t: &CType, there: Option<&CType>) -> bool
    ensures { result ≡ is_type (plain_type t.now) (option_map (λ u. plain_type u.now) there.entry) }
{
    match there {
        Some(u) => same_type(t, u),
        None => false,
    }
}

/// Whether parameters have these types.
fn same_types(params: &Vec<Parameter>, types: &Vec<CType>) -> bool
    ensures { result ≡ same_types (parameter_types (parameters params.now.items)) (plain_types types.now.items) }
{
    for (i, p) in params.iter().enumerate() {
        if !is_type(&p.ty, type_at(types, i)) {
            return false;
        }
    }
    match type_at(types, params.len()) {
        Some(_) => false,
        None => true,
    }
}

/// Whether a built-in function has this result type and these parameters.
fn is_same_builtin(
    alloc: Global,
    result_type: &CType,
    params: &Vec<Parameter>,
    b: Builtin,
) -> Result<bool, NoMemory>
    ensures { IfOk result (λ same. same ≡ (same_type (plain_type result_type.now) (builtin_result b) && same_types (parameter_types (parameters params.now.items)) (builtin_params b))) }
{
    let t = builtin_result(alloc, b)?;
    let (types, t) = beside(builtin_parameters(alloc, b), t)?;
    Ok(same_type(result_type, &t) && same_types(params, &types))
}

/// Whether what a name stands for is a function of this result type and these parameters.
pub(crate) fn is_same_function(
    alloc: Global,
    result_type: &CType,
    params: &Vec<Parameter>,
    meaning: &Meaning,
) -> Result<bool, NoMemory>
    ensures { IfOk result (λ same. same ≡ is_same_function (plain_type result_type.now) (parameter_types (parameters params.now.items)) (plain_meaning meaning.now)) }
{
    match meaning {
        Meaning::Variable(_, _) => Ok(false),
        Meaning::Function(t, types) => Ok(same_type(result_type, t) && same_types(params, types)),
        Meaning::BuiltIn(b) => is_same_builtin(alloc, result_type, params, *b),
    }
}
