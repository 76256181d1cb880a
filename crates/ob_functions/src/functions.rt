//! A function's own faults (C99 6.7, 6.9.1): a second declaration of its name that isn't of one type with it, a second body or
//! the body of a built-in function, and a result of structure type.
ghost use Rattle.std.specs.Prelude.{◌≡◌, ◌&&◌, ◌||◌, IfOk, None, OnOk, not};
ghost use Rattle.ob_tree.specs.TypeView.{plain_type};
ghost use Rattle.ob_typed.specs.Functions.{function_rule, is_builtin, is_one_of, may_be, parameter_types, with_function};
ghost use Rattle.ob_typed.specs.Scopes.{find};
ghost use Rattle.ob_scopes.specs.Names.{declared_in, plain_meaning};
ghost use Rattle.ob_conversions.specs.Gives.{Gives};
ghost use Rattle.ob_functions.specs.FunctionView.{parameters};

use crate::lists::parameter_types;
use crate::parameters::Parameter;
use crate::same::is_same_function;
use ob_base::{NoMemory, Text};
use ob_context::Bodies;
use ob_conversions::beside;
use ob_conversions::types::{copy_type, is_struct};
use ob_scopes::{Meaning, Named, Names, find_name};
use ob_tree::{CType, TypeFault, TypeKind};
use std::alloc::Global;

/// Whether a name stands for a built-in function.
fn is_builtin(meaning: &Meaning) -> bool
    ensures { result ≡ is_builtin (plain_meaning meaning.now) }
{
    match meaning {
        Meaning::BuiltIn(_) => true,
        _ => false,
    }
}

/// Whether a function may be declared beside what its name stands for already.
fn may_be(
    alloc: Global,
    names: &Names,
    body: bool,
    name: &Text,
    result_type: &CType,
    params: &Vec<Parameter>,
) -> Result<bool, NoMemory>
    ensures { IfOk result (λ may. may ≡ may_be body (plain_type result_type.now) (parameter_types (parameters params.now.items)) (find name.now (declared_in names.now))) }
{
    match find_name(names, name) {
        Some(d) => {
            let same = is_same_function(alloc, result_type, params, &d.meaning)?;
            Ok(same && !(body && is_builtin(&d.meaning)))
        }
        None => Ok(true),
    }
}

/// Whether the declarator is one too many: it may not be declared beside what its name stands for, or its body is a second one.
fn is_twice(
    alloc: Global,
    names: &Names,
    defined: &Bodies,
    body: bool,
    name: &Text,
    result_type: &CType,
    params: &Vec<Parameter>,
) -> Result<bool, NoMemory>
    ensures { IfOk result (λ twice. twice ≡ (not (may_be body (plain_type result_type.now) (parameter_types (parameters params.now.items)) (find name.now (declared_in names.now))) || (body && is_one_of name.now defined.now))) }
{
    let may = may_be(alloc, names, body, name, result_type, params)?;
    Ok(!may || (body && defined.has(name)))
}

/// Declares a name as a function, at file scope.
fn declare_function(
    alloc: Global,
    names: &mut Names,
    name: &Text,
    result_type: &CType,
    params: &Vec<Parameter>,
) -> Result<(), NoMemory>
    ensures declared { OnOk result (declared_in names.new ≡ with_function name.now (plain_type result_type.now) (parameter_types (parameters params.now.items)) None (declared_in names.old)) }
    ensures scopes { OnOk result (names.new.outer ≡ names.old.outer) }
{
    let t = copy_type(alloc, result_type)?;
    let (types, t) = beside(parameter_types(alloc, params), t)?;
    let meaning = Meaning::Function(t, types);
    names.declare(alloc, name, Named { depth: 0, meaning })
}

/// Declares a name as a function at file scope, where it isn't declared yet.
fn with_function(
    alloc: Global,
    names: &mut Names,
    name: &Text,
    result_type: &CType,
    params: &Vec<Parameter>,
) -> Result<(), NoMemory>
    ensures declared { OnOk result (declared_in names.new ≡ with_function name.now (plain_type result_type.now) (parameter_types (parameters params.now.items)) (find name.now (declared_in names.old)) (declared_in names.old)) }
    ensures scopes { OnOk result (names.new.outer ≡ names.old.outer) }
{
    match find_name(names, name) {
        Some(_) => Ok(()),
        None => declare_function(alloc, names, name, result_type, params),
    }
}

/// Declares a function at file scope, where its name, which stands at `at`, isn't declared yet. `defined` are the functions that
/// have a body already, and `body` says that this one has one.
pub fn function_rule(
    alloc: Global,
    names: &mut Names,
    defined: &Bodies,
    body: bool,
    name: &Text,
    at: u32,
    result_type: &CType,
    params: &Vec<Parameter>,
) -> Result<(), TypeFault>
    ensures rule { Gives (λ _. declared_in names.new) result (function_rule (declared_in names.old) defined.now body name.now at (plain_type result_type.now) (parameter_types (parameters params.now.items))) }
    ensures scopes { OnOk result (names.new.outer ≡ names.old.outer) }
{
    if is_twice(alloc, names, defined, body, name, result_type, params)? {
        Err(TypeFault::Fault(TypeKind::Twice, at))
    } else if is_struct(result_type) {
        Err(TypeFault::Fault(TypeKind::Incomplete, at))
    } else {
        Ok(with_function(alloc, names, name, result_type, params)?)
    }
}
