//! Lists of parameters: their types and their names.
ghost use Rattle.std.specs.Prelude.{◌≡◌, IfOk};
ghost use Rattle.ob_tree.specs.TypeView.{plain_types};
ghost use Rattle.ob_typed.specs.Declarations.{named};
ghost use Rattle.ob_typed.specs.Functions.{or_empty, parameter_names, parameter_types};
ghost use Rattle.ob_functions.specs.FunctionView.{parameters};

use crate::parameters::Parameter;
use ob_base::{NoMemory, Text, push_on};
use ob_conversions::types::copy_type;
use ob_tree::CType;
use ob_typed::VarName;
use std::alloc::Global;

/// The types of parameters, as types of their own.
pub fn parameter_types(alloc: Global, params: &Vec<Parameter>) -> Result<Vec<CType>, NoMemory>
    ensures { IfOk result (λ ts. plain_types ts.items ≡ parameter_types (parameters params.now.items)) }
{
    let mut types = Vec::new(alloc);
    for p in params {
        push_on(&mut types, copy_type(alloc, &p.ty)?)?;
    }
    Ok(types)
}

/// A name of its own that is the same, or an empty one.
fn or_empty(alloc: Global, name: &Option<Text>) -> Result<Text, NoMemory>
    ensures { IfOk result (λ n. n ≡ or_empty name.now) }
{
    match name {
        Some(name) => name.copy(alloc),
        None => Ok(Text::new(alloc)),
    }
}

/// The name of a parameter as a variable's.
fn parameter_name(alloc: Global, p: &Parameter) -> Result<VarName, NoMemory>
    ensures { IfOk result (λ n. n ≡ named (or_empty p.now.name) p.now.line) }
{
    let name = or_empty(alloc, &p.name)?;
    Ok(VarName { name, line: p.line })
}

/// The names of parameters, with their lines. That of a parameter without a name is empty.
pub fn parameter_names(alloc: Global, params: &Vec<Parameter>) -> Result<Vec<VarName>, NoMemory>
    ensures { IfOk result (λ ns. ns.items ≡ parameter_names (parameters params.now.items)) }
{
    let mut names = Vec::new(alloc);
    for p in params {
        push_on(&mut names, parameter_name(alloc, p)?)?;
    }
    Ok(names)
}
