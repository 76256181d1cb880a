//! Calls (C99 6.5.2.2).
ghost use Rattle.std.specs.Prelude.{ℕ, ◌≡◌, List, [], ◌∷◌, Some, IfOk, OnOk};
ghost use Rattle.ob_words.specs.declared.types.IntType.TheVariants.{ULong};
ghost use Rattle.ob_tree.specs.Types.{PlainType};
ghost use Rattle.ob_tree.specs.TypeView.{plain_type, plain_types};
ghost use Rattle.ob_typed.specs.Conversions.{Checked as PlainChecked};
ghost use Rattle.ob_typed.specs.Expressions.{calling, noted};
ghost use Rattle.ob_typed.specs.PostfixRules.{builtin_params, builtin_result, call_meant, call_rule, called, expr_list, passed};
ghost use Rattle.ob_typed.specs.TypedTree.{TypedExpr, TypedNode};
ghost use Rattle.ob_scopes.specs.Names.{plain_meaning};
ghost use Rattle.ob_conversions.specs.CheckedView.{checked, mark};
ghost use Rattle.ob_conversions.specs.Gives.{Gives};
ghost use Rattle.ob_context.specs.KnownView.{env_of, known_of, stand_of};
ghost use Rattle.ob_context.specs.Walks.{Walks};
ghost use Rattle.ob_uses.specs.ArgumentView.{arguments};
ghost use Rattle.ob_uses.specs.Passing.{typed_list};

use crate::arguments::Argument;
use crate::passing::{any_unusable, passed};
use ob_base::{NoMemory, Text, listed, with_last};
use ob_context::{Env, Known, refused};
use ob_conversions::types::{copy_type, pointer_to};
use ob_conversions::{Checked, Mark, beside};
use ob_rules::refused::operand;
use ob_scopes::{Meaning, find_name};
use ob_tree::{CType, TypeFault, TypeKind};
use ob_typed::{Builtin, TExpr, TNode};
use ob_words::IntType;
use std::alloc::Global;

/// The type of a built-in function's result (C99 7.19.7, 7.20.3, 7.20.4).
pub fn builtin_result(alloc: Global, b: Builtin) -> Result<CType, NoMemory>
    ensures { IfOk result (λ t. plain_type t ≡ builtin_result b) }
{
    match b {
        Builtin::GetChar | Builtin::PutChar => Ok(CType::Int(IntType::Int)),
        Builtin::Malloc | Builtin::Calloc => pointer_to(alloc, CType::Void),
        Builtin::Free | Builtin::Exit => Ok(CType::Void),
    }
}

/// The types of two parameters of type `size_t`.
fn two_sizes(alloc: Global) -> Result<Vec<CType>, NoMemory>
    ensures { IfOk result (λ ts. plain_types ts.items ≡ PlainType.Int ULong ∷ (PlainType.Int ULong ∷ [])) }
{
    let sizes = listed(alloc, CType::Int(IntType::ULong))?;
    with_last(sizes, CType::Int(IntType::ULong))
}

/// The types of a built-in function's parameters.
pub fn builtin_parameters(alloc: Global, b: Builtin) -> Result<Vec<CType>, NoMemory>
    ensures { IfOk result (λ ts. plain_types ts.items ≡ builtin_params b) }
{
    match b {
        Builtin::GetChar => Ok(Vec::new(alloc)),
        Builtin::PutChar | Builtin::Exit => listed(alloc, CType::Int(IntType::Int)),
        Builtin::Malloc => listed(alloc, CType::Int(IntType::ULong)),
        Builtin::Calloc => two_sizes(alloc),
        Builtin::Free => listed(alloc, pointer_to(alloc, CType::Void)?),
    }
}

/// A call of the function of a number.
fn function_node(line: u32, ty: CType, number: u32, es: Vec<TExpr>) -> Checked
    ensures { checked result ≡ PlainChecked.Plain (TypedExpr.Typed line (plain_type ty) (TypedNode.Call number (expr_list (typed_list es)))) }
{
    Checked::Plain(TExpr {
        line,
        ty,
        node: TNode::Call(number, es),
    })
}

/// A call of a built-in function.
fn builtin_node(line: u32, ty: CType, b: Builtin, es: Vec<TExpr>) -> Checked
    ensures { checked result ≡ PlainChecked.Plain (TypedExpr.Typed line (plain_type ty) (TypedNode.CallBuiltin b (expr_list (typed_list es)))) }
{
    Checked::Plain(TExpr {
        line,
        ty,
        node: TNode::Builtin(b, es),
    })
}

/// A call of the function of a number, with this result type and these parameter types.
fn call_function(
    alloc: Global,
    m: Mark,
    number: u32,
    res: &CType,
    params: &Vec<CType>,
    given: Vec<Argument>,
) -> Result<Checked, TypeFault>
    ensures { Gives checked result (called (mark m) (plain_type res.now) (TypedNode.Call number) (passed (mark m) [] (arguments given.items) (plain_types params.now.items))) }
{
    let es = passed(alloc, m, given, params)?;
    let (ty, es) = beside(copy_type(alloc, res), es)?;
    Ok(function_node(m.line, ty, number, es))
}

/// The arguments of a built-in function in the types of its parameters.
fn builtin_passed(
    alloc: Global,
    m: Mark,
    b: Builtin,
    given: Vec<Argument>,
) -> Result<Vec<TExpr>, TypeFault>
    ensures { Gives typed_list result (passed (mark m) [] (arguments given.items) (builtin_params b)) }
{
    let (params, given) = beside(builtin_parameters(alloc, b), given)?;
    passed(alloc, m, given, &params)
}

/// A call of a built-in function.
fn call_builtin(
    alloc: Global,
    m: Mark,
    b: Builtin,
    given: Vec<Argument>,
) -> Result<Checked, TypeFault>
    ensures { Gives checked result (called (mark m) (builtin_result b) (TypedNode.CallBuiltin b) (passed (mark m) [] (arguments given.items) (builtin_params b))) }
{
    let es = builtin_passed(alloc, m, b, given)?;
    let (ty, es) = beside(builtin_result(alloc, b), es)?;
    Ok(builtin_node(m.line, ty, b, es))
}

/// A call of what a name stands for; `number` is that of the function of this name.
fn call_meant(
    alloc: Global,
    m: Mark,
    number: u32,
    meaning: &Meaning,
    given: Vec<Argument>,
) -> Result<Checked, TypeFault>
    ensures { Gives checked result (call_meant (mark m) number (plain_meaning meaning.now) (arguments given.items)) }
{
    match meaning {
        Meaning::Variable(_, _) => refused(TypeKind::NotFunction, m.first, given),
        Meaning::Function(res, params) => call_function(alloc, m, number, res, params, given),
        Meaning::BuiltIn(b) => call_builtin(alloc, m, *b, given),
    }
}

/// A call of what a name stands for, where the values of all arguments may be used.
fn call_rule(
    alloc: Global,
    m: Mark,
    number: u32,
    meaning: &Meaning,
    given: Vec<Argument>,
) -> Result<Checked, TypeFault>
    ensures { (name : List ℕ) (depth : ℕ) → Gives checked result (call_rule (mark m) number (Some (record { name = name; depth = depth; meaning = plain_meaning meaning.now })) (arguments given.items)) }
{
    if any_unusable(&given) {
        operand(m, given)
    } else {
        call_meant(alloc, m, number, meaning, given)
    }
}

/// Notes a call of a function that isn't built in, for which a body is looked for at the end.
fn note(
    alloc: Global,
    known: &mut Known,
    m: Mark,
    name: &Text,
    meaning: &Meaning,
) -> Result<(), NoMemory>
    ensures known { OnOk result (known_of known.new ≡ noted (mark m) name.now (Some (plain_meaning meaning.now)) (known_of known.old)) }
    ensures stays { OnOk result (stand_of known.new ≡ stand_of known.old) }
{
    match meaning {
        Meaning::Function(_, _) => known.add_call(alloc, name, m.first),
        _ => Ok(()),
    }
}

/// A call of a name with these arguments: the value of the function's result type. The name is no expression: its faults
/// come after those of the arguments. A call of a function that isn't built in is noted, since a body is looked for at the
/// end.
pub fn calling(
    alloc: Global,
    env: &Env,
    known: &mut Known,
    m: Mark,
    name: &Text,
    given: Vec<Argument>,
) -> Result<Checked, TypeFault>
    ensures walks { Walks checked result (known_of known.new) (calling (env_of env.now (stand_of known.old)) (mark m) name.now (arguments given.items) (known_of known.old)) }
    ensures stays { OnOk result (stand_of known.new ≡ stand_of known.old) }
{
    match find_name(&env.names, name) {
        Some(named) => {
            let (_, given) = beside(note(alloc, known, m, name, &named.meaning), given)?;
            call_rule(alloc, m, env.bodies.number(name), &named.meaning, given)
        }
        None => refused(TypeKind::Unknown, m.first, given),
    }
}
