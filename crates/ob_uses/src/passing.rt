//! The arguments of a call in the types of the parameters (C99 6.5.2.2).
ghost use Rattle.std.specs.Prelude.{◌≡◌, ◌++◌, Ok, [], ◌∷◌, option_map, slice_get};
ghost use Rattle.ob_tree.specs.TypeView.{plain_type, plain_types};
ghost use Rattle.ob_typed.specs.Faults.{then_rule};
ghost use Rattle.ob_typed.specs.PostfixRules.{any_unusable, passed};
ghost use Rattle.ob_typed.specs.TypedView.{typed_expr};
ghost use Rattle.ob_conversions.specs.CheckedView.{mark};
ghost use Rattle.ob_conversions.specs.Gives.{Gives};
ghost use Rattle.ob_uses.specs.ArgumentView.{argument, arguments};
ghost use Rattle.ob_uses.specs.Passing.{converted, typed_list};

use crate::arguments::Argument;
use ob_base::push_on;
use ob_context::refused;
use ob_conversions::Mark;
use ob_conversions::fitting::{fits, value_as_type};
use ob_conversions::values::is_unusable_value;
use ob_tree::{CType, TypeFault, TypeKind};
use ob_typed::TExpr;
use std::alloc::Global;

/// Whether the value of some argument may not be used.
pub(crate) fn any_unusable(given: &Vec<Argument>) -> bool
    ensures { result ≡ any_unusable (arguments given.now.items) }
{
    for a in given {
        if is_unusable_value(&a.is) {
            return true;
        }
    }
    false
}

/// An argument in the type of a parameter.
fn converted(alloc: Global, a: Argument, t: &CType) -> Result<TExpr, TypeFault>
    ensures { Gives typed_expr result (converted (argument a) (plain_type t.now)) }
{
    let Argument { first, is } = a;
    if fits(&is, t) {
        Ok(value_as_type(alloc, is, t)?)
    } else {
        refused(TypeKind::Assign, first, is)
    }
}

/// One more argument in the type of a parameter.
fn pass_one(alloc: Global, done: &mut Vec<TExpr>, a: Argument, t: &CType) -> Result<(), TypeFault>
    ensures { Gives (λ _. typed_list done.new) result (then_rule (converted (argument a) (plain_type t.now)) (λ e. Ok (typed_list done.old ++ e ∷ []))) }
{
    let e = converted(alloc, a, t)?;
    Ok(push_on(done, e)?)
}

/// The type of a parameter by its index, counted from 0.
fn parameter_at(params: &Vec<CType>, index: usize) -> Option<&CType>
    ensures { option_map (λ t. plain_type t.now) result ≡ slice_get (plain_types params.now.items) index }
{
    params.get(index)
}

/// The arguments in the types of the parameters. The first argument that doesn't convert comes before a wrong number of
/// them.
pub(crate) fn passed(
    alloc: Global,
    m: Mark,
    given: Vec<Argument>,
    params: &Vec<CType>,
) -> Result<Vec<TExpr>, TypeFault>
    ensures { Gives typed_list result (passed (mark m) [] (arguments given.items) (plain_types params.now.items)) }
{
    let mut done = Vec::new(alloc);
    let mut rest = given;
    rest.reverse();
    let mut index = 0usize;
    while let Some(a) = rest.pop() {
        match parameter_at(params, index) {
            Some(t) => pass_one(alloc, &mut done, a, t)?,
            None => return refused(TypeKind::Count, m.first, (a, done, rest)),
        }
        index += 1;
    }
    match parameter_at(params, index) {
        Some(_) => refused(TypeKind::Count, m.first, done),
        None => Ok(done),
    }
}
