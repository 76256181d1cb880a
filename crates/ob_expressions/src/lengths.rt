//! Lengths in array brackets (C99 6.7.5.2).
ghost use Rattle.std.specs.Prelude.{◌≡◌, [], OnOk};
ghost use Rattle.ob_tree.specs.ExpressionView.{dim_trees, expr_tree};
ghost use Rattle.ob_tree.specs.Levels.{mark_of};
ghost use Rattle.ob_typed.specs.Conversions.{value};
ghost use Rattle.ob_typed.specs.Expressions.{check, check_lengths};
ghost use Rattle.ob_typed.specs.Faults.{by, next};
ghost use Rattle.ob_typed.specs.Specifiers.{length_rule};
ghost use Rattle.ob_context.specs.KnownView.{env_of, known_of, stand_of};
ghost use Rattle.ob_context.specs.Walks.{Walks};
ghost use Rattle.ob_expressions.specs.Lists.{dim_length};

use crate::expressions::check;
use ob_base::{let_go, push_on};
use ob_context::{Env, Known, mark_of};
use ob_conversions::values::value;
use ob_specifiers::length_rule;
use ob_tree::{Dim, Expr, TypeFault};
use std::alloc::Global;

/// The lengths in brackets, the first of them first. Brackets without one have the length 0.
#[cycle(check)]
pub fn check_lengths(
    alloc: Global,
    env: &Env,
    known: &mut Known,
    dims: &Vec<Dim>,
) -> Result<Vec<u64>, TypeFault>
    ensures walks { Walks (λ ns. ns.items) result (known_of known.new) (check_lengths (env_of env.now (stand_of known.old)) [] (dim_trees dims.now.items) (known_of known.old)) }
    ensures stays { OnOk result (stand_of known.new ≡ stand_of known.old) }
{
    let mut lengths = Vec::new(alloc);
    for dim in dims {
        let length = check_dim(alloc, env, known, dim)?;
        push_on(&mut lengths, length)?;
    }
    Ok(lengths)
}

/// The length in a pair of brackets.
#[cycle(check)]
fn check_dim(alloc: Global, env: &Env, known: &mut Known, dim: &Dim) -> Result<u64, TypeFault>
    ensures walks { Walks (λ n. n) result (known_of known.new) (dim_length (env_of env.now (stand_of known.old)) dim.now (known_of known.old)) }
    ensures stays { OnOk result (stand_of known.new ≡ stand_of known.old) }
{
    match &dim.length {
        Some(e) => check_length(alloc, env, known, e),
        None => Ok(0),
    }
}

/// The length that an expression gives.
#[cycle(check)]
fn check_length(alloc: Global, env: &Env, known: &mut Known, e: &Expr) -> Result<u64, TypeFault>
    ensures walks { Walks (λ n. n) result (known_of known.new) (next (check (env_of env.now (stand_of known.old)) (expr_tree e.now) (known_of known.old)) (λ x k. by (length_rule (mark_of (expr_tree e.now)) (value x)) k)) }
    ensures stays { OnOk result (stand_of known.new ≡ stand_of known.old) }
{
    let x = check(alloc, env, known, e)?;
    let x = value(alloc, x)?;
    let length = length_rule(mark_of(e), &x);
    let_go(x);
    length
}
