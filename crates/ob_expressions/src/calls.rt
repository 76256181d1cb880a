//! Calls and their arguments (C99 6.5.2.2).
ghost use Rattle.std.specs.Prelude.{◌≡◌, [], OnOk};
ghost use Rattle.ob_tree.specs.Trees.{ExprTree};
ghost use Rattle.ob_typed.specs.Expressions.{check, check_arguments};
ghost use Rattle.ob_conversions.specs.CheckedView.{checked, mark};
ghost use Rattle.ob_context.specs.KnownView.{env_of, known_of, stand_of};
ghost use Rattle.ob_context.specs.Walks.{Walks};
ghost use Rattle.ob_uses.specs.ArgumentView.{arguments};
ghost use Rattle.ob_expressions.specs.Lists.{expr_trees};

use crate::expressions::check;
use ob_base::{Text, push_on};
use ob_context::{Env, Known, mark_of};
use ob_conversions::{Checked, Mark};
use ob_tree::{Expr, TypeFault};
use ob_uses::{Argument, calling};
use std::alloc::Global;

/// A call: its arguments from left to right, then what is called.
#[cycle(check)]
pub(crate) fn check_call(
    alloc: Global,
    env: &Env,
    known: &mut Known,
    m: Mark,
    name: &Text,
    given: &Vec<Expr>,
) -> Result<Checked, TypeFault>
    ensures walks { Walks checked result (known_of known.new) (check (env_of env.now (stand_of known.old)) (ExprTree.Call (mark m) name.now (expr_trees given.now.items)) (known_of known.old)) }
    ensures stays { OnOk result (stand_of known.new ≡ stand_of known.old) }
{
    let given = check_arguments(alloc, env, known, given)?;
    calling(alloc, env, known, m, name, given)
}

/// The arguments of a call.
#[cycle(check)]
fn check_arguments(
    alloc: Global,
    env: &Env,
    known: &mut Known,
    es: &Vec<Expr>,
) -> Result<Vec<Argument>, TypeFault>
    ensures walks { Walks (λ given. arguments given.items) result (known_of known.new) (check_arguments (env_of env.now (stand_of known.old)) [] (expr_trees es.now.items) (known_of known.old)) }
    ensures stays { OnOk result (stand_of known.new ≡ stand_of known.old) }
{
    let mut given = Vec::new(alloc);
    for e in es {
        let is = check(alloc, env, known, e)?;
        push_on(
            &mut given,
            Argument {
                first: mark_of(e).first,
                is,
            },
        )?;
    }
    Ok(given)
}
