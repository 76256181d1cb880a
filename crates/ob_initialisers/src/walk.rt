//! The walk over an initialiser.
ghost use Rattle.std.specs.Prelude.{◌≡◌, [], Bool, OnOk, map, option_map};
ghost use Rattle.ob_tree.specs.ExpressionView.{expr_tree, init_tree};
ghost use Rattle.ob_tree.specs.Trees.{InitTree};
ghost use Rattle.ob_tree.specs.TypeView.{plain_type};
ghost use Rattle.ob_typed.specs.Initialisers.{check_init, check_items};
ghost use Rattle.ob_typed.specs.TypedView.{typed_init};
ghost use Rattle.ob_context.specs.KnownView.{env_of, known_of, stand_of};
ghost use Rattle.ob_context.specs.Walks.{Walks};
ghost use Rattle.ob_initialisers.specs.Lists.{init_trees};

use crate::applied::{known_item, known_list, known_part};
use crate::strings::{string_for, string_rule};
use ob_base::push_on;
use ob_context::{Env, Known, mark_of};
use ob_expressions::check;
use ob_tree::{CType, Expr, Init, TypeFault};
use ob_typed::TInit;
use std::alloc::Global;

/// What an initialiser is for a part of type `t`, or past the end where there is no type; where `fixed`, the object is static.
#[cycle(walk)]
pub fn check_init(
    alloc: Global,
    env: &Env,
    known: &mut Known,
    fixed: bool,
    t: Option<&CType>,
    i: &Init,
) -> Result<TInit, TypeFault>
    ensures walks { Walks typed_init result (known_of known.new) (check_init (env_of env.now (stand_of known.old)) fixed (option_map (λ u. plain_type u.now) t.entry) (init_tree i.now) (known_of known.old)) }
    ensures stays { OnOk result (stand_of known.new ≡ stand_of known.old) }
{
    match i {
        Init::Value(e) => check_item(alloc, env, known, fixed, t, e),
        Init::List { first, items, .. } => check_list(alloc, env, known, fixed, t, *first, items),
    }
}

/// An expression.
fn check_item(
    alloc: Global,
    env: &Env,
    known: &mut Known,
    fixed: bool,
    t: Option<&CType>,
    e: &Expr,
) -> Result<TInit, TypeFault>
    ensures walks { Walks typed_init result (known_of known.new) (check_init (env_of env.now (stand_of known.old)) fixed (option_map (λ u. plain_type u.now) t.entry) (InitTree.Value (expr_tree e.now)) (known_of known.old)) }
    ensures stays { OnOk result (stand_of known.new ≡ stand_of known.old) }
{
    match string_for(alloc, t, e)? {
        Some(bytes) => string_rule(t, mark_of(e), bytes),
        None => {
            let x = check(alloc, env, known, e)?;
            known_item(alloc, known, fixed, t, mark_of(e), x)
        }
    }
}

/// A list, whose brace stands at `first`.
#[cycle(walk)]
fn check_list(
    alloc: Global,
    env: &Env,
    known: &mut Known,
    fixed: bool,
    t: Option<&CType>,
    first: u32,
    sources: &Vec<Init>,
) -> Result<TInit, TypeFault>
    ensures walks { (comma : Bool) → Walks typed_init result (known_of known.new) (check_init (env_of env.now (stand_of known.old)) fixed (option_map (λ u. plain_type u.now) t.entry) (InitTree.Braces first (init_trees sources.now.items) comma) (known_of known.old)) }
    ensures stays { OnOk result (stand_of known.new ≡ stand_of known.old) }
{
    let items = check_items(alloc, env, known, fixed, t, sources)?;
    known_list(known, t, first, sources, items)
}

/// The items of a list.
#[cycle(walk)]
fn check_items(
    alloc: Global,
    env: &Env,
    known: &mut Known,
    fixed: bool,
    t: Option<&CType>,
    sources: &Vec<Init>,
) -> Result<Vec<TInit>, TypeFault>
    ensures walks { Walks (λ items. map typed_init items.items) result (known_of known.new) (check_items (env_of env.now (stand_of known.old)) fixed (option_map (λ u. plain_type u.now) t.entry) [] (init_trees sources.now.items) (known_of known.old)) }
    ensures stays { OnOk result (stand_of known.new ≡ stand_of known.old) }
{
    let mut items = Vec::new(alloc);
    for source in sources {
        let part = known_part(alloc, known, t, items.len())?;
        let item = check_init(alloc, env, known, fixed, part.as_ref(), source)?;
        push_on(&mut items, item)?;
    }
    Ok(items)
}
