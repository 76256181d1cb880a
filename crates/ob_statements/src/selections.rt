//! Selection statements (C99 6.8.4): each is a block, and so is each statement in it.
ghost use Rattle.std.specs.Prelude.{◌≡◌, OnOk};
ghost use Rattle.ob_tree.specs.ExpressionView.{expr_tree};
ghost use Rattle.ob_tree.specs.ProgramView.{stmt_tree};
ghost use Rattle.ob_tree.specs.TypeView.{plain_type};
ghost use Rattle.ob_typed.specs.Declarations.{Body as PlainBody};
ghost use Rattle.ob_typed.specs.Scopes.{deeper};
ghost use Rattle.ob_typed.specs.Statements.{block};
ghost use Rattle.ob_typed.specs.TypedView.{typed_expr, typed_stmt};
ghost use Rattle.ob_scopes.specs.Bindings.{entered, left};
ghost use Rattle.ob_context.specs.KnownView.{env_of, known_of, left_stand, left_tags, stand_of, within};
ghost use Rattle.ob_context.specs.Walks.{Walks};
ghost use Rattle.ob_variables.specs.BodyView.{body_of};
ghost use Rattle.ob_statements.specs.Parts.{if_begun, if_ended, if_parts};

use crate::blocks::{enter, leave};
use crate::controls::check_control;
use crate::nodes::{if_else_node, if_node};
use crate::walk::{check_inner, check_open};
use ob_context::{Env, beside_part};
use ob_tree::{CType, Expr, Stmt, TypeFault};
use ob_typed::{TExpr, TStmt};
use ob_variables::Body;
use std::alloc::Global;

/// `if` without `else` (C99 6.8.4.1).
#[cycle(walk)]
pub(crate) fn if_stmt(
    alloc: Global,
    env: &mut Env,
    body: &mut Body,
    s: &Stmt,
    in_loop: bool,
    t: &CType,
    c: &Expr,
) -> Result<TStmt, TypeFault>
    ensures walks { Walks typed_stmt result (body_of body.new) (block (body_of body.old) (if_parts (deeper (env_of env.old (stand_of body.old.known))) in_loop (plain_type t.now) (expr_tree c.now) (stmt_tree s.now) (body_of body.old))) }
    ensures stays { OnOk result (stand_of body.new.known ≡ stand_of body.old.known) }
    ensures env { OnOk result (env.new ≡ env.old) }
{
    enter(env, body)?;
    let s = if_parts(alloc, env, body, s, in_loop, t, c)?;
    leave(env, body);
    leave(env, body);
    Ok(s)
}

/// The parts of an `if`; the block of the last stays open.
#[cycle(walk)]
#[tactic(auto, unfolding(crate::specs::Parts::if_parts))]
fn if_parts(
    alloc: Global,
    env: &mut Env,
    body: &mut Body,
    s: &Stmt,
    in_loop: bool,
    t: &CType,
    c: &Expr,
) -> Result<TStmt, TypeFault>
    ensures walks { Walks typed_stmt result (body_of body.new) (if_parts (env_of env.old (stand_of body.old.known)) in_loop (plain_type t.now) (expr_tree c.now) (stmt_tree s.now) (body_of body.old)) }
    ensures stand { OnOk result (left_stand (stand_of body.new.known) ≡ stand_of body.old.known) }
    ensures names { OnOk result (left env.new.names ≡ env.old.names) }
    ensures bodies { OnOk result (env.new.bodies ≡ env.old.bodies) }
{
    let x = check_control(alloc, env, body, c)?;
    let (y, x) = beside_part(check_open(alloc, env, body, s, in_loop, t), x)?;
    Ok(if_node(alloc, x, y)?)
}

/// The parts of an `if` with `else` before the `else`, in the block of the whole, which stays open (C99 6.8.4.1).
#[cycle(walk)]
#[tactic(auto, unfolding(crate::specs::Parts::if_begun))]
pub(crate) fn if_begun(
    alloc: Global,
    env: &mut Env,
    body: &mut Body,
    s: &Stmt,
    in_loop: bool,
    t: &CType,
    c: &Expr,
) -> Result<(TExpr, TStmt), TypeFault>
    ensures walks { Walks (λ p. (typed_expr p.0, typed_stmt p.1)) result (body_of body.new) (if_begun (deeper (env_of env.old (stand_of body.old.known))) in_loop (plain_type t.now) (expr_tree c.now) (stmt_tree s.now) (body_of body.old)) }
    ensures stand { OnOk result (stand_of body.new.known ≡ within (known_of body.old.known).tags (stand_of body.old.known)) }
    ensures names { OnOk result (env.new.names ≡ entered env.old.names) }
    ensures bodies { OnOk result (env.new.bodies ≡ env.old.bodies) }
{
    enter(env, body)?;
    let x = check_control(alloc, env, body, c)?;
    let (y, x) = beside_part(check_inner(alloc, env, body, s, in_loop, t), x)?;
    Ok((x, y))
}

/// The statement behind `else`, and the whole, whose block ends.
#[cycle(walk)]
#[tactic(auto, unfolding(crate::specs::Parts::if_ended))]
pub(crate) fn if_ended(
    alloc: Global,
    env: &mut Env,
    body: &mut Body,
    other: &Stmt,
    in_loop: bool,
    t: &CType,
    begun: (TExpr, TStmt),
) -> Result<TStmt, TypeFault>
    ensures walks { (before : PlainBody) → before.known.tags ≡ left_tags (known_of body.old.known).tags (stand_of body.old.known).outer → Walks typed_stmt result (body_of body.new) (block before (if_ended (env_of env.old (stand_of body.old.known)) in_loop (plain_type t.now) (typed_expr begun.0, typed_stmt begun.1) (stmt_tree other.now) (body_of body.old))) }
    ensures stand { OnOk result (stand_of body.new.known ≡ left_stand (stand_of body.old.known)) }
    ensures names { OnOk result (env.new.names ≡ left env.old.names) }
    ensures bodies { OnOk result (env.new.bodies ≡ env.old.bodies) }
{
    let (z, (x, y)) = beside_part(check_open(alloc, env, body, other, in_loop, t), begun)?;
    leave(env, body);
    leave(env, body);
    Ok(if_else_node(alloc, x, y, z)?)
}
