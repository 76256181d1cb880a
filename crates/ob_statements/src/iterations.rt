//! Iteration statements (C99 6.8.5): each is a block, and so is the statement in it.
ghost use Rattle.std.specs.Prelude.{◌≡◌, OnOk};
ghost use Rattle.ob_tree.specs.ExpressionView.{expr_tree};
ghost use Rattle.ob_tree.specs.ProgramView.{option_tree, start_tree, stmt_tree};
ghost use Rattle.ob_tree.specs.TypeView.{plain_type};
ghost use Rattle.ob_typed.specs.Scopes.{deeper};
ghost use Rattle.ob_typed.specs.Statements.{block};
ghost use Rattle.ob_typed.specs.TypedView.{typed_option, typed_stmt};
ghost use Rattle.ob_scopes.specs.Bindings.{left};
ghost use Rattle.ob_context.specs.KnownView.{env_of, left_stand, stand_of};
ghost use Rattle.ob_context.specs.Walks.{Walks};
ghost use Rattle.ob_variables.specs.BodyView.{body_of, stmts_of};
ghost use Rattle.ob_statements.specs.Parts.{do_parts, for_last, for_parts, for_rest, while_parts};

use crate::blocks::{enter, leave};
use crate::controls::{check_control, check_start, control_option, dropped_option};
use crate::nodes::{do_node, for_node, while_node};
use crate::walk::{check_inner, check_open};
use ob_context::{Env, beside_part};
use ob_tree::{CType, Expr, ForStart, Stmt, TypeFault};
use ob_typed::{TExpr, TStmt};
use ob_variables::Body;
use std::alloc::Global;

/// `while` (C99 6.8.5.1).
#[cycle(walk)]
pub(crate) fn while_stmt(
    alloc: Global,
    env: &mut Env,
    body: &mut Body,
    s: &Stmt,
    t: &CType,
    c: &Expr,
) -> Result<TStmt, TypeFault>
    ensures walks { Walks typed_stmt result (body_of body.new) (block (body_of body.old) (while_parts (deeper (env_of env.old (stand_of body.old.known))) (plain_type t.now) (expr_tree c.now) (stmt_tree s.now) (body_of body.old))) }
    ensures stays { OnOk result (stand_of body.new.known ≡ stand_of body.old.known) }
    ensures env { OnOk result (env.new ≡ env.old) }
{
    enter(env, body)?;
    let s = while_parts(alloc, env, body, s, t, c)?;
    leave(env, body);
    leave(env, body);
    Ok(s)
}

/// The parts of a `while`; the block of the last stays open.
#[cycle(walk)]
#[tactic(auto, unfolding(crate::specs::Parts::while_parts))]
fn while_parts(
    alloc: Global,
    env: &mut Env,
    body: &mut Body,
    s: &Stmt,
    t: &CType,
    c: &Expr,
) -> Result<TStmt, TypeFault>
    ensures walks { Walks typed_stmt result (body_of body.new) (while_parts (env_of env.old (stand_of body.old.known)) (plain_type t.now) (expr_tree c.now) (stmt_tree s.now) (body_of body.old)) }
    ensures stand { OnOk result (left_stand (stand_of body.new.known) ≡ stand_of body.old.known) }
    ensures names { OnOk result (left env.new.names ≡ env.old.names) }
    ensures bodies { OnOk result (env.new.bodies ≡ env.old.bodies) }
{
    let x = check_control(alloc, env, body, c)?;
    let (y, x) = beside_part(check_open(alloc, env, body, s, true, t), x)?;
    Ok(while_node(alloc, x, y)?)
}

/// `do` (C99 6.8.5.2).
#[cycle(walk)]
pub(crate) fn do_stmt(
    alloc: Global,
    env: &mut Env,
    body: &mut Body,
    s: &Stmt,
    t: &CType,
    c: &Expr,
) -> Result<TStmt, TypeFault>
    ensures walks { Walks typed_stmt result (body_of body.new) (block (body_of body.old) (do_parts (deeper (env_of env.old (stand_of body.old.known))) (plain_type t.now) (stmt_tree s.now) (expr_tree c.now) (body_of body.old))) }
    ensures stays { OnOk result (stand_of body.new.known ≡ stand_of body.old.known) }
    ensures env { OnOk result (env.new ≡ env.old) }
{
    enter(env, body)?;
    let s = do_parts(alloc, env, body, s, t, c)?;
    leave(env, body);
    Ok(s)
}

/// The parts of a `do`.
#[cycle(walk)]
#[tactic(auto, unfolding(crate::specs::Parts::do_parts))]
fn do_parts(
    alloc: Global,
    env: &mut Env,
    body: &mut Body,
    s: &Stmt,
    t: &CType,
    c: &Expr,
) -> Result<TStmt, TypeFault>
    ensures walks { Walks typed_stmt result (body_of body.new) (do_parts (env_of env.old (stand_of body.old.known)) (plain_type t.now) (stmt_tree s.now) (expr_tree c.now) (body_of body.old)) }
    ensures stays { OnOk result (stand_of body.new.known ≡ stand_of body.old.known) }
    ensures env { OnOk result (env.new ≡ env.old) }
{
    let y = check_inner(alloc, env, body, s, true, t)?;
    let (x, y) = beside_part(check_control(alloc, env, body, c), y)?;
    Ok(do_node(alloc, y, x)?)
}

/// `for` (C99 6.8.5.3).
#[cycle(walk)]
pub(crate) fn for_stmt(
    alloc: Global,
    env: &mut Env,
    body: &mut Body,
    s: &Stmt,
    t: &CType,
    start: &ForStart,
    test: &Option<Expr>,
    next: &Option<Expr>,
) -> Result<TStmt, TypeFault>
    ensures walks { Walks typed_stmt result (body_of body.new) (block (body_of body.old) (for_parts (deeper (env_of env.old (stand_of body.old.known))) (plain_type t.now) (start_tree start.now) (option_tree test.now) (option_tree next.now) (stmt_tree s.now) (body_of body.old))) }
    ensures stays { OnOk result (stand_of body.new.known ≡ stand_of body.old.known) }
    ensures env { OnOk result (env.new ≡ env.old) }
{
    enter(env, body)?;
    let s = for_parts(alloc, env, body, s, t, start, test, next)?;
    leave(env, body);
    leave(env, body);
    Ok(s)
}

/// The parts of a `for`; the block of the last stays open.
#[cycle(walk)]
#[tactic(auto, unfolding(crate::specs::Parts::for_parts))]
fn for_parts(
    alloc: Global,
    env: &mut Env,
    body: &mut Body,
    s: &Stmt,
    t: &CType,
    start: &ForStart,
    test: &Option<Expr>,
    next: &Option<Expr>,
) -> Result<TStmt, TypeFault>
    ensures walks { Walks typed_stmt result (body_of body.new) (for_parts (env_of env.old (stand_of body.old.known)) (plain_type t.now) (start_tree start.now) (option_tree test.now) (option_tree next.now) (stmt_tree s.now) (body_of body.old)) }
    ensures stand { OnOk result (left_stand (stand_of body.new.known) ≡ stand_of body.old.known) }
    ensures names { OnOk result ((left env.new.names).outer ≡ env.old.names.outer) }
    ensures bodies { OnOk result (env.new.bodies ≡ env.old.bodies) }
{
    let start = check_start(alloc, env, body, start)?;
    for_rest(alloc, env, body, s, t, start, test, next)
}

/// The parts of a `for` behind its start; the block of the last stays open.
#[cycle(walk)]
#[tactic(auto, unfolding(crate::specs::Parts::for_rest))]
fn for_rest(
    alloc: Global,
    env: &mut Env,
    body: &mut Body,
    s: &Stmt,
    t: &CType,
    start: Vec<TStmt>,
    test: &Option<Expr>,
    next: &Option<Expr>,
) -> Result<TStmt, TypeFault>
    ensures walks { Walks typed_stmt result (body_of body.new) (for_rest (env_of env.old (stand_of body.old.known)) (plain_type t.now) (stmts_of start.items) (option_tree test.now) (option_tree next.now) (stmt_tree s.now) (body_of body.old)) }
    ensures stand { OnOk result (left_stand (stand_of body.new.known) ≡ stand_of body.old.known) }
    ensures names { OnOk result (left env.new.names ≡ env.old.names) }
    ensures bodies { OnOk result (env.new.bodies ≡ env.old.bodies) }
{
    let (test, start) = beside_part(control_option(alloc, env, body, test), start)?;
    for_last(alloc, env, body, s, t, start, test, next)
}

/// The parts of a `for` behind its test; the block of the last stays open.
#[cycle(walk)]
#[tactic(auto, unfolding(crate::specs::Parts::for_last))]
fn for_last(
    alloc: Global,
    env: &mut Env,
    body: &mut Body,
    s: &Stmt,
    t: &CType,
    start: Vec<TStmt>,
    test: Option<TExpr>,
    next: &Option<Expr>,
) -> Result<TStmt, TypeFault>
    ensures walks { Walks typed_stmt result (body_of body.new) (for_last (env_of env.old (stand_of body.old.known)) (plain_type t.now) (stmts_of start.items) (typed_option test) (option_tree next.now) (stmt_tree s.now) (body_of body.old)) }
    ensures stand { OnOk result (left_stand (stand_of body.new.known) ≡ stand_of body.old.known) }
    ensures names { OnOk result (left env.new.names ≡ env.old.names) }
    ensures bodies { OnOk result (env.new.bodies ≡ env.old.bodies) }
{
    let (next, kept) = beside_part(dropped_option(alloc, env, body, next), (start, test))?;
    let (y, (next, (start, test))) = beside_part(
        check_open(alloc, env, body, s, true, t),
        (next, kept),
    )?;
    Ok(for_node(alloc, start, test, next, y)?)
}
