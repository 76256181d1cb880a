//! The walk over statements.
ghost use Rattle.std.specs.Prelude.{◌≡◌, [], false, Ok, OnOk};
ghost use Rattle.ob_tree.specs.ProgramView.{one_item, option_tree, stmt_tree};
ghost use Rattle.ob_tree.specs.TypeView.{plain_type};
ghost use Rattle.ob_typed.specs.Faults.{next};
ghost use Rattle.ob_typed.specs.Scopes.{deeper};
ghost use Rattle.ob_typed.specs.Statements.{block, check_block, check_dropped, check_option, check_stmt, expr_stmt, stmt_list};
ghost use Rattle.ob_typed.specs.TypedTree.{TypedStmt};
ghost use Rattle.ob_typed.specs.TypedView.{typed_stmt};
ghost use Rattle.ob_typed.specs.Typing.{body_items};
ghost use Rattle.ob_scopes.specs.Bindings.{left};
ghost use Rattle.ob_context.specs.KnownView.{env_of, known_of, stand_of, within};
ghost use Rattle.ob_context.specs.Walks.{Walks};
ghost use Rattle.ob_variables.specs.BodyView.{body_of, stmts_of};
ghost use Rattle.ob_statements.specs.BlockTrees.{block_trees};
ghost use Rattle.ob_statements.specs.Parts.{check_first};

use crate::blocks::{enter, leave};
use crate::controls::dropped_option;
use crate::iterations::{do_stmt, for_stmt, while_stmt};
use crate::jumps::{check_return, jump};
use crate::lists::add_all;
use crate::nodes::{block_node, expr_stmt};
use crate::selections::{if_begun, if_ended, if_stmt};
use ob_base::{listed, push_on};
use ob_context::Env;
use ob_tree::{BlockItem, CType, Expr, Stmt, StmtNode, TypeFault};
use ob_typed::TStmt;
use ob_variables::{Body, check_declaration};
use std::alloc::Global;

/// What stands in a block, in a function of type `t`: its statements, in order. `in_loop` says whether a loop is around. The
/// block is open, and stays open. A fault is the first that the definition finds, with the place of its token, counted from 0.
pub fn check_block(
    alloc: Global,
    env: &mut Env,
    body: &mut Body,
    in_loop: bool,
    t: &CType,
    items: &Vec<BlockItem>,
) -> Result<Vec<TStmt>, TypeFault>
    ensures walks { Walks (λ ss. stmts_of ss.items) result (body_of body.new) (check_block (env_of env.old (stand_of body.old.known)) in_loop (plain_type t.now) [] (block_trees items.now.items) (body_of body.old)) }
    ensures stays { OnOk result (stand_of body.new.known ≡ stand_of body.old.known) }
    ensures scopes { OnOk result (env.new.names.outer ≡ env.old.names.outer) }
    ensures bodies { OnOk result (env.new.bodies ≡ env.old.bodies) }
{
    check_items(alloc, env, body, items, in_loop, t)
}

/// The items of a block.
#[cycle(walk)]
fn check_items(
    alloc: Global,
    env: &mut Env,
    body: &mut Body,
    items: &Vec<BlockItem>,
    in_loop: bool,
    t: &CType,
) -> Result<Vec<TStmt>, TypeFault>
    ensures walks { Walks (λ ss. stmts_of ss.items) result (body_of body.new) (check_block (env_of env.old (stand_of body.old.known)) in_loop (plain_type t.now) [] (block_trees items.now.items) (body_of body.old)) }
    ensures stays { OnOk result (stand_of body.new.known ≡ stand_of body.old.known) }
    ensures scopes { OnOk result (env.new.names.outer ≡ env.old.names.outer) }
    ensures bodies { OnOk result (env.new.bodies ≡ env.old.bodies) }
{
    let mut done = Vec::new(alloc);
    for item in items {
        check_item(alloc, env, body, item, in_loop, t, &mut done)?;
    }
    Ok(done)
}

/// What stands in a block, behind the statements before it.
#[cycle(walk)]
fn check_item(
    alloc: Global,
    env: &mut Env,
    body: &mut Body,
    item: &BlockItem,
    in_loop: bool,
    t: &CType,
    done: &mut Vec<TStmt>,
) -> Result<(), TypeFault>
    ensures walks { Walks (λ _. record { env = env_of env.new (stand_of body.new.known); statements = stmts_of done.new.items }) result (body_of body.new) (check_first (env_of env.old (stand_of body.old.known)) in_loop (plain_type t.now) (stmts_of done.old.items) (one_item item.now) (body_of body.old)) }
    ensures stays { OnOk result (stand_of body.new.known ≡ stand_of body.old.known) }
    ensures scopes { OnOk result (env.new.names.outer ≡ env.old.names.outer) }
    ensures bodies { OnOk result (env.new.bodies ≡ env.old.bodies) }
{
    match item {
        BlockItem::Local(d) => {
            let statements = check_declaration(alloc, env, body, d)?;
            Ok(add_all(done, statements)?)
        }
        BlockItem::Stmt(s) => {
            let statement = check_stmt(alloc, env, body, s, in_loop, t)?;
            Ok(push_on(done, statement)?)
        }
    }
}

/// A statement.
#[cycle(walk)]
fn check_stmt(
    alloc: Global,
    env: &mut Env,
    body: &mut Body,
    s: &Stmt,
    in_loop: bool,
    t: &CType,
) -> Result<TStmt, TypeFault>
    ensures walks { Walks typed_stmt result (body_of body.new) (check_stmt (env_of env.old (stand_of body.old.known)) in_loop (plain_type t.now) (stmt_tree s.now) (body_of body.old)) }
    ensures stays { OnOk result (stand_of body.new.known ≡ stand_of body.old.known) }
    ensures env { OnOk result (env.new ≡ env.old) }
{
    match &s.node {
        StmtNode::Block(items) => block_stmt(alloc, env, body, items, in_loop, t),
        StmtNode::Expr(e) => expr_statement(alloc, env, body, e),
        StmtNode::If(c, s, other) => match other {
            None => if_stmt(alloc, env, body, s, in_loop, t, c),
            Some(other) => {
                let begun = if_begun(alloc, env, body, s, in_loop, t, c)?;
                if_ended(alloc, env, body, other, in_loop, t, begun)
            }
        },
        StmtNode::While(c, s) => while_stmt(alloc, env, body, s, t, c),
        StmtNode::Do(s, c) => do_stmt(alloc, env, body, s, t, c),
        StmtNode::For {
            start,
            test,
            next,
            body: s,
        } => for_stmt(alloc, env, body, s, t, start, test, next),
        StmtNode::Break => jump(in_loop, s.first, TStmt::Break),
        StmtNode::Continue => jump(in_loop, s.first, TStmt::Continue),
        StmtNode::Return(e) => check_return(alloc, env, body, t, s.first, e),
    }
}

/// An expression statement, or the null statement (C99 6.8.3).
fn expr_statement(
    alloc: Global,
    env: &Env,
    body: &mut Body,
    e: &Option<Expr>,
) -> Result<TStmt, TypeFault>
    ensures walks { Walks typed_stmt result (body_of body.new) (next (check_option check_dropped (env_of env.now (stand_of body.old.known)) (option_tree e.now) (body_of body.old)) (λ x b. Ok (expr_stmt x, b))) }
    ensures stays { OnOk result (stand_of body.new.known ≡ stand_of body.old.known) }
{
    let x = dropped_option(alloc, env, body, e)?;
    Ok(expr_stmt(x))
}

/// A block (C99 6.8.2).
#[cycle(walk)]
fn block_stmt(
    alloc: Global,
    env: &mut Env,
    body: &mut Body,
    items: &Vec<BlockItem>,
    in_loop: bool,
    t: &CType,
) -> Result<TStmt, TypeFault>
    ensures walks { Walks typed_stmt result (body_of body.new) (next (block (body_of body.old) (check_block (deeper (env_of env.old (stand_of body.old.known))) in_loop (plain_type t.now) [] (block_trees items.now.items) (body_of body.old))) (λ ss b. Ok (TypedStmt.Block (stmt_list ss), b))) }
    ensures stays { OnOk result (stand_of body.new.known ≡ stand_of body.old.known) }
    ensures env { OnOk result (env.new ≡ env.old) }
{
    enter(env, body)?;
    let ss = check_items(alloc, env, body, items, in_loop, t)?;
    leave(env, body);
    Ok(block_node(ss))
}

/// A statement in a block of its own, which stays open.
#[cycle(walk)]
pub(crate) fn check_open(
    alloc: Global,
    env: &mut Env,
    body: &mut Body,
    s: &Stmt,
    in_loop: bool,
    t: &CType,
) -> Result<TStmt, TypeFault>
    ensures walks { Walks typed_stmt result (body_of body.new) (check_stmt (deeper (env_of env.old (stand_of body.old.known))) in_loop (plain_type t.now) (stmt_tree s.now) (body_of body.old)) }
    ensures stand { OnOk result (stand_of body.new.known ≡ within (known_of body.old.known).tags (stand_of body.old.known)) }
    ensures names { OnOk result (left env.new.names ≡ env.old.names) }
    ensures bodies { OnOk result (env.new.bodies ≡ env.old.bodies) }
{
    enter(env, body)?;
    check_stmt(alloc, env, body, s, in_loop, t)
}

/// A statement in a block of its own.
#[cycle(walk)]
pub(crate) fn check_inner(
    alloc: Global,
    env: &mut Env,
    body: &mut Body,
    s: &Stmt,
    in_loop: bool,
    t: &CType,
) -> Result<TStmt, TypeFault>
    ensures walks { Walks typed_stmt result (body_of body.new) (block (body_of body.old) (check_stmt (deeper (env_of env.old (stand_of body.old.known))) in_loop (plain_type t.now) (stmt_tree s.now) (body_of body.old))) }
    ensures stays { OnOk result (stand_of body.new.known ≡ stand_of body.old.known) }
    ensures env { OnOk result (env.new ≡ env.old) }
{
    let s = check_open(alloc, env, body, s, in_loop, t)?;
    leave(env, body);
    Ok(s)
}

/// The body of a function of type `t`: the items of a block, or one statement (C99 6.9.1). The block of the
/// parameters is open, and stays open. Faults are as those of `check_block`.
pub fn check_body(
    alloc: Global,
    env: &mut Env,
    body: &mut Body,
    t: &CType,
    s: &Stmt,
) -> Result<Vec<TStmt>, TypeFault>
    ensures walks { Walks (λ ss. stmts_of ss.items) result (body_of body.new) (check_block (env_of env.old (stand_of body.old.known)) false (plain_type t.now) [] (body_items (stmt_tree s.now)) (body_of body.old)) }
    ensures stays { OnOk result (stand_of body.new.known ≡ stand_of body.old.known) }
    ensures scopes { OnOk result (env.new.names.outer ≡ env.old.names.outer) }
    ensures bodies { OnOk result (env.new.bodies ≡ env.old.bodies) }
{
    match &s.node {
        StmtNode::Block(items) => check_items(alloc, env, body, items, false, t),
        _ => {
            let statement = check_stmt(alloc, env, body, s, false, t)?;
            Ok(listed(alloc, statement)?)
        }
    }
}
