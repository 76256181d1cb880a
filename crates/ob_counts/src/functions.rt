//! How many expressions the tree of a function has.
ghost use Rattle.std.specs.Prelude.{◌≡◌, ◌+◌, [], ◌∷◌, IfOk, OnOk};
ghost use Rattle.std.specs.List.{sum_by};
ghost use Rattle.ob_tree.specs.ExpressionView.{spec_tree};
ghost use Rattle.ob_tree.specs.ProgramView.{local_tree, one_item, option_tree, param_tree, params_tree, start_tree, stmt_tree};
ghost use Rattle.ob_typed.specs.Counts.{nodes_of_block, nodes_of_each, nodes_of_function, nodes_of_local, nodes_of_option, nodes_of_params, nodes_of_start, nodes_of_stmt};

use crate::nodes::{add_dims, add_expr, add_objects, add_spec};
use ob_base::NoMemory;
use ob_tree::{BlockItem, Expr, ForStart, Local, Param, Params, Spec, Stmt, StmtNode};

/// How many expressions stand in a function: in its specifier, in its parameters and in its body. Those in
/// array brackets, in initialisers and under `sizeof` count, and so do parentheses; the name of a called
/// function is none.
///
/// `NoMemory` says that there are 2^64 or more of them; a tree of so many would need more memory than there
/// is. Takes no memory itself. The call goes down the tree by recursion, so it needs stack in proportion to the
/// longest path of the tree, and time in proportion to the tree.
pub fn nodes_of_function(spec: &Spec, params: &Params, body: &Stmt) -> Result<u64, NoMemory>
    ensures { IfOk result (λ n. n ≡ nodes_of_function (spec_tree spec.now) (params_tree params.now) (stmt_tree body.now)) }
{
    let mut total = 0;
    add_spec(&mut total, spec)?;
    add_params(&mut total, params)?;
    add_stmt(&mut total, body)?;
    Ok(total)
}

#[tactic(auto, using(crate::proofs::ProgramRows::each_counted))]
fn add_params(total: &mut u64, params: &Params) -> Result<(), NoMemory>
    ensures { OnOk result (total.new ≡ total.old + nodes_of_params (params_tree params.now)) }
{
    match params {
        Params::Empty | Params::Void => Ok(()),
        Params::List(params) => add_each(total, params),
    }
}

fn add_each(total: &mut u64, params: &[Param]) -> Result<(), NoMemory>
    ensures { OnOk result (total.new ≡ total.old + sum_by (λ p. nodes_of_each (param_tree p ∷ [])) params.now) }
{
    for param in params {
        add_param(total, param)?;
    }
    Ok(())
}

#[tactic(auto, using(crate::proofs::ProgramRows::dims_counted))]
fn add_param(total: &mut u64, param: &Param) -> Result<(), NoMemory>
    ensures { OnOk result (total.new ≡ total.old + nodes_of_each (param_tree param.now ∷ [])) }
{
    add_spec(total, &param.spec)?;
    add_dims(total, &param.dims)
}

fn add_option(total: &mut u64, e: &Option<Expr>) -> Result<(), NoMemory>
    ensures { OnOk result (total.new ≡ total.old + nodes_of_option (option_tree e.now)) }
{
    match e {
        None => Ok(()),
        Some(e) => add_expr(total, e),
    }
}

#[tactic(auto, using(crate::proofs::ProgramRows::objects_counted))]
fn add_local(total: &mut u64, local: &Local) -> Result<(), NoMemory>
    ensures { OnOk result (total.new ≡ total.old + nodes_of_local (local_tree local.now)) }
{
    add_spec(total, &local.spec)?;
    add_objects(total, &local.names)
}

fn add_start(total: &mut u64, start: &ForStart) -> Result<(), NoMemory>
    ensures { OnOk result (total.new ≡ total.old + nodes_of_start (start_tree start.now)) }
{
    match start {
        ForStart::Expr(e) => add_option(total, e),
        ForStart::Local(local) => add_local(total, local),
    }
}

/// Adds what stands in the parentheses of a `for`.
fn add_head(
    total: &mut u64,
    start: &ForStart,
    test: &Option<Expr>,
    next: &Option<Expr>,
) -> Result<(), NoMemory>
    ensures { OnOk result (total.new ≡ total.old + (nodes_of_start (start_tree start.now) + (nodes_of_option (option_tree test.now) + nodes_of_option (option_tree next.now)))) }
{
    add_start(total, start)?;
    add_option(total, test)?;
    add_option(total, next)
}

#[cycle(statements)]
#[tactic(auto, using(crate::proofs::ProgramRows::block_counted))]
fn add_stmt(total: &mut u64, stmt: &Stmt) -> Result<(), NoMemory>
    ensures { OnOk result (total.new ≡ total.old + nodes_of_stmt (stmt_tree stmt.now)) }
{
    match &stmt.node {
        StmtNode::Block(items) => add_block(total, items),
        StmtNode::Expr(e) | StmtNode::Return(e) => add_option(total, e),
        StmtNode::If(test, then, other) => {
            add_expr(total, test)?;
            add_stmt(total, then)?;
            match other {
                None => Ok(()),
                Some(other) => add_stmt(total, other),
            }
        }
        StmtNode::While(test, body) | StmtNode::Do(body, test) => {
            add_expr(total, test)?;
            add_stmt(total, body)
        }
        StmtNode::For {
            start,
            test,
            next,
            body,
        } => {
            add_head(total, start, test, next)?;
            add_stmt(total, body)
        }
        StmtNode::Break | StmtNode::Continue => Ok(()),
    }
}

#[cycle(statements)]
fn add_block(total: &mut u64, items: &[BlockItem]) -> Result<(), NoMemory>
    ensures { OnOk result (total.new ≡ total.old + sum_by (λ i. nodes_of_block (one_item i)) items.now) }
{
    for item in items {
        add_item(total, item)?;
    }
    Ok(())
}

#[cycle(statements)]
fn add_item(total: &mut u64, item: &BlockItem) -> Result<(), NoMemory>
    ensures { OnOk result (total.new ≡ total.old + nodes_of_block (one_item item.now)) }
{
    match item {
        BlockItem::Local(local) => add_local(total, local),
        BlockItem::Stmt(stmt) => add_stmt(total, stmt),
    }
}
