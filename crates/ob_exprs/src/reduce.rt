ghost use Rattle.std.specs.Prelude.{◌≡◌, ◌≤◌, ◌<◌, IfOk};
ghost use Rattle.ob_tree.specs.Fronts.{greatest_path};
ghost use Rattle.ob_tree.specs.Paths.{height as height_of};
ghost use Rattle.ob_tree.specs.ExpressionView.{expr_tree};
ghost use Rattle.ob_tree.specs.ExprStates.{AfterOperand, close as close_of, reduce as reduce_of};
ghost use Rattle.ob_exprs.specs.DeepestPaths.{depth_of, inner as inner_of, deepest_path};
ghost use Rattle.ob_exprs.specs.View.{closed_top, pending_of, pending_nodes};

use crate::measured::Operand;
use crate::nodes::{cast, conditional, join, size_of_expr, step_before, unary};
use crate::stack::{Stack, pop, top_right_precedence};
use crate::state::PendingNode;
use ob_base::{NoMemory, let_go};
use std::alloc::Global;

/// The node of a pending one with its last operand; where a token ends it, the operand.
fn close(alloc: Global, pending: PendingNode, operand: Operand) -> Result<Operand, NoMemory>
    requires low { inner_of (pending_of pending) < 1000 }
    requires small { height_of (expr_tree operand.expr.value) < 1000 }
    ensures { IfOk result (λ w. expr_tree w.expr.value ≡ close_of (pending_of pending) (expr_tree operand.expr.value)) }
{
    match pending {
        PendingNode::Step(place, down) => step_before(alloc, place, down, operand),
        PendingNode::Unary(place, sign) => unary(alloc, place, sign, operand),
        PendingNode::Size(place) => size_of_expr(alloc, place, operand),
        PendingNode::Cast(place, name) => cast(alloc, place, name, operand),
        PendingNode::Join(place, operator, left) => join(alloc, place, operator, left, operand),
        PendingNode::Else(place, test, then) => conditional(alloc, place, test, then, operand),
        other => {
            let_go(other);
            Ok(operand)
        }
    }
}

/// Gives the newest node its last operand.
#[tactic(auto, using(crate::proofs::Turns::top_small, crate::proofs::Turns::shallow))]
fn close_top(alloc: Global, stack: Stack, operand: Operand) -> Result<(Stack, Operand), NoMemory>
    requires { deepest_path (AfterOperand (expr_tree operand.expr.value) (pending_nodes stack.pending.items)) ≤ greatest_path }
    ensures { IfOk result (λ r. (expr_tree r.1.expr.value, pending_nodes r.0.pending.items) ≡ closed_top (expr_tree operand.expr.value) (pending_nodes stack.pending.items)) }
{
    let (stack, top) = pop(stack);
    match top {
        None => Ok((stack, operand)),
        Some(pending) => {
            let node = close(alloc, pending, operand)?;
            Ok((stack, node))
        }
    }
}

/// Closes each node that a sign of the nonterminal `most` closes.
#[tactic(auto, using(crate::proofs::Turns::again))]
pub fn reduce(
    alloc: Global,
    stack: Stack,
    operand: Operand,
    most: u32,
) -> Result<(Stack, Operand), NoMemory>
    requires { deepest_path (AfterOperand (expr_tree operand.expr.value) (pending_nodes stack.pending.items)) ≤ greatest_path }
    ensures reduced { IfOk result (λ r. (expr_tree r.1.expr.value, pending_nodes r.0.pending.items) ≡ reduce_of most (expr_tree operand.expr.value) (pending_nodes stack.pending.items)) }
    ensures again { IfOk result (λ r. reduce_of 0 (expr_tree r.1.expr.value) (pending_nodes r.0.pending.items) ≡ reduce_of 0 (expr_tree operand.expr.value) (pending_nodes stack.pending.items)) }
    ensures loaded { IfOk result (λ r. deepest_path (AfterOperand (expr_tree r.1.expr.value) (pending_nodes r.0.pending.items)) ≤ deepest_path (AfterOperand (expr_tree operand.expr.value) (pending_nodes stack.pending.items))) }
{
    let mut stack = stack;
    let mut node = operand;
    'closing: while most < top_right_precedence(&stack) {
        let (rest, closed) = close_top(alloc, stack, node)?;
        stack = rest;
        node = closed;
    }
    Ok((stack, node))
}
