ghost use Rattle.std.specs.Prelude.{◌≡◌, ◌≤◌, ◌+◌, ◌^◌, ◌∷◌, [], IfOk, MatchOption, OnOk};
ghost use Rattle.ob_tree.specs.ExpressionView.{dim_trees};
ghost use Rattle.ob_tree.specs.ExprStates.{right_precedence as right_precedence_of, operand_level as operand_level_of, top_operand_level as top_operand_level_of};
ghost use Rattle.ob_tree.specs.ExprStates.{top_right_precedence as top_right_precedence_of};
ghost use Rattle.ob_exprs.specs.DeepestPaths.{depth_of, head_rise as head_rise_of, inner as inner_of, newest_stack_path, rise as rise_of};
ghost use Rattle.ob_exprs.specs.View.{pending_of, pending_nodes, head_of};

use crate::level::{ASSIGN, CAST, COND, EXPR, NO_LEVEL, UNARY};
use crate::operators::right_level;
use crate::state::{Head, PendingNode};
use ob_base::NoMemory;
use std::alloc::Global;

/// The nodes that wait for their last part, the newest last, and how many nodes stand above what
/// comes next.
#[derive(Drop)]
pub struct Stack {
    pub pending: Vec<PendingNode>,
    pub depth: u32,
    ghost depth_is: { depth ≡ depth_of (pending_nodes pending.items) },
}

/// The nodes from the row's own on down to its brackets.
pub fn head_rise(head: &Head) -> usize
    ensures exact { result ≡ head_rise_of (head_of head.now) }
    ensures small { result ≤ 2 ^ 33 }
{
    match head {
        Head::Type { stars, .. } => 1 + *stars as usize,
        Head::Member { stars, .. } => 1 + *stars as usize,
    }
}

/// The nodes from the node's own on down to where its part is missing.
pub fn rise(pending: &PendingNode) -> usize
    ensures exact { result ≡ rise_of (pending_of pending.now) }
    ensures small { result ≤ 2 ^ 34 }
{
    match pending {
        PendingNode::Length(head, dims) => head_rise(head) + (dims.count as usize + 1),
        _ => 1,
    }
}

pub fn empty(alloc: Global) -> Stack
    ensures { pending_nodes result.pending.items ≡ [] }
{
    Stack {
        pending: Vec::new(alloc),
        depth: 0,
    }
}

pub fn push_pending(stack: &mut Vec<PendingNode>, pending: PendingNode) -> Result<(), NoMemory>
    ensures { OnOk result (pending_nodes stack.new.items ≡ pending_of pending ∷ pending_nodes stack.old.items) }
{
    stack.push(pending)?;
    Ok(())
}

pub fn pop_pending(stack: &mut Vec<PendingNode>) -> Option<PendingNode>
    ensures { MatchOption result ((pending_nodes stack.old.items ≡ []) × (pending_nodes stack.new.items ≡ []))
        (λ top. pending_nodes stack.old.items ≡ pending_of top ∷ pending_nodes stack.new.items) }
{
    stack.pop()
}

/// The stack with one node more.
pub fn push(stack: Stack, pending: PendingNode) -> Result<Stack, NoMemory>
    requires shallow { depth_of (pending_nodes stack.pending.items) ≤ 100000 }
    requires narrow { rise_of (pending_of pending) ≤ 1000 }
    ensures { IfOk result (λ s. pending_nodes s.pending.items ≡ pending_of pending ∷ pending_nodes stack.pending.items) }
{
    let depth = stack.depth + rise(&pending) as u32;
    let Stack { pending: items, .. } = stack;
    let mut items = items;
    push_pending(&mut items, pending)?;
    Ok(Stack {
        pending: items,
        depth,
    })
}

/// The stack without its newest node, and that node, where there is one.
pub fn pop(stack: Stack) -> (Stack, Option<PendingNode>)
    requires { depth_of (pending_nodes stack.pending.items) ≤ 1000 }
    ensures { MatchOption result.1 ((pending_nodes stack.pending.items ≡ []) × (pending_nodes result.0.pending.items ≡ []))
        (λ top. pending_nodes stack.pending.items ≡ pending_of top ∷ pending_nodes result.0.pending.items) }
{
    let Stack {
        pending: items,
        depth,
        ..
    } = stack;
    let mut items = items;
    match pop_pending(&mut items) {
        None => (
            Stack {
                pending: items,
                depth,
            },
            None,
        ),
        Some(top) => {
            let depth = depth - rise(&top) as u32;
            (
                Stack {
                    pending: items,
                    depth,
                },
                Some(top),
            )
        }
    }
}

fn operand_level(pending: &PendingNode) -> u32
    ensures { result ≡ operand_level_of (pending_of pending.now) }
{
    match pending {
        PendingNode::Paren(_) | PendingNode::Index(_, _) | PendingNode::Then(_, _) => EXPR,
        PendingNode::Call(_, _, _) => ASSIGN,
        PendingNode::Step(_, _) | PendingNode::Size(_) => UNARY,
        PendingNode::Unary(_, _) | PendingNode::Cast(_, _) => CAST,
        PendingNode::Join(_, operator, _) => right_level(*operator),
        PendingNode::Else(_, _, _) | PendingNode::Length(_, _) => COND,
        PendingNode::Type(_, _) | PendingNode::Struct(_) => NO_LEVEL,
    }
}

/// The nonterminal that the newest node waits for, or else `least`.
pub fn top_operand_level(stack: &Stack, least: u32) -> u32
    ensures { result ≡ top_operand_level_of least (pending_nodes stack.now.pending.items) }
{
    match stack.pending.last() {
        None => least,
        Some(top) => operand_level(top),
    }
}

fn right_precedence(pending: &PendingNode) -> u32
    ensures { result ≡ right_precedence_of (pending_of pending.now) }
{
    match pending {
        PendingNode::Step(_, _) | PendingNode::Size(_) => UNARY,
        PendingNode::Unary(_, _) | PendingNode::Cast(_, _) => CAST,
        PendingNode::Join(_, operator, _) => right_level(*operator),
        PendingNode::Else(_, _, _) => COND,
        _ => 0,
    }
}

/// The nonterminal below which a sign closes the newest node: 0 where none does.
pub fn top_right_precedence(stack: &Stack) -> u32
    ensures { result ≡ top_right_precedence_of (pending_nodes stack.now.pending.items) }
{
    match stack.pending.last() {
        None => 0,
        Some(top) => right_precedence(top),
    }
}
