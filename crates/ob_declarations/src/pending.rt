ghost use Rattle.std.specs.Prelude.{◌≡◌, ◌∷◌, [], Bool, MatchOption, OnOk};
ghost use Rattle.ob_tree.specs.ProgramStates.{InBlock};
ghost use Rattle.ob_declarations.specs.Statements.{in_block as in_block_of};
ghost use Rattle.ob_declarations.specs.View.{block_trees, init_list_of, init_lists_of, pending_of, pending_stmts_of};

use crate::state::{InitList, PendingStmt};
use ob_base::{NoMemory, let_go, push_on};
use ob_tree::BlockItem;

/// A block that has begun: the place and the line of its brace, and its items so far.
#[derive(Drop)]
pub struct OpenBlock {
    pub first: u32,
    pub line: u32,
    pub items: Vec<BlockItem>,
}

pub fn push_pending(pending: &mut Vec<PendingStmt>, parent: PendingStmt) -> Result<(), NoMemory>
    ensures { OnOk result (pending_stmts_of pending.new.items ≡ pending_of parent ∷ pending_stmts_of pending.old.items) }
{
    push_on(pending, parent)
}

pub fn pop_pending(pending: &mut Vec<PendingStmt>) -> Option<PendingStmt>
    ensures { MatchOption result ((pending_stmts_of pending.old.items ≡ []) × (pending_stmts_of pending.new.items ≡ []))
        (λ top. pending_stmts_of pending.old.items ≡ pending_of top ∷ pending_stmts_of pending.new.items) }
{
    pending.pop()
}

/// Whether the innermost pending statement is a block.
fn in_block(pending: &Vec<PendingStmt>) -> bool
    ensures { result ≡ in_block_of (pending_stmts_of pending.now.items) }
{
    matches!(pending.last(), Some(PendingStmt::Block { .. }))
}

/// Takes the innermost pending statement where it is a block; else it stays.
pub fn pop_block(pending: &mut Vec<PendingStmt>) -> Option<OpenBlock>
    ensures { MatchOption result
        ((in_block_of (pending_stmts_of pending.old.items) ≡ Bool.false) × (pending.new.items ≡ pending.old.items))
        (λ b. pending_stmts_of pending.old.items ≡ InBlock b.first b.line (block_trees b.items.items) ∷ pending_stmts_of pending.new.items) }
{
    if !in_block(pending) {
        return None;
    }
    match pop_pending(pending) {
        Some(PendingStmt::Block { first, line, items }) => Some(OpenBlock { first, line, items }),
        other => {
            let_go(other);
            None
        }
    }
}

pub fn push_init_list(lists: &mut Vec<InitList>, braces: InitList) -> Result<(), NoMemory>
    ensures { OnOk result (init_lists_of lists.new.items ≡ init_list_of braces ∷ init_lists_of lists.old.items) }
{
    push_on(lists, braces)
}

pub fn pop_init_list(lists: &mut Vec<InitList>) -> Option<InitList>
    ensures { MatchOption result ((init_lists_of lists.old.items ≡ []) × (init_lists_of lists.new.items ≡ []))
        (λ top. init_lists_of lists.old.items ≡ init_list_of top ∷ init_lists_of lists.new.items) }
{
    lists.pop()
}
