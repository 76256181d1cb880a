ghost use Rattle.std.specs.Prelude.{◌≡◌, IfOk, None};
ghost use Rattle.ob_tree.specs.Trees.{Mark};
ghost use Rattle.ob_tree.specs.ExpressionView.{dim_trees};
ghost use Rattle.ob_tree.specs.ProgramMachine.{begin_init as begin_init_of, first_length as first_length_of, last_comma as last_comma_of, optional as optional_of, used as used_of};
ghost use Rattle.ob_tree.specs.ProgramParts.{at_close as at_close_of, at_semi as at_semi_of};
ghost use Rattle.ob_tree.specs.ProgramStates as plain;
ghost use Rattle.ob_declarations.specs.Statements.{goes_on};
ghost use Rattle.ob_declarations.specs.Shifts.{Leads};
ghost use Rattle.ob_declarations.specs.View.{init_lists_of, head_of, mark, init_declarator_of, expr_context_of};

use crate::contexts::used;
use crate::initialisers::has_items;
use crate::pending::push_init_list;
use crate::state::{ExprContext, Head, InitDeclarator, InitList, Shift, State, TokenMark, shifted};
use ob_base::NoMemory;
use ob_tree::{Dim, Sign, TokenKind};
use std::alloc::Global;

fn is_semi(kind: &TokenKind) -> bool
    ensures { (s : plain.State) → goes_on (at_semi_of kind.now s) ≡ result }
{
    match kind {
        TokenKind::Sign(Sign::Semi) => true,
        _ => false,
    }
}

fn is_close(kind: &TokenKind) -> bool
    ensures { (s : plain.State) → goes_on (at_close_of kind.now s) ≡ result }
{
    match kind {
        TokenKind::Sign(Sign::CloseParen) => true,
        _ => false,
    }
}

/// Whether the length of the first brackets may be left out before the token.
#[tactic(auto, using(crate::proofs::LeftOut::first_length_none, crate::proofs::LeftOut::first_length_some))]
fn may_lack_length(kind: &TokenKind, head: &Head, dims: &Vec<Dim>) -> bool
    ensures { result ≡ goes_on (first_length_of kind.now (head_of head.now) (dim_trees dims.now.items)) }
{
    if dims.len() != 0 {
        return false;
    }
    match kind {
        TokenKind::Sign(Sign::CloseBracket) => true,
        _ => false,
    }
}

/// Whether the list may end before the token, behind a comma.
fn may_lack_item(kind: &TokenKind, target: &InitDeclarator, lists: &Vec<InitList>) -> bool
    ensures { result ≡ goes_on (last_comma_of kind.now (init_declarator_of target.now) (init_lists_of lists.now.items)) }
{
    match lists.last() {
        None => false,
        Some(braces) => match kind {
            TokenKind::Sign(Sign::CloseBrace) => has_items(&braces.items),
            _ => false,
        },
    }
}

/// Whether the token may stand where the expression is left out.
fn may_lack(kind: &TokenKind, context: &ExprContext) -> bool
    ensures { result ≡ goes_on (used_of kind.now (expr_context_of context.now) None) }
{
    match context {
        ExprContext::Statement { .. }
        | ExprContext::Return { .. }
        | ExprContext::ForStart { .. }
        | ExprContext::ForTest { .. } => is_semi(kind),
        ExprContext::ForNext { .. } => is_close(kind),
        ExprContext::Length { head, dims } => may_lack_length(kind, head, dims),
        ExprContext::Item { target, lists } => may_lack_item(kind, target, lists),
        ExprContext::IfTest { .. } | ExprContext::WhileTest { .. } | ExprContext::DoTest { .. } =>
            false,
    }
}

/// An expression begins with the token, or none stands here.
#[tactic(auto, using(crate::proofs::LeftOut::left_out, crate::proofs::LeftOut::stands))]
pub fn optional(alloc: Global, kind: &TokenKind, context: ExprContext) -> Result<Shift, NoMemory>
    ensures { IfOk result (λ s. (m : Mark) → Leads m kind.now s (optional_of m kind.now (expr_context_of context))) }
{
    if may_lack(kind, &context) {
        Ok(shifted(used(alloc, kind, context, None)?))
    } else {
        Ok(Shift::NeedsExpr(context))
    }
}

/// An initialiser begins with the token.
pub fn begin_init(
    alloc: Global,
    kind: &TokenKind,
    place: TokenMark,
    target: InitDeclarator,
    lists: Vec<InitList>,
) -> Result<Shift, NoMemory>
    ensures { IfOk result (λ s. Leads (mark place) kind.now s (begin_init_of (mark place) kind.now (init_declarator_of target) (init_lists_of lists.items))) }
{
    match kind {
        TokenKind::Sign(Sign::OpenBrace) => {
            let braces = InitList {
                first: place.at,
                items: Vec::new(alloc),
            };
            let mut lists = lists;
            push_init_list(&mut lists, braces)?;
            Ok(Shift::Shifted(State::Init(target, lists)))
        }
        _ => optional(alloc, kind, ExprContext::Item { target, lists }),
    }
}
