ghost use Rattle.std.specs.Prelude.{◌≡◌, ◌∷◌, [], IfOk, Some, None, cond};
ghost use Rattle.ob_tree.specs.Trees.{InitTree, ObjTree};
ghost use Rattle.ob_tree.specs.ExpressionView.{dim_trees, init_tree, obj_tree};
ghost use Rattle.ob_tree.specs.ProgramMachine.{initialised as initialised_of, last_comma as last_comma_of, next_init as next_init_of};
ghost use Rattle.ob_tree.specs.ProgramStates as plain;
ghost use Rattle.ob_tree.specs.ProgramParts.{add_init as add_init_of, at_brace, has_items as has_items_of};
ghost use Rattle.ob_declarations.specs.Shifts.{Reaches};
ghost use Rattle.ob_declarations.specs.View.{init_list_of, init_lists_of, init_trees, init_declarator_of};

use crate::declarations::{add_name, next_name};
use crate::pending::{pop_init_list, push_init_list};
use crate::state::{Declarator, InitDeclarator, InitList, State};
use ob_base::{NoMemory, Text, let_go, with_last};
use ob_tree::{Dim, FileDecl, Init, ObjDecl, Sign, TokenKind};
use std::alloc::Global;

#[tactic(auto, using(crate::proofs::Pushed::inits_pushed))]
fn push_init(items: Vec<Init>, init: Init) -> Result<Vec<Init>, NoMemory>
    ensures { IfOk result (λ v. init_trees v.items ≡ add_init_of (init_trees items.items) (init_tree init)) }
{
    with_last(items, init)
}

/// The list in braces, behind its closing brace.
fn closed_list(braces: InitList, comma: bool) -> Init
    ensures { init_tree result ≡ InitTree.Braces braces.first (init_trees braces.items.items) comma }
{
    let InitList { first, items } = braces;
    Init::List {
        first,
        items,
        comma,
    }
}

/// A token behind an initialiser in braces.
fn next_init(
    kind: &TokenKind,
    target: InitDeclarator,
    lists: Vec<InitList>,
    braces: InitList,
) -> Result<Option<State>, NoMemory>
    ensures { IfOk result (λ s. Reaches s (next_init_of kind.now (init_declarator_of target) (init_lists_of lists.items) (init_list_of braces))) }
{
    match kind {
        TokenKind::Sign(Sign::Comma) => {
            let mut lists = lists;
            push_init_list(&mut lists, braces)?;
            Ok(Some(State::Init(target, lists)))
        }
        TokenKind::Sign(Sign::CloseBrace) => Ok(Some(State::AfterInit(
            target,
            lists,
            closed_list(braces, false),
        ))),
        _ => {
            let_go((target, lists, braces));
            Ok(None)
        }
    }
}

#[tactic(auto, using(crate::proofs::Pushed::initial_made))]
fn initial(stars: u32, name: Text, at: u32, dims: Vec<Dim>, init: Init) -> ObjDecl
    ensures { obj_tree result ≡ ObjTree.Initial stars name at (dim_trees dims.items) (init_tree init) }
{
    ObjDecl {
        stars,
        name,
        at,
        dims,
        init: Some(init),
    }
}

/// A token behind the initialiser of a declarator.
fn end_name(
    alloc: Global,
    kind: &TokenKind,
    target: InitDeclarator,
    init: Init,
) -> Result<Option<State>, NoMemory>
    ensures { IfOk result (λ s. Reaches s (initialised_of kind.now (init_declarator_of target) [] (init_tree init))) }
{
    let InitDeclarator { declarator, dims } = target;
    let Declarator {
        declaration,
        stars,
        name,
        at,
    } = declarator;
    let object = initial(stars, name, at, dims, init);
    let declaration = add_name(declaration, FileDecl::Object(object))?;
    next_name(alloc, kind, declaration)
}

/// Behind an initialiser.
pub fn initialised(
    alloc: Global,
    kind: &TokenKind,
    target: InitDeclarator,
    lists: Vec<InitList>,
    init: Init,
) -> Result<Option<State>, NoMemory>
    ensures { IfOk result (λ s. Reaches s (initialised_of kind.now (init_declarator_of target) (init_lists_of lists.items) (init_tree init))) }
{
    let mut lists = lists;
    match pop_init_list(&mut lists) {
        None => end_name(alloc, kind, target, init),
        Some(braces) => {
            let InitList { first, items } = braces;
            let items = push_init(items, init)?;
            next_init(kind, target, lists, InitList { first, items })
        }
    }
}

/// Whether an item stands in the list.
#[tactic(auto, using(crate::proofs::Pushed::some_items, crate::proofs::Pushed::no_items))]
pub fn has_items(items: &Vec<Init>) -> bool
    ensures { result ≡ has_items_of (init_trees items.now.items) }
{
    items.len() != 0
}

/// Whether the token is a closing brace.
fn is_brace(kind: &TokenKind) -> bool
    ensures { (s : plain.State) → at_brace kind.now s ≡ cond result (Some s) None }
{
    matches!(kind, TokenKind::Sign(Sign::CloseBrace))
}

/// The closing brace behind the last comma of this list.
fn end_list(
    kind: &TokenKind,
    target: InitDeclarator,
    lists: Vec<InitList>,
    braces: InitList,
) -> Option<State>
    ensures { Reaches result (last_comma_of kind.now (init_declarator_of target) (init_list_of braces ∷ init_lists_of lists.items)) }
{
    if is_brace(kind) && has_items(&braces.items) {
        return Some(State::AfterInit(target, lists, closed_list(braces, true)));
    }
    let_go((target, lists, braces));
    None
}

/// The closing brace behind the last comma of an initialiser list.
pub fn last_comma(kind: &TokenKind, target: InitDeclarator, lists: Vec<InitList>) -> Option<State>
    ensures { Reaches result (last_comma_of kind.now (init_declarator_of target) (init_lists_of lists.items)) }
{
    let mut lists = lists;
    match pop_init_list(&mut lists) {
        Some(braces) => end_list(kind, target, lists, braces),
        None => None,
    }
}
