ghost use Rattle.std.specs.Prelude.{◌≡◌, ◌<◌, ◌++◌, ◌∷◌, List, [], IfOk, OnOk, Some, map};
ghost use Rattle.ob_tree.specs.declared.programs.FileDecl.{FileDecl};
ghost use Rattle.ob_tree.specs.Programs.{ItemTree, StartTree};
ghost use Rattle.ob_tree.specs.ExpressionView.{obj_trees, spec_tree};
ghost use Rattle.ob_tree.specs.ProgramView.{file_tree, item_tree, local_tree};
ghost use Rattle.ob_tree.specs.ProgramStates.{Begin, ForTest, InBlock, Items, Optional};
ghost use Rattle.ob_tree.specs.ProgramMachine.{begin_declaration as begin_declaration_of, declare as declare_of, end_declaration as end_declaration_of, first_name as first_name_of, next_name as next_name_of, specified as specified_of};
ghost use Rattle.ob_tree.specs.ProgramParts.{add_local as add_local_of, add_name as add_name_of, declares_tag as declares_tag_of, objects as objects_of};
ghost use Rattle.ob_declarations.specs.Shifts.{Leads, Reaches, state_of};
ghost use Rattle.ob_declarations.specs.View.{block_trees, declaration_of, pending_stmts_of, mark, scope_of, spec_context_of};

use crate::params::param;
use crate::pending::push_pending;
use crate::state::{
    Declaration, Declarator, ExprContext, Head, Heading, PendingStmt, Scope, Shift, SpecContext,
    State, TokenMark,
};
use ob_base::{NoMemory, boxed, boxed_with, let_go, push_on, with_last};
use ob_tree::{
    BlockItem, FileDecl, ForStart, Item, ItemNode, Keyword, Local, ObjDecl, Sign, Spec, SpecNode,
    TokenKind,
};
use std::alloc::Global;

/// A declaration begins with the token, with `static` or without.
pub fn begin_declaration(kind: &TokenKind, place: TokenMark, scope: Scope) -> Shift
    ensures { Leads (mark place) kind.now result (begin_declaration_of (mark place) kind.now (scope_of scope)) }
{
    let first = place.at;
    let line = place.line;
    match kind {
        TokenKind::Word(Keyword::Static) => {
            Shift::Shifted(State::Specifying(SpecContext::Declaration(Heading {
                scope,
                first,
                line,
                fixed: true,
            })))
        }
        _ => Shift::NeedsSpec(SpecContext::Declaration(Heading {
            scope,
            first,
            line,
            fixed: false,
        })),
    }
}

/// The objects get this declarator, where it is one of an object.
#[tactic(auto, using(crate::proofs::Pushed::object_more, crate::proofs::Pushed::function_more))]
fn add_object(objects: &mut Vec<ObjDecl>, name: FileDecl) -> Result<(), NoMemory>
    ensures { OnOk result ((names : List FileDecl) → obj_trees objects.old.items ≡ objects_of (map file_tree names)
        → obj_trees objects.new.items ≡ objects_of (map file_tree (names ++ name ∷ []))) }
{
    match name {
        FileDecl::Object(object) => push_on(objects, object),
        other => {
            let_go(other);
            Ok(())
        }
    }
}

/// The objects among declarators, which in a block are all.
fn objects(alloc: Global, names: Vec<FileDecl>) -> Result<Vec<ObjDecl>, NoMemory>
    ensures { IfOk result (λ v. obj_trees v.items ≡ objects_of (map file_tree names.items)) }
{
    let mut objects = Vec::new(alloc);
    for name in names {
        add_object(&mut objects, name)?;
    }
    Ok(objects)
}

/// The objects among declarators, and what the caller goes on with.
fn objects_with<K: Drop>(
    alloc: Global,
    names: Vec<FileDecl>,
    kept: K,
) -> Result<(Vec<ObjDecl>, K), NoMemory>
    ensures objects { IfOk result (λ r. obj_trees r.0.items ≡ objects_of (map file_tree names.items)) }
    ensures kept { IfOk result (λ r. r.1 ≡ kept) }
{
    let objects = objects(alloc, names)?;
    Ok((objects, kept))
}

/// A declaration in a block, or in a `for`.
fn local(
    alloc: Global,
    first: u32,
    line: u32,
    fixed: bool,
    spec: Spec,
    names: Vec<FileDecl>,
) -> Result<Local, NoMemory>
    ensures { IfOk result (λ l. local_tree l ≡ record {
      first = first;
      line = line;
      fixed = fixed;
      spec = spec_tree spec;
      names = objects_of (map file_tree names.items);
    }) }
{
    let (names, spec) = objects_with(alloc, names, spec)?;
    Ok(Local {
        first,
        line,
        fixed,
        spec,
        names,
    })
}

/// The external declarations with one more.
pub fn push_item(items: Vec<Item>, item: Item) -> Result<Vec<Item>, NoMemory>
    ensures { IfOk result (λ v. map item_tree v.items ≡ map item_tree items.items ++ item_tree item ∷ []) }
{
    with_last(items, item)
}

/// The items of a block with a declaration more.
#[tactic(auto, using(crate::proofs::Pushed::locals_pushed))]
fn push_local(items: Vec<BlockItem>, local: Local) -> Result<Vec<BlockItem>, NoMemory>
    ensures { IfOk result (λ v. block_trees v.items ≡ add_local_of (block_trees items.items) (local_tree local)) }
{
    with_last(items, BlockItem::Local(local))
}

/// The state behind a whole external declaration.
fn end_outside(
    items: Vec<Item>,
    first: u32,
    line: u32,
    fixed: bool,
    spec: Spec,
    names: Vec<FileDecl>,
) -> Result<State, NoMemory>
    ensures { IfOk result (λ s. state_of s ≡ Items (map item_tree items.items
        ++ ItemTree.Decls first line fixed (spec_tree spec) (map file_tree names.items) ∷ [])) }
{
    let node = ItemNode::Decls(names);
    let item = Item {
        first,
        line,
        fixed,
        spec,
        node,
    };
    Ok(State::Items(push_item(items, item)?))
}

/// The state behind a whole declaration of a block.
fn end_inside(
    first: u32,
    line: u32,
    items: Vec<BlockItem>,
    pending: Vec<PendingStmt>,
    local: Local,
) -> Result<State, NoMemory>
    ensures { IfOk result (λ s. state_of s
        ≡ Begin (InBlock first line (add_local_of (block_trees items.items) (local_tree local)) ∷ pending_stmts_of pending.items)) }
{
    let items = push_local(items, local)?;
    let mut pending = pending;
    push_pending(&mut pending, PendingStmt::Block { first, line, items })?;
    Ok(State::Begin(pending))
}

/// The state behind a whole declaration of a `for`.
fn end_for(
    alloc: Global,
    first: u32,
    line: u32,
    pending: Vec<PendingStmt>,
    local: Local,
) -> Result<State, NoMemory>
    ensures { IfOk result (λ s. state_of s
        ≡ Optional (ForTest first line (StartTree.Local (local_tree local)) (pending_stmts_of pending.items))) }
{
    let start = boxed(alloc, ForStart::Local(local))?;
    Ok(State::Optional(ExprContext::ForTest {
        first,
        line,
        start,
        pending,
    }))
}

/// The state behind a whole declaration.
fn end_declaration(alloc: Global, declaration: Box<Declaration>) -> Result<State, NoMemory>
    ensures { IfOk result (λ s. state_of s ≡ end_declaration_of (declaration_of declaration.value)) }
{
    let Declaration {
        heading,
        spec,
        names,
    } = Box::into_inner(declaration);
    let Heading {
        scope,
        first,
        line,
        fixed,
    } = heading;
    match scope {
        Scope::FileScope(items) => end_outside(items, first, line, fixed, spec, names),
        Scope::BlockScope {
            first: block,
            line: at,
            items,
            pending,
        } => {
            let local = local(alloc, first, line, fixed, spec, names)?;
            end_inside(block, at, items, pending, local)
        }
        Scope::ForScope {
            first: begin,
            line: at,
            pending,
        } => {
            let local = local(alloc, first, line, fixed, spec, names)?;
            end_for(alloc, begin, at, pending, local)
        }
    }
}

/// A declaration with one declarator more.
pub fn add_name(declaration: Box<Declaration>, name: FileDecl) -> Result<Box<Declaration>, NoMemory>
    ensures { IfOk result (λ d. declaration_of d.value ≡ add_name_of (declaration_of declaration.value) (file_tree name)) }
{
    let mut declaration = declaration;
    push_on(&mut declaration.names, name)?;
    Ok(declaration)
}

/// Behind a declarator: a comma and the next one, or a semicolon.
pub fn next_name(
    alloc: Global,
    kind: &TokenKind,
    declaration: Box<Declaration>,
) -> Result<Option<State>, NoMemory>
    ensures { IfOk result (λ s. Reaches s (next_name_of kind.now (declaration_of declaration.value))) }
{
    match kind {
        TokenKind::Sign(Sign::Comma) => Ok(Some(State::Declare(declaration, 0))),
        TokenKind::Sign(Sign::Semi) => Ok(Some(end_declaration(alloc, declaration)?)),
        _ => Ok(None),
    }
}

/// Behind the stars of a declarator.
pub fn declare(
    alloc: Global,
    kind: &TokenKind,
    place: TokenMark,
    declaration: Box<Declaration>,
    stars: u32,
) -> Result<Option<State>, NoMemory>
    requires { stars < 1000 }
    ensures { IfOk result (λ s. Reaches s (declare_of (mark place) kind.now (declaration_of declaration.value) stars)) }
{
    match kind {
        TokenKind::Sign(Sign::Star) => Ok(Some(State::Declare(declaration, stars + 1))),
        TokenKind::Name(text) => {
            let declarator = Declarator {
                name: text.copy(alloc)?,
                declaration,
                stars,
                at: place.at,
            };
            Ok(Some(State::Dims(Head::Name(declarator), Vec::new(alloc))))
        }
        _ => Ok(None),
    }
}

/// Whether the specifier declares a tag, so that no declarator has to follow.
fn declares_tag(spec: &Spec) -> bool
    ensures { result ≡ declares_tag_of (spec_tree spec.now) }
{
    match &spec.node {
        SpecNode::Void => false,
        SpecNode::SizeT => false,
        SpecNode::Integer(_) => false,
        SpecNode::Tag(_) => true,
        SpecNode::Struct { tag, .. } => match tag {
            Some(_) => true,
            None => false,
        },
    }
}

/// Behind the specifier of a declaration.
fn first_name(
    alloc: Global,
    kind: &TokenKind,
    place: TokenMark,
    declaration: Box<Declaration>,
) -> Result<Option<State>, NoMemory>
    ensures { IfOk result (λ s. Reaches s (first_name_of (mark place) kind.now (declaration_of declaration.value))) }
{
    match kind {
        TokenKind::Sign(Sign::Semi) => {
            if declares_tag(&declaration.spec) {
                Ok(Some(end_declaration(alloc, declaration)?))
            } else {
                Ok(None)
            }
        }
        _ => declare(alloc, kind, place, declaration, 0),
    }
}

/// Behind the specifier of a declaration or of a parameter.
pub fn specified(
    alloc: Global,
    kind: &TokenKind,
    place: TokenMark,
    context: SpecContext,
    spec: Spec,
) -> Result<Option<State>, NoMemory>
    ensures { IfOk result (λ s. Reaches s (specified_of (mark place) kind.now (spec_context_of context) (Some (spec_tree spec)))) }
{
    match context {
        SpecContext::Declaration(heading) => {
            let declaration = Declaration {
                heading,
                spec,
                names: Vec::new(alloc),
            };
            let declaration = boxed(alloc, declaration)?;
            first_name(alloc, kind, place, declaration)
        }
        SpecContext::Param {
            listing,
            first,
            line,
        } => {
            let (spec, listing) = boxed_with(alloc, spec, listing)?;
            param(alloc, kind, place, listing, first, line, spec, 0)
        }
    }
}
