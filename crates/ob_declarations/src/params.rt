ghost use Rattle.std.specs.Prelude.{◌≡◌, ◌<◌, ◌∷◌, [], IfOk, Some, None, map};
ghost use Rattle.ob_tree.specs.Trees.{DimTrees};
ghost use Rattle.ob_tree.specs.Programs.{BlockTrees};
ghost use Rattle.ob_tree.specs.ExpressionView.{dim_trees, spec_tree};
ghost use Rattle.ob_tree.specs.ProgramValid.{is_void_alone as is_void_alone_of};
ghost use Rattle.ob_tree.specs.ProgramView.{file_tree, param_tree, params_tree};
ghost use Rattle.ob_tree.specs.ProgramStates.{Begin, InBlock, InBody, OfParam};
ghost use Rattle.ob_tree.specs.ProgramMachine.{after_dims as after_dims_of, after_param as after_param_of, begin_body as begin_body_of, begin_param as begin_param_of, closed as closed_of, first_param as first_param_of, next_param as next_param_of, param as param_at};
ghost use Rattle.ob_tree.specs.ProgramParts.{add_param as add_param_of, are_all_named as are_all_named_of, are_named as are_named_of, is_first as is_first_of, params_of as params_tree_of};
ghost use Rattle.ob_declarations.specs.Shifts.{Leads, Reaches};
ghost use Rattle.ob_declarations.specs.View.{declarator_of, definition_of, pending_stmts_of, param_list_of, param_of, mark, scope_of};

use crate::declarations::{add_name, next_name};
use crate::declarators::{after_dims, has_dims};
use crate::state::{
    Declaration, Declarator, Definition, ExprContext, Head, Heading, ParamHead, ParamList,
    PendingStmt, Scope, Shift, SpecContext, State, TokenMark,
};
use ob_base::{NoMemory, boxed, let_go, listed, push_with, with_last};
use ob_tree::{Dim, FileDecl, Param, Params, Sign, Spec, SpecNode, TokenKind};
use std::alloc::Global;

/// A parameter begins with the token.
pub fn begin_param(kind: &TokenKind, place: TokenMark, listing: ParamList) -> Shift
    ensures { Leads (mark place) kind.now result (begin_param_of (mark place) kind.now (param_list_of listing)) }
{
    Shift::NeedsSpec(SpecContext::Param {
        listing,
        first: place.at,
        line: place.line,
    })
}

/// Behind the opening parenthesis of parameters.
pub fn first_param(kind: &TokenKind, place: TokenMark, listing: ParamList) -> Shift
    ensures { Leads (mark place) kind.now result (first_param_of (mark place) kind.now (param_list_of listing)) }
{
    match kind {
        TokenKind::Sign(Sign::CloseParen) => {
            let ParamList { function, .. } = listing;
            Shift::Shifted(State::Closed(function, Params::Empty))
        }
        _ => begin_param(kind, place, listing),
    }
}

fn is_void(spec: &Spec) -> bool
    ensures { result ≡ is_void_alone_of (spec_tree spec.now) 0 None DimTrees.NoDims }
{
    match &spec.node {
        SpecNode::Void => true,
        SpecNode::SizeT => false,
        SpecNode::Integer(_) => false,
        SpecNode::Tag(_) => false,
        SpecNode::Struct { .. } => false,
    }
}

/// Whether the parameter is the word `void` alone.
#[tactic(auto, using(crate::proofs::Pushed::void_starred, crate::proofs::Pushed::void_brackets, crate::proofs::Pushed::void_named, crate::proofs::Pushed::void_plain))]
fn is_void_alone(param: &Param) -> bool
    ensures { result ≡ is_void_alone_of (spec_tree param.now.spec) param.now.stars param.now.name (dim_trees param.now.dims.items) }
{
    if param.stars != 0 {
        return false;
    }
    if has_dims(&param.dims) {
        return false;
    }
    match &param.name {
        Some(_) => false,
        None => is_void(&param.spec),
    }
}

/// The parameters between the parentheses, where `void` alone is none.
fn params_of(params: Vec<Param>) -> Params
    ensures { params_tree result ≡ params_tree_of (map param_tree params.items) }
{
    match params.as_slice() {
        [] => return Params::Empty,
        [only] => {
            if is_void_alone(only) {
                return Params::Void;
            }
        }
        _ => {}
    }
    Params::List(params)
}

/// Behind a parameter: a comma and the next one, or the closing parenthesis.
fn next_param(kind: &TokenKind, listing: ParamList) -> Option<State>
    ensures { Reaches result (next_param_of kind.now (param_list_of listing)) }
{
    match kind {
        TokenKind::Sign(Sign::Comma) => Some(State::NextParam(listing)),
        TokenKind::Sign(Sign::CloseParen) => {
            let ParamList { function, params } = listing;
            Some(State::Closed(function, params_of(params)))
        }
        _ => {
            let_go(listing);
            None
        }
    }
}

/// The parameters with one more.
fn add_param(listing: ParamList, param: Param) -> Result<ParamList, NoMemory>
    ensures { IfOk result (λ l. param_list_of l ≡ add_param_of (param_list_of listing) (param_tree param)) }
{
    let ParamList { function, params } = listing;
    let mut params = params;
    let function = push_with(&mut params, param, function)?;
    Ok(ParamList { function, params })
}

/// A parameter with its brackets.
fn whole_param(param: ParamHead, dims: Vec<Dim>) -> Param
    ensures { param_tree result ≡ param_of param dims }
{
    let ParamHead {
        first,
        line,
        spec,
        stars,
        name,
        at,
    } = param;
    Param {
        first,
        line,
        spec: Box::into_inner(spec),
        stars,
        name,
        at,
        dims,
    }
}

/// Behind the brackets of a parameter.
pub fn after_param(
    kind: &TokenKind,
    listing: ParamList,
    param: ParamHead,
    dims: Vec<Dim>,
) -> Result<Option<State>, NoMemory>
    ensures { IfOk result (λ s. Reaches s (after_param_of kind.now
        (OfParam (param_list_of listing) param.first param.line (spec_tree param.spec.value) param.stars param.name param.at)
        (param_list_of listing) (param_of param dims) (dim_trees dims.items))) }
{
    match kind {
        TokenKind::Sign(Sign::OpenBracket) => {
            let head = Head::Param(listing, param);
            Ok(Some(State::Optional(ExprContext::Length { head, dims })))
        }
        _ => Ok(next_param(kind, add_param(listing, whole_param(param, dims))?)),
    }
}

/// Behind the stars of a parameter that has no name.
fn unnamed(
    alloc: Global,
    kind: &TokenKind,
    listing: ParamList,
    first: u32,
    line: u32,
    spec: Box<Spec>,
    stars: u32,
) -> Result<Option<State>, NoMemory>
    ensures { IfOk result (λ s. Reaches s (after_dims_of kind.now (OfParam (param_list_of listing) first line (spec_tree spec.value) stars None first) DimTrees.NoDims)) }
{
    let param = ParamHead {
        first,
        line,
        spec,
        stars,
        name: None,
        at: first,
    };
    after_dims(alloc, kind, Head::Param(listing, param), Vec::new(alloc))
}

/// Behind the stars of a parameter.
pub fn param(
    alloc: Global,
    kind: &TokenKind,
    place: TokenMark,
    listing: ParamList,
    first: u32,
    line: u32,
    spec: Box<Spec>,
    stars: u32,
) -> Result<Option<State>, NoMemory>
    requires { stars < 1000 }
    ensures { IfOk result (λ s. Reaches s (param_at (mark place) kind.now (param_list_of listing) first line (spec_tree spec.value) stars)) }
{
    match kind {
        TokenKind::Sign(Sign::Star) => Ok(Some(State::Param {
            listing,
            first,
            line,
            spec,
            stars: stars + 1,
        })),
        TokenKind::Name(text) => {
            let param = ParamHead {
                name: Some(text.copy(alloc)?),
                first,
                line,
                spec,
                stars,
                at: place.at,
            };
            Ok(Some(State::Dims(Head::Param(listing, param), Vec::new(alloc))))
        }
        _ => unnamed(alloc, kind, listing, first, line, spec, stars),
    }
}

#[tactic(auto, using(crate::proofs::Pushed::named_more, crate::proofs::Pushed::unnamed_more))]
fn are_all_named(params: &[Param]) -> bool
    ensures { result ≡ are_all_named_of (map param_tree params.now) }
{
    for param in params {
        match &param.name {
            None => return false,
            Some(_) => {}
        }
    }
    true
}

/// Whether each parameter has a name.
fn are_named(params: &Params) -> bool
    ensures { result ≡ are_named_of (params_tree params.now) }
{
    match params {
        Params::Empty => true,
        Params::Void => true,
        Params::List(list) => are_all_named(list.as_slice()),
    }
}

/// Whether no declarator was read yet.
#[tactic(auto, using(crate::proofs::Pushed::some_names, crate::proofs::Pushed::no_names))]
fn is_first(names: &Vec<FileDecl>) -> bool
    ensures { result ≡ is_first_of (map file_tree names.now.items) }
{
    names.len() == 0
}

/// The pending statements in the body of a function.
fn pending_body(
    alloc: Global,
    place: TokenMark,
    definition: Box<Definition>,
) -> Result<Vec<PendingStmt>, NoMemory>
    ensures { IfOk result (λ v. pending_stmts_of v.items
        ≡ InBlock place.at place.line BlockTrees.NoItems ∷ (InBody (definition_of definition.value) ∷ [])) }
{
    let body = listed(alloc, PendingStmt::Body(definition))?;
    let block = PendingStmt::Block {
        first: place.at,
        line: place.line,
        items: Vec::new(alloc),
    };
    with_last(body, block)
}

/// The body of a function begins, behind these external declarations.
fn begin_definition(
    alloc: Global,
    place: TokenMark,
    definition: Definition,
) -> Result<Option<State>, NoMemory>
    ensures { IfOk result (λ s. Reaches s (Some (Begin (InBlock place.at place.line BlockTrees.NoItems ∷ (InBody (definition_of definition) ∷ []))))) }
{
    let definition = boxed(alloc, definition)?;
    Ok(Some(State::Begin(pending_body(alloc, place, definition)?)))
}

/// The body of a function begins, which only an external declaration has.
fn begin_body(
    alloc: Global,
    place: TokenMark,
    declarator: Declarator,
    params: Params,
) -> Result<Option<State>, NoMemory>
    ensures { IfOk result (λ s. Reaches s (begin_body_of (mark place) (scope_of declarator.declaration.value.heading.scope) (declarator_of declarator) (params_tree params))) }
{
    let Declarator {
        declaration,
        stars,
        name,
        at,
    } = declarator;
    let Declaration { heading, spec, .. } = Box::into_inner(declaration);
    let Heading {
        scope,
        first,
        line,
        fixed,
    } = heading;
    match scope {
        Scope::FileScope(items) => {
            let definition = Definition {
                items,
                first,
                line,
                fixed,
                spec,
                stars,
                name,
                at,
                params,
            };
            begin_definition(alloc, place, definition)
        }
        other => {
            let_go((other, spec, name, params));
            Ok(None)
        }
    }
}

/// Behind the closing parenthesis of parameters.
pub fn closed(
    alloc: Global,
    kind: &TokenKind,
    place: TokenMark,
    declarator: Declarator,
    params: Params,
) -> Result<Option<State>, NoMemory>
    ensures { IfOk result (λ s. Reaches s (closed_of (mark place) kind.now (declarator_of declarator) (params_tree params))) }
{
    match kind {
        TokenKind::Sign(Sign::OpenBrace) => {
            if is_first(&declarator.declaration.names) && are_named(&params) {
                begin_body(alloc, place, declarator, params)
            } else {
                let_go((declarator, params));
                Ok(None)
            }
        }
        _ => {
            let Declarator {
                declaration,
                stars,
                name,
                at,
            } = declarator;
            let function = FileDecl::Function {
                stars,
                name,
                at,
                params,
            };
            let declaration = add_name(declaration, function)?;
            next_name(alloc, kind, declaration)
        }
    }
}
