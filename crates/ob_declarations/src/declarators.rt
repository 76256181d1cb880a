ghost use Rattle.std.specs.Prelude.{◌≡◌, IfOk};
ghost use Rattle.ob_tree.specs.Trees.{ObjTree};
ghost use Rattle.ob_tree.specs.ExpressionView.{dim_trees, obj_tree};
ghost use Rattle.ob_tree.specs.ProgramMachine.{after_dims as after_dims_of, after_name as after_name_of, next_name as next_name_of, parameters as parameters_of};
ghost use Rattle.ob_tree.specs.ProgramParts.{add_name as add_name_of, bare as bare_of, has_dims as has_dims_of, has_lengths as has_lengths_of};
ghost use Rattle.ob_declarations.specs.Shifts.{Reaches};
ghost use Rattle.ob_declarations.specs.View.{declarator_of, head_of, scope_of};

use crate::declarations::{add_name, next_name};
use crate::params::after_param;
use crate::state::{Declarator, ExprContext, Head, InitDeclarator, ParamList, Scope, State};
use ob_base::{NoMemory, Text, let_go};
use ob_tree::{Dim, FileDecl, ObjDecl, Sign, TokenKind};
use std::alloc::Global;

/// Whether each length is there but for those behind the first.
#[tactic(auto, using(crate::proofs::Pushed::first_open, crate::proofs::Pushed::first_full, crate::proofs::Pushed::lengths_none))]
fn has_lengths(dims: &[Dim]) -> bool
    ensures { result ≡ has_lengths_of (dim_trees dims.now) }
{
    match dims {
        [] => true,
        [dim, ..] => match &dim.length {
            Some(_) => true,
            None => false,
        },
    }
}

#[tactic(auto, using(crate::proofs::Pushed::some_dims, crate::proofs::Pushed::no_dims))]
pub fn has_dims(dims: &Vec<Dim>) -> bool
    ensures { result ≡ has_dims_of (dim_trees dims.now.items) }
{
    dims.len() != 0
}

#[tactic(auto, using(ob_tree::proofs::Views::obj_made))]
fn bare(stars: u32, name: Text, at: u32, dims: Vec<Dim>) -> ObjDecl
    ensures { obj_tree result ≡ ObjTree.Bare stars name at (dim_trees dims.items) }
{
    ObjDecl {
        stars,
        name,
        at,
        dims,
        init: None,
    }
}

/// Behind a declarator that isn't initialised.
fn end_name(
    alloc: Global,
    kind: &TokenKind,
    declarator: Declarator,
    dims: Vec<Dim>,
) -> Result<Option<State>, NoMemory>
    ensures { IfOk result (λ s. Reaches s (next_name_of kind.now
        (add_name_of (declarator_of declarator).declaration (bare_of (declarator_of declarator) (dim_trees dims.items))))) }
{
    let Declarator {
        declaration,
        stars,
        name,
        at,
    } = declarator;
    let object = bare(stars, name, at, dims);
    let declaration = add_name(declaration, FileDecl::Object(object))?;
    next_name(alloc, kind, declaration)
}

/// The opening parenthesis of parameters, which only an external declaration has.
fn parameters(alloc: Global, declarator: Declarator) -> Option<State>
    ensures { Reaches result (parameters_of (scope_of declarator.declaration.value.heading.scope) (declarator_of declarator)) }
{
    match &declarator.declaration.heading.scope {
        Scope::FileScope(_) => Some(State::Params(ParamList {
            function: declarator,
            params: Vec::new(alloc),
        })),
        Scope::BlockScope { .. } => None,
        Scope::ForScope { .. } => None,
    }
}

/// Behind the name of a declarator and brackets.
fn after_name(
    alloc: Global,
    kind: &TokenKind,
    declarator: Declarator,
    dims: Vec<Dim>,
) -> Result<Option<State>, NoMemory>
    ensures { IfOk result (λ s. Reaches s (after_name_of kind.now (declarator_of declarator) (dim_trees dims.items))) }
{
    match kind {
        TokenKind::Sign(Sign::OpenBracket) => Ok(Some(State::Optional(ExprContext::Length {
            head: Head::Name(declarator),
            dims,
        }))),
        TokenKind::Sign(Sign::Assign) => Ok(Some(State::Init(
            InitDeclarator { declarator, dims },
            Vec::new(alloc),
        ))),
        TokenKind::Sign(Sign::OpenParen) => {
            if has_dims(&dims) {
                let_go((declarator, dims));
                Ok(None)
            } else {
                Ok(parameters(alloc, declarator))
            }
        }
        _ => {
            if has_lengths(dims.as_slice()) {
                end_name(alloc, kind, declarator, dims)
            } else {
                let_go((declarator, dims));
                Ok(None)
            }
        }
    }
}

/// Behind a row of brackets.
pub fn after_dims(
    alloc: Global,
    kind: &TokenKind,
    head: Head,
    dims: Vec<Dim>,
) -> Result<Option<State>, NoMemory>
    ensures { IfOk result (λ s. Reaches s (after_dims_of kind.now (head_of head) (dim_trees dims.items))) }
{
    match head {
        Head::Name(declarator) => after_name(alloc, kind, declarator, dims),
        Head::Param(listing, param) => after_param(kind, listing, param, dims),
    }
}
