ghost use Rattle.std.specs.Prelude.{◌≡◌, ◌<◌, ◌+◌, max, IfOk};
ghost use Rattle.ob_tree.specs.Trees.{ExprTrees, TypeTree, MemberTrees, ObjTree, ObjTrees, DimTrees};
ghost use Rattle.ob_tree.specs.Paths.{height as height_of, height_arguments, height_spec, height_members, height_objs, height_obj, height_dims};
ghost use Rattle.ob_tree.specs.ExpressionView.{expr_tree, spec_tree, type_tree, obj_tree, obj_trees, dim_trees};
ghost use Rattle.ob_tree.specs.ExprStates.{add_argument as add_argument_of, add_dim as add_dim_of, add_obj as add_obj_of, add_member as add_member_of};
ghost use Rattle.ob_exprs.specs.Lists.{argument_trees, member_trees};
ghost use Rattle.ob_exprs.specs.DeepestPaths.{count as count_of};

use crate::measured::{
    Arguments, Dims, MeasuredDeclarator, MeasuredSpec, MeasuredType, Members, Names, Operand,
};
use ob_base::{NoMemory, Text, push_with};
use ob_tree::{Dim, Expr, MemberDecl, ObjDecl, Spec, TypeName};
use std::alloc::Global;

/// The bytes of a text in one of its own, and what the caller goes on with.
pub fn copied_with<K: Drop>(alloc: Global, text: &Text, kept: K) -> Result<(Text, K), NoMemory>
    ensures copied { IfOk result (λ r. r.0 ≡ text.now) }
    ensures kept { IfOk result (λ r. r.1 ≡ kept) }
{
    let copy = text.copy(alloc)?;
    Ok((copy, kept))
}

pub fn no_arguments(alloc: Global) -> Arguments
    ensures { argument_trees result.items.items ≡ ExprTrees.NoArguments }
{
    Arguments {
        items: Vec::new(alloc),
        height: 0,
    }
}

/// The arguments with one more, and what the caller goes on with.
#[tactic(auto, using(crate::proofs::Views::arguments_pushed, crate::proofs::Views::arguments_pushed_height))]
pub fn add_argument<K: Drop>(
    arguments: Arguments,
    argument: Operand,
    kept: K,
) -> Result<(Arguments, K), NoMemory>
    ensures added { IfOk result (λ r. argument_trees r.0.items.items ≡ add_argument_of (argument_trees arguments.items.items) (expr_tree argument.expr.value)) }
    ensures tall { IfOk result (λ r. height_arguments (argument_trees r.0.items.items) ≡ max (height_arguments (argument_trees arguments.items.items)) (height_of (expr_tree argument.expr.value))) }
    ensures kept { IfOk result (λ r. r.1 ≡ kept) }
{
    let height = arguments.height.max(argument.height);
    let Arguments { items, .. } = arguments;
    let Operand { expr, .. } = argument;
    let mut items = items;
    let kept = push_with(&mut items, Box::into_inner(expr), kept)?;
    Ok((Arguments { items, height }, kept))
}

pub fn no_dims(alloc: Global) -> Dims
    ensures { dim_trees result.items.items ≡ DimTrees.NoDims }
{
    Dims {
        items: Vec::new(alloc),
        count: 0,
        height: 0,
    }
}

/// The brackets with one pair more, round this length, and what the caller goes on with.
#[tactic(auto, using(ob_tree::proofs::Views::dims_pushed, crate::proofs::Views::dims_pushed_height, crate::proofs::Views::dims_pushed_count))]
pub fn add_dim<K: Drop>(dims: Dims, length: Operand, kept: K) -> Result<(Dims, K), NoMemory>
    requires low { height_of (expr_tree length.expr.value) < 1000 }
    requires few { count_of (dim_trees dims.items.items) < 1000 }
    ensures added { IfOk result (λ r. dim_trees r.0.items.items ≡ add_dim_of (dim_trees dims.items.items) (expr_tree length.expr.value)) }
    ensures kept { IfOk result (λ r. r.1 ≡ kept) }
{
    let height = dims.height.max(dims.count + (1 + length.height));
    let count = dims.count + 1;
    let Dims { items, .. } = dims;
    let Operand { expr, .. } = length;
    let mut items = items;
    let dim = Dim {
        length: Some(Box::into_inner(expr)),
    };
    let kept = push_with(&mut items, dim, kept)?;
    let dims = Dims {
        items,
        count,
        height,
    };
    Ok((dims, kept))
}

pub fn no_names(alloc: Global) -> Names
    ensures { obj_trees result.items.items ≡ ObjTrees.NoDeclarators }
{
    Names {
        items: Vec::new(alloc),
        height: 0,
    }
}

/// A declarator without an initialiser.
#[tactic(auto, using(ob_tree::proofs::Views::obj_made))]
pub fn declarator(stars: u32, name: Text, at: u32, dims: Dims) -> MeasuredDeclarator
    requires low { height_dims (dim_trees dims.items.items) < 1000 }
    requires few { stars < 1000 }
    ensures { obj_tree result.declarator ≡ ObjTree.Bare stars name at (dim_trees dims.items.items) }
{
    let height = stars + dims.height;
    let Dims { items: dims, .. } = dims;
    let declarator = ObjDecl {
        stars,
        name,
        at,
        dims,
        init: None,
    };
    MeasuredDeclarator { declarator, height }
}

/// The names with one more, and what the caller goes on with.
#[tactic(auto, using(ob_tree::proofs::Views::objs_pushed, crate::proofs::Views::objs_pushed_height))]
pub fn add_name<K: Drop>(
    names: Names,
    name: MeasuredDeclarator,
    kept: K,
) -> Result<(Names, K), NoMemory>
    ensures added { IfOk result (λ r. obj_trees r.0.items.items ≡ add_obj_of (obj_trees names.items.items) (obj_tree name.declarator)) }
    ensures kept { IfOk result (λ r. r.1 ≡ kept) }
{
    let height = names.height.max(name.height);
    let Names { items, .. } = names;
    let MeasuredDeclarator { declarator, .. } = name;
    let mut items = items;
    let kept = push_with(&mut items, declarator, kept)?;
    Ok((Names { items, height }, kept))
}

pub fn no_members(alloc: Global) -> Members
    ensures { member_trees result.items.items ≡ MemberTrees.NoMembers }
{
    Members {
        items: Vec::new(alloc),
        height: 0,
    }
}

/// The members with one line more, and what the caller goes on with.
#[tactic(auto, using(crate::proofs::Views::members_pushed, crate::proofs::Views::members_pushed_height))]
pub fn add_members<K: Drop>(
    members: Members,
    spec: MeasuredSpec,
    names: Names,
    kept: K,
) -> Result<(Members, K), NoMemory>
    ensures added { IfOk result (λ r. member_trees r.0.items.items ≡ add_member_of (member_trees members.items.items) (spec_tree spec.spec) (obj_trees names.items.items)) }
    ensures kept { IfOk result (λ r. r.1 ≡ kept) }
{
    let height = members.height.max(spec.height.max(names.height));
    let Members { items, .. } = members;
    let MeasuredSpec { spec, .. } = spec;
    let Names { items: names, .. } = names;
    let mut items = items;
    let kept = push_with(&mut items, MemberDecl { spec, names }, kept)?;
    Ok((Members { items, height }, kept))
}

#[tactic(auto, using(crate::proofs::Views::type_made))]
fn named(spec: Spec, stars: u32, dims: Vec<Dim>) -> TypeName
    ensures { type_tree result ≡ TypeTree.TypeName (spec_tree spec) stars (dim_trees dims.items) }
{
    TypeName { spec, stars, dims }
}

/// A type name.
pub fn type_name(spec: MeasuredSpec, stars: u32, dims: Dims) -> MeasuredType
    requires low { height_dims (dim_trees dims.items.items) < 1000 }
    requires few { stars < 1000 }
    ensures { type_tree result.name ≡ TypeTree.TypeName (spec_tree spec.spec) stars (dim_trees dims.items.items) }
{
    let height = spec.height.max(stars + dims.height);
    let MeasuredSpec { spec, .. } = spec;
    let Dims { items, .. } = dims;
    MeasuredType {
        name: named(spec, stars, items),
        height,
    }
}
