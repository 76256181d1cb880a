ghost use Rattle.std.specs.Prelude.{◌≡◌, ◌≤◌};
ghost use Rattle.ob_tree.specs.Levels.{level_of};
ghost use Rattle.ob_tree.specs.Paths.{height as height_of, height_arguments, height_type, height_spec, height_members, height_obj, height_objs, height_dims};
ghost use Rattle.ob_tree.specs.ExpressionView.{expr_tree, spec_tree, type_tree, obj_tree, obj_trees, dim_trees};
ghost use Rattle.ob_exprs.specs.Lists.{argument_trees, member_trees};
ghost use Rattle.ob_exprs.specs.DeepestPaths.{count as count_of};

use ob_tree::{Dim, Expr, MemberDecl, ObjDecl, Spec, TypeName};

/// A whole operand, with the number of nodes on its longest path and the number of its nonterminal.
#[derive(Drop)]
pub struct Operand {
    pub expr: Box<Expr>,
    pub height: u32,
    pub level: u32,
    ghost height_is: { height ≡ height_of (expr_tree expr.value) },
    ghost level_is: { level ≡ level_of (expr_tree expr.value) },
}

/// A whole specifier, with the number of nodes on its longest path.
#[derive(Drop)]
pub struct MeasuredSpec {
    pub spec: Spec,
    pub height: u32,
    ghost height_is: { height ≡ height_spec (spec_tree spec) },
}

/// A whole type name, with the number of nodes on its longest path.
#[derive(Drop)]
pub struct MeasuredType {
    pub name: TypeName,
    pub height: u32,
    ghost height_is: { height ≡ height_type (type_tree name) },
}

/// The arguments of a call so far, with the number of nodes on their longest path.
#[derive(Drop)]
pub struct Arguments {
    pub items: Vec<Expr>,
    pub height: u32,
    ghost height_is: { height ≡ height_arguments (argument_trees items.items) },
}

/// A row of brackets so far, with their number and the number of nodes on their longest path.
#[derive(Drop)]
pub struct Dims {
    pub items: Vec<Dim>,
    pub count: u32,
    pub height: u32,
    ghost count_is: { count ≡ count_of (dim_trees items.items) },
    ghost height_is: { height ≡ height_dims (dim_trees items.items) },
    ghost few: { count ≤ height },
}

/// A declarator, with the number of nodes on its longest path.
#[derive(Drop)]
pub struct MeasuredDeclarator {
    pub declarator: ObjDecl,
    pub height: u32,
    ghost height_is: { height ≡ height_obj (obj_tree declarator) },
}

/// The declarators of a line of members so far, with the number of nodes on their longest path.
#[derive(Drop)]
pub struct Names {
    pub items: Vec<ObjDecl>,
    pub height: u32,
    ghost height_is: { height ≡ height_objs (obj_trees items.items) },
}

/// The members of a structure so far, with the number of nodes on their longest path.
#[derive(Drop)]
pub struct Members {
    pub items: Vec<MemberDecl>,
    pub height: u32,
    ghost height_is: { height ≡ height_members (member_trees items.items) },
}
