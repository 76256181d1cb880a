//! How many expressions stand in expressions, type names, declarators and initialisers.
ghost use Rattle.std.specs.Prelude.{◌≡◌, ◌+◌, OnOk};
ghost use Rattle.std.specs.List.{sum_by};
ghost use Rattle.ob_tree.specs.ExpressionView.{expr_tree, spec_tree, type_tree, obj_tree, init_tree, one_member, one_dim};
ghost use Rattle.ob_typed.specs.Counts.{nodes, nodes_of_type, nodes_of_spec, nodes_of_members, nodes_of_object, nodes_of_dims, nodes_of_init};

use crate::adding::add;
use ob_base::NoMemory;
use ob_tree::{Dim, Expr, ExprNode, Init, MemberDecl, ObjDecl, Spec, SpecNode, TypeName};

/// Adds the expressions of an expression, itself and those in array brackets and under `sizeof` included.
#[cycle(nodes)]
#[tactic(auto, using(crate::proofs::Rows::call_counted))]
pub(crate) fn add_expr(total: &mut u64, e: &Expr) -> Result<(), NoMemory>
    ensures { OnOk result (total.new ≡ total.old + nodes (expr_tree e.now)) }
{
    add(total, 1)?;
    match &e.node {
        ExprNode::Name(_)
        | ExprNode::Number { .. }
        | ExprNode::Null
        | ExprNode::Eof
        | ExprNode::Str(_) => Ok(()),
        ExprNode::Paren(e)
        | ExprNode::Member(e, _)
        | ExprNode::Arrow(e, _)
        | ExprNode::Step { e, .. }
        | ExprNode::Unary(_, e)
        | ExprNode::SizeExpr(e) => add_expr(total, e),
        ExprNode::Call(_, arguments) => add_arguments(total, arguments),
        ExprNode::SizeType(name) => add_type(total, name),
        ExprNode::Cast(name, e) => {
            add_type(total, name)?;
            add_expr(total, e)
        }
        ExprNode::Index(a, b)
        | ExprNode::Binary(_, a, b)
        | ExprNode::Assign(_, a, b)
        | ExprNode::Comma(a, b) => {
            add_expr(total, a)?;
            add_expr(total, b)
        }
        ExprNode::Cond(test, then, other) => {
            add_expr(total, test)?;
            add_expr(total, then)?;
            add_expr(total, other)
        }
    }
}

#[cycle(nodes)]
fn add_arguments(total: &mut u64, arguments: &[Expr]) -> Result<(), NoMemory>
    ensures { OnOk result (total.new ≡ total.old + sum_by (λ e. nodes (expr_tree e)) arguments.now) }
{
    for e in arguments {
        add_expr(total, e)?;
    }
    Ok(())
}

#[cycle(nodes)]
#[tactic(auto, using(crate::proofs::Rows::type_counted))]
fn add_type(total: &mut u64, name: &TypeName) -> Result<(), NoMemory>
    ensures { OnOk result (total.new ≡ total.old + nodes_of_type (type_tree name.now)) }
{
    add_spec(total, &name.spec)?;
    add_dims(total, &name.dims)
}

/// Adds the expressions in a specifier.
#[cycle(nodes)]
#[tactic(auto, using(crate::proofs::Rows::struct_counted))]
pub(crate) fn add_spec(total: &mut u64, spec: &Spec) -> Result<(), NoMemory>
    ensures { OnOk result (total.new ≡ total.old + nodes_of_spec (spec_tree spec.now)) }
{
    match &spec.node {
        SpecNode::Struct { tag: _, members } => add_members(total, members),
        _ => Ok(()),
    }
}

#[cycle(nodes)]
fn add_members(total: &mut u64, members: &[MemberDecl]) -> Result<(), NoMemory>
    ensures { OnOk result (total.new ≡ total.old + sum_by (λ m. nodes_of_members (one_member m)) members.now) }
{
    for member in members {
        add_member(total, member)?;
    }
    Ok(())
}

#[cycle(nodes)]
#[tactic(auto, using(crate::proofs::Rows::member_counted))]
fn add_member(total: &mut u64, member: &MemberDecl) -> Result<(), NoMemory>
    ensures { OnOk result (total.new ≡ total.old + nodes_of_members (one_member member.now)) }
{
    add_spec(total, &member.spec)?;
    add_objects(total, &member.names)
}

/// Adds the expressions in declarators.
#[cycle(nodes)]
pub(crate) fn add_objects(total: &mut u64, names: &[ObjDecl]) -> Result<(), NoMemory>
    ensures { OnOk result (total.new ≡ total.old + sum_by (λ o. nodes_of_object (obj_tree o)) names.now) }
{
    for name in names {
        add_object(total, name)?;
    }
    Ok(())
}

#[cycle(nodes)]
#[tactic(auto, using(crate::proofs::Rows::bare_counted, crate::proofs::Rows::initial_counted))]
fn add_object(total: &mut u64, name: &ObjDecl) -> Result<(), NoMemory>
    ensures { OnOk result (total.new ≡ total.old + nodes_of_object (obj_tree name.now)) }
{
    add_dims(total, &name.dims)?;
    match &name.init {
        None => Ok(()),
        Some(init) => add_init(total, init),
    }
}

/// Adds the expressions in array brackets.
#[cycle(nodes)]
pub(crate) fn add_dims(total: &mut u64, dims: &[Dim]) -> Result<(), NoMemory>
    ensures { OnOk result (total.new ≡ total.old + sum_by (λ d. nodes_of_dims (one_dim d)) dims.now) }
{
    for dim in dims {
        add_dim(total, dim)?;
    }
    Ok(())
}

#[cycle(nodes)]
fn add_dim(total: &mut u64, dim: &Dim) -> Result<(), NoMemory>
    ensures { OnOk result (total.new ≡ total.old + nodes_of_dims (one_dim dim.now)) }
{
    match &dim.length {
        None => Ok(()),
        Some(length) => add_expr(total, length),
    }
}

#[cycle(nodes)]
#[tactic(auto, using(crate::proofs::Rows::list_counted))]
fn add_init(total: &mut u64, init: &Init) -> Result<(), NoMemory>
    ensures { OnOk result (total.new ≡ total.old + nodes_of_init (init_tree init.now)) }
{
    match init {
        Init::Value(e) => add_expr(total, e),
        Init::List { items, .. } => add_inits(total, items),
    }
}

#[cycle(nodes)]
fn add_inits(total: &mut u64, items: &[Init]) -> Result<(), NoMemory>
    ensures { OnOk result (total.new ≡ total.old + sum_by (λ i. nodes_of_init (init_tree i)) items.now) }
{
    for item in items {
        add_init(total, item)?;
    }
    Ok(())
}
