ghost use Rattle.std.specs.Prelude.{◌≡◌};
ghost use Rattle.std.specs.List.{list_any};
ghost use Rattle.ob_tree.specs.ExpressionView.{expr_tree, type_tree, spec_tree, one_member, obj_tree, one_dim, init_tree};
ghost use Rattle.ob_prelude.specs.Calls.{calls as calls_of, type_calls as type_calls_of, spec_calls as spec_calls_of, members_call as members_call_of, obj_calls as obj_calls_of, dims_call as dims_call_of, init_calls as init_calls_of};

use ob_tree::{Dim, Expr, ExprNode, Init, MemberDecl, ObjDecl, Spec, SpecNode, TypeName};

/// Whether the expression calls a function of this name.
#[cycle(calls)]
pub fn calls(name: &[u8], e: &Expr) -> bool
    ensures { result ≡ calls_of name.now (expr_tree e.now) }
{
    match &e.node {
        ExprNode::Paren(e)
        | ExprNode::Member(e, _)
        | ExprNode::Arrow(e, _)
        | ExprNode::Unary(_, e)
        | ExprNode::SizeExpr(e)
        | ExprNode::Step {
            post: _,
            down: _,
            e,
        } => calls(name, e),
        ExprNode::Index(left, right)
        | ExprNode::Binary(_, left, right)
        | ExprNode::Assign(_, left, right)
        | ExprNode::Comma(left, right) => calls(name, left) || calls(name, right),
        ExprNode::Call(called, arguments) => {
            called.bytes() == name || arguments_call(name, arguments)
        }
        ExprNode::SizeType(ty) => type_calls(name, ty),
        ExprNode::Cast(ty, e) => type_calls(name, ty) || calls(name, e),
        ExprNode::Cond(test, then, other) => {
            calls(name, test) || calls(name, then) || calls(name, other)
        }
        ExprNode::Name(_)
        | ExprNode::Number { value: _, ty: _ }
        | ExprNode::Null
        | ExprNode::Eof
        | ExprNode::Str(_) => false,
    }
}

#[cycle(calls)]
fn arguments_call(name: &[u8], arguments: &[Expr]) -> bool
    ensures { result ≡ list_any (λ e. calls_of name.now (expr_tree e)) arguments.now }
{
    for e in arguments {
        if calls(name, e) {
            return true;
        }
    }
    false
}

#[cycle(calls)]
fn type_calls(name: &[u8], ty: &TypeName) -> bool
    ensures { result ≡ type_calls_of name.now (type_tree ty.now) }
{
    spec_calls(name, &ty.spec) || dims_call(name, &ty.dims)
}

/// Whether a call of the name stands in the specifier.
#[cycle(calls)]
pub fn spec_calls(name: &[u8], spec: &Spec) -> bool
    ensures { result ≡ spec_calls_of name.now (spec_tree spec.now) }
{
    match &spec.node {
        SpecNode::Struct { tag: _, members } => members_call(name, members),
        _ => false,
    }
}

#[cycle(calls)]
fn members_call(name: &[u8], members: &[MemberDecl]) -> bool
    ensures { result ≡ list_any (λ m. members_call_of name.now (one_member m)) members.now }
{
    for member in members {
        if member_calls(name, member) {
            return true;
        }
    }
    false
}

#[cycle(calls)]
fn member_calls(name: &[u8], member: &MemberDecl) -> bool
    ensures { result ≡ members_call_of name.now (one_member member.now) }
{
    spec_calls(name, &member.spec) || objs_call(name, &member.names)
}

/// Whether a call of the name stands in one of the declarators.
#[cycle(calls)]
pub fn objs_call(name: &[u8], objects: &[ObjDecl]) -> bool
    ensures { result ≡ list_any (λ o. obj_calls_of name.now (obj_tree o)) objects.now }
{
    for object in objects {
        if obj_calls(name, object) {
            return true;
        }
    }
    false
}

#[cycle(calls)]
pub fn obj_calls(name: &[u8], object: &ObjDecl) -> bool
    ensures { result ≡ obj_calls_of name.now (obj_tree object.now) }
{
    let in_dims = dims_call(name, &object.dims);
    match &object.init {
        None => in_dims,
        Some(init) => in_dims || init_calls(name, init),
    }
}

/// Whether a call of the name stands in one of the array brackets.
#[cycle(calls)]
pub fn dims_call(name: &[u8], dims: &[Dim]) -> bool
    ensures { result ≡ list_any (λ d. dims_call_of name.now (one_dim d)) dims.now }
{
    for dim in dims {
        if dim_calls(name, dim) {
            return true;
        }
    }
    false
}

#[cycle(calls)]
fn dim_calls(name: &[u8], dim: &Dim) -> bool
    ensures { result ≡ dims_call_of name.now (one_dim dim.now) }
{
    match &dim.length {
        None => false,
        Some(length) => calls(name, length),
    }
}

#[cycle(calls)]
fn init_calls(name: &[u8], init: &Init) -> bool
    ensures { result ≡ init_calls_of name.now (init_tree init.now) }
{
    match init {
        Init::Value(e) => calls(name, e),
        Init::List {
            first: _,
            items,
            comma: _,
        } => inits_call(name, items),
    }
}

#[cycle(calls)]
fn inits_call(name: &[u8], items: &[Init]) -> bool
    ensures { result ≡ list_any (λ i. init_calls_of name.now (init_tree i)) items.now }
{
    for item in items {
        if init_calls(name, item) {
            return true;
        }
    }
    false
}
