ghost use Rattle.std.specs.Prelude.{◌≡◌, ◌<◌, ◌∷◌, [], Bool, IfOk};
ghost use Rattle.ob_tree.specs.Trees.{ExprTree};
ghost use Rattle.ob_tree.specs.Levels.{infix_level, level_of as level_of_tree};
ghost use Rattle.ob_tree.specs.Paths.{height as height_of, height_type, height_arguments};
ghost use Rattle.ob_tree.specs.ExpressionView.{expr_tree, type_tree};
ghost use Rattle.ob_tree.specs.ExprMachine.{selected as selected_of};
ghost use Rattle.ob_exprs.specs.Lists.{argument_trees};
ghost use Rattle.ob_exprs.specs.View.{mark, infix_of};

use crate::level::{CAST, COND, POSTFIX, PRIMARY, UNARY};
use crate::measured::{Arguments, MeasuredType, Operand};
use crate::operators::level_of_operator;
use crate::state::{ExprMark, Operator};
use ob_base::{NoMemory, Text, boxed, listed};
use ob_tree::{Expr, ExprNode, Sign};
use ob_words::IntType;
use std::alloc::Global;

/// An expression at a place.
fn placed(place: ExprMark, node: ExprNode) -> Expr
    ensures { result ≡ record { first = place.first; at = place.at; line = place.line; node = node } }
{
    Expr {
        first: place.first,
        at: place.at,
        line: place.line,
        node,
    }
}

/// The operand of this expression, which is of this nonterminal and has this many nodes on its
/// longest path.
fn measured(alloc: Global, expr: Expr, height: u32, level: u32) -> Result<Operand, NoMemory>
    requires high { height ≡ height_of (expr_tree expr) }
    requires kind { level ≡ level_of_tree (expr_tree expr) }
    ensures { IfOk result (λ w. w.expr.value ≡ expr) }
{
    let expr = boxed(alloc, expr)?;
    Ok(Operand {
        expr,
        height,
        level,
    })
}

pub fn name(alloc: Global, place: ExprMark, name: Text) -> Result<Operand, NoMemory>
    ensures { IfOk result (λ w. expr_tree w.expr.value ≡ ExprTree.Name (mark place) name) }
{
    measured(alloc, placed(place, ExprNode::Name(name)), 1, PRIMARY)
}

pub fn number(alloc: Global, place: ExprMark, value: i128, ty: IntType) -> Result<Operand, NoMemory>
    ensures { IfOk result (λ w. expr_tree w.expr.value ≡ ExprTree.Number (mark place) value ty) }
{
    measured(
        alloc,
        placed(place, ExprNode::Number { value, ty }),
        1,
        PRIMARY,
    )
}

pub fn null(alloc: Global, place: ExprMark) -> Result<Operand, NoMemory>
    ensures { IfOk result (λ w. expr_tree w.expr.value ≡ ExprTree.Null (mark place)) }
{
    measured(alloc, placed(place, ExprNode::Null), 1, PRIMARY)
}

pub fn eof(alloc: Global, place: ExprMark) -> Result<Operand, NoMemory>
    ensures { IfOk result (λ w. expr_tree w.expr.value ≡ ExprTree.Eof (mark place)) }
{
    measured(alloc, placed(place, ExprNode::Eof), 1, PRIMARY)
}

/// String literals side by side.
pub fn strings(alloc: Global, place: ExprMark, texts: Vec<Text>) -> Result<Operand, NoMemory>
    ensures { IfOk result (λ w. expr_tree w.expr.value ≡ ExprTree.Str (mark place) texts.items) }
{
    measured(alloc, placed(place, ExprNode::Str(texts)), 1, PRIMARY)
}

pub fn string(alloc: Global, place: ExprMark, text: Text) -> Result<Operand, NoMemory>
    ensures { IfOk result (λ w. expr_tree w.expr.value ≡ ExprTree.Str (mark place) (text ∷ [])) }
{
    let texts = listed(alloc, text)?;
    strings(alloc, place, texts)
}

pub fn paren(alloc: Global, place: ExprMark, inner: Operand) -> Result<Operand, NoMemory>
    requires { height_of (expr_tree inner.expr.value) < 1000 }
    ensures { IfOk result (λ w. expr_tree w.expr.value ≡ ExprTree.Paren (mark place) (expr_tree inner.expr.value)) }
{
    let Operand { expr, height, .. } = inner;
    measured(
        alloc,
        placed(place, ExprNode::Paren(expr)),
        height + 1,
        PRIMARY,
    )
}

pub fn index(
    alloc: Global,
    place: ExprMark,
    base: Operand,
    index: Operand,
) -> Result<Operand, NoMemory>
    requires low { height_of (expr_tree base.expr.value) < 1000 }
    requires small { height_of (expr_tree index.expr.value) < 1000 }
    ensures { IfOk result (λ w. expr_tree w.expr.value ≡ ExprTree.Index (mark place) (expr_tree base.expr.value) (expr_tree index.expr.value)) }
{
    let height = base.height.max(index.height) + 1;
    let Operand { expr: base, .. } = base;
    let Operand { expr: index, .. } = index;
    measured(
        alloc,
        placed(place, ExprNode::Index(base, index)),
        height,
        POSTFIX,
    )
}

fn call_node(place: ExprMark, name: Text, items: Vec<Expr>) -> Expr
    ensures { expr_tree result ≡ ExprTree.Call (mark place) name (argument_trees items.items) }
{
    placed(place, ExprNode::Call(name, items))
}

pub fn call(
    alloc: Global,
    place: ExprMark,
    name: Text,
    arguments: Arguments,
) -> Result<Operand, NoMemory>
    requires { height_arguments (argument_trees arguments.items.items) < 1000 }
    ensures { IfOk result (λ w. expr_tree w.expr.value ≡ ExprTree.Call (mark place) name (argument_trees arguments.items.items)) }
{
    let Arguments { items, height, .. } = arguments;
    measured(alloc, call_node(place, name, items), height + 1, PRIMARY)
}

/// A member of a structure or, where `arrow`, of what a pointer points to.
pub fn selected(
    alloc: Global,
    place: ExprMark,
    arrow: bool,
    base: Operand,
    name: Text,
) -> Result<Operand, NoMemory>
    requires { height_of (expr_tree base.expr.value) < 1000 }
    ensures { IfOk result (λ w. expr_tree w.expr.value ≡ selected_of (mark place) arrow (expr_tree base.expr.value) name) }
{
    let Operand { expr, height, .. } = base;
    let node = if arrow {
        ExprNode::Arrow(expr, name)
    } else {
        ExprNode::Member(expr, name)
    };
    measured(alloc, placed(place, node), height + 1, POSTFIX)
}

pub fn step_behind(
    alloc: Global,
    place: ExprMark,
    down: bool,
    operand: Operand,
) -> Result<Operand, NoMemory>
    requires { height_of (expr_tree operand.expr.value) < 1000 }
    ensures { IfOk result (λ w. expr_tree w.expr.value ≡ ExprTree.Step (mark place) Bool.true down (expr_tree operand.expr.value)) }
{
    let Operand {
        expr: e,
        height,
        ..
    } = operand;
    let node = ExprNode::Step {
        post: true,
        down,
        e,
    };
    measured(alloc, placed(place, node), height + 1, POSTFIX)
}

pub fn step_before(
    alloc: Global,
    place: ExprMark,
    down: bool,
    operand: Operand,
) -> Result<Operand, NoMemory>
    requires { height_of (expr_tree operand.expr.value) < 1000 }
    ensures { IfOk result (λ w. expr_tree w.expr.value ≡ ExprTree.Step (mark place) Bool.false down (expr_tree operand.expr.value)) }
{
    let Operand {
        expr: e,
        height,
        ..
    } = operand;
    let node = ExprNode::Step {
        post: false,
        down,
        e,
    };
    measured(alloc, placed(place, node), height + 1, UNARY)
}

pub fn unary(
    alloc: Global,
    place: ExprMark,
    sign: Sign,
    operand: Operand,
) -> Result<Operand, NoMemory>
    requires { height_of (expr_tree operand.expr.value) < 1000 }
    ensures { IfOk result (λ w. expr_tree w.expr.value ≡ ExprTree.Unary (mark place) sign (expr_tree operand.expr.value)) }
{
    let Operand { expr, height, .. } = operand;
    measured(
        alloc,
        placed(place, ExprNode::Unary(sign, expr)),
        height + 1,
        UNARY,
    )
}

pub fn size_of_expr(alloc: Global, place: ExprMark, operand: Operand) -> Result<Operand, NoMemory>
    requires { height_of (expr_tree operand.expr.value) < 1000 }
    ensures { IfOk result (λ w. expr_tree w.expr.value ≡ ExprTree.SizeExpr (mark place) (expr_tree operand.expr.value)) }
{
    let Operand { expr, height, .. } = operand;
    measured(
        alloc,
        placed(place, ExprNode::SizeExpr(expr)),
        height + 1,
        UNARY,
    )
}

pub fn size_of_type(alloc: Global, place: ExprMark, name: MeasuredType) -> Result<Operand, NoMemory>
    requires { height_type (type_tree name.name) < 1000 }
    ensures { IfOk result (λ w. expr_tree w.expr.value ≡ ExprTree.SizeType (mark place) (type_tree name.name)) }
{
    let MeasuredType { name, height, .. } = name;
    measured(
        alloc,
        placed(place, ExprNode::SizeType(name)),
        height + 1,
        UNARY,
    )
}

pub fn cast(
    alloc: Global,
    place: ExprMark,
    name: MeasuredType,
    operand: Operand,
) -> Result<Operand, NoMemory>
    requires low { height_type (type_tree name.name) < 1000 }
    requires small { height_of (expr_tree operand.expr.value) < 1000 }
    ensures { IfOk result (λ w. expr_tree w.expr.value ≡ ExprTree.Cast (mark place) (type_tree name.name) (expr_tree operand.expr.value)) }
{
    let height = name.height.max(operand.height) + 1;
    let MeasuredType { name, .. } = name;
    let Operand { expr, .. } = operand;
    measured(
        alloc,
        placed(place, ExprNode::Cast(name, expr)),
        height,
        CAST,
    )
}

pub fn conditional(
    alloc: Global,
    place: ExprMark,
    test: Operand,
    then: Operand,
    other: Operand,
) -> Result<Operand, NoMemory>
    requires low { height_of (expr_tree test.expr.value) < 1000 }
    requires middle { height_of (expr_tree then.expr.value) < 1000 }
    requires small { height_of (expr_tree other.expr.value) < 1000 }
    ensures { IfOk result (λ w. expr_tree w.expr.value
        ≡ ExprTree.Cond (mark place) (expr_tree test.expr.value) (expr_tree then.expr.value) (expr_tree other.expr.value)) }
{
    let height = test.height.max(then.height.max(other.height)) + 1;
    let Operand { expr: test, .. } = test;
    let Operand { expr: then, .. } = then;
    let Operand { expr: other, .. } = other;
    measured(
        alloc,
        placed(place, ExprNode::Cond(test, then, other)),
        height,
        COND,
    )
}

fn joined(place: ExprMark, operator: Operator, left: Box<Expr>, right: Box<Expr>) -> Expr
    ensures { expr_tree result ≡ ExprTree.Join (mark place) (infix_of operator) (expr_tree left.value) (expr_tree right.value) }
{
    let node = match operator {
        Operator::Comma => ExprNode::Comma(left, right),
        Operator::Assign(sign) => ExprNode::Assign(sign, left, right),
        Operator::Binary(sign) => ExprNode::Binary(sign, left, right),
    };
    placed(place, node)
}

pub fn join(
    alloc: Global,
    place: ExprMark,
    operator: Operator,
    left: Operand,
    right: Operand,
) -> Result<Operand, NoMemory>
    requires low { height_of (expr_tree left.expr.value) < 1000 }
    requires small { height_of (expr_tree right.expr.value) < 1000 }
    ensures { IfOk result (λ w. expr_tree w.expr.value ≡ ExprTree.Join (mark place) (infix_of operator) (expr_tree left.expr.value) (expr_tree right.expr.value)) }
{
    let height = left.height.max(right.height) + 1;
    let Operand { expr: left, .. } = left;
    let Operand { expr: right, .. } = right;
    measured(
        alloc,
        joined(place, operator, left, right),
        height,
        level_of_operator(operator),
    )
}
