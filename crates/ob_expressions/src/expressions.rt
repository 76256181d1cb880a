//! Expressions (C99 6.5).
ghost use Rattle.std.specs.Prelude.{◌≡◌, IfOk, OnOk, true};
ghost use Rattle.ob_tree.specs.Types.{PlainType};
ghost use Rattle.ob_tree.specs.Trees.{ExprTree};
ghost use Rattle.ob_tree.specs.ExpressionView.{expr_tree};
ghost use Rattle.ob_typed.specs.Expressions.{check};
ghost use Rattle.ob_typed.specs.Strings.{joined_bytes, string};
ghost use Rattle.ob_typed.specs.TypedTree.{TypedExpr, TypedNode};
ghost use Rattle.ob_typed.specs.Conversions.{Checked as PlainChecked, value};
ghost use Rattle.ob_typed.specs.PostfixRules.{index_rule};
ghost use Rattle.ob_conversions.specs.CheckedView.{checked, mark};
ghost use Rattle.ob_conversions.specs.Gives.{Gives};
ghost use Rattle.ob_context.specs.KnownView.{env_of, known_of, stand_of};
ghost use Rattle.ob_context.specs.Walks.{Walks};

use crate::applied::{assigned, indexed, joined_by};
use crate::calls::check_call;
use crate::operands::{
    check_arrow, check_member, check_size, check_size_of_type, check_step, check_unary,
};
use crate::specifiers::check_type;
use ob_base::{NoMemory, Text};
use ob_context::{Env, Known, beside_part, mark_of};
use ob_conversions::fitting::null;
use ob_conversions::numbers::number;
use ob_conversions::types::pointer_to;
use ob_conversions::values::values;
use ob_conversions::{Checked, Mark};
use ob_rules::{cast_rule, comma_rule, cond_rule};
use ob_specifiers::{joined, string};
use ob_tree::{CType, Expr, ExprNode, TypeFault};
use ob_uses::name_rule;
use ob_words::IntType;
use std::alloc::Global;

/// What an expression is, or its first fault.
#[cycle(check)]
pub fn check(alloc: Global, env: &Env, known: &mut Known, e: &Expr) -> Result<Checked, TypeFault>
    ensures walks { Walks checked result (known_of known.new) (check (env_of env.now (stand_of known.old)) (expr_tree e.now) (known_of known.old)) }
    ensures stays { OnOk result (stand_of known.new ≡ stand_of known.old) }
{
    let m = mark_of(e);
    match &e.node {
        ExprNode::Name(name) => name_rule(alloc, &env.names, m, name),
        ExprNode::Number { value, ty } => Ok(Checked::Plain(number(m.line, *ty, *value))),
        ExprNode::Null => Ok(null_constant(alloc, m)?),
        ExprNode::Eof => Ok(Checked::Plain(number(m.line, IntType::Int, -1))),
        ExprNode::Str(strings) => string_literal(alloc, known, m, strings),
        ExprNode::Paren(inner) => check(alloc, env, known, inner),
        ExprNode::Index(a, b) => {
            let x = check(alloc, env, known, a)?;
            let (y, x) = beside_part(check(alloc, env, known, b), x)?;
            element(alloc, known, m, x, y)
        }
        ExprNode::Call(name, given) => check_call(alloc, env, known, m, name, given),
        ExprNode::Member(a, name) => check_member(alloc, env, known, m, a, name),
        ExprNode::Arrow(a, name) => check_arrow(alloc, env, known, m, a, name),
        ExprNode::Step { post, down, e } => check_step(alloc, env, known, m, *post, *down, e),
        ExprNode::Unary(sign, a) => check_unary(alloc, env, known, m, *sign, a),
        ExprNode::SizeExpr(a) => check_size(alloc, env, known, m, a),
        ExprNode::SizeType(t) => check_size_of_type(alloc, env, known, m, t),
        ExprNode::Cast(t, a) => {
            let t = check_type(alloc, env, known, t)?;
            let (x, t) = beside_part(check(alloc, env, known, a), t)?;
            cast_rule(alloc, m, t, x)
        }
        ExprNode::Binary(sign, a, b) => {
            let x = check(alloc, env, known, a)?;
            let (y, x) = beside_part(check(alloc, env, known, b), x)?;
            joined_by(alloc, known, m, *sign, x, y)
        }
        ExprNode::Cond(c, a, b) => {
            let z = check(alloc, env, known, c)?;
            let (x, z) = beside_part(check(alloc, env, known, a), z)?;
            let (y, (z, x)) = beside_part(check(alloc, env, known, b), (z, x))?;
            cond_rule(alloc, m, z, x, y)
        }
        ExprNode::Assign(sign, a, b) => {
            let x = check(alloc, env, known, a)?;
            let (y, x) = beside_part(check(alloc, env, known, b), x)?;
            assigned(alloc, known, m, *sign, mark_of(b).first, x, y)
        }
        ExprNode::Comma(a, b) => {
            let x = check(alloc, env, known, a)?;
            let (y, x) = beside_part(check(alloc, env, known, b), x)?;
            comma_rule(alloc, m, x, y)
        }
    }
}

/// `x[y]` (C99 6.5.2.1).
fn element(
    alloc: Global,
    known: &Known,
    m: Mark,
    x: Checked,
    y: Checked,
) -> Result<Checked, TypeFault>
    ensures { Gives checked result (index_rule (known_of known.now).structs (mark m) (value (checked x)) (value (checked y))) }
{
    let (x, y) = values(alloc, x, y)?;
    indexed(alloc, known, m, x, y)
}

/// `NULL`: a null pointer constant of type `void *` (C99 7.17).
fn null_constant(alloc: Global, m: Mark) -> Result<Checked, NoMemory>
    ensures { IfOk result (λ r. checked r ≡ PlainChecked.NullPointer true (TypedExpr.Typed m.line (PlainType.Pointer PlainType.Void) TypedNode.Null)) }
{
    let ty = pointer_to(alloc, CType::Void)?;
    Ok(Checked::NullPointer {
        bare: true,
        value: null(m.line, ty),
    })
}

/// Neighbouring string literals (C99 6.4.5).
fn string_literal(
    alloc: Global,
    known: &mut Known,
    m: Mark,
    strings: &Vec<Text>,
) -> Result<Checked, TypeFault>
    ensures walks { Walks checked result (known_of known.new) (string (mark m) (joined_bytes strings.now.items) (known_of known.old)) }
    ensures stays { OnOk result (stand_of known.new ≡ stand_of known.old) }
{
    let bytes = joined(alloc, strings)?;
    string(alloc, known, m, bytes)
}
