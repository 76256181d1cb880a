//! Operators with one operand (C99 6.5.2.3, 6.5.2.4, 6.5.3).
ghost use Rattle.std.specs.Prelude.{◌≡◌, OnOk};
ghost use Rattle.ob_tree.specs.ExpressionView.{expr_tree, type_tree};
ghost use Rattle.ob_tree.specs.Trees.{ExprTree};
ghost use Rattle.ob_typed.specs.Expressions.{check};
ghost use Rattle.ob_conversions.specs.CheckedView.{checked, mark};
ghost use Rattle.ob_context.specs.KnownView.{env_of, known_of, stand_of};
ghost use Rattle.ob_context.specs.Walks.{Walks};

use crate::applied::{sized, stepped};
use crate::expressions::check;
use crate::specifiers::check_type;
use ob_base::{Text, let_go};
use ob_context::{Env, Known};
use ob_conversions::values::{type_of, value};
use ob_conversions::{Checked, Mark};
use ob_rules::unary_rule;
use ob_tree::{Expr, Sign, TypeFault, TypeName};
use ob_uses::{arrow_rule, member_rule};
use std::alloc::Global;

/// `a.name` (C99 6.5.2.3).
#[cycle(check)]
pub(crate) fn check_member(
    alloc: Global,
    env: &Env,
    known: &mut Known,
    m: Mark,
    a: &Expr,
    name: &Text,
) -> Result<Checked, TypeFault>
    ensures walks { Walks checked result (known_of known.new) (check (env_of env.now (stand_of known.old)) (ExprTree.Member (mark m) (expr_tree a.now) name.now) (known_of known.old)) }
    ensures stays { OnOk result (stand_of known.new ≡ stand_of known.old) }
{
    let x = check(alloc, env, known, a)?;
    member_rule(alloc, &known.structs, m, x, name)
}

/// `a->name` (C99 6.5.2.3).
#[cycle(check)]
pub(crate) fn check_arrow(
    alloc: Global,
    env: &Env,
    known: &mut Known,
    m: Mark,
    a: &Expr,
    name: &Text,
) -> Result<Checked, TypeFault>
    ensures walks { Walks checked result (known_of known.new) (check (env_of env.now (stand_of known.old)) (ExprTree.Arrow (mark m) (expr_tree a.now) name.now) (known_of known.old)) }
    ensures stays { OnOk result (stand_of known.new ≡ stand_of known.old) }
{
    let x = check(alloc, env, known, a)?;
    let x = value(alloc, x)?;
    arrow_rule(alloc, &known.structs, m, x, name)
}

/// `++` and `--` (C99 6.5.2.4, 6.5.3.1).
#[cycle(check)]
pub(crate) fn check_step(
    alloc: Global,
    env: &Env,
    known: &mut Known,
    m: Mark,
    post: bool,
    down: bool,
    a: &Expr,
) -> Result<Checked, TypeFault>
    ensures walks { Walks checked result (known_of known.new) (check (env_of env.now (stand_of known.old)) (ExprTree.Step (mark m) post down (expr_tree a.now)) (known_of known.old)) }
    ensures stays { OnOk result (stand_of known.new ≡ stand_of known.old) }
{
    let x = check(alloc, env, known, a)?;
    stepped(alloc, known, m, post, down, x)
}

/// A unary operator (C99 6.5.3).
#[cycle(check)]
pub(crate) fn check_unary(
    alloc: Global,
    env: &Env,
    known: &mut Known,
    m: Mark,
    sign: Sign,
    a: &Expr,
) -> Result<Checked, TypeFault>
    ensures walks { Walks checked result (known_of known.new) (check (env_of env.now (stand_of known.old)) (ExprTree.Unary (mark m) sign (expr_tree a.now)) (known_of known.old)) }
    ensures stays { OnOk result (stand_of known.new ≡ stand_of known.old) }
{
    let x = check(alloc, env, known, a)?;
    unary_rule(alloc, m, sign, x)
}

/// `sizeof` before an expression (C99 6.5.3.4).
#[cycle(check)]
pub(crate) fn check_size(
    alloc: Global,
    env: &Env,
    known: &mut Known,
    m: Mark,
    a: &Expr,
) -> Result<Checked, TypeFault>
    ensures walks { Walks checked result (known_of known.new) (check (env_of env.now (stand_of known.old)) (ExprTree.SizeExpr (mark m) (expr_tree a.now)) (known_of known.old)) }
    ensures stays { OnOk result (stand_of known.new ≡ stand_of known.old) }
{
    let x = check(alloc, env, known, a)?;
    let size = sized(known, m, type_of(&x));
    let_go(x);
    size
}

/// `sizeof` before a type name (C99 6.5.3.4).
#[cycle(check)]
pub(crate) fn check_size_of_type(
    alloc: Global,
    env: &Env,
    known: &mut Known,
    m: Mark,
    t: &TypeName,
) -> Result<Checked, TypeFault>
    ensures walks { Walks checked result (known_of known.new) (check (env_of env.now (stand_of known.old)) (ExprTree.SizeType (mark m) (type_tree t.now)) (known_of known.old)) }
    ensures stays { OnOk result (stand_of known.new ≡ stand_of known.old) }
{
    let t = check_type(alloc, env, known, t)?;
    let size = sized(known, m, &t);
    let_go(t);
    size
}
