//! The expressions of statements (C99 6.8.3 to 6.8.5).
ghost use Rattle.std.specs.Prelude.{◌≡◌, OnOk};
ghost use Rattle.ob_tree.specs.ExpressionView.{expr_tree};
ghost use Rattle.ob_tree.specs.ProgramView.{option_tree, start_tree};
ghost use Rattle.ob_typed.specs.Statements.{check_control, check_dropped, check_option, check_start, control_rule, dropped_rule};
ghost use Rattle.ob_typed.specs.TypedView.{typed_expr, typed_option};
ghost use Rattle.ob_conversions.specs.CheckedView.{mark};
ghost use Rattle.ob_conversions.specs.Gives.{Gives};
ghost use Rattle.ob_context.specs.KnownView.{env_of, stand_of};
ghost use Rattle.ob_context.specs.Walks.{Walks};
ghost use Rattle.ob_variables.specs.BodyView.{body_of, stmts_of};

use crate::nodes::start_list;
use ob_context::{Env, mark_of, refused};
use ob_conversions::Mark;
use ob_conversions::types::{is_scalar, is_struct};
use ob_conversions::values::value;
use ob_expressions::check;
use ob_tree::{Expr, ForStart, TypeFault, TypeKind};
use ob_typed::{TExpr, TStmt};
use ob_variables::{Body, check_declaration};
use std::alloc::Global;

/// The value of an expression statement, which is dropped, is no structure (C99 6.8.3).
fn dropped_rule(m: Mark, x: TExpr) -> Result<TExpr, TypeFault>
    ensures { Gives typed_expr result (dropped_rule (mark m) (typed_expr x)) }
{
    if is_struct(&x.ty) {
        refused(TypeKind::Operand, m.at, x)
    } else {
        Ok(x)
    }
}

/// A controlling expression is a number or a pointer (C99 6.8.4, 6.8.5).
fn control_rule(m: Mark, x: TExpr) -> Result<TExpr, TypeFault>
    ensures { Gives typed_expr result (control_rule (mark m) (typed_expr x)) }
{
    if is_scalar(&x.ty) {
        Ok(x)
    } else {
        refused(TypeKind::Operand, m.at, x)
    }
}

/// The expression of an expression statement.
fn check_dropped(alloc: Global, env: &Env, body: &mut Body, e: &Expr) -> Result<TExpr, TypeFault>
    ensures walks { Walks typed_expr result (body_of body.new) (check_dropped (env_of env.now (stand_of body.old.known)) (expr_tree e.now) (body_of body.old)) }
    ensures stays { OnOk result (stand_of body.new.known ≡ stand_of body.old.known) }
{
    let x = check(alloc, env, &mut body.known, e)?;
    let x = value(alloc, x)?;
    dropped_rule(mark_of(e), x)
}

/// A controlling expression.
pub(crate) fn check_control(
    alloc: Global,
    env: &Env,
    body: &mut Body,
    e: &Expr,
) -> Result<TExpr, TypeFault>
    ensures walks { Walks typed_expr result (body_of body.new) (check_control (env_of env.now (stand_of body.old.known)) (expr_tree e.now) (body_of body.old)) }
    ensures stays { OnOk result (stand_of body.new.known ≡ stand_of body.old.known) }
{
    let x = check(alloc, env, &mut body.known, e)?;
    let x = value(alloc, x)?;
    control_rule(mark_of(e), x)
}

/// The expression of an expression statement, which may be missing.
pub(crate) fn dropped_option(
    alloc: Global,
    env: &Env,
    body: &mut Body,
    e: &Option<Expr>,
) -> Result<Option<TExpr>, TypeFault>
    ensures walks { Walks typed_option result (body_of body.new) (check_option check_dropped (env_of env.now (stand_of body.old.known)) (option_tree e.now) (body_of body.old)) }
    ensures stays { OnOk result (stand_of body.new.known ≡ stand_of body.old.known) }
{
    match e {
        None => Ok(None),
        Some(e) => Ok(Some(check_dropped(alloc, env, body, e)?)),
    }
}

/// A controlling expression, which may be missing.
pub(crate) fn control_option(
    alloc: Global,
    env: &Env,
    body: &mut Body,
    e: &Option<Expr>,
) -> Result<Option<TExpr>, TypeFault>
    ensures walks { Walks typed_option result (body_of body.new) (check_option check_control (env_of env.now (stand_of body.old.known)) (option_tree e.now) (body_of body.old)) }
    ensures stays { OnOk result (stand_of body.new.known ≡ stand_of body.old.known) }
{
    match e {
        None => Ok(None),
        Some(e) => Ok(Some(check_control(alloc, env, body, e)?)),
    }
}

/// What stands before the first semicolon of a `for` (C99 6.8.5.3): the statements that it is. A declaration's names are in
/// force afterwards.
pub(crate) fn check_start(
    alloc: Global,
    env: &mut Env,
    body: &mut Body,
    start: &ForStart,
) -> Result<Vec<TStmt>, TypeFault>
    ensures walks { Walks (λ ss. record { env = env_of env.new (stand_of body.new.known); statements = stmts_of ss.items }) result (body_of body.new) (check_start (env_of env.old (stand_of body.old.known)) (start_tree start.now) (body_of body.old)) }
    ensures stays { OnOk result (stand_of body.new.known ≡ stand_of body.old.known) }
    ensures scopes { OnOk result (env.new.names.outer ≡ env.old.names.outer) }
    ensures bodies { OnOk result (env.new.bodies ≡ env.old.bodies) }
{
    match start {
        ForStart::Expr(e) => {
            let x = dropped_option(alloc, env, body, e)?;
            Ok(start_list(alloc, x)?)
        }
        ForStart::Local(d) => check_declaration(alloc, env, body, d),
    }
}
