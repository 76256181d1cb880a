//! Jumps (C99 6.8.6).
ghost use Rattle.std.specs.Prelude.{◌≡◌, OnOk};
ghost use Rattle.ob_tree.specs.ProgramView.{option_tree};
ghost use Rattle.ob_tree.specs.TypeView.{plain_type};
ghost use Rattle.ob_typed.specs.Statements.{check_return, jump, return_nothing, return_rule, returned};
ghost use Rattle.ob_typed.specs.TypedView.{typed_stmt};
ghost use Rattle.ob_conversions.specs.CheckedView.{checked, mark};
ghost use Rattle.ob_conversions.specs.Gives.{Gives};
ghost use Rattle.ob_context.specs.KnownView.{env_of, stand_of};
ghost use Rattle.ob_context.specs.Walks.{Walks};
ghost use Rattle.ob_variables.specs.BodyView.{body_of};

use ob_context::{Env, mark_of, refused};
use ob_conversions::fitting::{fits, value_as_type};
use ob_conversions::values::is_unusable_value;
use ob_conversions::{Checked, Mark};
use ob_expressions::check;
use ob_tree::{CType, Expr, TypeFault, TypeKind};
use ob_typed::TStmt;
use ob_variables::Body;
use std::alloc::Global;

/// `break` or `continue`, whose first token stands at `first`: each wants a loop around it (C99 6.8.6.2, 6.8.6.3).
pub(crate) fn jump(in_loop: bool, first: u32, s: TStmt) -> Result<TStmt, TypeFault>
    ensures { Gives typed_stmt result (jump in_loop first (typed_stmt s)) }
{
    if in_loop {
        Ok(s)
    } else {
        refused(TypeKind::Jump, first, s)
    }
}

/// `return` without a value, in a function of type `t`.
fn return_nothing(t: &CType, first: u32) -> Result<TStmt, TypeFault>
    ensures { Gives typed_stmt result (return_nothing (plain_type t.now) first) }
{
    match t {
        CType::Void => Ok(TStmt::Return(None)),
        _ => Err(TypeFault::Fault(TypeKind::Jump, first)),
    }
}

/// `return` of a value that may be used, in a function of type `t`. It converts to this type, which isn't `void`.
fn returned(alloc: Global, t: &CType, first: u32, m: Mark, x: Checked) -> Result<TStmt, TypeFault>
    ensures { Gives typed_stmt result (returned (plain_type t.now) first (mark m) (checked x)) }
{
    match t {
        CType::Void => refused(TypeKind::Jump, first, x),
        t => if fits(&x, t) {
            Ok(TStmt::Return(Some(value_as_type(alloc, x, t)?)))
        } else {
            refused(TypeKind::Assign, m.first, x)
        },
    }
}

/// `return` of a value.
fn return_rule(
    alloc: Global,
    t: &CType,
    first: u32,
    m: Mark,
    x: Checked,
) -> Result<TStmt, TypeFault>
    ensures { Gives typed_stmt result (return_rule (plain_type t.now) first (mark m) (checked x)) }
{
    if is_unusable_value(&x) {
        refused(TypeKind::Operand, m.at, x)
    } else {
        returned(alloc, t, first, m, x)
    }
}

/// `return`, whose first token stands at `first`, in a function of type `t` (C99 6.8.6.4).
pub(crate) fn check_return(
    alloc: Global,
    env: &Env,
    body: &mut Body,
    t: &CType,
    first: u32,
    e: &Option<Expr>,
) -> Result<TStmt, TypeFault>
    ensures walks { Walks typed_stmt result (body_of body.new) (check_return (env_of env.now (stand_of body.old.known)) (plain_type t.now) first (option_tree e.now) (body_of body.old)) }
    ensures stays { OnOk result (stand_of body.new.known ≡ stand_of body.old.known) }
{
    match e {
        None => return_nothing(t, first),
        Some(e) => {
            let x = check(alloc, env, &mut body.known, e)?;
            return_rule(alloc, t, first, mark_of(e), x)
        }
    }
}
