//! Subscripts and steps (C99 6.5.2.1, 6.5.2.4, 6.5.3.1).
ghost use Rattle.std.specs.Prelude.{◌≡◌, pos, false, IfOk, if◌then◌else◌};
ghost use Rattle.ob_words.specs.declared.types.IntType.TheVariants.{Int};
ghost use Rattle.ob_words.specs.declared.types.BinOp.TheVariants.{Add, Sub};
ghost use Rattle.ob_words.specs.Types.{common};
ghost use Rattle.ob_tree.specs.Types.{PlainType};
ghost use Rattle.ob_tree.specs.StructsView.{plain_structs};
ghost use Rattle.ob_tree.specs.TypeView.{plain_type};
ghost use Rattle.ob_typed.specs.Conversions.{Checked as PlainChecked, as_int};
ghost use Rattle.ob_typed.specs.Places.{pointed_to};
ghost use Rattle.ob_typed.specs.PostfixRules.{element, index_rule, number, step_rule, step_type};
ghost use Rattle.ob_typed.specs.TypedTree.{TypedExpr, TypedLean, TypedNode, TypedPlace};
ghost use Rattle.ob_typed.specs.TypedView.{typed_expr, typed_lean};
ghost use Rattle.ob_conversions.specs.CheckedView.{checked, mark, target};
ghost use Rattle.ob_conversions.specs.Gives.{Gives};

use crate::refused::{not_place, operand};
use ob_base::{NoMemory, boxed_with};
use ob_conversions::complete::is_object_type;
use ob_conversions::leans::slid;
use ob_conversions::nodes::{pointer_update, update};
use ob_conversions::numbers::{as_int, number};
use ob_conversions::types::target;
use ob_conversions::values::placed;
use ob_conversions::{Checked, Mark, beside};
use ob_layout::size;
use ob_tree::{CType, Structs, TypeFault};
use ob_typed::{TExpr, TLean, TPlace};
use ob_words::{BinOp, IntType, common};
use std::alloc::Global;

/// The element of what a pointer points to that a number names; each has `scale` bytes.
fn element(
    alloc: Global,
    line: u32,
    scale: u64,
    number_first: bool,
    pointer: TExpr,
    number: TExpr,
) -> Result<Checked, NoMemory>
    ensures { IfOk result (λ r. checked r ≡ PlainChecked.Place line (target (plain_type pointer.ty)) (TypedLean.Slide (pointed_to (typed_expr pointer)) scale false number_first (typed_expr number))) }
{
    let (number, pointer) = boxed_with(alloc, number, pointer)?;
    let (ty, pointer) = beside(target(alloc, &pointer.ty), pointer)?;
    let (lean, ty) = beside(slid(alloc, scale, false, number_first, pointer, number), ty)?;
    Ok(placed(line, ty, lean))
}

/// `e1[e2]` (C99 6.5.2.1), from the values of both.
pub fn index_rule(
    alloc: Global,
    s: &Structs,
    m: Mark,
    x: TExpr,
    y: TExpr,
) -> Result<Checked, TypeFault>
    ensures { Gives checked result (index_rule (plain_structs s.now) (mark m) (typed_expr x) (typed_expr y)) }
{
    match (&x.ty, &y.ty) {
        (CType::Pointer(t), CType::Int(_)) => if is_object_type(s, t) {
            let scale = size(s, t);
            Ok(element(alloc, m.line, scale, false, x, y)?)
        } else {
            operand(m, (x, y))
        },
        (CType::Int(_), CType::Pointer(u)) => if is_object_type(s, u) {
            let scale = size(s, u);
            Ok(element(alloc, m.line, scale, true, y, x)?)
        } else {
            operand(m, (x, y))
        },
        _ => operand(m, (x, y)),
    }
}

/// A step of a number of type `kind`.
fn number_step(
    alloc: Global,
    m: Mark,
    post: bool,
    down: bool,
    kind: IntType,
    lean: TLean,
) -> Result<Checked, NoMemory>
    ensures { IfOk result (λ r. checked r ≡ PlainChecked.Plain (TypedExpr.Typed m.line (PlainType.Int kind) (TypedNode.Update (if down then Sub else Add) (common kind Int) post (TypedPlace.Place m.line (PlainType.Int kind) (typed_lean lean)) (as_int (common kind Int) (number m.line Int (pos 1)))))) }
{
    let wide = common(kind, IntType::Int);
    let (one, lean) = beside(as_int(alloc, wide, number(m.line, IntType::Int, 1)), lean)?;
    let place = TPlace {
        line: m.line,
        ty: CType::Int(kind),
        lean,
    };
    let op = if down { BinOp::Sub } else { BinOp::Add };
    Ok(Checked::Plain(update(alloc, op, wide, post, place, one)?))
}

/// A step of a pointer by `scale` bytes.
fn pointer_step(
    alloc: Global,
    m: Mark,
    post: bool,
    down: bool,
    scale: u64,
    ty: CType,
    lean: TLean,
) -> Result<Checked, NoMemory>
    ensures { IfOk result (λ r. checked r ≡ PlainChecked.Plain (TypedExpr.Typed m.line (plain_type ty) (TypedNode.PtrUpdate scale down post (TypedPlace.Place m.line (plain_type ty) (typed_lean lean)) (number m.line Int (pos 1))))) }
{
    let place = TPlace {
        line: m.line,
        ty,
        lean,
    };
    Ok(Checked::Plain(pointer_update(
        alloc,
        scale,
        down,
        post,
        place,
        number(m.line, IntType::Int, 1),
    )?))
}

/// A step of what lies at a place.
fn step_type(
    alloc: Global,
    s: &Structs,
    m: Mark,
    post: bool,
    down: bool,
    ty: CType,
    lean: TLean,
) -> Result<Checked, TypeFault>
    ensures { Gives checked result (step_type (plain_structs s.now) (mark m) post down (plain_type ty) (typed_lean lean)) }
{
    match &ty {
        CType::Int(kind) => Ok(number_step(alloc, m, post, down, *kind, lean)?),
        CType::Pointer(t) => if is_object_type(s, t) {
            let scale = size(s, t);
            Ok(pointer_step(alloc, m, post, down, scale, ty, lean)?)
        } else {
            operand(m, (ty, lean))
        },
        CType::Array(_, _) => not_place(m, (ty, lean)),
        _ => operand(m, (ty, lean)),
    }
}

/// `++` or, where `down`, `--`; behind its operand where `post`, else before it (C99 6.5.2.4, 6.5.3.1).
pub fn step_rule(
    alloc: Global,
    s: &Structs,
    m: Mark,
    post: bool,
    down: bool,
    x: Checked,
) -> Result<Checked, TypeFault>
    ensures { Gives checked result (step_rule (plain_structs s.now) (mark m) post down (checked x)) }
{
    match x {
        Checked::Place(p) => {
            let TPlace { line, ty, lean } = p;
            step_type(alloc, s, m, post, down, ty, lean)
        }
        other => not_place(m, other),
    }
}
