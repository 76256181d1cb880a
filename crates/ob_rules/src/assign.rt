//! Assignment and the comma operator (C99 6.5.16, 6.5.17).
ghost use Rattle.std.specs.Prelude.{◌≡◌, IfOk, false};
ghost use Rattle.ob_tree.specs.Types.{PlainType};
ghost use Rattle.ob_tree.specs.StructsView.{plain_structs};
ghost use Rattle.ob_tree.specs.TypeView.{plain_type};
ghost use Rattle.ob_typed.specs.AssignRules.{assign_rule, assign_type, assignment_rule, comma_rule, copied, stored, update_rule, update_types, updated};
ghost use Rattle.ob_typed.specs.Conversions.{Checked as PlainChecked, as_type};
ghost use Rattle.ob_typed.specs.TypedTree.{TypedExpr, TypedNode, TypedPlace};
ghost use Rattle.ob_typed.specs.TypedView.{typed_expr, typed_lean, typed_place};
ghost use Rattle.ob_conversions.specs.CheckedView.{checked, mark};
ghost use Rattle.ob_conversions.specs.Gives.{Gives};

use crate::arithmetic::{computed_in, right_operand};
use crate::refused::{not_assigned, not_place, operand};
use ob_base::NoMemory;
use ob_conversions::complete::is_object_type;
use ob_conversions::fitting::{as_type, fits};
use ob_conversions::nodes::{assignment, pointer_update, sequence, struct_copy, update};
use ob_conversions::types::{copy_type, is_struct, is_unusable, is_void};
use ob_conversions::values::{type_of, value, values};
use ob_conversions::{Checked, Mark, beside};
use ob_layout::size;
use ob_tree::{CType, Sign, Structs, TypeFault};
use ob_typed::{TExpr, TLean, TPlace};
use ob_words::{BinOp, IntType};
use std::alloc::Global;

/// A value in the type of a place, assigned to it.
fn assigned(alloc: Global, place: TPlace, y: TExpr) -> Result<Checked, NoMemory>
    ensures { IfOk result (λ r. checked r ≡ PlainChecked.Plain (TypedExpr.Typed place.line (plain_type place.ty) (TypedNode.Assign (typed_place place) (as_type (typed_expr y) (plain_type place.ty))))) }
{
    let (ty, kept) = beside(copy_type(alloc, &place.ty), (place, y))?;
    let (place, y) = kept;
    let (y, place) = beside(as_type(alloc, y, ty), place)?;
    Ok(Checked::Plain(assignment(alloc, place, y)?))
}

/// The assignment of a number or a pointer.
fn stored(
    alloc: Global,
    m: Mark,
    first: u32,
    place: TPlace,
    y: Checked,
) -> Result<Checked, TypeFault>
    requires { place.line ≡ m.line }
    ensures { Gives checked result (stored (mark m) first (plain_type place.ty) (typed_lean place.lean) (checked y)) }
{
    let fitting = fits(&y, &place.ty);
    let (y, place) = beside(value(alloc, y), place)?;
    if is_unusable(&y.ty) {
        operand(m, (y, place))
    } else if fitting {
        Ok(assigned(alloc, place, y)?)
    } else {
        not_assigned(first, (y, place))
    }
}

/// A structure of a number, copied to a place.
fn struct_copied(
    alloc: Global,
    line: u32,
    number: u32,
    to: TLean,
    from: TLean,
) -> Result<Checked, NoMemory>
    ensures { IfOk result (λ r. checked r ≡ PlainChecked.Plain (TypedExpr.Typed line PlainType.Void (TypedNode.CopyStruct (TypedPlace.Place line (PlainType.Struct number) (typed_lean to)) (TypedPlace.Place line (PlainType.Struct number) (typed_lean from))))) }
{
    let to = TPlace {
        line,
        ty: CType::Struct(number),
        lean: to,
    };
    let from = TPlace {
        line,
        ty: CType::Struct(number),
        lean: from,
    };
    Ok(Checked::Plain(struct_copy(alloc, to, from)?))
}

/// The assignment of a structure of a number.
fn copied(
    alloc: Global,
    m: Mark,
    first: u32,
    number: u32,
    lean: TLean,
    y: Checked,
) -> Result<Checked, TypeFault>
    ensures { Gives checked result (copied (mark m) first number (typed_lean lean) (checked y)) }
{
    match y {
        Checked::Place(p) => {
            let TPlace {
                line,
                ty,
                lean: from,
            } = p;
            match ty {
                CType::Struct(k) => if number == k {
                    Ok(struct_copied(alloc, m.line, number, lean, from)?)
                } else {
                    not_assigned(first, (lean, from))
                },
                CType::Void => operand(m, (lean, from)),
                ty => not_assigned(first, (lean, from, ty)),
            }
        }
        y => if is_void(type_of(&y)) {
            operand(m, (lean, y))
        } else {
            not_assigned(first, (lean, y))
        },
    }
}

/// The assignment to a place of a type.
fn assign_type(
    alloc: Global,
    s: &Structs,
    m: Mark,
    first: u32,
    ty: CType,
    lean: TLean,
    y: Checked,
) -> Result<Checked, TypeFault>
    ensures { Gives checked result (assign_type (plain_structs s.now) (mark m) first (plain_type ty) (typed_lean lean) (checked y)) }
{
    match &ty {
        CType::Int(_) | CType::Pointer(_) => stored(
            alloc,
            m,
            first,
            TPlace {
                line: m.line,
                ty,
                lean,
            },
            y,
        ),
        CType::Struct(number) => if is_object_type(s, &ty) {
            copied(alloc, m, first, *number, lean, y)
        } else {
            operand(m, (ty, lean, y))
        },
        CType::Array(_, _) => not_place(m, (ty, lean, y)),
        CType::Void => operand(m, (ty, lean, y)),
    }
}

/// `=` (C99 6.5.16.1); `first` is the place of the assigned value's first token.
pub fn assign_rule(
    alloc: Global,
    s: &Structs,
    m: Mark,
    first: u32,
    x: Checked,
    y: Checked,
) -> Result<Checked, TypeFault>
    ensures { Gives checked result (assign_rule (plain_structs s.now) (mark m) first (checked x) (checked y)) }
{
    match x {
        Checked::Place(p) => {
            let TPlace { line, ty, lean } = p;
            assign_type(alloc, s, m, first, ty, lean, y)
        }
        x => not_place(m, (x, y)),
    }
}

/// A compound assignment to a number of type `a`, with one of type `b`.
fn updated(
    alloc: Global,
    m: Mark,
    op: BinOp,
    a: IntType,
    b: IntType,
    lean: TLean,
    y: TExpr,
) -> Result<Checked, NoMemory>
    ensures { IfOk result (λ r. checked r ≡ updated (mark m) op a b (typed_lean lean) (typed_expr y)) }
{
    let (y, lean) = beside(right_operand(alloc, op, a, b, y), lean)?;
    let place = TPlace {
        line: m.line,
        ty: CType::Int(a),
        lean,
    };
    Ok(Checked::Plain(update(alloc, op, computed_in(op, a, b), false, place, y)?))
}

/// A compound assignment to a pointer, by `scale` bytes times a number.
fn pointer_moved(
    alloc: Global,
    scale: u64,
    minus: bool,
    place: TPlace,
    y: TExpr,
) -> Result<Checked, NoMemory>
    ensures { IfOk result (λ r. checked r ≡ PlainChecked.Plain (TypedExpr.Typed place.line (plain_type place.ty) (TypedNode.PtrUpdate scale minus false (typed_place place) (typed_expr y)))) }
{
    Ok(Checked::Plain(pointer_update(alloc, scale, minus, false, place, y)?))
}

/// A compound assignment to a place of a type (C99 6.5.16.2).
fn update_types(
    alloc: Global,
    s: &Structs,
    m: Mark,
    op: BinOp,
    ty: CType,
    lean: TLean,
    y: TExpr,
) -> Result<Checked, TypeFault>
    ensures { Gives checked result (update_types (plain_structs s.now) (mark m) op (plain_type ty) (plain_type y.ty) (typed_lean lean) (typed_expr y)) }
{
    match (op, &ty, &y.ty) {
        (op, CType::Int(a), CType::Int(b)) => Ok(updated(alloc, m, op, *a, *b, lean, y)?),
        (BinOp::Add, CType::Pointer(t), CType::Int(_)) => if is_object_type(s, t) {
            let scale = size(s, t);
            Ok(pointer_moved(
                alloc,
                scale,
                false,
                TPlace {
                    line: m.line,
                    ty,
                    lean,
                },
                y,
            )?)
        } else {
            operand(m, (ty, lean, y))
        },
        (BinOp::Sub, CType::Pointer(t), CType::Int(_)) => if is_object_type(s, t) {
            let scale = size(s, t);
            Ok(pointer_moved(
                alloc,
                scale,
                true,
                TPlace {
                    line: m.line,
                    ty,
                    lean,
                },
                y,
            )?)
        } else {
            operand(m, (ty, lean, y))
        },
        (_, CType::Array(_, _), _) => not_place(m, (ty, lean, y)),
        _ => operand(m, (ty, lean, y)),
    }
}

/// A compound assignment (C99 6.5.16.2).
pub fn update_rule(
    alloc: Global,
    s: &Structs,
    m: Mark,
    op: BinOp,
    x: Checked,
    y: Checked,
) -> Result<Checked, TypeFault>
    ensures { Gives checked result (update_rule (plain_structs s.now) (mark m) op (checked x) (checked y)) }
{
    match x {
        Checked::Place(p) => {
            let (y, p) = beside(value(alloc, y), p)?;
            let TPlace { line, ty, lean } = p;
            update_types(alloc, s, m, op, ty, lean, y)
        }
        x => not_place(m, (x, y)),
    }
}

/// An assignment operator (C99 6.5.16).
pub fn assignment_rule(
    alloc: Global,
    s: &Structs,
    m: Mark,
    sign: Sign,
    first: u32,
    x: Checked,
    y: Checked,
) -> Result<Checked, TypeFault>
    ensures { Gives checked result (assignment_rule (plain_structs s.now) (mark m) sign first (checked x) (checked y)) }
{
    match sign {
        Sign::Assign => assign_rule(alloc, s, m, first, x, y),
        Sign::StarAssign => update_rule(alloc, s, m, BinOp::Mul, x, y),
        Sign::SlashAssign => update_rule(alloc, s, m, BinOp::Div, x, y),
        Sign::PercentAssign => update_rule(alloc, s, m, BinOp::Rem, x, y),
        Sign::PlusAssign => update_rule(alloc, s, m, BinOp::Add, x, y),
        Sign::MinusAssign => update_rule(alloc, s, m, BinOp::Sub, x, y),
        Sign::ShlAssign => update_rule(alloc, s, m, BinOp::Shl, x, y),
        Sign::ShrAssign => update_rule(alloc, s, m, BinOp::Shr, x, y),
        Sign::AmpAssign => update_rule(alloc, s, m, BinOp::And, x, y),
        Sign::CaretAssign => update_rule(alloc, s, m, BinOp::Xor, x, y),
        Sign::BarAssign => update_rule(alloc, s, m, BinOp::Or, x, y),
        _ => operand(m, (x, y)),
    }
}

/// The comma operator (C99 6.5.17).
pub fn comma_rule(alloc: Global, m: Mark, x: Checked, y: Checked) -> Result<Checked, TypeFault>
    ensures { Gives checked result (comma_rule (mark m) (checked x) (checked y)) }
{
    let (x, y) = values(alloc, x, y)?;
    if is_struct(&x.ty) || is_struct(&y.ty) {
        operand(m, (x, y))
    } else {
        Ok(Checked::Plain(sequence(alloc, m.line, x, y)?))
    }
}
