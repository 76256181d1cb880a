//! Unary operators and casts (C99 6.5.3, 6.5.4).
ghost use Rattle.std.specs.Prelude.{◌≡◌, pos, IfOk, true, false};
ghost use Rattle.ob_words.specs.declared.types.IntType.TheVariants.{Int};
ghost use Rattle.ob_words.specs.declared.types.Relation.TheVariants.{Eq};
ghost use Rattle.ob_tree.specs.Types.{PlainType};
ghost use Rattle.ob_tree.specs.StructsView.{plain_structs};
ghost use Rattle.ob_tree.specs.TypeView.{plain_type};
ghost use Rattle.ob_typed.specs.Conversions.{Checked as PlainChecked};
ghost use Rattle.ob_typed.specs.Places.{pointed_to};
ghost use Rattle.ob_typed.specs.TypedTree.{TypedExpr, TypedNode};
ghost use Rattle.ob_typed.specs.TypedView.{typed_expr, typed_lean, typed_node};
ghost use Rattle.ob_typed.specs.UnaryRules.{address_rule, cast_rule, complement, int_cast, is_null_pointer, is_zero_number, negative, null_cast, pointer_cast, positive, size_rule, star_rule, unary_rule, unary_type, void_cast};
ghost use Rattle.ob_conversions.specs.CheckedView.{checked, mark, target};
ghost use Rattle.ob_conversions.specs.Gives.{Gives};

use crate::refused::{not_place, operand};
use ob_base::{NoMemory, boxed_with, let_go};
use ob_conversions::complete::{is_object_type, is_sized};
use ob_conversions::fitting::null;
use ob_conversions::leans::pointed_to;
use ob_conversions::nodes::{arith, compare, dropped, pointer_compare};
use ob_conversions::nulls::is_bare_null;
use ob_conversions::numbers::{as_int, number};
use ob_conversions::types::{copy_type, is_void, target};
use ob_conversions::values::{leaning, placed, value};
use ob_conversions::{Checked, Mark, beside};
use ob_layout::size;
use ob_tree::{CType, Sign, Structs, TypeFault, TypeKind};
use ob_typed::{TExpr, TNode, TPlace};
use ob_words::{BinOp, IntType, Relation, convert, promote};
use std::alloc::Global;

/// The pointer to a place.
fn address(alloc: Global, line: u32, p: TPlace) -> Result<Checked, NoMemory>
    ensures { IfOk result (λ r. checked r ≡ PlainChecked.Plain (TypedExpr.Typed line (PlainType.Pointer (plain_type p.ty)) (TypedNode.Lean (typed_lean p.lean)))) }
{
    let TPlace {
        line: own,
        ty,
        lean,
    } = p;
    let (ty, lean) = boxed_with(alloc, ty, lean)?;
    Ok(Checked::Plain(leaning(alloc, line, ty, lean)?))
}

/// `&` (C99 6.5.3.2).
pub fn address_rule(alloc: Global, m: Mark, x: Checked) -> Result<Checked, TypeFault>
    ensures { Gives checked result (address_rule (mark m) (checked x)) }
{
    match x {
        Checked::Place(p) => Ok(address(alloc, m.line, p)?),
        other => not_place(m, other),
    }
}

/// What a pointer points to, as a place.
fn starred(alloc: Global, line: u32, x: TExpr) -> Result<Checked, NoMemory>
    ensures { IfOk result (λ r. checked r ≡ PlainChecked.Place line (target (plain_type x.ty)) (pointed_to (typed_expr x))) }
{
    let (ty, x) = beside(target(alloc, &x.ty), x)?;
    let (lean, ty) = beside(pointed_to(alloc, x), ty)?;
    Ok(placed(line, ty, lean))
}

/// `*` (C99 6.5.3.2).
pub fn star_rule(alloc: Global, m: Mark, x: TExpr) -> Result<Checked, TypeFault>
    ensures { Gives checked result (star_rule (mark m) (typed_expr x)) }
{
    match &x.ty {
        CType::Pointer(t) => if is_void(t) {
            operand(m, x)
        } else {
            Ok(starred(alloc, m.line, x)?)
        },
        _ => operand(m, x),
    }
}

fn positive(alloc: Global, kind: IntType, x: TExpr) -> Result<Checked, NoMemory>
    ensures { IfOk result (λ r. checked r ≡ positive kind (typed_expr x)) }
{
    Ok(Checked::Plain(as_int(alloc, promote(kind), x)?))
}

/// The operand is taken from 0.
fn negative(alloc: Global, m: Mark, kind: IntType, x: TExpr) -> Result<Checked, NoMemory>
    ensures { IfOk result (λ r. checked r ≡ negative (mark m) kind (typed_expr x)) }
{
    let wide = promote(kind);
    let x = as_int(alloc, wide, x)?;
    Ok(Checked::Plain(arith(alloc, m.line, BinOp::Sub, wide, number(m.line, wide, 0), x)?))
}

/// The operand with each bit of -1 turned.
fn complement(alloc: Global, m: Mark, kind: IntType, x: TExpr) -> Result<Checked, NoMemory>
    ensures { IfOk result (λ r. checked r ≡ complement (mark m) kind (typed_expr x)) }
{
    let wide = promote(kind);
    let x = as_int(alloc, wide, x)?;
    Ok(Checked::Plain(arith(
        alloc,
        m.line,
        BinOp::Xor,
        wide,
        x,
        number(m.line, wide, convert(wide, -1)),
    )?))
}

/// Whether the operand is 0.
fn is_zero_number(alloc: Global, m: Mark, kind: IntType, x: TExpr) -> Result<Checked, NoMemory>
    ensures { IfOk result (λ r. checked r ≡ is_zero_number (mark m) kind (typed_expr x)) }
{
    let wide = promote(kind);
    let x = as_int(alloc, wide, x)?;
    Ok(Checked::Plain(compare(alloc, m.line, Relation::Eq, x, number(m.line, wide, 0))?))
}

/// Whether the operand is the null pointer of its type.
fn is_null_pointer(alloc: Global, m: Mark, x: TExpr) -> Result<Checked, NoMemory>
    ensures { IfOk result (λ r. checked r ≡ PlainChecked.Plain (TypedExpr.Typed m.line (PlainType.Int Int) (TypedNode.PtrCompare Eq (typed_expr x) (TypedExpr.Typed m.line (plain_type x.ty) TypedNode.Null)))) }
{
    let (ty, x) = beside(copy_type(alloc, &x.ty), x)?;
    Ok(Checked::Plain(pointer_compare(alloc, m.line, Relation::Eq, x, null(m.line, ty))?))
}

/// `+`, `-`, `~` and `!` (C99 6.5.3.3).
fn unary_type(alloc: Global, m: Mark, sign: Sign, x: TExpr) -> Result<Checked, TypeFault>
    ensures { Gives checked result (unary_type (mark m) sign (plain_type x.ty) (typed_expr x)) }
{
    match (sign, &x.ty) {
        (Sign::Plus, CType::Int(kind)) => Ok(positive(alloc, *kind, x)?),
        (Sign::Minus, CType::Int(kind)) => Ok(negative(alloc, m, *kind, x)?),
        (Sign::Tilde, CType::Int(kind)) => Ok(complement(alloc, m, *kind, x)?),
        (Sign::Not, CType::Int(kind)) => Ok(is_zero_number(alloc, m, *kind, x)?),
        (Sign::Not, CType::Pointer(_)) => Ok(is_null_pointer(alloc, m, x)?),
        _ => operand(m, x),
    }
}

/// A unary operator (C99 6.5.3).
pub fn unary_rule(alloc: Global, m: Mark, sign: Sign, x: Checked) -> Result<Checked, TypeFault>
    ensures { Gives checked result (unary_rule (mark m) sign (checked x)) }
{
    match sign {
        Sign::Amp => address_rule(alloc, m, x),
        Sign::Star => {
            let x = value(alloc, x)?;
            star_rule(alloc, m, x)
        }
        sign => {
            let x = value(alloc, x)?;
            unary_type(alloc, m, sign, x)
        }
    }
}

/// `sizeof` (C99 6.5.3.4), from the operand's type.
pub fn size_rule(s: &Structs, m: Mark, t: &CType) -> Result<Checked, TypeFault>
    ensures { Gives checked result (size_rule (plain_structs s.now) (mark m) (plain_type t.now)) }
{
    if is_object_type(s, t) {
        Ok(Checked::Plain(number(m.line, IntType::ULong, size(s, t) as i128)))
    } else if is_sized(s, t) {
        Err(TypeFault::Fault(TypeKind::Constant, m.first))
    } else {
        Err(TypeFault::Fault(TypeKind::Incomplete, m.first))
    }
}

fn null_cast(null: bool, e: TExpr) -> Checked
    ensures { checked result ≡ null_cast null (typed_expr e) }
{
    if null {
        Checked::NullPointer {
            bare: false,
            value: e,
        }
    } else {
        Checked::Plain(e)
    }
}

/// A value with another type.
fn with_pointer(e: TExpr, target: Box<CType>) -> TExpr
    ensures { typed_expr result ≡ TypedExpr.Typed e.line (PlainType.Pointer (plain_type target.value)) (typed_node e.node) }
{
    let TExpr { line, ty, node } = e;
    let_go(ty);
    TExpr {
        line,
        ty: CType::Pointer(target),
        node,
    }
}

/// A null pointer in place of a value.
fn null_for(e: TExpr, target: Box<CType>) -> TExpr
    ensures { typed_expr result ≡ TypedExpr.Typed e.line (PlainType.Pointer (plain_type target.value)) TypedNode.Null }
{
    let line = e.line;
    let_go(e);
    null(line, CType::Pointer(target))
}

/// A cast to a pointer.
fn pointer_cast(m: Mark, bare: bool, target: Box<CType>, x: TExpr) -> Result<Checked, TypeFault>
    ensures { Gives checked result (pointer_cast (mark m) bare (plain_type target.value) (plain_type x.ty) (typed_expr x)) }
{
    match &x.ty {
        CType::Pointer(_) => Ok(null_cast(bare, with_pointer(x, target))),
        CType::Int(_) => if bare {
            Ok(null_cast(true, null_for(x, target)))
        } else {
            operand(m, (x, target))
        },
        _ => operand(m, (x, target)),
    }
}

/// A cast to `void`.
fn void_cast(alloc: Global, m: Mark, x: TExpr) -> Result<Checked, TypeFault>
    ensures { Gives checked result (void_cast (mark m) (plain_type x.ty) (typed_expr x)) }
{
    match &x.ty {
        CType::Struct(_) => operand(m, x),
        _ => Ok(Checked::Plain(dropped(alloc, x)?)),
    }
}

/// A cast to an integer type.
fn int_cast(alloc: Global, m: Mark, kind: IntType, x: TExpr) -> Result<Checked, TypeFault>
    ensures { Gives checked result (int_cast (mark m) kind (plain_type x.ty) (typed_expr x)) }
{
    match &x.ty {
        CType::Int(_) => Ok(Checked::Plain(as_int(alloc, kind, x)?)),
        _ => operand(m, x),
    }
}

/// A cast to a type (C99 6.5.4).
pub fn cast_rule(alloc: Global, m: Mark, t: CType, x: Checked) -> Result<Checked, TypeFault>
    ensures { Gives checked result (cast_rule (mark m) (plain_type t) (checked x)) }
{
    let bare = is_bare_null(&x);
    let (x, t) = beside(value(alloc, x), t)?;
    match t {
        CType::Void => void_cast(alloc, m, x),
        CType::Int(kind) => int_cast(alloc, m, kind, x),
        CType::Pointer(target) => pointer_cast(m, bare, target, x),
        t => operand(m, (x, t)),
    }
}
