//! Items: an expression for a part of a type.
ghost use Rattle.std.specs.Prelude.{false, if◌then◌else◌, map, option_map};
ghost use Rattle.ob_tree.specs.declared.faults.TypeKind.TheVariants as kind;
ghost use Rattle.ob_tree.specs.StructsView.{plain_structs};
ghost use Rattle.ob_tree.specs.TypeView.{plain_type};
ghost use Rattle.ob_typed.specs.Conversions.{value, value_type};
ghost use Rattle.ob_typed.specs.Faults.{fault};
ghost use Rattle.ob_typed.specs.TypeTests.{is_unusable};
ghost use Rattle.ob_typed.specs.Initialisers.{array_item, constant_item, item_rule, part_rule, scalar_item, static_types, struct_item};
ghost use Rattle.ob_typed.specs.TypedView.{typed_expr, typed_init, typed_object};
ghost use Rattle.ob_conversions.specs.CheckedView.{checked, mark};
ghost use Rattle.ob_conversions.specs.Gives.{Gives};
ghost use Rattle.ob_conversions.specs.declared.checked.Checked.TheVariants.{Place};

use ob_consts::is_value_beside;
use ob_context::refused;
use ob_conversions::fitting::{as_type, fits};
use ob_conversions::types::{copy_type, is_unusable, is_void};
use ob_conversions::values::value;
use ob_conversions::{Checked, Mark, beside};
use ob_tree::{CType, Structs, TypeFault, TypeKind};
use ob_typed::{TExpr, TInit, TPlace, TStatic};
use std::alloc::Global;

/// A value for an object that, where `fixed`, is static and needs a constant.
fn constant_item(
    s: &Structs,
    statics: &Vec<TStatic>,
    fixed: bool,
    m: Mark,
    e: TExpr,
) -> Result<TInit, TypeFault>
    ensures { Gives typed_init result (constant_item (plain_structs s.now) (static_types (map typed_object statics.now.items)) fixed (mark m) (typed_expr e)) }
{
    if !fixed || is_value_beside(s, statics, &e) {
        Ok(TInit::Value(e))
    } else {
        refused(TypeKind::Constant, m.first, e)
    }
}

/// An expression for a number or a pointer.
fn scalar_item(
    alloc: Global,
    s: &Structs,
    statics: &Vec<TStatic>,
    fixed: bool,
    t: &CType,
    m: Mark,
    x: Checked,
) -> Result<TInit, TypeFault>
    ensures { Gives typed_init result (scalar_item (plain_structs s.now) (static_types (map typed_object statics.now.items)) fixed (plain_type t.now) (mark m) (checked x)) }
{
    let does_fit = fits(&x, t);
    let x = value(alloc, x)?;
    if is_unusable(&x.ty) {
        refused(TypeKind::Operand, m.at, x)
    } else if does_fit {
        let (t, x) = beside(copy_type(alloc, t), x)?;
        let x = as_type(alloc, x, t)?;
        constant_item(s, statics, fixed, m, x)
    } else {
        refused(TypeKind::Assign, m.first, x)
    }
}

/// An expression for an array, which needs a list.
fn array_item(alloc: Global, m: Mark, x: Checked) -> Result<TInit, TypeFault>
    ensures { Gives typed_init result (array_item (mark m) (checked x)) }
{
    let x = value(alloc, x)?;
    if is_void(&x.ty) {
        refused(TypeKind::Operand, m.at, x)
    } else {
        refused(TypeKind::Count, m.first, x)
    }
}

/// An expression for a structure. An automatic one may be copied from a place of its type.
fn struct_item(
    alloc: Global,
    fixed: bool,
    number: u32,
    m: Mark,
    x: Checked,
) -> Result<TInit, TypeFault>
    ensures { Gives typed_init result (struct_item fixed number (mark m) (checked x)) }
{
    match x {
        Checked::Place(p) => if fixed {
            not_copied(alloc, m, Checked::Place(p))
        } else {
            copied(alloc, number, m, p)
        },
        x => not_copied(alloc, m, x),
    }
}

/// A place for an automatic structure.
fn copied(alloc: Global, number: u32, m: Mark, p: TPlace) -> Result<TInit, TypeFault>
    ensures { Gives typed_init result (struct_item false number (mark m) (checked (Place p))) }
{
    match &p.ty {
        CType::Struct(other) => if *other == number {
            Ok(TInit::Copy(p))
        } else {
            refused(TypeKind::Assign, m.first, p)
        },
        _ => not_copied(alloc, m, Checked::Place(p)),
    }
}

/// An expression that no structure is copied from.
fn not_copied(alloc: Global, m: Mark, x: Checked) -> Result<TInit, TypeFault>
    ensures { Gives typed_init result (if is_unusable (value_type (value (checked x))) then fault kind.Operand m.at else fault kind.Assign m.first) }
{
    let x = value(alloc, x)?;
    if is_unusable(&x.ty) {
        refused(TypeKind::Operand, m.at, x)
    } else {
        refused(TypeKind::Assign, m.first, x)
    }
}

/// An expression for a part of a type.
fn item_rule(
    alloc: Global,
    s: &Structs,
    statics: &Vec<TStatic>,
    fixed: bool,
    t: &CType,
    m: Mark,
    x: Checked,
) -> Result<TInit, TypeFault>
    ensures { Gives typed_init result (item_rule (plain_structs s.now) (static_types (map typed_object statics.now.items)) fixed (plain_type t.now) (mark m) (checked x)) }
{
    match t {
        CType::Int(_) | CType::Pointer(_) => scalar_item(alloc, s, statics, fixed, t, m, x),
        CType::Array(_, _) => array_item(alloc, m, x),
        CType::Struct(number) => struct_item(alloc, fixed, *number, m, x),
        CType::Void => refused(TypeKind::Operand, m.at, x),
    }
}

/// An expression for a part of a type, or past the end, where any will do.
pub(crate) fn part_rule(
    alloc: Global,
    s: &Structs,
    statics: &Vec<TStatic>,
    fixed: bool,
    t: Option<&CType>,
    m: Mark,
    x: Checked,
) -> Result<TInit, TypeFault>
    ensures { Gives typed_init result (part_rule (plain_structs s.now) (static_types (map typed_object statics.now.items)) fixed (option_map (λ u. plain_type u.now) t.entry) (mark m) (checked x)) }
{
    match t {
        Some(t) => item_rule(alloc, s, statics, fixed, t, m, x),
        None => Ok(TInit::Value(value(alloc, x)?)),
    }
}
