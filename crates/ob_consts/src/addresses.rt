ghost use Rattle.std.specs.Prelude.{◌≡◌, ◌*◌, ◌^◌, ◌&&◌, int_le, map, pos, min, option_and_then, option_map, slice_get};
ghost use Rattle.ob_tree.specs.TypeView.{plain_type, plain_types};
ghost use Rattle.ob_tree.specs.StructsView.{plain_structs};
ghost use Rattle.ob_tree.specs.Sizes.{size};
ghost use Rattle.ob_typed.specs.AddressConstants.{address, distance, is_inside, is_near, is_pointer_constant, is_static_value, object_size, offset_by, slid};
ghost use Rattle.ob_typed.specs.Initialisers.{static_types};
ghost use Rattle.ob_typed.specs.TypedView.{typed_expr, typed_lean, typed_node, typed_object};
ghost use Rattle.ob_consts.specs.Shown.{shown};

use crate::constants::value;
use crate::places::StaticPlace;
use ob_tree::{CType, Structs};
use ob_typed::{TExpr, TLean, TNode, TStatic};
use ob_words::{IntType, convert, width};

/// Offsets lie between this and its negative.
const FAR: i128 = 85_070_591_730_234_615_865_843_651_857_942_052_864;

/// Whether the initialiser of a static object may have this value (C99 6.6, 6.7.8): an integer constant
/// expression for a number; for a pointer null, or the address of a static object with an offset from 0 to
/// its size. `statics` has the types of the static objects, in order of number.
pub fn is_static_value(s: &Structs, statics: &Vec<CType>, e: &TExpr) -> bool
    ensures { result ≡ is_static_value (plain_structs s.now) (plain_types statics.now.items) (typed_expr e.now) }
{
    match &e.ty {
        CType::Int(_) => value(e).is_some(),
        CType::Pointer(_) => is_pointer_constant(s, statics, &e.node),
        _ => false,
    }
}

fn is_pointer_constant(s: &Structs, statics: &Vec<CType>, node: &TNode) -> bool
    ensures { result ≡ is_pointer_constant (plain_structs s.now) (plain_types statics.now.items) (typed_node node.now) }
{
    match node {
        TNode::Null => true,
        TNode::Lean(l) => is_inside(s, statics, address(l)),
        _ => false,
    }
}

/// Whether the initialiser of a static object may have this value, beside static objects as they are: those that `statics`
/// has, in order of number.
pub fn is_value_beside(s: &Structs, statics: &Vec<TStatic>, e: &TExpr) -> bool
    ensures { result ≡ is_static_value (plain_structs s.now) (static_types (map typed_object statics.now.items)) (typed_expr e.now) }
{
    match &e.ty {
        CType::Int(_) => value(e).is_some(),
        CType::Pointer(_) => is_pointer_beside(s, statics, &e.node),
        _ => false,
    }
}

fn is_pointer_beside(s: &Structs, statics: &Vec<TStatic>, node: &TNode) -> bool
    ensures { result ≡ is_pointer_constant (plain_structs s.now) (static_types (map typed_object statics.now.items)) (typed_node node.now) }
{
    match node {
        TNode::Null => true,
        TNode::Lean(l) => is_inside_one(s, statics, address(l)),
        _ => false,
    }
}

/// The static object and the offset that a lean is, where both are constant.
pub(crate) fn address(l: &TLean) -> Option<StaticPlace>
    ensures { option_map shown result ≡ address (typed_lean l.now) }
{
    match l {
        TLean::Static(n) => Some(StaticPlace {
            target: *n,
            offset: 0,
        }),
        TLean::Local(_) => None,
        TLean::Value(_) => None,
        TLean::Slide {
            base,
            scale,
            minus,
            number_first: _,
            by,
        } => slid(*minus, *scale, address(base), value(by)),
        TLean::Member(base, offset) => member_of(address(base), *offset),
    }
}

fn member_of(a: Option<StaticPlace>, offset: u64) -> Option<StaticPlace>
    ensures { option_map shown result ≡ option_and_then (λ b. offset_by b (pos offset)) (option_map shown a) }
{
    match a {
        Some(b) => offset_by(b, offset as i128),
        None => None,
    }
}

fn slid(minus: bool, scale: u64, a: Option<StaticPlace>, n: Option<i128>) -> Option<StaticPlace>
    ensures { option_map shown result ≡ slid minus scale (option_map shown a) n }
{
    match (a, n) {
        (Some(b), Some(z)) => offset_by(b, distance(minus, scale, z)),
        _ => None,
    }
}

/// So many elements of `scale` bytes, in bytes.
fn distance(minus: bool, scale: u64, n: i128) -> i128
    ensures { result ≡ distance minus scale n }
{
    let bytes = scale as i128 * convert(IntType::Long, n);
    if minus { 0 - bytes } else { bytes }
}

fn offset_by(a: StaticPlace, z: i128) -> Option<StaticPlace>
    ensures { option_map shown result ≡ offset_by (shown a) z }
{
    match a.offset.checked_add(z) {
        Some(offset) => if is_near(offset) {
            Some(StaticPlace {
                target: a.target,
                offset,
            })
        } else {
            None
        },
        None => None,
    }
}

fn is_near(z: i128) -> bool
    ensures { result ≡ is_near z }
{
    -FAR < z && z < FAR
}

fn is_inside(s: &Structs, statics: &Vec<CType>, a: Option<StaticPlace>) -> bool
    ensures { result ≡ is_inside (plain_structs s.now) (plain_types statics.now.items) (option_map shown a) }
{
    match a {
        Some(b) => is_within(s, statics.get(b.target as usize), b),
        None => false,
    }
}

fn is_inside_one(s: &Structs, statics: &Vec<TStatic>, a: Option<StaticPlace>) -> bool
    ensures { result ≡ is_inside (plain_structs s.now) (static_types (map typed_object statics.now.items)) (option_map shown a) }
{
    match a {
        Some(b) => is_within(s, type_at(statics, b.target), b),
        None => false,
    }
}

/// The type of a static object.
fn type_at(statics: &Vec<TStatic>, target: u32) -> Option<&CType>
    ensures { option_map (λ t. plain_type t.now) result ≡ slice_get (static_types (map typed_object statics.now.items)) target }
{
    match object_at(statics, target as usize) {
        Some(o) => Some(&o.ty),
        None => None,
    }
}

fn object_at(statics: &Vec<TStatic>, place: usize) -> Option<&TStatic>
    ensures { option_map (λ o. o.now) result ≡ slice_get statics.now.items place }
{
    statics.get(place)
}

/// Whether an offset lies in an object of this type, or at its end.
fn is_within(s: &Structs, t: Option<&CType>, a: StaticPlace) -> bool
    ensures { result ≡ (int_le (pos 0) a.offset && int_le a.offset (pos (object_size (plain_structs s.now) (option_map (λ u. plain_type u.now) t.entry)))) }
{
    0 <= a.offset && a.offset <= reach(s, t)
}

/// The bytes of an object of this type, as far as offsets go.
fn reach(s: &Structs, t: Option<&CType>) -> i128
    ensures { result ≡ pos (min (object_size (plain_structs s.now) (option_map (λ u. plain_type u.now) t.entry)) (2 ^ 126)) }
{
    match t {
        Some(t) => bytes_of(s, t) as i128,
        None => 0,
    }
}

/// The bytes of a type, as far as offsets go; 0 of a type without a size.
fn bytes_of(s: &Structs, t: &CType) -> u128
    ensures { result ≡ min (size (plain_structs s.now) (plain_type t.now)) (2 ^ 126) }
{
    match t {
        CType::Void => 0,
        CType::Int(kind) => (width(*kind) / 8) as u128,
        CType::Pointer(_) => 8,
        CType::Array(element, count) => repeated(bytes_of(s, element), *count),
        CType::Struct(number) => match s.layout(*number) {
            Some(l) => l.size as u128,
            None => 0,
        },
    }
}

fn repeated(bytes: u128, count: u64) -> u128
    ensures { result ≡ min (bytes * count) (2 ^ 126) }
{
    bytes.saturating_mul(count as u128).min(FAR as u128)
}
