//! Declarators (C99 6.7.5): stars, then the brackets. An array without a length has the length 0.
ghost use Rattle.std.specs.Prelude.{◌≡◌, ℤ, pos, ◌<ℤ◌, IfOk, Ok, Option, unsigned_abs};
ghost use Rattle.ob_tree.specs.StructsView.{plain_structs};
ghost use Rattle.ob_tree.specs.TypeView.{plain_type};
ghost use Rattle.ob_typed.specs.Specifiers.{arrays, declarator_type, length_rule, object_type, parameter_type, pointers, positive_length};
ghost use Rattle.ob_typed.specs.TypedView.{typed_expr};
ghost use Rattle.ob_consts.specs.Refusal.{Answers};
ghost use Rattle.ob_conversions.specs.CheckedView.{mark};
ghost use Rattle.ob_conversions.specs.Gives.{Gives};

use ob_base::NoMemory;
use ob_consts::{NotConstant, constant};
use ob_conversions::Mark;
use ob_conversions::complete::{is_object_type, is_sized};
use ob_conversions::types::{array_of, is_unusable, pointer_to};
use ob_tree::{CType, Structs, TypeFault, TypeKind};
use ob_typed::TExpr;
use std::alloc::Global;

/// A pointer to a pointer .. to a type, `stars` deep.
pub fn pointers(alloc: Global, stars: u32, t: CType) -> Result<CType, NoMemory>
    ensures { IfOk result (λ r. plain_type r ≡ pointers stars (plain_type t)) }
{
    let mut t = t;
    for star in 0..stars {
        t = pointer_to(alloc, t)?;
    }
    Ok(t)
}

/// Arrays of these lengths, the first of them outermost.
fn arrays(alloc: Global, t: CType, lengths: &[u64]) -> Result<CType, NoMemory>
    ensures { IfOk result (λ r. plain_type r ≡ arrays (plain_type t) lengths.now) }
{
    match lengths {
        [] => Ok(t),
        [length, rest @ ..] => {
            let element = arrays(alloc, t, rest)?;
            array_of(alloc, element, *length)
        }
    }
}

/// The type of a declarator: arrays of these lengths, the first of them outermost, of pointers.
pub fn declarator_type(
    alloc: Global,
    t: CType,
    stars: u32,
    lengths: &[u64],
) -> Result<CType, NoMemory>
    ensures { IfOk result (λ r. plain_type r ≡ declarator_type (plain_type t) stars lengths.now) }
{
    let t = pointers(alloc, stars, t)?;
    arrays(alloc, t, lengths)
}

/// The type of a parameter, where an array is a pointer to its elements (C99 6.7.5.3).
pub fn parameter_type(
    alloc: Global,
    t: CType,
    stars: u32,
    lengths: &[u64],
) -> Result<CType, NoMemory>
    ensures { IfOk result (λ r. plain_type r ≡ parameter_type (plain_type t) stars lengths.now) }
{
    match lengths {
        [] => pointers(alloc, stars, t),
        [_, rest @ ..] => {
            let element = declarator_type(alloc, t, stars, rest)?;
            pointer_to(alloc, element)
        }
    }
}

/// The length of an array (C99 6.7.5.2): a constant of at least 1. A constant that no `u64` holds, which no type
/// has, finds too little memory.
pub fn length_rule(m: Mark, x: &TExpr) -> Result<u64, TypeFault>
    ensures { Gives (λ n. n) result (length_rule (mark m) (typed_expr x.now)) }
{
    if is_unusable(&x.ty) {
        return Err(TypeFault::Fault(TypeKind::Operand, m.at));
    }
    positive_length(m, constant(x))
}

/// The length that a constant tells, where it is one.
fn positive_length(m: Mark, value: Result<i128, NotConstant>) -> Result<u64, TypeFault>
    ensures { (known : Option ℤ) → Answers value known → Gives (λ n. n) result (positive_length (mark m) known) }
{
    match value {
        Ok(value) if value > 0 => counted(value),
        _ => Err(TypeFault::Fault(TypeKind::Constant, m.first)),
    }
}

/// A constant above 0 as a number of elements.
fn counted(value: i128) -> Result<u64, TypeFault>
    requires { pos 0 <ℤ value }
    ensures { Gives (λ n. n) result (Ok (unsigned_abs value)) }
{
    match u64::try_from(value) {
        Ok(count) => Ok(count),
        Err(_) => Err(TypeFault::NoMemory),
    }
}

/// That an object, a member or a parameter may have this type; `at` is the place of its name.
pub fn object_type(s: &Structs, t: &CType, at: u32) -> Result<(), TypeFault>
    ensures { Gives (λ _. plain_type t.now) result (object_type (plain_structs s.now) (plain_type t.now) at) }
{
    if is_object_type(s, t) {
        Ok(())
    } else if is_sized(s, t) {
        Err(TypeFault::Fault(TypeKind::Constant, at))
    } else {
        Err(TypeFault::Fault(TypeKind::Incomplete, at))
    }
}
