//! Tests on types and copies of them (C99 6.2.5, 6.2.7).
ghost use Rattle.std.specs.Prelude.{◌≡◌, IfOk};
ghost use Rattle.ob_tree.specs.Types.{PlainType};
ghost use Rattle.ob_tree.specs.TypeView.{plain_type};
ghost use Rattle.ob_typed.specs.TypeTests.{int_number, is_char, is_scalar, is_struct, is_unusable, is_void, same_int, same_type};
ghost use Rattle.ob_conversions.specs.CheckedView.{target};

use ob_base::{NoMemory, boxed};
use ob_tree::CType;
use ob_words::IntType;
use std::alloc::Global;

/// The number of an integer type in their order, 0 to 10.
fn int_number(kind: IntType) -> u8
    ensures { result ≡ int_number kind }
{
    match kind {
        IntType::Char => 0,
        IntType::SChar => 1,
        IntType::UChar => 2,
        IntType::Short => 3,
        IntType::UShort => 4,
        IntType::Int => 5,
        IntType::UInt => 6,
        IntType::Long => 7,
        IntType::ULong => 8,
        IntType::LLong => 9,
        IntType::ULLong => 10,
    }
}

/// Whether two integer types are one type.
pub fn same_int(a: IntType, b: IntType) -> bool
    ensures { result ≡ same_int a b }
{
    int_number(a) == int_number(b)
}

/// Whether an integer type is one of the three character types (C99 6.2.5).
pub fn is_char(kind: IntType) -> bool
    ensures { result ≡ is_char kind }
{
    match kind {
        IntType::Char | IntType::SChar | IntType::UChar => true,
        _ => false,
    }
}

/// Whether two types are one type. Arrays are one where their lengths are, and structures where their numbers are.
pub fn same_type(t: &CType, u: &CType) -> bool
    ensures { result ≡ same_type (plain_type t.now) (plain_type u.now) }
{
    match (t, u) {
        (CType::Void, CType::Void) => true,
        (CType::Int(a), CType::Int(b)) => same_int(*a, *b),
        (CType::Pointer(t), CType::Pointer(u)) => same_type(t, u),
        (CType::Array(t, m), CType::Array(u, n)) => *m == *n && same_type(t, u),
        (CType::Struct(m), CType::Struct(n)) => *m == *n,
        _ => false,
    }
}

/// Whether a type is `void`.
pub fn is_void(t: &CType) -> bool
    ensures { result ≡ is_void (plain_type t.now) }
{
    match t {
        CType::Void => true,
        _ => false,
    }
}

/// Whether a type is that of a structure.
pub fn is_struct(t: &CType) -> bool
    ensures { result ≡ is_struct (plain_type t.now) }
{
    match t {
        CType::Struct(_) => true,
        _ => false,
    }
}

/// Whether a type is an integer type or that of a pointer, which a controlling expression has to be (C99 6.8.4, 6.8.5).
pub fn is_scalar(t: &CType) -> bool
    ensures { result ≡ is_scalar (plain_type t.now) }
{
    match t {
        CType::Int(_) | CType::Pointer(_) => true,
        _ => false,
    }
}

/// Whether a value of a type may not be used: `void` has none, and one of a structure type is none here.
pub fn is_unusable(t: &CType) -> bool
    ensures { result ≡ is_unusable (plain_type t.now) }
{
    match t {
        CType::Void | CType::Struct(_) => true,
        _ => false,
    }
}

/// The type of a pointer to a type.
pub fn pointer_to(alloc: Global, t: CType) -> Result<CType, NoMemory>
    ensures { IfOk result (λ p. plain_type p ≡ PlainType.Pointer (plain_type t)) }
{
    Ok(CType::Pointer(boxed(alloc, t)?))
}

/// The type of an array of `count` elements of a type.
pub fn array_of(alloc: Global, t: CType, count: u64) -> Result<CType, NoMemory>
    ensures { IfOk result (λ a. plain_type a ≡ PlainType.Array (plain_type t) count) }
{
    Ok(CType::Array(boxed(alloc, t)?, count))
}

/// A type of its own that is the same.
pub fn copy_type(alloc: Global, t: &CType) -> Result<CType, NoMemory>
    ensures { IfOk result (λ copy. plain_type copy ≡ plain_type t.now) }
{
    match t {
        CType::Void => Ok(CType::Void),
        CType::Int(kind) => Ok(CType::Int(*kind)),
        CType::Pointer(target) => {
            let target = copy_type(alloc, target)?;
            pointer_to(alloc, target)
        }
        CType::Array(element, count) => {
            let element = copy_type(alloc, element)?;
            array_of(alloc, element, *count)
        }
        CType::Struct(number) => Ok(CType::Struct(*number)),
    }
}

/// The type that a pointer type points to, as a type of its own; any other type itself.
pub fn target(alloc: Global, t: &CType) -> Result<CType, NoMemory>
    ensures { IfOk result (λ r. plain_type r ≡ target (plain_type t.now)) }
{
    match t {
        CType::Pointer(t) => copy_type(alloc, t),
        t => copy_type(alloc, t),
    }
}
