//! String literals (C99 6.4.5).
ghost use Rattle.std.specs.Prelude.{◌≡◌, [], IfOk, OnOk, length};
ghost use Rattle.ob_tree.specs.Sizes.{is_complete};
ghost use Rattle.ob_tree.specs.Types.{PlainStructs};
ghost use Rattle.ob_tree.specs.TypeView.{plain_type};
ghost use Rattle.ob_typed.specs.Strings.{joined_bytes, string, string_object, string_type, trimmed, with_static};
ghost use Rattle.ob_typed.specs.TypedView.{typed_object};
ghost use Rattle.ob_conversions.specs.CheckedView.{checked, mark};
ghost use Rattle.ob_context.specs.KnownView.{known_of, stand_of};
ghost use Rattle.ob_context.specs.Walks.{Walks};

use ob_base::{NoMemory, Text};
use ob_consts::trimmed;
use ob_context::Known;
use ob_conversions::types::array_of;
use ob_conversions::values::placed;
use ob_conversions::{Checked, Mark, beside};
use ob_tree::{CType, TypeFault, TypeKind};
use ob_typed::{StaticImage, TLean, TStatic, VarName};
use ob_words::IntType;
use std::alloc::Global;

/// Neighbouring string literals as one.
pub fn joined(alloc: Global, strings: &[Text]) -> Result<Text, NoMemory>
    ensures { IfOk result (λ r. r ≡ joined_bytes strings.now) }
{
    let mut joined = Text::new(alloc);
    for string in strings {
        joined.add(string.bytes())?;
    }
    Ok(joined)
}

/// Whether an object can have these bytes and a zero.
fn fits(bytes: &Text) -> bool
    ensures { (structs : PlainStructs) → result ≡ is_complete structs (string_type bytes.now) }
{
    bytes.bytes().len() < 4_194_304
}

/// The type of a string literal.
fn string_type(alloc: Global, bytes: &Text) -> Result<CType, NoMemory>
    ensures { IfOk result (λ t. plain_type t ≡ string_type bytes.now) }
{
    let count = bytes.bytes().len() as u64 + 1;
    array_of(alloc, CType::Int(IntType::Char), count)
}

/// The static object of a string literal.
fn string_object(alloc: Global, line: u32, ty: CType, bytes: Text) -> TStatic
    ensures { typed_object result ≡ record { name = record { name = []; line = line }; ty = plain_type ty; image = record { bytes = trimmed bytes; pointers = [] } } }
{
    TStatic {
        name: VarName {
            name: Text::new(alloc),
            line,
        },
        ty,
        image: StaticImage {
            bytes: trimmed(bytes),
            pointers: Vec::new(alloc),
        },
    }
}

/// A string literal as one more static object, and its number.
fn add_string(alloc: Global, known: &mut Known, line: u32, bytes: Text) -> Result<u32, NoMemory>
    ensures number { IfOk result (λ n. n ≡ length (known_of known.old).statics) }
    ensures known { OnOk result (known_of known.new ≡ with_static (known_of known.old) (string_object line bytes)) }
    ensures stand { OnOk result (stand_of known.new ≡ stand_of known.old) }
{
    let ty = string_type(alloc, &bytes)?;
    known.add_static(string_object(alloc, line, ty, bytes))
}

/// A string literal: an array of characters with a zero at its end, which is one more static object. A fault where it has
/// more bytes than an object can have.
pub fn string(alloc: Global, known: &mut Known, m: Mark, bytes: Text) -> Result<Checked, TypeFault>
    ensures walks { Walks checked result (known_of known.new) (string (mark m) bytes (known_of known.old)) }
    ensures stays { OnOk result (stand_of known.new ≡ stand_of known.old) }
{
    if !fits(&bytes) {
        return Err(TypeFault::Fault(TypeKind::Constant, m.first));
    }
    let ty = string_type(alloc, &bytes)?;
    let (number, ty) = beside(add_string(alloc, known, m.line, bytes), ty)?;
    Ok(placed(m.line, ty, TLean::Static(number)))
}
