//! Structure specifiers and tags (C99 6.7.2.1, 6.7.2.3).
ghost use Rattle.std.specs.Prelude.{◌≡◌, IfOk, IsTrue, OnOk, Some, is_some, length, option_map, slice_get};
ghost use Rattle.ob_tree.specs.Types.{PlainType, is_complete_row, unknown_struct};
ghost use Rattle.ob_tree.specs.TypeView.{plain_members, plain_type};
ghost use Rattle.ob_typed.specs.Expressions.{with_structs};
ghost use Rattle.ob_typed.specs.Specifiers.{closed, mentioned, new_struct, new_tag, opened, struct_place};
ghost use Rattle.ob_members.specs.StructuresView.{plain_structures};
ghost use Rattle.ob_conversions.specs.Gives.{Gives};
ghost use Rattle.ob_context.specs.KnownView.{known_of, stand_of};
ghost use Rattle.ob_context.specs.Walks.{Walks};
ghost use Rattle.ob_specifiers.specs.Filled.{filled};

use ob_base::{NoMemory, Text, let_go};
use ob_context::Known;
use ob_members::Structures;
use ob_tree::{CType, MemberRow, TypeFault, TypeKind};
use std::alloc::Global;

/// One more structure without its members yet, and its number. More than a `u32` counts find too little memory.
fn new_struct(alloc: Global, known: &mut Known) -> Result<u32, NoMemory>
    ensures number { IfOk result (λ n. n ≡ length (known_of known.old).structs) }
    ensures known { OnOk result (known_of known.new ≡ new_struct (known_of known.old)) }
    ensures stand { OnOk result (stand_of known.new ≡ stand_of known.old) }
{
    let number = known.structs.len();
    known.structs.declare(alloc)?;
    match u32::try_from(number) {
        Ok(number) => Ok(number),
        Err(_) => Err(NoMemory),
    }
}

/// One more structure, under a tag in the innermost open block, and its number.
fn new_tag(alloc: Global, known: &mut Known, name: &Text) -> Result<u32, NoMemory>
    ensures number { IfOk result (λ n. n ≡ length (known_of known.old).structs) }
    ensures known { OnOk result (known_of known.new ≡ new_tag name.now (length (stand_of known.old).outer) (known_of known.old)) }
    ensures stand { OnOk result (stand_of known.new ≡ stand_of known.old) }
{
    let number = new_struct(alloc, known)?;
    known.tags.declare(alloc, name, number)?;
    Ok(number)
}

/// A tag that is mentioned: it means the structure of the one in force, and is declared by its mention where there is
/// none.
pub fn mentioned(alloc: Global, known: &mut Known, name: &Text) -> Result<CType, NoMemory>
    ensures is { IfOk result (λ t. (plain_type t, known_of known.new) ≡ mentioned name.now (length (stand_of known.old).outer) (known_of known.old)) }
    ensures stays { OnOk result (stand_of known.new ≡ stand_of known.old) }
{
    match known.tags.find(name) {
        Some(tag) => Ok(CType::Struct(tag.number)),
        None => Ok(CType::Struct(new_tag(alloc, known, name)?)),
    }
}

/// The structure of a tag of the innermost open block, else a new one.
fn opened_tag(alloc: Global, known: &mut Known, name: &Text) -> Result<u32, NoMemory>
    ensures is { IfOk result (λ n. (PlainType.Struct n, known_of known.new) ≡ opened (Some name.now) (length (stand_of known.old).outer) (known_of known.old)) }
    ensures stays { OnOk result (stand_of known.new ≡ stand_of known.old) }
{
    match known.tags.find_here(name) {
        Some(tag) => Ok(tag.number),
        None => new_tag(alloc, known, name),
    }
}

/// A structure with members, or whose tag stands alone in a declaration: it is the one of the tag in the innermost open
/// block, else a new one.
pub fn opened(alloc: Global, known: &mut Known, tag: Option<&Text>) -> Result<u32, NoMemory>
    ensures is { IfOk result (λ n. (PlainType.Struct n, known_of known.new) ≡ opened (option_map (λ t. t.now) tag.entry) (length (stand_of known.old).outer) (known_of known.old)) }
    ensures stays { OnOk result (stand_of known.new ≡ stand_of known.old) }
{
    match tag {
        Some(name) => opened_tag(alloc, known, name),
        None => new_struct(alloc, known),
    }
}

/// The place that faults of a structure stand at: that of its tag, else of the word `struct`, which stands at `first`.
pub fn struct_place(tag: Option<&Text>, first: u32) -> u32
    ensures { result ≡ struct_place (option_map (λ t. t.now) tag.entry) first }
{
    match tag {
        Some(_) => first.saturating_add(1),
        None => first,
    }
}

/// Gives a structure its members: a fault where it has some or its own list stands around this one, or where it is too
/// great with them.
pub fn close(
    alloc: Global,
    known: &mut Known,
    number: u32,
    at: u32,
    members: Vec<MemberRow>,
) -> Result<(), TypeFault>
    ensures walks { Walks (λ _. PlainType.Struct number) result (known_of known.new) (with_structs (PlainType.Struct number) (closed (stand_of known.old).around (known_of known.old).structs (PlainType.Struct number) at (plain_members members.items)) (known_of known.old)) }
    ensures stays { OnOk result (stand_of known.new ≡ stand_of known.old) }
{
    if is_complete_row(&known.structs, number) || known.around.has(number) {
        let_go(members);
        return Err(TypeFault::Fault(TypeKind::Twice, at));
    }
    fill(alloc, &mut known.structs, number, at, members)
}

/// Gives a structure that has none its members.
fn fill(
    alloc: Global,
    s: &mut Structures,
    number: u32,
    at: u32,
    members: Vec<MemberRow>,
) -> Result<(), TypeFault>
    ensures { Gives (λ _. plain_structures s.new) result (filled (plain_structures s.old) number at (plain_members members.items)) }
{
    // Each number that is handed out has a row, and a row that isn't complete has no members: neither of these two
    // faults comes.
    if !has_row(s, number) {
        let_go(members);
        return Err(TypeFault::Fault(TypeKind::Constant, at));
    }
    if !is_unknown(s, number) {
        let_go(members);
        return Err(TypeFault::NoMemory);
    }
    match s.complete(alloc, number, members) {
        Ok(()) => Ok(()),
        Err(_) => Err(TypeFault::Fault(TypeKind::Constant, at)),
    }
}

fn has_row(s: &Structures, number: u32) -> bool
    ensures { result ≡ is_some (slice_get (plain_structures s.now) number) }
{
    s.row(number).is_some()
}

/// Whether a structure has its members.
fn is_complete_row(s: &Structures, number: u32) -> bool
    ensures { result ≡ is_complete_row (slice_get (plain_structures s.now) number) }
{
    match s.row(number) {
        Some(row) => row.complete,
        None => false,
    }
}

/// Whether a structure is declared and has no members yet.
fn is_unknown(s: &Structures, number: u32) -> bool
    ensures { IsTrue result → slice_get (plain_structures s.now) number ≡ Some unknown_struct }
{
    match s.row(number) {
        Some(row) => !row.complete && row.members.is_empty(),
        None => false,
    }
}
