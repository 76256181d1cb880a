//! The names of variables.
ghost use Rattle.std.specs.Prelude.{◌≡◌, ◌++◌, ℕ, IfOk, OnOk};
ghost use Rattle.ob_tree.specs.TypeView.{plain_type, plain_types};
ghost use Rattle.ob_typed.specs.ProgramView.{typed_program};
ghost use Rattle.ob_typed.specs.TypeTests.{int_number};
ghost use Rattle.ob_lower.specs.Names.{function_names, home_word, kind_number, row_if_named, static_names, variable_names};
ghost use Rattle.ob_homes.specs.HomesView.{plain_home, plain_homes};

use crate::adding::next;
use crate::lookup::{home_at, type_at};
use ob_base::{NoMemory, push_on};
use ob_code::NameRow;
use ob_homes::{Home, Homes, homes};
use ob_tree::CType;
use ob_typed::{TFunction, Typed, VarName};
use ob_words::IntType;
use std::alloc::Global;

/// The names of a program's static objects, and then those of its functions' variables.
pub fn name_rows(alloc: Global, t: &Typed) -> Result<Vec<NameRow>, NoMemory>
    ensures { IfOk result (λ rows. rows.items ≡ static_names 1 (typed_program t.now).statics ++ function_names 1 (typed_program t.now).functions) }
{
    let mut rows = Vec::new(alloc);
    push_static_names(alloc, &mut rows, t)?;
    push_function_names(alloc, &mut rows, t)?;
    Ok(rows)
}

/// Puts the names of static objects at the end.
fn push_static_names(alloc: Global, rows: &mut Vec<NameRow>, t: &Typed) -> Result<(), NoMemory>
    ensures { OnOk result (rows.new.items ≡ rows.old.items ++ static_names 1 (typed_program t.now).statics) }
{
    let mut object: u32 = 1;
    for o in &t.statics {
        push_name(alloc, rows, (0, object, 0), &o.ty, &o.name)?;
        object = next(object)?;
    }
    Ok(())
}

/// Puts the names of all functions' variables at the end.
fn push_function_names(alloc: Global, rows: &mut Vec<NameRow>, t: &Typed) -> Result<(), NoMemory>
    ensures { OnOk result (rows.new.items ≡ rows.old.items ++ function_names 1 (typed_program t.now).functions) }
{
    let mut holder: u32 = 1;
    for f in &t.functions {
        let h = homes(alloc, f)?;
        push_variable_names(alloc, rows, holder, f, &h)?;
        holder = next(holder)?;
    }
    Ok(())
}

/// Puts the names of a function's variables at the end.
fn push_variable_names(
    alloc: Global,
    rows: &mut Vec<NameRow>,
    holder: u32,
    f: &TFunction,
    h: &Homes,
) -> Result<(), NoMemory>
    ensures { OnOk result (rows.new.items ≡ rows.old.items ++ variable_names holder 0 f.now.names.items (plain_types f.now.locals.items) (plain_homes h.now.list.items)) }
{
    let mut ordinal: u32 = 0;
    for name in &f.names {
        let t = match type_at(&f.locals, ordinal) {
            Some(t) => t,
            None => return Ok(()),
        };
        let Some(home) = home_at(h, ordinal) else {
            return Ok(());
        };
        push_name(alloc, rows, (holder, ordinal, home_word(home)), t, name)?;
        ordinal = next(ordinal)?;
    }
    Ok(())
}

/// Puts the row of a variable at the end, where it has a name. `place` is its holder, its ordinal and its word.
fn push_name(
    alloc: Global,
    rows: &mut Vec<NameRow>,
    place: (u32, u32, u32),
    t: &CType,
    name: &VarName,
) -> Result<(), NoMemory>
    ensures { OnOk result (rows.new.items ≡ rows.old.items ++ row_if_named place.0 place.1 place.2 (plain_type t.now) name.now) }
{
    if name.name.bytes().is_empty() {
        return Ok(());
    }
    let (holder, ordinal, word) = place;
    let copy = name.name.copy(alloc)?;
    let row = NameRow {
        holder,
        ordinal,
        line: name.line,
        word,
        kind: kind_number(t),
        name: copy,
    };
    push_on(rows, row)
}

/// The frame word of a variable that has one, else 0.
fn home_word(home: Home) -> u32
    ensures { result ≡ home_word (plain_home home) }
{
    match home {
        Home::Plain(word) => word,
        Home::Bytes(_) | Home::Unseen(_) => 0,
    }
}

/// The number of a type's kind.
fn kind_number(t: &CType) -> u32
    ensures { result ≡ kind_number (plain_type t.now) }
{
    match t {
        CType::Int(kind) => int_number(*kind),
        CType::Pointer(_) => 11,
        CType::Void | CType::Array(_, _) | CType::Struct(_) => 12,
    }
}

/// The number of an integer type in their order.
fn int_number(kind: IntType) -> u32
    ensures { result ≡ int_number kind }
{
    match kind {
        IntType::Char => 0,
        IntType::SChar => 1,
        IntType::UChar => 2,
        IntType::Short => 3,
        IntType::UShort => 4,
        IntType::Int => 5,
        IntType::UInt => 6,
        IntType::Long => 7,
        IntType::ULong => 8,
        IntType::LLong => 9,
        IntType::ULLong => 10,
    }
}
