//! The rows of static objects, and of the pointers in them.
ghost use Rattle.std.specs.Prelude.{◌≡◌, ◌++◌, map, IfOk, OnOk};
ghost use Rattle.ob_tree.specs.StructsView.{plain_structs};
ghost use Rattle.ob_typed.specs.ProgramView.{typed_program};
ghost use Rattle.ob_typed.specs.TypedView.{typed_object};
ghost use Rattle.ob_lower.specs.Programs.{pointer_row, pointer_rows, static_row};

use crate::adding::next;
use crate::sizes::known_size;
use ob_base::{NoMemory, push_on};
use ob_code::{PointerRow, StaticRow};
use ob_tree::Structs;
use ob_typed::{StaticPointer, TStatic, Typed};
use std::alloc::Global;

/// The rows of a program's static objects, in order.
pub fn static_rows(alloc: Global, t: &Typed) -> Result<Vec<StaticRow>, NoMemory>
    ensures { IfOk result (λ rows. rows.items ≡ map (static_row (typed_program t.now).structs) (typed_program t.now).statics) }
{
    let mut rows = Vec::new(alloc);
    for o in &t.statics {
        let row = static_row(alloc, &t.structs, o)?;
        push_on(&mut rows, row)?;
    }
    Ok(rows)
}

/// The row of a static object.
fn static_row(alloc: Global, s: &Structs, o: &TStatic) -> Result<StaticRow, NoMemory>
    ensures { IfOk result (λ row. row ≡ static_row (plain_structs s.now) (typed_object o.now)) }
{
    let size = known_size(s, &o.ty)?;
    let given = o.image.bytes.copy(alloc)?;
    Ok(StaticRow { size, given })
}

/// The rows of the pointers in a program's static objects, in order.
pub fn pointer_rows(alloc: Global, t: &Typed) -> Result<Vec<PointerRow>, NoMemory>
    ensures { IfOk result (λ rows. rows.items ≡ pointer_rows 1 (typed_program t.now).statics) }
{
    let mut rows = Vec::new(alloc);
    let mut holder: u32 = 1;
    for o in &t.statics {
        push_pointers(&mut rows, holder, &o.image.pointers)?;
        holder = next(holder)?;
    }
    Ok(rows)
}

/// Puts the rows of the pointers in one object at the end.
fn push_pointers(
    rows: &mut Vec<PointerRow>,
    holder: u32,
    pointers: &[StaticPointer],
) -> Result<(), NoMemory>
    ensures { OnOk result (rows.new.items ≡ rows.old.items ++ map (pointer_row holder) pointers.now) }
{
    for p in pointers {
        let row = pointer_row(holder, p)?;
        push_on(rows, row)?;
    }
    Ok(())
}

/// The row of a pointer.
fn pointer_row(holder: u32, p: &StaticPointer) -> Result<PointerRow, NoMemory>
    ensures { IfOk result (λ row. row ≡ pointer_row holder p.now) }
{
    let target = next(p.target)?;
    Ok(PointerRow {
        holder,
        offset: p.at,
        target,
        target_offset: p.offset,
    })
}
