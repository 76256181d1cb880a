ghost use Rattle.std.specs.Prelude.{◌≡◌, length, IfOk};
ghost use Rattle.ob_code.specs.Limits.{most_statics};
ghost use Rattle.ob_code.specs.Rules.{AreSound, IsStaticSound};
ghost use Rattle.ob_statics.specs.Held.{AreBases};

use ob_base::NoMemory;
use ob_code::{Rows, StaticRow};
use ob_words::block;
use std::alloc::Global;

/// Where the first static object lies.
pub const STATICS_START: u64 = 4096;

/// Where each static object lies, and behind the last one where the next would.
pub fn bases_of(alloc: Global, rows: &[StaticRow]) -> Result<Vec<u64>, NoMemory>
    requires { AreSound most_statics (length rows.now) (IsStaticSound rows.now) }
    ensures { IfOk result (λ bases. AreBases rows.now bases.items) }
{
    let mut bases = Vec::with_capacity(alloc, rows.len() + 1)?;
    let mut base = STATICS_START;
    bases.push(base)?;
    for row in rows {
        base += block(row.size);
        bases.push(base)?;
    }
    Ok(bases)
}

// A copy of a static object's row.
fn copy_of(alloc: Global, row: &StaticRow) -> Result<StaticRow, NoMemory>
    ensures { IfOk result (λ copy. copy ≡ row.now) }
{
    Ok(StaticRow {
        size: row.size,
        given: row.given.copy(alloc)?,
    })
}

/// A copy of the rows of static objects.
pub fn copy_rows(alloc: Global, rows: &[StaticRow]) -> Result<Rows<StaticRow>, NoMemory>
    ensures { IfOk result (λ copies. copies ≡ rows.now) }
{
    let mut copies = Vec::with_capacity(alloc, rows.len())?;
    for row in rows {
        copies.push(copy_of(alloc, row)?)?;
    }
    Ok(Rows::from_vec(copies))
}
