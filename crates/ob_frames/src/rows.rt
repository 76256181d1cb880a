ghost use Rattle.std.specs.Prelude.{◌≡◌, ◌<◌, length, IfOk};
ghost use Rattle.ob_code.specs.Frames.{function_at};

use ob_base::NoMemory;
use ob_code::{FunctionRow, Rows};
use std::alloc::Global;

/// A copy of a function's row.
fn copy_of(alloc: Global, row: &FunctionRow) -> Result<FunctionRow, NoMemory>
    ensures { IfOk result (λ copy. copy ≡ row.now) }
{
    Ok(FunctionRow {
        entry: row.entry,
        params: row.params,
        words: row.words,
        vars: row.vars,
        allowance: row.allowance,
        locals: Rows::from_vec(Vec::from_slice(alloc, row.locals.as_slice())?),
    })
}

/// A copy of the rows of an image's functions.
pub fn copy_rows(alloc: Global, rows: &[FunctionRow]) -> Result<Rows<FunctionRow>, NoMemory>
    ensures { IfOk result (λ copies. copies ≡ rows.now) }
{
    let mut copies = Vec::with_capacity(alloc, rows.len())?;
    for row in rows {
        copies.push(copy_of(alloc, row)?)?;
    }
    Ok(Rows::from_vec(copies))
}

/// The row of a function.
pub fn row_of(rows: &[FunctionRow], function: u32) -> &FunctionRow
    requires { function < length rows.now }
    ensures { result.now ≡ function_at rows.now function }
{
    &rows[function as usize]
}
