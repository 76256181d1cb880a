ghost use Rattle.std.specs.Prelude.{◌≡◌, ◌++◌, OnOk, List, ℕ, Result};
ghost use Rattle.std.specs.List.{AllByRecursion};
ghost use Rattle.ob_image.specs.Reading.{Gives, rows, counted};
ghost use Rattle.ob_image.specs.Rules.{IsTyped};
ghost use Rattle.ob_image.specs.Spelling.{spell_rows};

use crate::faults::Stop;
use crate::fields::put_count;
use crate::numbers::word;
use ob_base::NoMemory;
use std::alloc::Global;

/// A row of an image, which can be read and written.
pub(crate) trait Row: Drop {
    ghost use Rattle.std.specs.Prelude.{List, ℕ, Result};

    ghost reader: { List ℕ → Result (Self × List ℕ) ℕ };

    ghost spelling: { Self → List ℕ };

    // What the format asks of a row beyond the types of its fields, and what has a spelling.
    ghost rule: { Self → Type 0 };

    ghost valid: { Self → Type 0 };

    /// The row that begins the bytes, and the bytes after it.
    fn read(alloc: Global, bytes: &[u8]) -> Result<(Self, &[u8]), Stop>
        ensures { Gives (λ x. (x.0, x.1.now)) result (reader bytes.now) };

    /// Puts the row's spelling at the end.
    fn put(&self, out: &mut Vec<u8>) -> Result<(), NoMemory>
        ensures text { OnOk result (out.new.items ≡ out.old.items ++ spelling self.now) }
        ensures typed { OnOk result (IsTyped rule valid self.now) };
}

/// So many rows, and the bytes after them. Memory is taken row by row, as they are found.
fn rows<T: Row>(alloc: Global, count: u32, bytes: &[u8]) -> Result<(Vec<T>, &[u8]), Stop>
    ensures { Gives (λ x. (x.0.items, x.1.now)) result (rows T.reader count bytes.now) }
{
    let mut rows = Vec::new(alloc);
    let mut rest = bytes;
    for _ in 0..count {
        let (row, after) = T::read(alloc, rest)?;
        rows.push(row)?;
        rest = after;
    }
    Ok((rows, rest))
}

/// A count up to `limit` and that many rows, and the bytes after them.
#[tactic(auto, unfolding(crate::specs::Reading::counted, crate::specs::Reading::gives))]
pub(crate) fn counted<T: Row>(
    alloc: Global,
    limit: u32,
    bytes: &[u8],
) -> Result<(Vec<T>, &[u8]), Stop>
    ensures { Gives (λ x. (x.0.items, x.1.now)) result (counted limit T.reader bytes.now) }
{
    let (count, rest) = word(limit, bytes)?;
    rows(alloc, count, rest)
}

/// Puts the count and the rows at the end.
#[tactic(auto, unfolding(crate::specs::Spelling::spell_rows))]
pub(crate) fn put_rows<T: Row>(out: &mut Vec<u8>, rows: &[T]) -> Result<(), NoMemory>
    ensures text { OnOk result (out.new.items ≡ out.old.items ++ spell_rows T.spelling rows.now) }
    ensures typed { OnOk result (AllByRecursion (IsTyped T.rule T.valid) rows.now) }
{
    put_count(out, rows.len())?;
    for row in rows {
        row.put(out)?;
    }
    Ok(())
}
