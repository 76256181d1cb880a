//! Checked memory, a table a subject. Objects of the first function: static ones from 1, then its variables, of which local
//! objects have the ordinals from 10 on; with one static object the first local one has number 12, and the first of the heap 42.

mod bounded;
mod edges;
mod frames;
mod granules;
mod heap;
mod pointers;
mod sizes;

use crate::outcome::outcome;
use std::alloc::Global;
use std::process::Abort;
use std::test::Fail;

/// Settings, a program, and what it comes to.
pub type Row = (&'static str, &'static str, &'static str);

/// That each program comes to what its row says.
pub fn agree(rt: &impl Abort, alloc: Global, rows: &[Row]) -> Result<(), Fail> {
    for (flags, text, wanted) in rows {
        let came = outcome(alloc, flags, text)?;
        assert_eq!(rt; came.as_str(), *wanted, "{flags}: {text}");
    }
    Ok(())
}
