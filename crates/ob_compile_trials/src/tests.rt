//! Tables of programs, one a subject. Each row has the answer, which is `ok`, or the place and the kind of the first fault, or
//! the limit that the program is over, and behind a colon the program.

mod constants;
mod depth;
mod functions;
mod initialisers;
mod names;
mod nulls;
mod numbers;
mod order;
mod pairs;
mod places;
mod sizes;
mod statements;
mod tags;
mod voids;

use crate::answer::answer;
use std::alloc::{AllocError, Global};
use std::process::Abort;
use std::test::Fail;

/// That the checker answers each row's program as the row says.
pub fn agree(rt: &impl Abort, alloc: Global, rows: &str) -> Result<(), Fail> {
    for row in rows.lines() {
        let (wanted, source) = row.split_once(':').unwrap_or(("", row));
        let found = answer(alloc, source)?;
        assert_eq!(rt; found.as_str(), wanted, "{source}");
    }
    Ok(())
}

fn between(alloc: Global, before: &str, source: &str, behind: &str) -> Result<String, AllocError> {
    let mut text = String::from_str(alloc, before)?;
    text.push_str(source)?;
    text.push_str(behind)?;
    Ok(text)
}

// Whether a fault of an item behind the program would be found before what the row says.
fn is_late(wanted: &str) -> bool {
    wanted == "ok" || wanted == "Statics" || wanted.ends_with("NoBody")
}

/// That a fault in the item before a program comes before all of it, and one behind it after its own.
pub fn first_wins(rt: &impl Abort, alloc: Global, rows: &str) -> Result<(), Fail> {
    for row in rows.lines() {
        let (wanted, source) = row.split_once(':').unwrap_or(("", row));
        let text = between(alloc, "int early[0];", source, "")?;
        let found = answer(alloc, text.as_str())?;
        assert_eq!(rt; found.as_str(), "3 Constant", "{source}");
        if !is_late(wanted) {
            let text = between(alloc, "", source, "int late(void){return nowhere;}")?;
            let found = answer(alloc, text.as_str())?;
            assert_eq!(rt; found.as_str(), wanted, "{source}");
        }
    }
    Ok(())
}
