use crate::{Pointers, ShiftAnswer};
use ShiftAnswer::{Far, Full};
use ob_model::{Entry, Sort};
use std::test::Fail;

/// A static object of ten bytes.
const BUFFER: Entry = Entry {
    base: 4096,
    size: 10,
    object: 7,
    sort: Sort::Static,
};

// Words moved by displacements, in turn, where two pointers may be out of bounds.
const MOVES: [(u64, i64, Result<u64, ShiftAnswer>); 14] = [
    (0, 5, Ok(0)),
    (4096, 10, Ok(4106)),
    (4096, 100, Ok(0x100_0000_0000)),
    (4100, 96, Ok(0x100_0000_0000)),
    (0x100_0000_0000, -100, Ok(4096)),
    (0x100_0000_0000, -90, Ok(4106)),
    (0x100_0000_0010, 1, Ok(0)),
    (4106, 1, Ok(0x100_0000_0010)),
    (4096, -1, Err(Full)),
    (4096, 100, Ok(0x100_0000_0000)),
    (0x100_0000_0010, 89, Ok(0x100_0000_0000)),
    (4096, i64::MAX, Err(Far)),
    (0x100_0000_0000, 0x4000_0000_0000_0000, Err(Far)),
    (4107, 1, Ok(0)),
];

#[test]
fn pointers_that_leave_and_come_back(rt: HostRuntime) -> Result<(), Fail> {
    let mut pointers = Pointers::new(rt.alloc(), 2, 64, 2)?;
    pointers.insert(BUFFER);
    for (w, displacement, answer) in &MOVES {
        assert_eq!(rt; pointers.shift(*w, *displacement), *answer);
    }
    Ok(())
}
