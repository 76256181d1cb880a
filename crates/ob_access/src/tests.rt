use crate::{Access, Pointee, access_to};
use ob_model::{Entry, Mode, Sort};
use std::test::Fail;

// Whether strays are kept, whether the object is freed, the displacement, and what becomes of an access of
// four bytes. The object has 10 bytes, and so two granules of its own.
const ROWS: [(bool, bool, i64, Access); 13] = [
    (false, false, 0, Access::Direct { address: 4096 }),
    (false, false, 4, Access::Direct { address: 4100 }),
    (
        false,
        false,
        8,
        Access::Vanishing {
            object: 7,
            offset: 8,
        },
    ),
    (
        true,
        false,
        8,
        Access::Own {
            object: 7,
            offset: 8,
            address: 4104,
        },
    ),
    (
        true,
        false,
        12,
        Access::Own {
            object: 7,
            offset: 12,
            address: 4108,
        },
    ),
    (
        true,
        false,
        16,
        Access::Outside {
            object: 7,
            offset: 16,
        },
    ),
    (
        true,
        false,
        -4,
        Access::Outside {
            object: 7,
            offset: -4,
        },
    ),
    (
        true,
        false,
        2,
        Access::Vanishing {
            object: 7,
            offset: 2,
        },
    ),
    (
        true,
        true,
        0,
        Access::Vanishing {
            object: 7,
            offset: 0,
        },
    ),
    (
        true,
        false,
        0x4000_0000_0000_0000,
        Access::Outside {
            object: 7,
            offset: 0x4000_0000_0000_0000,
        },
    ),
    (true, false, 0x4000_0000_0000_0001, Access::TooFar),
    (true, false, i64::MIN, Access::TooFar),
    (false, false, i64::MAX, Access::TooFar),
];

#[test]
fn accesses_of_four_bytes(rt: HostRuntime) -> Result<(), Fail> {
    let entry = Entry {
        base: 4096,
        size: 10,
        object: 7,
        sort: Sort::Static,
    };
    for (boundless, freed, displacement, want) in &ROWS {
        let mode = if *boundless {
            Mode::Boundless
        } else {
            Mode::Oblivious
        };
        let pointer = Pointee {
            entry,
            freed: *freed,
            offset: 0,
        };
        assert_eq!(rt; access_to(mode, Some(pointer), *displacement, 4), *want);
    }
    Ok(())
}
