//! Pointers that leave their object, and those of freed objects.

use crate::tests::{Row, agree};
use std::test::Fail;

// Pointers that leave their object: their words, the limit of how many may be kept, order and difference.
const POINTERS: [Row; 11] = [
    (
        "",
        "object 4 ; static 2 1 ; set 3 100 ; shift 4 2 3 ; set 5 -99 ; shift 6 4 5 ; exit 3 ;",
        "ends 2=4096 3=100 4=1099511627776 5=-99 6=4097",
    ),
    (
        "",
        "object 4 ; static 2 1 ; set 3 100 ; shift 4 2 3 ; set 5 50 ; shift 6 2 5 ; shift 7 6 5 ; same 8 4 7 ; exit 3 ;",
        "ends 2=4096 3=100 4=1099511627776 5=50 6=1099511627792 7=1099511627776 8=1",
    ),
    (
        "",
        "set 3 8 ; malloc 2 3 ; malloc 4 3 ; set 5 100 ; shift 6 2 5 ; shift 7 4 5 ; free 2 ; set 9 50 ; shift 8 4 9 ; exit 3 ;",
        "ends 2=33554432 3=8 4=33554448 5=100 6=1099511627776 7=1099511627792 8=1099511627776 9=50",
    ),
    (
        "away=1",
        "object 4 ; static 2 1 ; set 3 100 ; shift 4 2 3 ; shift 5 2 3 ; set 6 50 ; shift 7 2 6 ; exit 3 ;",
        "Descriptors 2=4096 3=100 4=1099511627776 5=1099511627776 6=50",
    ),
    (
        "away=0",
        "object 4 ; static 2 1 ; set 3 4 ; shift 4 2 3 ; set 3 5 ; shift 5 2 3 ; exit 3 ;",
        "Descriptors 2=4096 3=5 4=4100",
    ),
    ("", "set 3 100 ; shift 4 2 3 ; exit 3 ;", "ends 3=100"),
    (
        "",
        "object 4 ; object 4 ; static 2 1 ; static 3 2 ; set 4 100 ; shift 5 2 4 ; before 6 5 3 ; before 7 3 5 ; between 8 5 2 4 ; between 9 3 2 1 ; exit 4 ;",
        "ends 2=4096 3=4112 4=100 5=1099511627776 6=1 8=25",
    ),
    (
        "two",
        "set 3 4 ; malloc 2 3 ; free 2 ; set 4 100 ; shift 5 2 4 ; set 6 -98 ; shift 7 5 6 ; load char 8 7 9 ; exit 3 ;",
        "ends 2=33554432 3=4 4=100 5=1099511627776 6=-98 7=33554434 | 8 load 41 2 1",
    ),
    (
        "",
        "set 3 4 ; malloc 2 3 ; free 2 ; set 4 100 ; shift 5 2 4 ; set 6 -98 ; shift 7 5 6 ; load char 8 7 9 ; exit 3 ;",
        "ends 2=33554432 3=4 4=100 6=-98 | 8 load 0 0 1",
    ),
    (
        "away=1",
        "set 3 4 ; malloc 2 3 ; set 4 100 ; shift 5 2 4 ; free 2 ; malloc 6 3 ; shift 7 6 4 ; exit 3 ;",
        "ends 2=33554432 3=4 4=100 5=1099511627776 6=33554432 7=1099511627776",
    ),
    (
        "two away=1",
        "set 3 4 ; malloc 2 3 ; set 4 100 ; shift 5 2 4 ; free 2 ; malloc 6 3 ; shift 7 6 4 ; exit 3 ;",
        "Descriptors 2=33554432 3=4 4=100 5=1099511627776 6=33554448",
    ),
];

#[test]
fn pointers_out_of_bounds(rt: HostRuntime) -> Result<(), Fail> {
    agree(&rt, rt.alloc(), &POINTERS)
}
