//! The heap and `free`, under both profiles.

use crate::tests::{Row, agree};
use std::test::Fail;

// `free` of null, of an inner pointer, of a static object and twice, under both profiles; a heap that is full, and the least place.
const FREED: [Row; 18] = [
    ("", "free 2 ; exit 2 ;", "ends"),
    (
        "",
        "set 3 4 ; malloc 2 3 ; set 4 1 ; shift 5 2 4 ; free 5 ; load char 6 2 4 ; exit 3 ;",
        "ends 2=33554432 3=4 4=1 5=33554433 | 5 free 41 1 0",
    ),
    (
        "two",
        "object 4 ; static 2 1 ; free 2 ; exit 2 ;",
        "ends 2=4096 | 2 free 1 0 0",
    ),
    (
        "",
        "set 3 4 ; malloc 2 3 ; free 2 ; free 2 ; load char 5 2 4 ; exit 3 ;",
        "ends 2=33554432 3=4 | 5 load 0 0 1",
    ),
    (
        "two",
        "set 3 4 ; malloc 2 3 ; free 2 ; free 2 ; load char 5 2 4 ; exit 3 ;",
        "ends 2=33554432 3=4 | 4 free 41 0 0 | 5 load 41 0 1",
    ),
    (
        "heap=32",
        "set 3 8 ; malloc 2 3 ; malloc 4 3 ; malloc 5 3 ; free 2 ; malloc 6 3 ; exit 3 ;",
        "ends 2=33554432 3=8 4=33554448 6=33554432",
    ),
    (
        "two heap=32",
        "set 3 8 ; malloc 2 3 ; malloc 4 3 ; malloc 5 3 ; free 2 ; malloc 6 3 ; exit 3 ;",
        "ends 2=33554432 3=8 4=33554448",
    ),
    (
        "heap=64",
        "set 3 8 ; malloc 2 3 ; malloc 4 3 ; malloc 5 3 ; free 4 ; free 2 ; set 6 20 ; malloc 7 6 ; exit 3 ;",
        "ends 2=33554432 3=8 4=33554448 5=33554464 6=20 7=33554432",
    ),
    (
        "heap=0",
        "malloc 2 3 ; set 4 4294967296 ; calloc 5 4 4 ; exit 4 ;",
        "ends 4=4294967296",
    ),
    ("two", "free 2 ; exit 2 ;", "ends"),
    (
        "two",
        "set 3 4 ; malloc 2 3 ; set 4 1 ; shift 5 2 4 ; free 5 ; load char 6 2 4 ; exit 3 ;",
        "ends 2=33554432 3=4 4=1 5=33554433 | 5 free 41 1 0",
    ),
    (
        "",
        "object 4 ; static 2 1 ; free 2 ; exit 2 ;",
        "ends 2=4096 | 2 free 1 0 0",
    ),
    (
        "",
        "room 8 ; local 2 0 ; free 2 ; load char 3 2 4 ; exit 2 ;",
        "ends 2=16777312 | 2 free 11 0 0",
    ),
    (
        "two",
        "room 8 ; local 2 0 ; free 2 ; load char 3 2 4 ; exit 2 ;",
        "ends 2=16777312 | 2 free 11 0 0",
    ),
    (
        "two",
        "set 3 4 ; malloc 2 3 ; free 2 ; set 4 1 ; shift 5 2 4 ; free 5 ; exit 3 ;",
        "ends 2=33554432 3=4 4=1 5=33554433 | 6 free 41 1 0",
    ),
    (
        "",
        "set 3 4 ; malloc 2 3 ; free 2 ; set 4 1 ; shift 5 2 4 ; free 5 ; exit 3 ;",
        "ends 2=33554432 3=4 4=1",
    ),
    (
        "",
        "set 3 4 ; malloc 2 3 ; shift 4 2 3 ; free 4 ; set 5 100 ; shift 6 2 5 ; free 6 ; exit 3 ;",
        "ends 2=33554432 3=4 4=33554436 5=100 6=1099511627776 | 4 free 41 4 0 | 7 free 41 100 0",
    ),
    (
        "two",
        "set 3 4 ; malloc 2 3 ; shift 4 2 3 ; free 4 ; set 5 100 ; shift 6 2 5 ; free 6 ; exit 3 ;",
        "ends 2=33554432 3=4 4=33554436 5=100 6=1099511627776 | 4 free 41 4 0 | 7 free 41 100 0",
    ),
];

#[test]
fn freed_objects(rt: HostRuntime) -> Result<(), Fail> {
    agree(&rt, rt.alloc(), &FREED)
}
