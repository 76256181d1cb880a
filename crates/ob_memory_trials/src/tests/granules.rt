//! What granules hold, inside of objects and outside.

use crate::tests::{Row, agree};
use std::test::Fail;

// Granules: a neighbour, a pointer under a number, and the bytes of the last granule past the size.
const GRANULES: [Row; 20] = [
    (
        "",
        "object 2 ; object 2 ; static 2 1 ; static 3 2 ; set 4 66 ; store char 4 3 5 ; set 6 16 ; set 7 88 ; store char 7 2 6 ; load char 8 3 5 ; exit 4 ;",
        "ends 2=4096 3=4112 4=66 6=16 7=88 8=66 | 7 store 1 16 1",
    ),
    (
        "boundless",
        "object 2 ; object 2 ; static 2 1 ; static 3 2 ; set 4 66 ; store char 4 3 5 ; set 6 16 ; set 7 88 ; store char 7 2 6 ; load char 8 3 5 ; exit 4 ;",
        "ends 2=4096 3=4112 4=66 6=16 7=88 8=66 | 7 store 1 16 1",
    ),
    (
        "boundless",
        "set 3 8 ; malloc 2 3 ; malloc 4 3 ; set 5 16 ; set 6 88 ; store char 6 2 5 ; load char 7 4 8 ; load char 8 2 5 ; exit 3 ;",
        "ends 2=33554432 3=8 4=33554448 5=16 6=88 8=88 | 6 store 41 16 1 | 8 load 41 16 1",
    ),
    (
        "",
        "object 8 ; static 2 1 ; store ptr 2 2 5 ; load ptr 3 2 5 ; load long 4 2 5 ; set 6 1 ; set 7 2 ; store char 6 2 7 ; load ptr 8 2 5 ; load long 9 2 5 ; exit 6 ;",
        "ends 2=4096 3=4096 6=1 7=2 9=65536",
    ),
    (
        "boundless store=1",
        "malloc 2 3 ; set 4 7 ; store char 4 2 3 ; set 5 8 ; store char 4 2 5 ; load char 6 2 3 ; exit 4 ;",
        "ends 2=33554432 4=7 5=8 | 3 store 41 0 1 | 5 store 41 8 1 | 6 load 41 0 1",
    ),
    (
        "boundless store=1",
        "set 3 1 ; malloc 2 3 ; set 4 7 ; store char 4 2 3 ; set 5 8 ; set 6 9 ; store char 6 2 5 ; set 7 16 ; store char 6 2 7 ; load char 8 2 3 ; load char 9 2 5 ; exit 3 ;",
        "ends 2=33554432 3=1 4=7 5=8 6=9 7=16 8=7 | 4 store 41 1 1 | 7 store 41 8 1 | 9 store 41 16 1 | 10 load 41 1 1 | 11 load 41 8 1",
    ),
    (
        "boundless store=1",
        "set 3 7 ; malloc 2 3 ; set 4 7 ; store char 4 2 3 ; load char 5 2 3 ; exit 3 ;",
        "ends 2=33554432 3=7 4=7 5=7 | 4 store 41 7 1 | 5 load 41 7 1",
    ),
    (
        "boundless store=1",
        "set 3 8 ; malloc 2 3 ; set 4 7 ; store char 4 2 3 ; set 5 16 ; store char 4 2 5 ; load char 6 2 3 ; exit 3 ;",
        "ends 2=33554432 3=8 4=7 5=16 | 4 store 41 8 1 | 6 store 41 16 1 | 7 load 41 8 1",
    ),
    (
        "boundless store=1",
        "set 3 9 ; malloc 2 3 ; set 5 15 ; set 4 7 ; store char 4 2 5 ; set 6 16 ; store char 4 2 6 ; set 7 24 ; store char 4 2 7 ; load char 8 2 5 ; load char 9 2 6 ; exit 4 ;",
        "ends 2=33554432 3=9 4=7 5=15 6=16 7=24 8=7 | 5 store 41 15 1 | 7 store 41 16 1 | 9 store 41 24 1 | 10 load 41 15 1 | 11 load 41 16 1",
    ),
    (
        "boundless",
        "set 3 8 ; malloc 2 3 ; set 4 7 ; set 5 1 ; store int 4 2 5 ; load char 6 2 5 ; exit 4 ;",
        "ends 2=33554432 3=8 4=7 5=1 | 5 store 41 1 4",
    ),
    (
        "",
        "room 8 ; local 2 0 ; set 3 7 ; store long 3 2 4 ; load long 5 2 4 ; wipe 0 ; load long 6 2 4 ; exit 3 ;",
        "ends 2=16777312 3=7 5=7",
    ),
    (
        "",
        "object 8 ; static 2 1 ; set 3 4096 ; store long 3 2 4 ; load ptr 5 2 4 ; load long 6 2 4 ; exit 3 ;",
        "ends 2=4096 3=4096 6=4096",
    ),
    (
        "boundless",
        "object 8 ; static 2 1 ; set 3 16 ; set 4 4096 ; store long 4 2 3 ; load ptr 5 2 3 ; load long 6 2 3 ; store ptr 2 2 3 ; load ptr 7 2 3 ; load long 8 2 3 ; store char 3 2 3 ; load ptr 9 2 3 ; load long 10 2 3 ; exit 3 ;",
        "ends 2=4096 3=16 4=4096 6=4096 7=4096 10=16 | 4 store 1 16 8 | 5 load 1 16 8 | 6 load 1 16 8 | 7 store 1 16 8 | 8 load 1 16 8 | 9 load 1 16 8 | 10 store 1 16 1 | 11 load 1 16 8 | 12 load 1 16 8",
    ),
    (
        "",
        "object 8 ; static 2 1 ; set 3 16 ; load ptr 4 2 3 ; load long 5 2 3 ; exit 3 ;",
        "ends 2=4096 3=16 5=1 | 3 load 1 16 8 | 4 load 1 16 8",
    ),
    (
        "boundless",
        "object 8 ; static 2 1 ; set 3 16 ; load ptr 4 2 3 ; load long 5 2 3 ; exit 3 ;",
        "ends 2=4096 3=16 5=1 | 3 load 1 16 8 | 4 load 1 16 8",
    ),
    (
        "",
        "malloc 2 3 ; set 4 7 ; store char 4 2 3 ; load char 5 2 3 ; exit 4 ;",
        "ends 2=33554432 4=7 | 3 store 41 0 1 | 4 load 41 0 1",
    ),
    (
        "",
        "set 3 1 ; malloc 2 3 ; set 4 7 ; set 5 0 ; store char 4 2 5 ; store char 4 2 3 ; load char 6 2 5 ; load char 7 2 3 ; load char 8 2 3 ; exit 3 ;",
        "ends 2=33554432 3=1 4=7 6=7 8=1 | 6 store 41 1 1 | 8 load 41 1 1 | 9 load 41 1 1",
    ),
    (
        "",
        "set 3 7 ; malloc 2 3 ; set 4 7 ; set 5 6 ; store char 4 2 5 ; store char 4 2 3 ; load char 6 2 5 ; load char 7 2 3 ; load char 8 2 3 ; exit 3 ;",
        "ends 2=33554432 3=7 4=7 5=6 6=7 8=1 | 6 store 41 7 1 | 8 load 41 7 1 | 9 load 41 7 1",
    ),
    (
        "",
        "set 3 8 ; malloc 2 3 ; set 4 7 ; set 5 7 ; store char 4 2 5 ; store char 4 2 3 ; load char 6 2 5 ; load char 7 2 3 ; load char 8 2 3 ; exit 3 ;",
        "ends 2=33554432 3=8 4=7 5=7 6=7 8=1 | 6 store 41 8 1 | 8 load 41 8 1 | 9 load 41 8 1",
    ),
    (
        "",
        "set 3 9 ; malloc 2 3 ; set 4 7 ; set 5 8 ; store char 4 2 5 ; store char 4 2 3 ; load char 6 2 5 ; load char 7 2 3 ; load char 8 2 3 ; exit 3 ;",
        "ends 2=33554432 3=9 4=7 5=8 6=7 8=1 | 6 store 41 9 1 | 8 load 41 9 1 | 9 load 41 9 1",
    ),
];

#[test]
fn granules_of_objects(rt: HostRuntime) -> Result<(), Fail> {
    agree(&rt, rt.alloc(), &GRANULES)
}
