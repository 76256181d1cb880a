//! Accesses at the edges of objects, ill-aligned ones, those through null, and those that are too far.

use crate::tests::{Row, agree};
use std::test::Fail;

// Word 2 is a pointer, word 3 a displacement, word 4 what is stored, word 5 what is loaded.
const EDGES: [Row; 19] = [
    (
        "",
        "object 10 ; static 2 1 ; set 3 9 ; set 4 7 ; store char 4 2 3 ; load char 5 2 3 ; exit 3 ;",
        "ends 2=4096 3=9 4=7 5=7",
    ),
    (
        "",
        "object 10 ; static 2 1 ; set 3 10 ; set 4 7 ; store char 4 2 3 ; load char 5 2 3 ; exit 3 ;",
        "ends 2=4096 3=10 4=7 | 4 store 1 10 1 | 5 load 1 10 1",
    ),
    (
        "boundless",
        "object 10 ; static 2 1 ; set 3 10 ; set 4 7 ; store char 4 2 3 ; load char 5 2 3 ; exit 3 ;",
        "ends 2=4096 3=10 4=7 5=7 | 4 store 1 10 1 | 5 load 1 10 1",
    ),
    (
        "boundless",
        "object 10 ; static 2 1 ; set 3 -1 ; set 4 7 ; store char 4 2 3 ; load char 5 2 3 ; exit 3 ;",
        "ends 2=4096 3=-1 4=7 5=7 | 4 store 1 -1 1 | 5 load 1 -1 1",
    ),
    (
        "",
        "room 8 ; local 2 0 ; set 3 4 ; set 4 7 ; store int 4 2 3 ; load int 5 2 3 ; exit 3 ;",
        "ends 2=16777312 3=4 4=7 5=7",
    ),
    (
        "",
        "room 8 ; local 2 0 ; set 3 8 ; set 4 7 ; store int 4 2 3 ; load int 5 2 3 ; exit 3 ;",
        "ends 2=16777312 3=8 4=7 | 4 store 11 8 4 | 5 load 11 8 4",
    ),
    (
        "",
        "room 8 ; local 2 0 ; set 3 -2 ; set 4 7 ; store short 4 2 3 ; load short 5 2 3 ; exit 3 ;",
        "ends 2=16777312 3=-2 4=7 | 4 store 11 -2 2 | 5 load 11 -2 2",
    ),
    (
        "",
        "set 6 16 ; malloc 2 6 ; set 3 8 ; set 4 7 ; store long 4 2 3 ; load long 5 2 3 ; exit 3 ;",
        "ends 2=33554432 3=8 4=7 5=7 6=16",
    ),
    (
        "",
        "set 6 16 ; malloc 2 6 ; set 3 16 ; set 4 7 ; store long 4 2 3 ; load long 5 2 3 ; exit 3 ;",
        "ends 2=33554432 3=16 4=7 6=16 | 5 store 41 16 8 | 6 load 41 16 8",
    ),
    (
        "",
        "set 6 16 ; malloc 2 6 ; set 3 1 ; set 4 7 ; store int 4 2 3 ; load int 5 2 3 ; exit 3 ;",
        "ends 2=33554432 3=1 4=7 6=16 | 5 store 41 1 4 | 6 load 41 1 4",
    ),
    (
        "boundless",
        "set 4 7 ; store int 4 2 3 ; load int 5 2 3 ; exit 3 ;",
        "ends 4=7 | 2 store 0 0 4 | 3 load 0 0 4",
    ),
    (
        "",
        "set 3 4611686018427387904 ; load char 5 2 3 ; set 3 4611686018427387905 ; load char 5 2 3 ; exit 3 ;",
        "Far 3=4611686018427387905 | 2 load 0 4611686018427387904 1",
    ),
    (
        "boundless",
        "object 7 ; static 2 1 ; set 3 -2 ; set 4 -4 ; set 5 -8 ; set 7 90 ; store short 7 2 3 ; load short 8 2 3 ; store int 7 2 4 ; load int 9 2 4 ; store long 7 2 5 ; load long 10 2 5 ; exit 7 ;",
        "ends 2=4096 3=-2 4=-4 5=-8 7=90 8=90 9=90 10=90 | 6 store 1 -2 2 | 7 load 1 -2 2 | 8 store 1 -4 4 | 9 load 1 -4 4 | 10 store 1 -8 8 | 11 load 1 -8 8",
    ),
    (
        "boundless",
        "object 8 ; static 2 1 ; set 3 8 ; set 4 90 ; store char 4 2 3 ; load char 5 2 3 ; load short 6 2 3 ; store int 4 2 3 ; load int 7 2 3 ; load long 8 2 3 ; exit 3 ;",
        "ends 2=4096 3=8 4=90 5=90 7=90 8=1 | 4 store 1 8 1 | 5 load 1 8 1 | 6 load 1 8 2 | 7 store 1 8 4 | 8 load 1 8 4 | 9 load 1 8 8",
    ),
    (
        "",
        "object 16 ; static 2 1 ; set 3 1 ; set 4 2 ; set 5 4 ; set 7 90 ; store short 7 2 3 ; store int 7 2 4 ; store long 7 2 5 ; load short 8 2 3 ; load int 9 2 4 ; load long 10 2 5 ; load long 11 2 6 ; exit 3 ;",
        "ends 2=4096 3=1 4=2 5=4 7=90 9=1 10=2 | 6 store 1 1 2 | 7 store 1 2 4 | 8 store 1 4 8 | 9 load 1 1 2 | 10 load 1 2 4 | 11 load 1 4 8",
    ),
    (
        "boundless",
        "object 16 ; static 2 1 ; set 3 1 ; set 4 2 ; set 5 4 ; set 7 90 ; store short 7 2 3 ; store int 7 2 4 ; store long 7 2 5 ; load short 8 2 3 ; load int 9 2 4 ; load long 10 2 5 ; load long 11 2 6 ; exit 3 ;",
        "ends 2=4096 3=1 4=2 5=4 7=90 9=1 10=2 | 6 store 1 1 2 | 7 store 1 2 4 | 8 store 1 4 8 | 9 load 1 1 2 | 10 load 1 2 4 | 11 load 1 4 8",
    ),
    (
        "",
        "set 4 7 ; store int 4 2 3 ; load int 5 2 3 ; load int 6 2 3 ; exit 3 ;",
        "ends 4=7 6=1 | 2 store 0 0 4 | 3 load 0 0 4 | 4 load 0 0 4",
    ),
    (
        "boundless two",
        "set 4 7 ; store int 4 2 3 ; load int 5 2 3 ; load int 6 2 3 ; exit 3 ;",
        "ends 4=7 6=1 | 2 store 0 0 4 | 3 load 0 0 4 | 4 load 0 0 4",
    ),
    (
        "",
        "object 4 ; static 2 1 ; set 3 1 ; shift 4 2 3 ; set 5 4611686018427387904 ; load char 6 2 5 ; load char 7 4 5 ; exit 3 ;",
        "Far 2=4096 3=1 4=4097 5=4611686018427387904 | 5 load 1 4611686018427387904 1",
    ),
];

#[test]
fn edges_of_objects(rt: HostRuntime) -> Result<(), Fail> {
    agree(&rt, rt.alloc(), &EDGES)
}
