//! Objects of seven bytes that are overrun and underrun by one byte at each size of an access, in both modes. Static object 1,
//! local object 11 and heap object 41.

use crate::tests::{Row, agree};
use std::test::Fail;

// Words 3, 4, 5 and 6 are the displacements of the sizes 1, 2, 4 and 8, whose last byte is one past the object's.
const OVERRUNS: [Row; 6] = [
    (
        "",
        "object 7 ; static 2 1 ; set 3 7 ; set 4 6 ; set 5 4 ; set 7 90 ; store char 7 2 3 ; load char 8 2 3 ; store short 7 2 4 ; load short 9 2 4 ; store int 7 2 5 ; load int 10 2 5 ; store long 7 2 6 ; load long 11 2 6 ; exit 3 ;",
        "ends 2=4096 3=7 4=6 5=4 7=90 9=1 10=2 | 6 store 1 7 1 | 7 load 1 7 1 | 8 store 1 6 2 | 9 load 1 6 2 | 10 store 1 4 4 | 11 load 1 4 4 | 12 store 1 0 8 | 13 load 1 0 8",
    ),
    (
        "boundless",
        "object 7 ; static 2 1 ; set 3 7 ; set 4 6 ; set 5 4 ; set 7 90 ; store char 7 2 3 ; load char 8 2 3 ; store short 7 2 4 ; load short 9 2 4 ; store int 7 2 5 ; load int 10 2 5 ; store long 7 2 6 ; load long 11 2 6 ; exit 3 ;",
        "ends 2=4096 3=7 4=6 5=4 7=90 8=90 9=90 10=90 11=90 | 6 store 1 7 1 | 7 load 1 7 1 | 8 store 1 6 2 | 9 load 1 6 2 | 10 store 1 4 4 | 11 load 1 4 4 | 12 store 1 0 8 | 13 load 1 0 8",
    ),
    (
        "",
        "room 7 ; local 2 0 ; set 3 7 ; set 4 6 ; set 5 4 ; set 7 90 ; store char 7 2 3 ; load char 8 2 3 ; store short 7 2 4 ; load short 9 2 4 ; store int 7 2 5 ; load int 10 2 5 ; store long 7 2 6 ; load long 11 2 6 ; exit 3 ;",
        "ends 2=16777312 3=7 4=6 5=4 7=90 9=1 10=2 | 6 store 11 7 1 | 7 load 11 7 1 | 8 store 11 6 2 | 9 load 11 6 2 | 10 store 11 4 4 | 11 load 11 4 4 | 12 store 11 0 8 | 13 load 11 0 8",
    ),
    (
        "boundless",
        "room 7 ; local 2 0 ; set 3 7 ; set 4 6 ; set 5 4 ; set 7 90 ; store char 7 2 3 ; load char 8 2 3 ; store short 7 2 4 ; load short 9 2 4 ; store int 7 2 5 ; load int 10 2 5 ; store long 7 2 6 ; load long 11 2 6 ; exit 3 ;",
        "ends 2=16777312 3=7 4=6 5=4 7=90 8=90 9=90 10=90 11=90 | 6 store 11 7 1 | 7 load 11 7 1 | 8 store 11 6 2 | 9 load 11 6 2 | 10 store 11 4 4 | 11 load 11 4 4 | 12 store 11 0 8 | 13 load 11 0 8",
    ),
    (
        "",
        "set 3 7 ; malloc 2 3 ; set 4 6 ; set 5 4 ; set 7 90 ; store char 7 2 3 ; load char 8 2 3 ; store short 7 2 4 ; load short 9 2 4 ; store int 7 2 5 ; load int 10 2 5 ; store long 7 2 6 ; load long 11 2 6 ; exit 3 ;",
        "ends 2=33554432 3=7 4=6 5=4 7=90 9=1 10=2 | 6 store 41 7 1 | 7 load 41 7 1 | 8 store 41 6 2 | 9 load 41 6 2 | 10 store 41 4 4 | 11 load 41 4 4 | 12 store 41 0 8 | 13 load 41 0 8",
    ),
    (
        "boundless",
        "set 3 7 ; malloc 2 3 ; set 4 6 ; set 5 4 ; set 7 90 ; store char 7 2 3 ; load char 8 2 3 ; store short 7 2 4 ; load short 9 2 4 ; store int 7 2 5 ; load int 10 2 5 ; store long 7 2 6 ; load long 11 2 6 ; exit 3 ;",
        "ends 2=33554432 3=7 4=6 5=4 7=90 8=90 9=90 10=90 11=90 | 6 store 41 7 1 | 7 load 41 7 1 | 8 store 41 6 2 | 9 load 41 6 2 | 10 store 41 4 4 | 11 load 41 4 4 | 12 store 41 0 8 | 13 load 41 0 8",
    ),
];

#[test]
fn overruns_by_one_byte(rt: HostRuntime) -> Result<(), Fail> {
    agree(&rt, rt.alloc(), &OVERRUNS)
}

// One byte before the object; from two bytes on that is ill aligned.
const UNDERRUNS: [Row; 6] = [
    (
        "",
        "object 7 ; static 2 1 ; set 3 -1 ; set 4 90 ; store char 4 2 3 ; load char 5 2 3 ; store short 4 2 3 ; load short 6 2 3 ; store int 4 2 3 ; load int 7 2 3 ; store long 4 2 3 ; load long 8 2 3 ; exit 3 ;",
        "ends 2=4096 3=-1 4=90 6=1 7=2 | 4 store 1 -1 1 | 5 load 1 -1 1 | 6 store 1 -1 2 | 7 load 1 -1 2 | 8 store 1 -1 4 | 9 load 1 -1 4 | 10 store 1 -1 8 | 11 load 1 -1 8",
    ),
    (
        "boundless",
        "object 7 ; static 2 1 ; set 3 -1 ; set 4 90 ; store char 4 2 3 ; load char 5 2 3 ; store short 4 2 3 ; load short 6 2 3 ; store int 4 2 3 ; load int 7 2 3 ; store long 4 2 3 ; load long 8 2 3 ; exit 3 ;",
        "ends 2=4096 3=-1 4=90 5=90 7=1 8=2 | 4 store 1 -1 1 | 5 load 1 -1 1 | 6 store 1 -1 2 | 7 load 1 -1 2 | 8 store 1 -1 4 | 9 load 1 -1 4 | 10 store 1 -1 8 | 11 load 1 -1 8",
    ),
    (
        "",
        "room 7 ; local 2 0 ; set 3 -1 ; set 4 90 ; store char 4 2 3 ; load char 5 2 3 ; store short 4 2 3 ; load short 6 2 3 ; store int 4 2 3 ; load int 7 2 3 ; store long 4 2 3 ; load long 8 2 3 ; exit 3 ;",
        "ends 2=16777312 3=-1 4=90 6=1 7=2 | 4 store 11 -1 1 | 5 load 11 -1 1 | 6 store 11 -1 2 | 7 load 11 -1 2 | 8 store 11 -1 4 | 9 load 11 -1 4 | 10 store 11 -1 8 | 11 load 11 -1 8",
    ),
    (
        "boundless",
        "room 7 ; local 2 0 ; set 3 -1 ; set 4 90 ; store char 4 2 3 ; load char 5 2 3 ; store short 4 2 3 ; load short 6 2 3 ; store int 4 2 3 ; load int 7 2 3 ; store long 4 2 3 ; load long 8 2 3 ; exit 3 ;",
        "ends 2=16777312 3=-1 4=90 5=90 7=1 8=2 | 4 store 11 -1 1 | 5 load 11 -1 1 | 6 store 11 -1 2 | 7 load 11 -1 2 | 8 store 11 -1 4 | 9 load 11 -1 4 | 10 store 11 -1 8 | 11 load 11 -1 8",
    ),
    (
        "",
        "set 3 7 ; malloc 2 3 ; set 3 -1 ; set 4 90 ; store char 4 2 3 ; load char 5 2 3 ; store short 4 2 3 ; load short 6 2 3 ; store int 4 2 3 ; load int 7 2 3 ; store long 4 2 3 ; load long 8 2 3 ; exit 3 ;",
        "ends 2=33554432 3=-1 4=90 6=1 7=2 | 5 store 41 -1 1 | 6 load 41 -1 1 | 7 store 41 -1 2 | 8 load 41 -1 2 | 9 store 41 -1 4 | 10 load 41 -1 4 | 11 store 41 -1 8 | 12 load 41 -1 8",
    ),
    (
        "boundless",
        "set 3 7 ; malloc 2 3 ; set 3 -1 ; set 4 90 ; store char 4 2 3 ; load char 5 2 3 ; store short 4 2 3 ; load short 6 2 3 ; store int 4 2 3 ; load int 7 2 3 ; store long 4 2 3 ; load long 8 2 3 ; exit 3 ;",
        "ends 2=33554432 3=-1 4=90 5=90 7=1 8=2 | 5 store 41 -1 1 | 6 load 41 -1 1 | 7 store 41 -1 2 | 8 load 41 -1 2 | 9 store 41 -1 4 | 10 load 41 -1 4 | 11 store 41 -1 8 | 12 load 41 -1 8",
    ),
];

#[test]
fn underruns_by_one_byte(rt: HostRuntime) -> Result<(), Fail> {
    agree(&rt, rt.alloc(), &UNDERRUNS)
}
