//! Granules outside of objects, of which so many are kept.

use crate::tests::{Row, agree};
use std::test::Fail;

// The bounded list: of one, two and three granules, and a dead object's granule when its address is used again.
const BOUNDED: [Row; 6] = [
    (
        "boundless store=1",
        "object 2 ; static 2 1 ; set 3 80 ; set 4 160 ; set 5 240 ; set 6 5 ; store char 6 2 3 ; store char 6 2 4 ; load char 7 2 3 ; store char 6 2 5 ; load char 8 2 3 ; load char 9 2 4 ; exit 3 ;",
        "ends 2=4096 3=80 4=160 5=240 6=5 8=1 9=2 | 6 store 1 80 1 | 7 store 1 160 1 | 8 load 1 80 1 | 9 store 1 240 1 | 10 load 1 80 1 | 11 load 1 160 1",
    ),
    (
        "boundless store=2",
        "object 2 ; static 2 1 ; set 3 80 ; set 4 160 ; set 5 240 ; set 6 5 ; store char 6 2 3 ; store char 6 2 4 ; load char 7 2 3 ; store char 6 2 5 ; load char 8 2 3 ; load char 9 2 4 ; exit 3 ;",
        "ends 2=4096 3=80 4=160 5=240 6=5 7=5 8=5 | 6 store 1 80 1 | 7 store 1 160 1 | 8 load 1 80 1 | 9 store 1 240 1 | 10 load 1 80 1 | 11 load 1 160 1",
    ),
    (
        "boundless store=3",
        "object 2 ; static 2 1 ; set 3 80 ; set 4 160 ; set 5 240 ; set 6 5 ; store char 6 2 3 ; store char 6 2 4 ; load char 7 2 3 ; store char 6 2 5 ; load char 8 2 3 ; load char 9 2 4 ; exit 3 ;",
        "ends 2=4096 3=80 4=160 5=240 6=5 7=5 8=5 9=5 | 6 store 1 80 1 | 7 store 1 160 1 | 8 load 1 80 1 | 9 store 1 240 1 | 10 load 1 80 1 | 11 load 1 160 1",
    ),
    (
        "boundless",
        "set 3 4 ; malloc 2 3 ; set 4 100 ; set 5 7 ; store char 5 2 4 ; free 2 ; malloc 6 3 ; load char 7 6 4 ; exit 3 ;",
        "ends 2=33554432 3=4 4=100 5=7 6=33554432 | 5 store 41 100 1 | 8 load 42 100 1",
    ),
    (
        "boundless",
        "call 4 1 ; call 5 1 ; exit 3 ; fn ; room 8 ; local 2 0 ; set 3 16 ; load char 5 2 3 ; set 4 77 ; store char 4 2 3 ; return 5 ;",
        "ends 5=1 | 6 load 51 16 1 | 8 store 51 16 1 | 6 load 91 16 1 | 8 store 91 16 1",
    ),
    (
        "boundless two",
        "set 3 4 ; malloc 2 3 ; set 4 100 ; set 5 7 ; store char 5 2 4 ; load char 6 2 4 ; free 2 ; load char 7 2 4 ; load char 8 2 4 ; exit 3 ;",
        "ends 2=33554432 3=4 4=100 5=7 6=7 8=1 | 5 store 41 100 1 | 6 load 41 100 1 | 8 load 41 100 1 | 9 load 41 100 1",
    ),
];

#[test]
fn bounded_list(rt: HostRuntime) -> Result<(), Fail> {
    agree(&rt, rt.alloc(), &BOUNDED)
}
