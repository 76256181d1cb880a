//! Calls, their frames and links.

use crate::tests::{Row, agree};
use std::test::Fail;

// Calls: a callee that stores behind its local object, the words of the caller afterwards, and a dead local object's pointer.
const FRAMES: [Row; 5] = [
    (
        "",
        "room 8 ; local 2 0 ; set 3 5 ; call 4 1 ; load char 5 4 6 ; exit 3 ; fn ; room 8 ; local 2 0 ; set 3 -8 ; set 4 77 ; store long 4 2 3 ; return 2 ;",
        "ends 2=16777312 3=5 4=16777424 | 9 store 51 -8 8 | 4 load 0 0 1",
    ),
    (
        "boundless",
        "room 8 ; local 2 0 ; set 3 5 ; call 4 1 ; load char 5 4 6 ; exit 3 ; fn ; room 8 ; local 2 0 ; set 3 -8 ; set 4 77 ; store long 4 2 3 ; return 2 ;",
        "ends 2=16777312 3=5 4=16777424 | 9 store 51 -8 8 | 4 load 0 0 1",
    ),
    (
        "",
        "set 3 5 ; call 4 1 ; call 5 1 ; exit 3 ; fn ; call 2 2 ; set 3 1 ; add 2 2 3 ; return 2 ; fn ; set 2 41 ; return 2 ;",
        "ends 3=5 4=42 5=42",
    ),
    ("", "call 4 0 ; exit 3 ;", "Steps"),
    ("", "room 4096 ; call 4 0 ; exit 3 ;", "Stack"),
];

#[test]
fn calls(rt: HostRuntime) -> Result<(), Fail> {
    agree(&rt, rt.alloc(), &FRAMES)
}

// Three calls in progress, of which the last goes astray around its local object, frees it, and takes memory. Each then adds
// its links: places 22, 1 and 5 in the code, and the frames at 16,777,216 and 16,777,312.
const LINKS: &str =
    "call 4 1 ; add 5 0 1 ; exit 4 ; fn ; room 8 ; local 2 0 ; call 3 2 ; add 4 0 1 ; add 4 4 3 ; return 4 ; fn ; room 8 ; local 2 0 ; set 3 -8 ; set 4 77 ; store long 4 2 3 ; store long 4 2 5 ; set 6 8 ; store long 4 2 6 ; shift 7 2 3 ; free 7 ; malloc 8 6 ; store long 4 8 5 ; wipe 0 ; add 9 0 1 ; return 9 ;";

const LINKED: &str = "ends 4=33554534 5=22 | 12 store 91 -8 8 | 15 store 91 8 8 | 17 free 91 -8 0";

const NESTED: [Row; 4] = [
    ("", LINKS, LINKED),
    ("boundless", LINKS, LINKED),
    ("two", LINKS, LINKED),
    ("boundless two", LINKS, LINKED),
];

#[test]
fn links_of_calls(rt: HostRuntime) -> Result<(), Fail> {
    agree(&rt, rt.alloc(), &NESTED)
}
