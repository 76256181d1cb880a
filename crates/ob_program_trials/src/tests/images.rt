//! Images for the tests of `exec`, spelled out byte by byte.

use std::alloc::{AllocError, Global};

fn put_word(bytes: &mut Vec<u8>, n: u32) -> Result<(), AllocError> {
    bytes.extend_from_slice(&n.to_le_bytes())
}

fn put_long(bytes: &mut Vec<u8>, n: u64) -> Result<(), AllocError> {
    bytes.extend_from_slice(&n.to_le_bytes())
}

/// The image of one function of six words. Each row of its code is an operation, a kind, three operands
/// and a number.
pub(crate) fn image(
    alloc: Global,
    code: &[(u8, u8, u32, u32, u32, u64)],
) -> Result<Vec<u8>, AllocError> {
    let mut bytes = Vec::new(alloc);
    bytes.extend_from_slice(b"OBLV")?;
    for n in [1, 0, 0, 1, 0, 0, 6, 0] {
        put_word(&mut bytes, n)?;
    }
    put_long(&mut bytes, 48)?;
    put_word(&mut bytes, 0)?;
    put_word(&mut bytes, 0)?;
    put_word(&mut bytes, u32::try_from(code.len()).unwrap_or(0))?;
    for (op, kind, a, b, c, imm) in code {
        bytes.extend_from_slice(&[*op, *kind, 0, 0])?;
        for n in [0, *a, *b, *c] {
            put_word(&mut bytes, n)?;
        }
        put_long(&mut bytes, *imm)?;
    }
    Ok(bytes)
}

const SET: u8 = 2;

const BINARY: u8 = 5;

const COMPARE: u8 = 6;

const JUMP: u8 = 7;

const JUMP_NONZERO: u8 = 9;

const CALL: u8 = 10;

const RETURN: u8 = 11;

const LOAD: u8 = 15;

const STORE: u8 = 16;

const MALLOC: u8 = 25;

const GET: u8 = 23;

const PUT: u8 = 24;

/// Writes `H` and ends with 3.
pub(crate) const HELLO: [(u8, u8, u32, u32, u32, u64); 4] = [
    (SET, 0, 2, 0, 0, 72),
    (PUT, 0, 3, 2, 0, 0),
    (SET, 0, 2, 0, 0, 3),
    (RETURN, 0, 0, 2, 0, 0),
];

/// Writes the return place of the first call.
pub(crate) const PLACE: [(u8, u8, u32, u32, u32, u64); 3] = [
    (PUT, 0, 3, 0, 0, 0),
    (SET, 0, 2, 0, 0, 0),
    (RETURN, 0, 0, 2, 0, 0),
];

/// Goes round without a step.
pub(crate) const STILL: [(u8, u8, u32, u32, u32, u64); 1] = [(JUMP, 0, 0, 0, 0, 0)];

/// Goes round, one step each time.
pub(crate) const TICKS: [(u8, u8, u32, u32, u32, u64); 2] = [
    (1, 0, 0, 0, 0, 0),
    (JUMP, 0, 0, 0, 0, 0),
];

/// Writes `A`, then divides an `int` by 0.
pub(crate) const DIVIDES: [(u8, u8, u32, u32, u32, u64); 5] = [
    (SET, 0, 2, 0, 0, 65),
    (PUT, 0, 3, 2, 0, 0),
    (SET, 0, 3, 0, 0, 0),
    (BINARY, 5, 4, 2, 3, 3),
    (RETURN, 0, 0, 4, 0, 0),
];

/// Calls itself.
pub(crate) const CALLS: [(u8, u8, u32, u32, u32, u64); 2] = [
    (CALL, 0, 2, 2, 0, 0),
    (RETURN, 0, 0, 2, 0, 0),
];

/// Writes what it reads, to the end of the input.
pub(crate) const ECHO: [(u8, u8, u32, u32, u32, u64); 8] = [
    (GET, 0, 2, 0, 0, 0),
    (SET, 0, 3, 0, 0, 0),
    (COMPARE, 5, 4, 2, 3, 0),
    (JUMP_NONZERO, 0, 0, 4, 0, 6),
    (PUT, 0, 5, 2, 0, 0),
    (JUMP, 0, 0, 0, 0, 0),
    (SET, 0, 2, 0, 0, 0),
    (RETURN, 0, 0, 2, 0, 0),
];

/// Runs past its end.
pub(crate) const OPEN: [(u8, u8, u32, u32, u32, u64); 1] = [(SET, 0, 2, 0, 0, 0)];

/// Stores 9 one past the end of a heap object of four bytes, loads it again, and ends with what it got.
pub(crate) const OVERRUN: [(u8, u8, u32, u32, u32, u64); 6] = [
    (SET, 0, 2, 0, 0, 4),
    (MALLOC, 0, 3, 2, 0, 0),
    (SET, 0, 4, 0, 0, 9),
    (STORE, 0, 4, 3, 2, 0),
    (LOAD, 0, 5, 3, 2, 0),
    (RETURN, 0, 0, 5, 0, 0),
];

/// Takes a block of the heap, which the machine doesn't do yet.
pub(crate) const HEAP: [(u8, u8, u32, u32, u32, u64); 2] = [
    (MALLOC, 0, 3, 2, 0, 0),
    (RETURN, 0, 0, 2, 0, 0),
];
