//! What each call answers for an `int`, and for structures that hold structures, many one in another: each
//! answer takes a few steps.
use crate::{align, complete, is_complete, leaves, member, size};
use ob_base::{NoMemory, Text};
use ob_tree::{CType, MemberRow, Structs};
use ob_words::IntType;
use std::alloc::Global;
use std::test::Fail;

#[test]
fn an_int(rt: HostRuntime) {
    let structs = Structs::new(rt.alloc());
    let t = CType::Int(IntType::Int);
    assert_eq!(rt; size(&structs, &t), 4);
    assert_eq!(rt; align(&structs, &t), 4);
    assert_eq!(rt; leaves(&structs, &t), 1);
}

/// The structure before the one numbered `number`, or a `char` before the first.
fn before(number: u32) -> CType {
    if number == 0 {
        CType::Int(IntType::Char)
    } else {
        CType::Struct(number - 1)
    }
}

/// One more structure, which holds the one before it `count` times; whether it is complete.
fn add(alloc: Global, structs: &mut Structs, number: u32, count: u32) -> Result<bool, NoMemory> {
    let mut members = Vec::new(alloc);
    for _ in 0..count {
        let name = Text::new(alloc);
        let ty = before(number);
        members.push(MemberRow { name, ty })?;
    }
    if structs.len() != number as usize {
        return Ok(false);
    }
    structs.declare(alloc)?;
    Ok(complete(structs, number, members).is_ok())
}

/// The bytes of a structure, its scalars, and the offset of its first member, where it is complete.
fn measured(alloc: Global, structs: &Structs, number: u32) -> (u64, u64, u64) {
    let t = CType::Struct(number);
    if is_complete(structs, &t) {
        match member(structs, number, &Text::new(alloc)) {
            Some((offset, _)) => (size(structs, &t), leaves(structs, &t), offset),
            None => (0, 0, 1),
        }
    } else {
        (0, 0, 2)
    }
}

/// Each of 40,000 structures holds the one before it.
#[test]
fn a_long_chain(rt: HostRuntime) -> Result<(), Fail> {
    let mut structs = Structs::new(rt.alloc());
    let mut all = true;
    for number in 0..40_000u32 {
        all = add(rt.alloc(), &mut structs, number, 1)? && all;
    }
    assert_eq!(rt; all, true);
    assert_eq!(rt; measured(rt.alloc(), &structs, 39_999), (1, 1, 0));
    Ok(())
}

/// Each of 23 structures holds the one before it twice; that of 4,194,304 bytes is the last that is complete.
#[test]
fn doublings(rt: HostRuntime) -> Result<(), Fail> {
    let mut structs = Structs::new(rt.alloc());
    for number in 0..24u32 {
        let is_small = add(rt.alloc(), &mut structs, number, 2)?;
        assert_eq!(rt; is_small, number < 22, "{number}");
    }
    assert_eq!(rt;
        measured(rt.alloc(), &structs, 21),
        (4_194_304, 4_194_304, 0)
    );
    Ok(())
}
