//! Numbers of each type at their ends, the zeros at the end, parts of the greatest size, and large
//! initialisers.
use crate::tests::parts::{array, chars, number};
use ob_base::{NoMemory, Text, listed, push_on};
use ob_consts::{ConstFault, static_image, trimmed};
use ob_tree::{CType, Structs};
use ob_typed::TInit;
use ob_words::IntType;
use std::alloc::Global;
use std::test::Fail;

const NUMBERS: [(IntType, i128, &[u8]); 16] = [
    (IntType::Char, -128, b"\x80"),
    (IntType::Char, 127, b"\x7f"),
    (IntType::SChar, -1, b"\xff"),
    (IntType::UChar, 255, b"\xff"),
    (IntType::UChar, 0, b""),
    (IntType::Short, -32_768, b"\0\x80"),
    (IntType::Short, 513, b"\x01\x02"),
    (IntType::UShort, 65_535, b"\xff\xff"),
    (IntType::Int, -2_147_483_648, b"\0\0\0\x80"),
    (IntType::Int, -1, b"\xff\xff\xff\xff"),
    (IntType::UInt, 256, b"\0\x01"),
    (IntType::UInt, 4_294_967_295, b"\xff\xff\xff\xff"),
    (IntType::Long, -256, b"\0\xff\xff\xff\xff\xff\xff\xff"),
    (
        IntType::ULong,
        18_446_744_073_709_551_615,
        b"\xff\xff\xff\xff\xff\xff\xff\xff",
    ),
    (
        IntType::LLong,
        -9_223_372_036_854_775_808,
        b"\0\0\0\0\0\0\0\x80",
    ),
    (IntType::ULLong, 1, b"\x01"),
];

#[test]
fn numbers(rt: HostRuntime) -> Result<(), Fail> {
    for (kind, z, bytes) in &NUMBERS {
        assert_eq!(rt; holds(rt.alloc(), *kind, *z, bytes)?, true, "{z}");
    }
    Ok(())
}

fn holds(alloc: Global, kind: IntType, z: i128, bytes: &[u8]) -> Result<bool, NoMemory> {
    let init = TInit::Value(number(kind, z));
    let image = static_image(
        alloc,
        &Structs::new(alloc),
        &Vec::new(alloc),
        &CType::Int(kind),
        &init,
    );
    Ok(match image {
        Ok(image) => image.bytes.bytes() == bytes,
        Err(_) => false,
    })
}

const ZEROS: [(&[u8], &[u8]); 6] = [
    (b"", b""),
    (b"\0", b""),
    (b"\0\0", b""),
    (b"a", b"a"),
    (b"a\0\0", b"a"),
    (b"\0a", b"\0a"),
];

#[test]
fn zeros_at_the_end(rt: HostRuntime) -> Result<(), Fail> {
    for (bytes, rest) in &ZEROS {
        let text = Text::from_vec(Vec::from_slice(rt.alloc(), bytes)?);
        assert_eq!(rt; trimmed(text).bytes() == *rest, true);
    }
    Ok(())
}

/// An array of so many characters has so many bytes at the start, or is no object, as part of an array.
const PARTS: [(u64, Result<usize, ConstFault>); 3] = [
    (3, Ok(2)),
    (4_194_304, Ok(2)),
    (4_194_305, Err(ConstFault::NoMemory)),
];

#[test]
fn greatest_parts(rt: HostRuntime) -> Result<(), Fail> {
    for (count, answer) in &PARTS {
        assert_eq!(rt; part(rt.alloc(), *count)? == *answer, true, "{count}");
    }
    Ok(())
}

fn part(alloc: Global, count: u64) -> Result<Result<usize, ConstFault>, NoMemory> {
    let t = array(alloc, chars(alloc, count)?, 1)?;
    let init = TInit::List(listed(alloc, string(alloc, 2)?)?);
    Ok(length(alloc, &t, &init))
}

/// How many bytes an image has.
fn length(alloc: Global, t: &CType, init: &TInit) -> Result<usize, ConstFault> {
    let image = static_image(alloc, &Structs::new(alloc), &Vec::new(alloc), t, init)?;
    Ok(image.bytes.bytes().len())
}

/// So many letters.
fn string(alloc: Global, count: usize) -> Result<TInit, NoMemory> {
    let mut text = Text::new(alloc);
    for _ in 0..count {
        text.push(b'a')?;
    }
    Ok(TInit::Chars(text))
}

/// Two strings of a mebibyte, each in half of the greatest object.
#[test]
fn large_strings(rt: HostRuntime) -> Result<(), Fail> {
    let t = array(rt.alloc(), chars(rt.alloc(), 2_097_152)?, 2)?;
    let mut items = Vec::new(rt.alloc());
    for _ in 0..2 {
        push_on(&mut items, string(rt.alloc(), 1_048_576)?)?;
    }
    assert_eq!(rt;
        length(rt.alloc(), &t, &TInit::List(items)) == Ok(3_145_728),
        true
    );
    Ok(())
}

/// An initialiser of 200,000 numbers.
#[test]
fn many_items(rt: HostRuntime) -> Result<(), Fail> {
    let t = array(rt.alloc(), CType::Int(IntType::Int), 200_000)?;
    let mut items = Vec::new(rt.alloc());
    for _ in 0..200_000 {
        push_on(&mut items, TInit::Value(number(IntType::Int, 1)))?;
    }
    assert_eq!(rt;
        length(rt.alloc(), &t, &TInit::List(items)) == Ok(799_997),
        true
    );
    Ok(())
}
