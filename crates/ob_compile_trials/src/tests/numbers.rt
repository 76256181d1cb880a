//! The common type of each pair of integer types, seen by the length that it gives an array: `i` and `u` for four bytes
//! with and without a sign, `l` and `m` for eight.

use crate::answer::answer;
use std::alloc::{AllocError, Global};
use std::fmt::Write;
use std::process::Abort;
use std::test::Fail;

const TYPES: &str =
    "char,signed char,unsigned char,short,unsigned short,int,unsigned,long,unsigned long,long long,unsigned long long";

// A line for each type on the left, and a letter for each on the right.
const COMMON: &str = "\
iiiiiiulmlm
iiiiiiulmlm
iiiiiiulmlm
iiiiiiulmlm
iiiiiiulmlm
iiiiiiulmlm
uuuuuuulmlm
llllllllmlm
mmmmmmmmmmm
llllllllmlm
mmmmmmmmmmm
";

const PROMOTED: &str = "\
iiiiiiiiiii
iiiiiiiiiii
iiiiiiiiiii
iiiiiiiiiii
iiiiiiiiiii
iiiiiiiiiii
uuuuuuuuuuu
lllllllllll
mmmmmmmmmmm
lllllllllll
mmmmmmmmmmm
";

fn size(letter: char) -> u32 {
    match letter {
        'i' | 'u' => 4,
        _ => 8,
    }
}

fn is_signed(letter: char) -> u32 {
    match letter {
        'i' | 'l' => 1,
        _ => 0,
    }
}

/// A program that is accepted where the sign between numbers of two types gives one of this letter.
fn program(
    alloc: Global,
    pieces: (&str, &str),
    types: (&str, &str),
    letter: char,
) -> Result<String, AllocError> {
    let (first, sign) = pieces;
    let (left, right) = types;
    let mut value = String::new(alloc);
    write!(value, "({first}({left})0{sign}({right})0)")?;
    let value = value.as_str();
    let size = size(letter);
    let signed = is_signed(letter);
    let mut text = String::new(alloc);
    write!(
        text,
        "int a[sizeof{value}=={size}&&({value}-1<0)=={signed}?1:-1];int main(void){{}}",
    )?;
    Ok(text)
}

fn pair(
    rt: &impl Abort,
    alloc: Global,
    pieces: (&str, &str),
    types: (&str, &str),
    letter: char,
) -> Result<(), Fail> {
    let source = program(alloc, pieces, types, letter)?;
    let found = answer(alloc, source.as_str())?;
    assert_eq!(rt; found.as_str(), "ok", "{}", source.as_str());
    Ok(())
}

fn line(
    rt: &impl Abort,
    alloc: Global,
    pieces: (&str, &str),
    left: &str,
    row: &str,
) -> Result<(), Fail> {
    let mut letters = row.chars();
    for right in TYPES.split(',') {
        let letter = letters.next().unwrap_or(' ');
        pair(rt, alloc, pieces, (left, right), letter)?;
    }
    Ok(())
}

fn table(rt: &impl Abort, alloc: Global, pieces: (&str, &str), rows: &str) -> Result<(), Fail> {
    let mut rows = rows.lines();
    for left in TYPES.split(',') {
        let row = rows.next().unwrap_or("");
        line(rt, alloc, pieces, left, row)?;
    }
    Ok(())
}

#[test]
fn gives_the_common_type(rt: HostRuntime) -> Result<(), Fail> {
    table(&rt, rt.alloc(), ("", "+"), COMMON)?;
    table(&rt, rt.alloc(), ("", "&"), COMMON)?;
    table(&rt, rt.alloc(), ("0?", ":"), COMMON)
}

#[test]
fn gives_the_promoted_type(rt: HostRuntime) -> Result<(), Fail> {
    table(&rt, rt.alloc(), ("", "<<"), PROMOTED)
}
