//! What static objects hold at the start.
use crate::tests::parts::{array, chars, inside, number, of_type, pointer};
use ob_base::{NoMemory, Text, let_go, listed, push_on};
use ob_consts::{ConstFault, static_image};
use ob_layout::complete;
use ob_tree::{CType, MemberRow, Structs};
use ob_typed::{StaticPointer, TExpr, TInit, TLean, TNode, TPlace};
use ob_words::IntType;
use std::alloc::Global;
use std::test::Fail;

/// A type, an initialiser, and what an object holds: its bytes, and the places of its pointers. Types:
/// `c`, `i` and `p` for `char`, `int` and `void *`, `S` for `struct { char c; int i; }` and `T` for
/// `struct { char c; struct S s[2]; void *p; }`, with the lengths of arrays behind them, the innermost
/// first. Items: a digit for an `int`, `A` to `J` for a `char` from 0 on, strings, `n` for null, `p` for a pointer to
/// byte 3 of object 0, which has ten characters.
const IMAGES: [(&str, &str, &[u8], &[u64]); 17] = [
    ("i", "5", b"\x05", &[]),
    ("c2", "a", b"ab", &[]),
    ("c3", "a", b"ab", &[]),
    ("c4", "z", b"a\0b", &[]),
    ("c4", "e", b"ab", &[]),
    ("c2", "{AA}", b"", &[]),
    ("c2", "{BC}", b"\x01\x02", &[]),
    ("c0", "{BC}", b"\x01\x02", &[]),
    ("i3", "{12}", b"\x01\0\0\0\x02", &[]),
    ("c32", "{aa}", b"ab\0ab", &[]),
    ("c22", "{{B}{C}}", b"\x01\0\x02", &[]),
    ("S", "{B2}", b"\x01\0\0\0\x02", &[]),
    ("S2", "{{B}{C3}}", b"\x01\0\0\0\0\0\0\0\x02\0\0\0\x03", &[]),
    (
        "T",
        "{B{{C3}{E5}}p}",
        b"\x01\0\0\0\x02\0\0\0\x03\0\0\0\x04\0\0\0\x05",
        &[24],
    ),
    ("T2", "{{B{{A}}p}{A{{A}}p}}", b"\x01", &[24, 56]),
    ("p3", "{pnp}", b"", &[0, 16]),
    ("p", "n", b"", &[]),
];

#[test]
fn images(rt: HostRuntime) -> Result<(), Fail> {
    for (ty, init, bytes, places) in &IMAGES {
        assert_eq!(rt;
            holds(rt.alloc(), ty, init, bytes, places)?,
            true,
            "{ty} {init}"
        );
    }
    Ok(())
}

/// What is refused as no constant: a call, a pointer past the end of its object, a structure that is copied.
const REFUSED: [(&str, &str); 6] = [
    ("i", "f"),
    ("i2", "{1f}"),
    ("p", "q"),
    ("p2", "{nq}"),
    ("S", "k"),
    ("T", "{B{{C3}{Ef}}p}"),
];

#[test]
fn refusals(rt: HostRuntime) -> Result<(), Fail> {
    for (ty, init) in &REFUSED {
        assert_eq!(rt;
            fault_of(rt.alloc(), ty, init)?,
            Some(ConstFault::NotConstant),
            "{ty} {init}"
        );
    }
    Ok(())
}

fn holds(
    alloc: Global,
    ty: &str,
    init: &str,
    bytes: &[u8],
    places: &[u64],
) -> Result<bool, NoMemory> {
    let s = structures(alloc)?;
    let statics = listed(alloc, chars(alloc, 10)?)?;
    let t = type_of(alloc, ty)?;
    let items = items_of(alloc, init)?;
    Ok(match items.first() {
        Some(item) => match static_image(alloc, &s, &statics, &t, item) {
            Ok(image) => image.bytes.bytes() == bytes && stand_at(&image.pointers, places),
            Err(_) => false,
        },
        None => false,
    })
}

fn fault_of(alloc: Global, ty: &str, init: &str) -> Result<Option<ConstFault>, NoMemory> {
    let s = structures(alloc)?;
    let statics = listed(alloc, chars(alloc, 10)?)?;
    let t = type_of(alloc, ty)?;
    let items = items_of(alloc, init)?;
    Ok(match items.first() {
        Some(item) => static_image(alloc, &s, &statics, &t, item).err(),
        None => None,
    })
}

fn stand_at(pointers: &Vec<StaticPointer>, places: &[u64]) -> bool {
    for (i, pointer) in pointers.iter().enumerate() {
        if !stands_at(*pointer, places.get(i).copied()) {
            return false;
        }
    }
    pointers.len() == places.len()
}

fn stands_at(pointer: StaticPointer, place: Option<u64>) -> bool {
    place == Some(pointer.at) && pointer.target == 0 && pointer.offset == 3
}

// ---- types

fn type_of(alloc: Global, text: &str) -> Result<CType, NoMemory> {
    let mut ty = CType::Void;
    for sign in text.bytes() {
        ty = type_with(alloc, ty, sign)?;
    }
    Ok(ty)
}

fn type_with(alloc: Global, before: CType, sign: u8) -> Result<CType, NoMemory> {
    match sign {
        b'0'..=b'9' => array(alloc, before, (sign - b'0') as u64),
        _ => base(alloc, sign),
    }
}

fn base(alloc: Global, sign: u8) -> Result<CType, NoMemory> {
    match sign {
        b'c' => Ok(CType::Int(IntType::Char)),
        b'i' => Ok(CType::Int(IntType::Int)),
        b'p' => Ok(CType::Pointer(Box::new(alloc, CType::Void)?)),
        b'S' => Ok(CType::Struct(0)),
        _ => Ok(CType::Struct(1)),
    }
}

fn structures(alloc: Global) -> Result<Structs, NoMemory> {
    let mut s = Structs::new(alloc);
    add(alloc, &mut s, 0, &["c", "i"])?;
    add(alloc, &mut s, 1, &["c", "S2", "p"])?;
    Ok(s)
}

fn add(alloc: Global, s: &mut Structs, number: u32, types: &[&str]) -> Result<(), NoMemory> {
    let mut members = Vec::new(alloc);
    for ty in types {
        let ty = type_of(alloc, ty)?;
        push_on(
            &mut members,
            MemberRow {
                name: Text::new(alloc),
                ty,
            },
        )?;
    }
    if s.len() != number as usize {
        return Err(NoMemory);
    }
    s.declare(alloc)?;
    match complete(s, number, members) {
        Ok(()) => Ok(()),
        Err(_) => Err(NoMemory),
    }
}

// ---- initialisers

/// The items of a text, of which there is one.
fn items_of(alloc: Global, text: &str) -> Result<Vec<TInit>, NoMemory> {
    let mut lists = listed(alloc, Vec::new(alloc))?;
    for sign in text.bytes() {
        read(alloc, &mut lists, sign)?;
    }
    match lists.pop() {
        Some(items) => Ok(items),
        None => Err(NoMemory),
    }
}

fn read(alloc: Global, lists: &mut Vec<Vec<TInit>>, sign: u8) -> Result<(), NoMemory> {
    match sign {
        b'{' => push_on(lists, Vec::new(alloc)),
        b'}' => close(lists),
        _ => put(lists, item(alloc, sign)?),
    }
}

fn close(lists: &mut Vec<Vec<TInit>>) -> Result<(), NoMemory> {
    match lists.pop() {
        Some(items) => put(lists, TInit::List(items)),
        None => Ok(()),
    }
}

fn put(lists: &mut Vec<Vec<TInit>>, item: TInit) -> Result<(), NoMemory> {
    match lists.last_mut() {
        Some(items) => push_on(items, item),
        None => {
            let_go(item);
            Ok(())
        }
    }
}

fn item(alloc: Global, sign: u8) -> Result<TInit, NoMemory> {
    match sign {
        b'a' => text(alloc, b"ab"),
        b'e' => text(alloc, b"ab\0"),
        b'z' => text(alloc, b"a\0b"),
        b'k' => Ok(copied()),
        _ => Ok(TInit::Value(value(alloc, sign)?)),
    }
}

fn text(alloc: Global, bytes: &[u8]) -> Result<TInit, NoMemory> {
    Ok(TInit::Chars(Text::from_vec(Vec::from_slice(alloc, bytes)?)))
}

fn copied() -> TInit {
    TInit::Copy(TPlace {
        line: 1,
        ty: CType::Struct(0),
        lean: TLean::Static(0),
    })
}

fn value(alloc: Global, sign: u8) -> Result<TExpr, NoMemory> {
    match sign {
        b'0'..=b'9' => Ok(number(IntType::Int, (sign - b'0') as i128)),
        b'A'..=b'J' => Ok(number(IntType::Char, (sign - b'A') as i128)),
        b'f' => Ok(of_type(CType::Int(IntType::Int), TNode::Call(0, Vec::new(alloc)))),
        b'p' => pointer(alloc, inside(alloc, 0, 3)?),
        b'q' => pointer(alloc, inside(alloc, 0, 11)?),
        _ => null(alloc),
    }
}

fn null(alloc: Global) -> Result<TExpr, NoMemory> {
    let ty = CType::Pointer(Box::new(alloc, CType::Void)?);
    Ok(of_type(ty, TNode::Null))
}
