use crate::tests::{END, Named, fault, name_row, with_objects};
use ob_code::{Instr, Part, Rows, verify};
use ob_model::Profile;
use std::test::Fail;

// One row of names beside two static objects of 8 bytes and a function with four words and four variables,
// of which variable 1 has 4 bytes and variable 2 has 10: holder, ordinal, word, kind and name, and whether
// the row is sound.
const ROWS: [(Named, bool); 34] = [
    ((0, 1, 0, 5, b"g"), true),
    ((0, 2, 0, 11, b"_1"), true),
    ((0, 2, 0, 12, b"main"), true),
    ((0, 0, 0, 5, b"g"), false),
    ((0, 3, 0, 5, b"g"), false),
    ((0, 1, 2, 5, b"g"), false),
    ((1, 0, 2, 5, b"x"), true),
    ((1, 3, 3, 11, b"x"), true),
    ((1, 1, 0, 5, b"x"), true),
    ((1, 2, 0, 11, b"x"), true),
    ((1, 2, 0, 12, b"x"), true),
    ((2, 0, 2, 5, b"x"), false),
    ((1, 4, 2, 5, b"x"), false),
    ((1, 0, 1, 5, b"x"), false),
    ((1, 0, 4, 5, b"x"), false),
    ((1, 0, 0, 5, b"x"), false),
    ((1, 1, 0, 7, b"x"), false),
    ((1, 1, 0, 11, b"x"), false),
    ((1, 1, 2, 7, b"x"), true),
    ((1, 2, 2, 12, b"x"), false),
    ((1, 2, 0, 13, b"x"), false),
    ((1, 0, 2, 0, b""), false),
    ((1, 0, 2, 0, b"1x"), false),
    ((1, 0, 2, 0, b"x-y"), false),
    ((1, 0, 2, 0, b"NULL"), false),
    ((1, 0, 2, 0, b"null"), true),
    ((1, 0, 2, 0, b"const"), false),
    ((1, 0, 2, 0, b"consts"), true),
    ((1, 0, 2, 0, b"size_t"), false),
    ((1, 0, 2, 0, b"_Bool"), false),
    ((1, 0, 2, 0, b"inline"), false),
    ((1, 0, 2, 0, b"x\xC3\xA4"), false),
    ((1, 0, 2, 0, b"Z9_"), true),
    ((1, 0, 2, 0, b"break"), false),
];

#[test]
fn rows_of_names(rt: HostRuntime) -> Result<(), Fail> {
    for (row, sound) in &ROWS {
        let mut names = Vec::new(rt.alloc());
        names.push(name_row(rt.alloc(), row)?)?;
        let mut made = with_objects(rt.alloc(), &[END])?;
        made.names = Rows::from_vec(names);
        let want = if *sound { None } else { Some((Part::Names, 0)) };
        assert_eq!(rt; fault(made), want, "{row:?}");
    }
    Ok(())
}

const STATIC: Named = (0, 1, 0, 5, b"g");

const LATER_STATIC: Named = (0, 2, 0, 5, b"g");

const VARIABLE: Named = (1, 0, 2, 5, b"x");

const LATER_VARIABLE: Named = (1, 3, 2, 5, b"x");

// Rows increase by holder and ordinal; the row that doesn't is at fault.
const ORDERS: [([Named; 3], Option<(Part, u64)>); 5] = [
    ([STATIC, LATER_STATIC, VARIABLE], None),
    ([STATIC, VARIABLE, LATER_VARIABLE], None),
    ([STATIC, STATIC, VARIABLE], Some((Part::Names, 1))),
    ([LATER_STATIC, VARIABLE, STATIC], Some((Part::Names, 2))),
    ([VARIABLE, LATER_VARIABLE, VARIABLE], Some((Part::Names, 2))),
];

#[test]
fn names_in_order(rt: HostRuntime) -> Result<(), Fail> {
    for (rows, want) in &ORDERS {
        let mut names = Vec::new(rt.alloc());
        for row in rows {
            names.push(name_row(rt.alloc(), row)?)?;
        }
        let mut made = with_objects(rt.alloc(), &[END])?;
        made.names = Rows::from_vec(names);
        assert_eq!(rt; fault(made), *want, "{rows:?}");
    }
    Ok(())
}

// The profile of an image can be changed once it is verified.
#[test]
fn profiles(rt: HostRuntime) -> Result<(), Fail> {
    let made = with_objects(rt.alloc(), &[Instr::Tick, END])?;
    let changed = verify(made).map(|v| v.with_profile(Profile::Two).image().profile);
    assert_eq!(rt; changed.ok(), Some(Profile::Two));
    Ok(())
}
