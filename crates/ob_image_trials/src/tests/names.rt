use crate::tests::bytes::SMALL;
use crate::tests::{place, second};
use ob_image::ImageFault;
use std::test::Fail;

// A row of names behind the small image in version 2, with its count of 1 before it, and where the first wrong
// byte stands. The row begins at 176: holder, ordinal, line, word, kind at 192, length at 196, name at 200.
const FIELDS: [(&[u8], Option<u64>); 9] = [
    (
        b"\x01\0\0\0\0\0\0\0\x07\0\0\0\x02\0\0\0\0\0\0\0\x01\0\0\0x",
        None,
    ),
    (
        b"\xff\xff\xff\xff\xff\xff\xff\xff\xff\xff\xff\xff\xff\xff\xff\xff\x0c\0\0\0\x01\0\0\0x",
        None,
    ),
    (
        b"\0\0\0\0\0\0\0\0\0\0\0\0\0\0\0\0\x0d\0\0\0\x01\0\0\0x",
        Some(192),
    ),
    (
        b"\0\0\0\0\0\0\0\0\0\0\0\0\0\0\0\0\x05\x01\0\0\x01\0\0\0x",
        Some(193),
    ),
    (
        b"\0\0\0\0\0\0\0\0\0\0\0\0\0\0\0\0\x05\0\0\x01\x01\0\0\0x",
        Some(195),
    ),
    (
        b"\0\0\0\0\0\0\0\0\0\0\0\0\0\0\0\0\x05\0\0\0\0\0\0\0x",
        Some(199),
    ),
    (
        b"\0\0\0\0\0\0\0\0\0\0\0\0\0\0\0\0\x05\0\0\0\0\0\0",
        Some(199),
    ),
    (
        b"\0\0\0\0\0\0\0\0\0\0\0\0\0\0\0\0\x05\0\0\0\x01\0\x10\0x",
        Some(201),
    ),
    (
        b"\0\0\0\0\0\0\0\0\0\0\0\0\0\0\0\0\x05\0\0\0\xff\xff\xff\xffx",
        Some(201),
    ),
];

#[test]
fn fields_of_a_row_of_names(rt: HostRuntime) -> Result<(), Fail> {
    for (row, wrong) in &FIELDS {
        let mut bytes = second(rt.alloc(), &SMALL, &[1, 0, 0, 0])?;
        bytes.extend_from_slice(row)?;
        assert_eq!(rt;
            place(rt.alloc(), &bytes),
            wrong.map(ImageFault::At),
            "{row:?}"
        );
    }
    Ok(())
}

// What is said to be a name's length, the bytes that stand there, and where the first wrong one stands. A
// reserved word is wrong at its last byte, since until then it could go on as a name of that length.
const NAMES: [(u8, &[u8], Option<u64>); 25] = [
    (1, b"_", None),
    (1, b"Z", None),
    (1, b"7", Some(200)),
    (1, b".", Some(200)),
    (1, b"\xe9", Some(200)),
    (1, b"xy", Some(201)),
    (2, b"x", Some(201)),
    (2, b"x9", None),
    (2, b"x-", Some(201)),
    (2, b"do", Some(201)),
    (2, b"dO", None),
    (3, b"a_9", None),
    (3, b"int", Some(202)),
    (3, b"inT", None),
    (3, b"int9", Some(202)),
    (3, b"i t", Some(201)),
    (4, b"int9", None),
    (4, b"int ", Some(203)),
    (4, b"NULL", Some(203)),
    (5, b"const", Some(204)),
    (5, b"_Bool", Some(204)),
    (6, b"const_", None),
    (6, b"size_t", Some(205)),
    (8, b"restrict", Some(207)),
    (10, b"_Imaginary", Some(209)),
];

#[test]
fn names_of_variables(rt: HostRuntime) -> Result<(), Fail> {
    for (length, name, wrong) in &NAMES {
        let mut bytes = second(rt.alloc(), &SMALL, &[1, 0, 0, 0])?;
        bytes.extend_from_slice(&[0; 20])?;
        bytes.extend_from_slice(&[*length, 0, 0, 0])?;
        bytes.extend_from_slice(name)?;
        assert_eq!(rt;
            place(rt.alloc(), &bytes),
            wrong.map(ImageFault::At),
            "{length} {name:?}"
        );
    }
    Ok(())
}
