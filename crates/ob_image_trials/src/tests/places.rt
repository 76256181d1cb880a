use crate::tests::bytes::{FAR, SMALL};
use crate::tests::{place, turned};
use ob_image::ImageFault;
use std::test::Fail;

// Bytes of the small image turned to another value, and where the first wrong byte then stands, or nothing
// where the bytes are still an image: in the head, where a version of 2 makes a profile of the count behind
// it; in each count, whose low bytes claim rows that the bytes behind it are read as; and in the first two
// instructions, of which one names a and a number, the other a and b.
const OF_SMALL: [(usize, u8, Option<u64>); 58] = [
    (0, 80, Some(0)),
    (1, 98, Some(1)),
    (2, 0, Some(2)),
    (3, 87, Some(3)),
    (4, 0, Some(4)),
    (4, 2, Some(8)),
    (4, 3, Some(4)),
    (5, 1, Some(5)),
    (6, 1, Some(6)),
    (7, 1, Some(7)),
    (10, 5, Some(10)),
    (11, 1, Some(11)),
    (14, 9, Some(14)),
    (15, 1, Some(15)),
    (18, 1, Some(18)),
    (19, 1, Some(19)),
    (46, 9, Some(46)),
    (47, 1, Some(47)),
    (54, 16, Some(54)),
    (55, 1, Some(55)),
    (56, 0, Some(56)),
    (56, 29, Some(56)),
    (57, 1, Some(57)),
    (58, 1, Some(58)),
    (59, 1, Some(59)),
    (60, 1, Some(60)),
    (63, 1, Some(63)),
    (68, 1, Some(68)),
    (71, 1, Some(71)),
    (72, 1, Some(72)),
    (75, 128, Some(75)),
    (84, 255, Some(84)),
    (85, 1, Some(85)),
    (88, 1, Some(88)),
    (100, 1, Some(100)),
    (104, 1, Some(104)),
    (108, 1, Some(108)),
    (111, 128, Some(111)),
    (8, 1, Some(140)),
    (8, 2, Some(75)),
    (9, 1, Some(75)),
    (10, 4, Some(75)),
    (12, 1, Some(52)),
    (12, 3, Some(100)),
    (13, 1, Some(168)),
    (14, 8, Some(168)),
    (16, 2, Some(84)),
    (16, 3, Some(112)),
    (16, 5, None),
    (17, 1, Some(168)),
    (44, 1, Some(76)),
    (44, 2, Some(112)),
    (45, 1, Some(168)),
    (46, 8, Some(168)),
    (52, 1, Some(84)),
    (52, 5, Some(168)),
    (53, 1, Some(168)),
    (54, 15, Some(168)),
];

#[test]
fn turned_bytes_of_the_small_image(rt: HostRuntime) -> Result<(), Fail> {
    for (at, value, wrong) in &OF_SMALL {
        let bytes = turned(rt.alloc(), &SMALL, *at, *value)?;
        assert_eq!(rt;
            place(rt.alloc(), &bytes),
            wrong.map(ImageFault::At),
            "{at} {value}"
        );
    }
    Ok(())
}

// The same for the image with a static object: its version, its count, the object's size, how many bytes
// are given, and the counts of pointers and functions.
const OF_FAR: [(usize, u8, Option<u64>); 24] = [
    (4, 3, Some(4)),
    (8, 2, Some(296)),
    (8, 255, Some(107)),
    (16, 1, None),
    (19, 255, None),
    (20, 1, Some(28)),
    (20, 2, Some(29)),
    (21, 1, Some(283)),
    (22, 64, Some(296)),
    (22, 65, Some(22)),
    (23, 1, Some(23)),
    (24, 1, Some(24)),
    (25, 1, Some(25)),
    (26, 1, Some(26)),
    (27, 1, Some(27)),
    (28, 1, Some(68)),
    (28, 2, Some(288)),
    (29, 1, Some(296)),
    (30, 9, Some(30)),
    (31, 1, Some(31)),
    (32, 2, Some(100)),
    (33, 1, Some(296)),
    (34, 1, Some(34)),
    (35, 1, Some(35)),
];

#[test]
fn turned_bytes_of_the_image_with_a_static_object(rt: HostRuntime) -> Result<(), Fail> {
    for (at, value, wrong) in &OF_FAR {
        let bytes = turned(rt.alloc(), &FAR, *at, *value)?;
        assert_eq!(rt;
            place(rt.alloc(), &bytes),
            wrong.map(ImageFault::At),
            "{at} {value}"
        );
    }
    Ok(())
}

// Bytes behind the head of version 1, and the first wrong place, or the length where more may follow: counts
// of static objects, given bytes, pointers, functions, local objects and instructions at their limits and one
// past them, and given bytes that end with 0.
const COUNTS: [(&[u8], u64); 15] = [
    (&[0, 0, 4, 0], 12),
    (&[1, 0, 4, 0], 10),
    (&[255, 255, 3, 0], 12),
    (
        &[1, 0, 0, 0, 9, 0, 0, 0, 0, 0, 0, 0, 0, 0, 64, 0, 0, 0, 0, 0],
        28,
    ),
    (
        &[1, 0, 0, 0, 9, 0, 0, 0, 0, 0, 0, 0, 1, 0, 64, 0, 0, 0, 0, 0],
        22,
    ),
    (
        &[
            1, 0, 0, 0, 9, 0, 0, 0, 0, 0, 0, 0, 2, 0, 0, 0, 0, 0, 0, 0, 5, 0,
        ],
        29,
    ),
    (
        &[
            1, 0, 0, 0, 9, 0, 0, 0, 0, 0, 0, 0, 2, 0, 0, 0, 0, 0, 0, 0, 0, 5,
        ],
        30,
    ),
    (&[0, 0, 0, 0, 0, 0, 8, 0], 16),
    (&[0, 0, 0, 0, 1, 0, 8, 0], 14),
    (&[0, 0, 0, 0, 0, 0, 0, 0, 0, 0, 1, 0], 20),
    (&[0, 0, 0, 0, 0, 0, 0, 0, 1, 0, 1, 0], 18),
    (
        &[
            0, 0, 0, 0, 0, 0, 0, 0, 1, 0, 0, 0, 0, 0, 0, 0, 0, 0, 0, 0, 2, 0, 0, 0, 0, 0, 0, 0, 16,
            0, 0, 0, 0, 0, 0, 0, 0, 0, 8, 0,
        ],
        48,
    ),
    (
        &[
            0, 0, 0, 0, 0, 0, 0, 0, 1, 0, 0, 0, 0, 0, 0, 0, 0, 0, 0, 0, 2, 0, 0, 0, 0, 0, 0, 0, 16,
            0, 0, 0, 0, 0, 0, 0, 1, 0, 8, 0,
        ],
        46,
    ),
    (
        &[0, 0, 0, 0, 0, 0, 0, 0, 0, 0, 0, 0, 7, 0, 0, 0, 0, 0, 16, 0],
        28,
    ),
    (
        &[0, 0, 0, 0, 0, 0, 0, 0, 0, 0, 0, 0, 7, 0, 0, 0, 1, 0, 16, 0],
        26,
    ),
];

#[test]
fn counts_at_their_limits(rt: HostRuntime) -> Result<(), Fail> {
    for (behind, at) in &COUNTS {
        let mut bytes = SMALL[..8].to_vec(rt.alloc())?;
        bytes.extend_from_slice(behind)?;
        assert_eq!(rt;
            place(rt.alloc(), &bytes),
            Some(ImageFault::At(*at)),
            "{behind:?}"
        );
    }
    Ok(())
}

// Operations with the greatest kind, operator or relation of their form, and with one more. The kind of
// the only instruction stands at 29, its number from 48 on.
const FORMS: [(u8, u8, u8, Option<u64>); 14] = [
    (4, 10, 0, None),
    (4, 11, 0, Some(29)),
    (5, 10, 9, None),
    (5, 0, 10, Some(48)),
    (6, 10, 5, None),
    (6, 0, 6, Some(48)),
    (15, 11, 0, None),
    (15, 12, 0, Some(29)),
    (16, 11, 0, None),
    (16, 12, 0, Some(29)),
    (21, 0, 3, None),
    (21, 0, 4, Some(48)),
    (1, 0, 0, None),
    (1, 0, 1, Some(48)),
];

#[test]
fn forms_at_their_limits(rt: HostRuntime) -> Result<(), Fail> {
    for (op, kind, number, at) in &FORMS {
        let mut bytes = SMALL[..8].to_vec(rt.alloc())?;
        bytes.extend_from_slice(&[0, 0, 0, 0, 0, 0, 0, 0, 0, 0, 0, 0, 0, 0, 0, 0, 1, 0, 0, 0])?;
        bytes.extend_from_slice(&[*op, *kind])?;
        bytes.extend_from_slice(&[0; 18])?;
        bytes.push(*number)?;
        bytes.extend_from_slice(&[0; 7])?;
        assert_eq!(rt;
            place(rt.alloc(), &bytes),
            at.map(ImageFault::At),
            "{op} {kind} {number}"
        );
    }
    Ok(())
}
