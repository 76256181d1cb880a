use crate::tests::bytes::SMALL;
use crate::tests::{place, second, turned};
use ob_image::ImageFault;
use std::test::Fail;

// Bytes of the small image in version 2 turned to another value, and where the first wrong byte then stands:
// in the version, in the profile, which is 1 or 2, and in the count of names, which stands from 172 on and is
// at most 1,048,576.
const ROWS: [(usize, u8, Option<u64>); 16] = [
    (4, 0, Some(4)),
    (4, 3, Some(4)),
    (5, 1, Some(5)),
    (7, 1, Some(7)),
    (8, 0, Some(8)),
    (8, 2, None),
    (8, 3, Some(8)),
    (9, 1, Some(9)),
    (11, 1, Some(11)),
    (14, 5, Some(14)),
    (171, 1, Some(171)),
    (172, 1, Some(176)),
    (173, 255, Some(176)),
    (174, 16, Some(176)),
    (174, 17, Some(174)),
    (175, 1, Some(175)),
];

#[test]
fn turned_bytes_of_version_2(rt: HostRuntime) -> Result<(), Fail> {
    let image = second(rt.alloc(), &SMALL, &[0, 0, 0, 0])?;
    for (at, value, wrong) in &ROWS {
        let bytes = turned(rt.alloc(), &image, *at, *value)?;
        assert_eq!(rt;
            place(rt.alloc(), &bytes),
            wrong.map(ImageFault::At),
            "{at} {value}"
        );
    }
    Ok(())
}

// What stands behind the code, and the first wrong place, or the length where more may follow.
const BEHIND: [(&[u8], Option<u64>); 6] = [
    (&[0, 0, 0, 0], None),
    (&[0, 0, 0, 0, 0], Some(176)),
    (&[], Some(172)),
    (&[0, 0, 0], Some(175)),
    (&[0, 0, 16, 0], Some(176)),
    (&[1, 0, 16, 0], Some(174)),
];

#[test]
fn counts_of_names(rt: HostRuntime) -> Result<(), Fail> {
    for (behind, wrong) in &BEHIND {
        let bytes = second(rt.alloc(), &SMALL, behind)?;
        assert_eq!(rt;
            place(rt.alloc(), &bytes),
            wrong.map(ImageFault::At),
            "{behind:?}"
        );
    }
    Ok(())
}

#[test]
fn nothing_follows_version_1(rt: HostRuntime) -> Result<(), Fail> {
    let mut longer = SMALL.to_vec(rt.alloc())?;
    longer.extend_from_slice(&[0, 0, 0, 0])?;
    assert_eq!(rt; place(rt.alloc(), &longer), Some(ImageFault::At(168)));
    Ok(())
}
