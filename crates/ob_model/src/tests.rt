use crate::{LoadKind, granule_of, inside, size_of_kind};
use ob_words::IntType;
use std::test::Fail;

// Granules are rounded down, also below the object.
#[test]
fn granules(rt: HostRuntime) -> Result<(), Fail> {
    let cases = [
        (0, 0),
        (7, 0),
        (8, 1),
        (15, 1),
        (-1, -1),
        (-8, -1),
        (-9, -2),
        (i64::MAX, 0x0fff_ffff_ffff_ffff),
        (i64::MIN, -0x1000_0000_0000_0000),
    ];
    for (offset, granule) in cases {
        assert_eq!(rt; granule_of(offset), granule);
    }
    Ok(())
}

// An access is inside up to the last byte of its object, and no further.
#[test]
fn accesses_inside(rt: HostRuntime) -> Result<(), Fail> {
    let cases = [
        (10, 0, 1, true),
        (10, 9, 1, true),
        (10, 10, 1, false),
        (10, 2, 8, true),
        (10, 3, 8, false),
        (10, -1, 1, false),
        (10, i64::MIN, 8, false),
        (7, 0, 8, false),
        (0, 0, 1, false),
        (u64::MAX, i64::MAX, 8, true),
    ];
    for (size, offset, k, answer) in cases {
        assert_eq!(rt; inside(size, offset, k), answer);
    }
    Ok(())
}

// The widths of the integer types, in bytes.
#[test]
fn sizes(rt: HostRuntime) -> Result<(), Fail> {
    let cases = [
        (LoadKind::Num(IntType::Char), 1),
        (LoadKind::Num(IntType::SChar), 1),
        (LoadKind::Num(IntType::UChar), 1),
        (LoadKind::Num(IntType::Short), 2),
        (LoadKind::Num(IntType::UShort), 2),
        (LoadKind::Num(IntType::Int), 4),
        (LoadKind::Num(IntType::UInt), 4),
        (LoadKind::Num(IntType::Long), 8),
        (LoadKind::Num(IntType::ULong), 8),
        (LoadKind::Num(IntType::LLong), 8),
        (LoadKind::Num(IntType::ULLong), 8),
        (LoadKind::Ptr, 8),
    ];
    for (kind, size) in cases {
        assert_eq!(rt; size_of_kind(kind), size);
    }
    Ok(())
}
