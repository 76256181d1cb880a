use ob_model::{Entry, Sort};
use ob_objects::ObjectTable;
use std::test::Fail;

#[test]
fn three_objects(rt: HostRuntime) -> Result<(), Fail> {
    let mut table = ObjectTable::new(rt.alloc(), 3)?;
    let buffer = Entry {
        base: 4096,
        size: 10,
        object: 7,
        sort: Sort::Static,
    };
    let empty = Entry {
        base: 4112,
        size: 0,
        object: 8,
        sort: Sort::Automatic,
    };
    let below = Entry {
        base: 32,
        size: 40,
        object: 9,
        sort: Sort::Heap,
    };
    table.insert(buffer);
    table.insert(empty);
    table.insert(below);
    let rows = [
        (0, None),
        (31, None),
        (32, Some(below)),
        (72, Some(below)),
        (73, None),
        (4095, None),
        (4096, Some(buffer)),
        (4101, Some(buffer)),
        (4106, Some(buffer)),
        (4107, None),
        (4111, None),
        (4112, Some(empty)),
        (4113, None),
        (u64::MAX, None),
    ];
    for (address, entry) in rows {
        assert_eq!(rt; table.find(address), entry, "at {address}");
    }
    assert_eq!(rt; table.find(4101), Some(buffer));
    assert_eq!(rt; table.root(), Some(buffer));
    assert_eq!(rt; table.remove(4097), None);
    assert_eq!(rt; table.remove(4096), Some(buffer));
    assert_eq!(rt; table.remove(4096), None);
    let rows = [
        (4096, None),
        (4106, None),
        (72, Some(below)),
        (4112, Some(empty)),
    ];
    for (address, entry) in rows {
        assert_eq!(rt; table.find(address), entry, "later at {address}");
    }
    table.clear();
    assert_eq!(rt; table.find(32), None);
    assert_eq!(rt; table.root(), None);
    Ok(())
}

#[test]
fn no_room_at_all(rt: HostRuntime) -> Result<(), Fail> {
    let mut table = ObjectTable::new(rt.alloc(), 0)?;
    assert_eq!(rt; table.find(0), None);
    assert_eq!(rt; table.remove(0), None);
    table.clear();
    assert_eq!(rt; table.find(0), None);
    Ok(())
}

/// A table filled, cleared and filled again.
#[test]
fn as_many_as_fit(rt: HostRuntime) -> Result<(), Fail> {
    let mut table = ObjectTable::new(rt.alloc(), 1)?;
    let last = Entry {
        base: 0x7fff_ffff_ffff_fff0,
        size: 15,
        object: u64::MAX,
        sort: Sort::Heap,
    };
    table.insert(last);
    assert_eq!(rt; table.find(0x7fff_ffff_ffff_ffff), Some(last));
    table.clear();
    assert_eq!(rt; table.find(0x7fff_ffff_ffff_fff0), None);
    table.insert(last);
    assert_eq!(rt; table.remove(0x7fff_ffff_ffff_fff0), Some(last));
    Ok(())
}
