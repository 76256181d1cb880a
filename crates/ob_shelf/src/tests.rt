use super::Shelf;
use std::process::Abort;
use std::test::Fail;

/// A call, with its answer.
#[derive(Clone, Copy)]
enum Call {
    Take(u128, Option<u64>),
    Give(u64),
    Clear,
}

use Call::{Clear, Give, Take};

fn answers(rt: &impl Abort, shelf: &mut Shelf, call: Call) {
    match call {
        Take(n, place) => assert_eq!(rt; shelf.take(n), place, "for {n}"),
        Give(place) => shelf.give(place),
        Clear => shelf.clear(),
    }
}

#[test]
fn heaps_with_room_for_little(rt: HostRuntime) -> Result<(), Fail> {
    let rows = [
        (0, 0, None, None),
        (0, u128::MAX, None, None),
        (15, 0, None, None),
        (16, 0, Some(0), None),
        (16, 15, Some(0), None),
        (16, 16, None, None),
        (31, 16, None, None),
        (32, 16, Some(0), None),
        (32, 31, Some(0), None),
        (32, 15, Some(0), Some(16)),
        (67_108_864, 67_108_863, Some(0), None),
        (67_108_864, 67_108_864, None, None),
        (
            67_108_864,
            0xffff_ffff_ffff_fffe_0000_0000_0000_0001,
            None,
            None,
        ),
    ];
    for (heap, n, first, second) in rows {
        if heap <= 67_108_864 {
            let mut shelf = Shelf::new(rt.alloc(), heap)?;
            answers(&rt, &mut shelf, Take(n, first));
            answers(&rt, &mut shelf, Take(n, second));
        }
    }
    Ok(())
}

#[test]
fn the_least_place(rt: HostRuntime) -> Result<(), Fail> {
    let mut shelf = Shelf::new(rt.alloc(), 168)?;
    let calls = [
        Take(16, Some(0)),
        Take(0, Some(32)),
        Take(15, Some(48)),
        Take(40, Some(64)),
        Take(47, Some(112)),
        Take(0, None),
        Give(48),
        Take(16, None),
        Give(32),
        Take(16, Some(32)),
        Give(0),
        Give(112),
        Take(33, Some(112)),
        Take(0, Some(0)),
        Take(16, None),
        Take(1, Some(16)),
        Give(64),
        Give(16),
        Give(32),
        Take(95, Some(16)),
        Give(8),
        Give(160),
        Take(0, None),
        Clear,
        Take(159, Some(0)),
        Give(0),
        Take(160, None),
        Take(143, Some(0)),
        Take(15, Some(144)),
    ];
    for call in calls {
        answers(&rt, &mut shelf, call);
    }
    Ok(())
}
