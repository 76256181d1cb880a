ghost use Rattle.std.specs.Prelude.{◌<◌};

use super::{AwayTable, Full};
use std::process::Abort;
use std::test::Fail;

/// A call, with its answer.
#[derive(Clone, Copy)]
enum Call {
    WordFor(u64, i64, Result<u64, Full>),
    Read(u64, Option<(u64, i64)>),
    Forget(u64),
    Clear,
}

use Call::{Clear, Forget, Read, WordFor};

fn answers(rt: &impl Abort, table: &mut AwayTable, call: Call) {
    match call {
        WordFor(object, offset, word) => assert_eq!(rt; table.word_for(object, offset), word),
        Read(word, pair) => assert_eq!(rt; table.read(word), pair),
        Forget(object) => table.forget(object),
        Clear => table.clear(),
    }
}

#[test]
fn no_slot_at_all(rt: HostRuntime) -> Result<(), Fail> {
    let mut table = AwayTable::new(rt.alloc(), 0)?;
    let calls = [
        WordFor(4096, 5, Err(Full)),
        Read(0x100_0000_0000, None),
        Forget(4096),
        Clear,
        WordFor(4096, 5, Err(Full)),
    ];
    for call in calls {
        answers(&rt, &mut table, call);
    }
    Ok(())
}

#[test]
fn one_slot(rt: HostRuntime) -> Result<(), Fail> {
    let mut table = AwayTable::new(rt.alloc(), 1)?;
    let calls = [
        WordFor(4096, 5, Ok(0x100_0000_0000)),
        WordFor(4096, 5, Ok(0x100_0000_0000)),
        WordFor(4096, 6, Err(Full)),
        WordFor(4112, 5, Err(Full)),
        Read(0x100_0000_0000, Some((4096, 5))),
        Forget(4112),
        Read(0x100_0000_0000, Some((4096, 5))),
        Forget(4096),
        Read(0x100_0000_0000, None),
        WordFor(4112, 5, Ok(0x100_0000_0000)),
        Clear,
        Read(0x100_0000_0000, None),
        WordFor(4096, 5, Ok(0x100_0000_0000)),
    ];
    for call in calls {
        answers(&rt, &mut table, call);
    }
    Ok(())
}

#[test]
fn the_least_free_slot(rt: HostRuntime) -> Result<(), Fail> {
    let mut table = AwayTable::new(rt.alloc(), 4)?;
    let calls = [
        WordFor(u64::MAX, i64::MIN, Ok(0x100_0000_0000)),
        WordFor(0, i64::MAX, Ok(0x100_0000_0010)),
        WordFor(u64::MAX, -1, Ok(0x100_0000_0020)),
        WordFor(16, 0, Ok(0x100_0000_0030)),
        WordFor(16, 1, Err(Full)),
        Read(0xff_ffff_fff0, None),
        Read(0x100_0000_0000, Some((u64::MAX, i64::MIN))),
        Read(0x100_0000_0008, None),
        Read(0x100_0000_0011, None),
        Read(0x100_0000_0010, Some((0, i64::MAX))),
        Read(0x100_0000_0030, Some((16, 0))),
        Read(0x100_0000_0040, None),
        Read(0, None),
        Read(u64::MAX, None),
        Forget(u64::MAX),
        Read(0x100_0000_0000, None),
        Read(0x100_0000_0020, None),
        Read(0x100_0000_0030, Some((16, 0))),
        WordFor(16, 0, Ok(0x100_0000_0030)),
        WordFor(16, 1, Ok(0x100_0000_0000)),
        WordFor(16, 2, Ok(0x100_0000_0020)),
        WordFor(16, 3, Err(Full)),
        Forget(0),
        Forget(16),
        WordFor(16, 3, Ok(0x100_0000_0000)),
        WordFor(0, i64::MAX, Ok(0x100_0000_0010)),
    ];
    for call in calls {
        answers(&rt, &mut table, call);
    }
    Ok(())
}

/// Two objects whose pairs are found by one mark, and a pair that comes and goes often.
#[test]
fn pairs_that_come_and_go(rt: HostRuntime) -> Result<(), Fail> {
    let mut table = AwayTable::new(rt.alloc(), 2)?;
    let far = 16 * 65_536;
    for _ in 0..1000 {
        answers(&rt, &mut table, WordFor(16, -4, Ok(0x100_0000_0000)));
        answers(&rt, &mut table, WordFor(16 + far, -4, Ok(0x100_0000_0010)));
        answers(&rt, &mut table, Forget(16));
        answers(&rt, &mut table, Read(0x100_0000_0000, None));
        answers(&rt, &mut table, Read(0x100_0000_0010, Some((16 + far, -4))));
        answers(&rt, &mut table, Forget(16 + far));
        answers(&rt, &mut table, Read(0x100_0000_0010, None));
    }
    Ok(())
}

/// The pair that stands in slot `k` of a table in which a hundred objects have three pairs each.
fn pair_of(k: u64) -> (u64, i64)
    requires { k < 300 }
{
    (16 * (k % 100), (k / 100) as i64)
}

/// The word of slot `k`.
fn word(k: u64) -> u64
    requires { k < 300 }
{
    0x100_0000_0000 + 16 * k
}

/// A hundred objects with three pairs each, none of them side by side: one is forgotten, the others keep
/// theirs, and new pairs take the least one of its slots first.
#[test]
fn many_objects(rt: HostRuntime) -> Result<(), Fail> {
    let mut table = AwayTable::new(rt.alloc(), 300)?;
    for k in 0..300 {
        let (object, offset) = pair_of(k);
        answers(&rt, &mut table, WordFor(object, offset, Ok(word(k))));
    }
    table.forget(16 * 37);
    for k in 0..300 {
        let pair = if k % 100 == 37 {
            None
        } else {
            Some(pair_of(k))
        };
        answers(&rt, &mut table, Read(word(k), pair));
    }
    for k in [37, 137, 237] {
        answers(&rt, &mut table, WordFor(7, k as i64, Ok(word(k))));
    }
    answers(&rt, &mut table, WordFor(7, 0, Err(Full)));
    Ok(())
}

/// Many objects come and go beside one that stays.
#[test]
fn objects_that_come_and_go(rt: HostRuntime) -> Result<(), Fail> {
    let mut table = AwayTable::new(rt.alloc(), 3)?;
    answers(&rt, &mut table, WordFor(8, -1, Ok(0x100_0000_0000)));
    for object in 100..1100 {
        answers(&rt, &mut table, WordFor(object, 0, Ok(0x100_0000_0010)));
        answers(&rt, &mut table, WordFor(object, 1, Ok(0x100_0000_0020)));
        answers(&rt, &mut table, Forget(object));
        answers(&rt, &mut table, Read(0x100_0000_0010, None));
        answers(&rt, &mut table, Read(0x100_0000_0020, None));
    }
    answers(&rt, &mut table, WordFor(8, -1, Ok(0x100_0000_0000)));
    answers(&rt, &mut table, Forget(8));
    answers(&rt, &mut table, Read(0x100_0000_0000, None));
    Ok(())
}
