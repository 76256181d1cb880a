use crate::plain::Plain;
use ob_model::Cell;
use ob_stray::{Dropped, StrayStore};
use std::process::Abort;
use std::test::Fail;

/// A number from the one before it (a linear congruential generator modulo 2^64, by Knuth).
fn drawn(before: u64) -> u64 {
    before
        .wrapping_mul(6_364_136_223_846_793_005)
        .wrapping_add(1_442_695_040_888_963_407)
}

/// One call on the store and on the plain list, with the same answer. Of 32 numbers 15 load, 13 store, 3 let an
/// object go and one clears.
fn both(
    rt: &impl Abort,
    store: &mut StrayStore,
    plain: &mut Plain,
    number: u64,
) -> Result<(), Fail> {
    let object = 1 + number / 32 % 3;
    let granule = (number / 128 % 4) as i64 - 2;
    let cell = Cell {
        pointer: number / 512 % 2 == 0,
        set: (number / 1024 % 256) as u8,
        word: number,
    };
    let act = number % 32;
    if act < 15 {
        let wanted = plain.load(object, granule)?;
        assert_eq!(rt; store.load(object, granule), wanted, "load at {number}");
    } else if act < 28 {
        let wanted = plain.store(object, granule, cell)?;
        assert_eq!(rt;
            store.store(object, granule, cell)?,
            wanted,
            "store at {number}"
        );
    } else if act < 31 {
        plain.forget(object)?;
        store.forget(object);
    } else {
        plain.clear();
        store.clear();
    }
    Ok(())
}

/// 5,000 random calls with room for 1, 2 and 3 entries, on three objects of four granules each.
#[test]
fn as_a_plain_list(rt: HostRuntime) -> Result<(), Fail> {
    for cap in [1usize, 2, 3] {
        let mut store = StrayStore::new(rt.alloc(), cap)?;
        let mut plain = Plain::new(rt.alloc(), cap);
        let mut state = 20_041;
        for _ in 0..5_000 {
            state = drawn(state);
            both(&rt, &mut store, &mut plain, state >> 40)?;
        }
    }
    Ok(())
}

fn bytes(word: u64) -> Cell {
    Cell {
        pointer: false,
        set: 255,
        word,
    }
}

fn left(object: u64, granule: i64, word: u64) -> Option<Dropped> {
    Some(Dropped {
        object,
        granule,
        cell: bytes(word),
    })
}

/// A call, with its answer.
#[derive(Clone, Copy)]
enum Call {
    Load(u64, i64, Option<u64>),
    Store(u64, i64, u64, Option<(u64, i64, u64)>),
    Forget(u64),
    Clear,
}

use Call::{Clear, Forget, Load, Store};

fn answers(rt: &impl Abort, store: &mut StrayStore, call: Call) -> Result<(), Fail> {
    match call {
        Load(object, granule, None) => assert_eq!(rt; store.load(object, granule), None),
        Load(object, granule, Some(word)) => {
            assert_eq!(rt; store.load(object, granule), Some(bytes(word)));
        }
        Store(object, granule, word, None) => {
            assert_eq!(rt; store.store(object, granule, bytes(word))?, None);
        }
        Store(object, granule, word, Some((out, place, old))) => {
            let answer = store.store(object, granule, bytes(word))?;
            assert_eq!(rt; answer, left(out, place, old));
        }
        Forget(object) => store.forget(object),
        Clear => store.clear(),
    }
    Ok(())
}

/// With room for two: a granule that was loaded outlives one that was stored behind it; one that is listed is stored
/// however full the list is; an object's entries leave with it, and no later object finds them; a cleared store is as
/// a new one.
const CALLS: [Call; 28] = [
    Load(7, 0, None),
    Store(7, 0, 70, None),
    Store(7, i64::MIN, 71, None),
    Load(7, 0, Some(70)),
    Store(7, i64::MAX, 72, Some((7, i64::MIN, 71))),
    Load(7, i64::MIN, None),
    Store(7, 0, 73, None),
    Store(7, 0, 74, None),
    Load(7, 0, Some(74)),
    Store(u64::MAX, 0, 80, Some((7, i64::MAX, 72))),
    Forget(9),
    Forget(7),
    Load(7, 0, None),
    Load(u64::MAX, 0, Some(80)),
    Store(7, 0, 75, None),
    Load(u64::MAX, 0, Some(80)),
    Store(7, 1, 76, Some((7, 0, 75))),
    Forget(u64::MAX),
    Forget(u64::MAX),
    Load(7, 1, Some(76)),
    Store(7, 0, 77, None),
    Clear,
    Load(7, 0, None),
    Load(7, 1, None),
    Forget(7),
    Store(7, 0, 78, None),
    Store(7, 1, 79, None),
    Store(7, 2, 80, Some((7, 0, 78))),
];

#[test]
fn by_hand(rt: HostRuntime) -> Result<(), Fail> {
    let mut store = StrayStore::new(rt.alloc(), 2)?;
    for call in &CALLS {
        answers(&rt, &mut store, *call)?;
    }
    Ok(())
}

/// With room for 60 and three entries of each of 20 objects, one object is forgotten. Three new granules find room
/// then, and each one after them makes the first of the others leave, in the order in which they were stored.
#[test]
fn others_stay_in_order(rt: HostRuntime) -> Result<(), Fail> {
    let mut store = StrayStore::new(rt.alloc(), 60)?;
    for i in 0..60u64 {
        assert_eq!(rt; store.store(i % 20, i as i64 - 30, bytes(i))?, None);
    }
    store.forget(7);
    for i in 0..3 {
        assert_eq!(rt; store.store(20, i, bytes(0))?, None);
    }
    for i in 0..60u64 {
        if i % 20 != 7 {
            let out = store.store(21, i as i64, bytes(0))?;
            assert_eq!(rt; out, left(i % 20, i as i64 - 30, i));
        }
    }
    Ok(())
}
