use ob_base::NoMemory;
use ob_lifetimes::{Freed, Lifetimes};
use ob_model::{LoadKind, Mode, Profile, RunSettings};
use std::alloc::Global;
use std::process::Abort;
use std::test::Fail;

/// A call, with its answer: the place of a new object; what `free` did; the object that a word names, with
/// whether it was freed and the offset.
#[derive(Clone, Copy)]
enum Call {
    Take(u128, Option<u64>),
    Free(u64, Freed),
    Names(u64, Option<(u64, bool, i64)>),
}

use Call::{Free, Names, Take};

/// Where the heap begins, and the word of the first slot.
const HEAP: u64 = 33_554_432;

const SLOT: u64 = 1_099_511_627_776;

const UNDER_ONE: [Call; 22] = [
    Take(0, Some(0)),
    Take(1, Some(16)),
    Take(7, Some(32)),
    Take(8, Some(48)),
    Take(9, None),
    Names(HEAP, Some((2, false, 0))),
    Names(HEAP + 1, None),
    Names(HEAP + 39, Some((4, false, 7))),
    Free(0, Freed::NoEffect),
    Free(
        4096,
        Freed::Stray {
            object: 1,
            offset: 0,
        },
    ),
    Free(
        HEAP + 17,
        Freed::Stray {
            object: 3,
            offset: 1,
        },
    ),
    Free(HEAP + 16, Freed::Own { object: 3 }),
    Free(HEAP + 16, Freed::NoEffect),
    Take(16, None),
    Take(9, Some(16)),
    Names(HEAP + 16, Some((6, false, 0))),
    Names(HEAP + 25, Some((6, false, 9))),
    Free(HEAP + 48, Freed::Own { object: 5 }),
    Free(HEAP, Freed::Own { object: 2 }),
    Take(8, Some(0)),
    Take(8, Some(48)),
    Take(0, None),
];

const UNDER_TWO: [Call; 8] = [
    Take(0, Some(0)),
    Take(9, Some(16)),
    Take(32, None),
    Free(HEAP + 16, Freed::Own { object: 3 }),
    Free(
        HEAP + 16,
        Freed::Stray {
            object: 3,
            offset: 0,
        },
    ),
    Names(HEAP + 25, Some((3, true, 9))),
    Take(9, Some(32)),
    Names(HEAP + 32, Some((4, false, 0))),
];

// A static object of 8 bytes at 4096, which is object 1, and a heap of 64 bytes.
fn with_static(alloc: Global, profile: Profile) -> Result<Lifetimes, NoMemory> {
    let settings = RunSettings {
        mode: Mode::Boundless,
        store: 4,
        away: 4,
        heap: 64,
        profile,
    };
    let mut objects = Lifetimes::new(alloc, &settings, 1)?;
    objects.add_static(4096, 8);
    Ok(objects)
}

fn take(objects: &mut Lifetimes, n: u128) -> Option<u64> {
    if objects.next() >= 1_000_000 {
        return None;
    }
    objects.allocate(n)
}

fn named(objects: &mut Lifetimes, w: u64) -> Option<(u64, bool, i64)> {
    let pointer = objects.resolve(w)?;
    Some((pointer.entry.object, pointer.freed, pointer.offset))
}

fn answers(rt: &impl Abort, objects: &mut Lifetimes, call: Call) {
    match call {
        Take(n, place) => assert_eq!(rt; take(objects, n), place, "for {n}"),
        Free(w, did) => assert_eq!(rt; objects.free(w), did, "for {w}"),
        Names(w, object) => assert_eq!(rt; named(objects, w), object, "for {w}"),
    }
}

#[test]
fn dies_when_freed(rt: HostRuntime) -> Result<(), Fail> {
    let mut objects = with_static(rt.alloc(), Profile::One)?;
    for call in &UNDER_ONE {
        answers(&rt, &mut objects, *call);
    }
    Ok(())
}

#[test]
fn stays_when_freed(rt: HostRuntime) -> Result<(), Fail> {
    let mut objects = with_static(rt.alloc(), Profile::Two)?;
    for call in &UNDER_TWO {
        answers(&rt, &mut objects, *call);
    }
    Ok(())
}

// Stores a pointer's word eight bytes before the live object that a word names.
fn store_before(objects: &mut Lifetimes, w: u64) -> Result<(), NoMemory> {
    match objects.resolve(w) {
        Some(pointer) if !pointer.freed => {
            objects.store_outside(LoadKind::Ptr, pointer.entry.object, -8, 4096)
        }
        _ => Ok(()),
    }
}

// What a load finds eight bytes before an object.
fn load_before(objects: &mut Lifetimes, object: u64) -> Option<u64> {
    objects.load_outside(LoadKind::Ptr, object, -8)
}

#[test]
fn leaves_nothing_behind(rt: HostRuntime) -> Result<(), Fail> {
    let mut objects = with_static(rt.alloc(), Profile::One)?;
    answers(&rt, &mut objects, Take(8, Some(0)));
    store_before(&mut objects, HEAP)?;
    assert_eq!(rt; objects.shift(HEAP, -8), Ok(SLOT));
    assert_eq!(rt; load_before(&mut objects, 2), Some(4096));
    answers(&rt, &mut objects, Names(SLOT, Some((2, false, -8))));
    answers(&rt, &mut objects, Free(HEAP, Freed::Own { object: 2 }));
    answers(&rt, &mut objects, Take(8, Some(0)));
    answers(&rt, &mut objects, Names(SLOT, None));
    assert_eq!(rt; load_before(&mut objects, 2), None);
    assert_eq!(rt; load_before(&mut objects, 3), None);
    Ok(())
}
