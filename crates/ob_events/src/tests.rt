use crate::{event_of, make_word};
use ob_access::Access;
use ob_maker::{Count, Maker, Small, Zero};
use ob_model::{Act, LoadKind, StrayEvent};
use ob_words::IntType;
use std::test::Fail;

// What a load takes, and the word that it gets of the maker of small numbers.
const LOADS: [(LoadKind, u64); 6] = [
    (LoadKind::Num(IntType::Int), 0),
    (LoadKind::Ptr, 0),
    (LoadKind::Num(IntType::UChar), 2),
    (LoadKind::Num(IntType::Long), 0),
    (LoadKind::Num(IntType::Char), 1),
    (LoadKind::Num(IntType::ULong), 3),
];

fn makes<M: Maker>(maker: &mut M) -> bool {
    for (kind, wanted) in &LOADS {
        if make_word(maker, *kind) != *wanted {
            return false;
        }
    }
    true
}

/// The maker itself, and the same one in a box.
#[test]
fn loads_take_their_numbers(rt: HostRuntime) -> Result<(), Fail> {
    let mut small = Small::new();
    assert!(rt; makes(&mut small));
    let mut boxed: Box<dyn Maker> = Box::new(rt.alloc(), Small::new())?;
    assert!(rt; makes(&mut boxed));
    Ok(())
}

/// 200 is no number of a signed byte; the maker of zeros gives zeros alone.
#[test]
fn numbers_are_converted(rt: HostRuntime) {
    let mut count = Count::new();
    for _ in 0..200u32 {
        let _word = make_word(&mut count, LoadKind::Ptr);
    }
    assert_eq!(rt;
        make_word(&mut count, LoadKind::Num(IntType::SChar)),
        200u64.wrapping_sub(256)
    );
    let mut zero = Zero::new();
    assert_eq!(rt; make_word(&mut zero, LoadKind::Num(IntType::Int)), 0);
}

#[test]
fn strays_have_events(rt: HostRuntime) {
    let stray = Access::Outside {
        object: 7,
        offset: -4,
    };
    let event = StrayEvent {
        line: 3,
        act: Act::Store,
        object: 7,
        offset: -4,
        size: 8,
    };
    assert_eq!(rt; event_of(stray, 3, Act::Store, 8), Some(event));
    assert_eq!(rt;
        event_of(Access::Direct { address: 4096 }, 3, Act::Store, 8),
        None
    );
    assert_eq!(rt; event_of(Access::TooFar, 3, Act::Store, 8), None);
}
