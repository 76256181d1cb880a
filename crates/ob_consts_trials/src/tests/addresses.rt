//! Which addresses a static object may hold.
use crate::tests::parts::{chars, number, pointer};
use ob_base::{NoMemory, boxed, boxed_two, listed};
use ob_consts::is_static_value;
use ob_tree::Structs;
use ob_typed::TLean;
use ob_words::IntType;
use std::alloc::Global;
use std::test::Fail;

/// To a member so many bytes further, or so many elements of so many bytes further or back.
#[derive(Clone, Copy)]
enum Step {
    Member(u64),
    On(u64, i128),
    Back(u64, i128),
}

/// So many elements of so many bytes are 2^126 - 1 bytes, the farthest that offsets go.
const BYTES: u64 = 9_223_372_036_854_775_809;

const COUNT: i128 = 9_223_372_036_854_775_807;

/// Steps from a static object, and whether they lead to an address constant. Object 0 has ten
/// characters. There is no object 1, so it has no bytes.
const ADDRESSES: [(u32, &[Step], bool); 19] = [
    (0, &[], true),
    (0, &[Step::Member(10)], true),
    (0, &[Step::Member(11)], false),
    (0, &[Step::Member(4), Step::Member(6)], true),
    (0, &[Step::Member(4), Step::Member(7)], false),
    (0, &[Step::On(5, 2)], true),
    (0, &[Step::On(4, 3)], false),
    (0, &[Step::On(1, -1)], false),
    (0, &[Step::Back(1, 1)], false),
    (0, &[Step::On(1, -1), Step::Member(1)], true),
    (0, &[Step::Back(1, -10)], true),
    (0, &[Step::Member(12), Step::Back(2, 1)], true),
    (
        0,
        &[Step::Member(1), Step::On(1, 18_446_744_073_709_551_615)],
        true,
    ),
    (1, &[], true),
    (1, &[Step::Member(1)], false),
    (0, &[Step::On(BYTES, COUNT), Step::Back(BYTES, COUNT)], true),
    (
        0,
        &[
            Step::On(BYTES, COUNT),
            Step::Member(1),
            Step::Back(BYTES, COUNT),
        ],
        false,
    ),
    (0, &[Step::Back(BYTES, COUNT), Step::On(BYTES, COUNT)], true),
    (
        0,
        &[
            Step::Back(BYTES, COUNT),
            Step::On(1, -1),
            Step::On(BYTES, COUNT),
            Step::Member(1),
        ],
        false,
    ),
];

#[test]
fn addresses(rt: HostRuntime) -> Result<(), Fail> {
    for (row, (target, steps, is_constant)) in ADDRESSES.iter().enumerate() {
        assert_eq!(rt;
            is_value(rt.alloc(), *target, steps)?,
            *is_constant,
            "{row}"
        );
    }
    Ok(())
}

fn is_value(alloc: Global, target: u32, steps: &[Step]) -> Result<bool, NoMemory> {
    let statics = listed(alloc, chars(alloc, 10)?)?;
    let e = pointer(alloc, lean(alloc, target, steps)?)?;
    Ok(is_static_value(&Structs::new(alloc), &statics, &e))
}

fn lean(alloc: Global, target: u32, steps: &[Step]) -> Result<TLean, NoMemory> {
    let mut lean = TLean::Static(target);
    for step in steps {
        lean = stepped(alloc, lean, *step)?;
    }
    Ok(lean)
}

fn stepped(alloc: Global, base: TLean, step: Step) -> Result<TLean, NoMemory> {
    match step {
        Step::Member(offset) => member(alloc, base, offset),
        Step::On(scale, n) => slide(alloc, base, scale, false, n),
        Step::Back(scale, n) => slide(alloc, base, scale, true, n),
    }
}

fn member(alloc: Global, base: TLean, offset: u64) -> Result<TLean, NoMemory> {
    Ok(TLean::Member(boxed(alloc, base)?, offset))
}

fn slide(alloc: Global, base: TLean, scale: u64, minus: bool, n: i128) -> Result<TLean, NoMemory> {
    let (base, by) = boxed_two(alloc, base, number(IntType::Long, n))?;
    Ok(TLean::Slide {
        base,
        scale,
        minus,
        number_first: false,
        by,
    })
}
