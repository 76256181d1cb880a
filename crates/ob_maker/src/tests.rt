use crate::{Count, Maker, Small, Zero};
use std::test::Fail;

/// The first 770 numbers of each maker, by the rules in words, with a restart in between.
#[test]
fn first_numbers(rt: HostRuntime) {
    let mut small = Small::new();
    let mut zero = Zero::new();
    let mut count = Count::new();
    for _ in 0..2 {
        let mut third = 2u64;
        for turn in 0..770u64 {
            let wanted = match turn % 3 {
                0 => 0,
                1 => 1,
                _ => third,
            };
            if turn % 3 == 2 {
                third = if third == 255 {
                    2
                } else {
                    third.wrapping_add(1)
                };
            }
            assert_eq!(rt; small.next(), wanted, "small at {turn}");
            assert_eq!(rt; zero.next(), 0);
            assert_eq!(rt; count.next(), turn % 256, "count at {turn}");
        }
        small.restart();
        zero.restart();
        count.restart();
    }
}

fn next_of<M: Maker>(maker: &mut M) -> u64 {
    maker.stands();
    maker.next()
}

/// Through boxes, as the program holds them.
#[test]
fn boxed(rt: HostRuntime) -> Result<(), Fail> {
    let mut small: Box<dyn Maker> = Box::new(rt.alloc(), Small::new())?;
    let mut count: Box<dyn Maker> = Box::new(rt.alloc(), Count::new())?;
    for wanted in [(0, 0), (1, 1), (2, 2), (0, 3)] {
        assert_eq!(rt; (next_of(&mut small), next_of(&mut count)), wanted);
    }
    Ok(())
}
