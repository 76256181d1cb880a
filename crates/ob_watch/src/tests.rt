use crate::{Counter, FirstEvents, Watcher};
use ob_model::{Act, StrayEvent};
use std::test::Fail;

fn event(line: u32) -> StrayEvent {
    StrayEvent {
        line,
        act: Act::Store,
        object: 5,
        offset: -8,
        size: 4,
    }
}

/// Room for 0, 1 and 16 events, told 20 of them.
#[test]
fn keeps_the_first(rt: HostRuntime) -> Result<(), Fail> {
    for cap in [0usize, 1, 16] {
        let mut watcher = FirstEvents::new(rt.alloc(), cap)?;
        for line in 0..20u32 {
            watcher.tell(event(line));
        }
        assert_eq!(rt; watcher.total(), 20);
        for i in 0..20usize {
            let wanted = if i < cap { Some(event(i as u32)) } else { None };
            assert_eq!(rt; watcher.kept_at(i), wanted, "{i} of {cap}");
        }
    }
    Ok(())
}

#[test]
fn counts_alone(rt: HostRuntime) {
    let mut watcher = Counter::new();
    for line in 0..3u32 {
        watcher.tell(event(line));
    }
    assert_eq!(rt; watcher.total(), 3);
    assert_eq!(rt; watcher.kept_at(0), None);
}

fn tell_two<W: Watcher>(watcher: &mut W) {
    for line in 7..9u32 {
        watcher.tell(event(line));
    }
}

/// Through boxes, as the program holds them.
#[test]
fn boxed(rt: HostRuntime) -> Result<(), Fail> {
    let alloc = rt.alloc();
    let mut first: Box<dyn Watcher> = Box::new(alloc, FirstEvents::new(alloc, 1)?)?;
    let mut counter: Box<dyn Watcher> = Box::new(alloc, Counter::new())?;
    tell_two(&mut first);
    tell_two(&mut counter);
    assert_eq!(rt; first.kept_at(0), Some(event(7)));
    assert_eq!(rt; first.kept_at(1), None);
    assert_eq!(rt; first.total(), counter.total());
    Ok(())
}
