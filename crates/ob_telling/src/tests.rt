use crate::tell_each;
use ob_model::{Act, StrayEvent};
use ob_watch::{Counter, FirstEvents, Watcher};
use std::test::Fail;

fn event(line: u32) -> StrayEvent {
    StrayEvent {
        line,
        act: Act::Load,
        object: 5,
        offset: 12,
        size: 4,
    }
}

fn tell_three<W: Watcher>(watchers: &mut Vec<W>) {
    for line in 1..4u32 {
        tell_each(watchers, Some(event(line)));
        tell_each(watchers, None);
    }
}

/// Each watcher keeps what it has room for, and counts all three events.
#[test]
fn each_is_told(rt: HostRuntime) -> Result<(), Fail> {
    let alloc = rt.alloc();
    let mut watchers = Vec::new(alloc);
    for room in 0..4usize {
        watchers.push(FirstEvents::new(alloc, room)?)?;
    }
    tell_three(&mut watchers);
    assert_eq!(rt; watchers.len(), 4);
    let mut room = 0usize;
    for watcher in &watchers {
        assert_eq!(rt; watcher.total(), 3);
        assert_eq!(rt; watcher.kept_at(room), None);
        assert_eq!(rt;
            watcher.kept_at(0),
            if room > 0 { Some(event(1)) } else { None }
        );
        room = room.wrapping_add(1);
    }
    Ok(())
}

/// Through boxes, as the program holds them.
#[test]
fn boxed(rt: HostRuntime) -> Result<(), Fail> {
    let alloc = rt.alloc();
    let mut watchers: Vec<Box<dyn Watcher>> = Vec::new(alloc);
    watchers.push(Box::new(alloc, FirstEvents::new(alloc, 1)?)?)?;
    watchers.push(Box::new(alloc, Counter::new())?)?;
    tell_three(&mut watchers);
    assert_eq!(rt; watchers.len(), 2);
    for watcher in &watchers {
        assert_eq!(rt; watcher.total(), 3);
        assert_eq!(rt; watcher.kept_at(1), None);
    }
    Ok(())
}
