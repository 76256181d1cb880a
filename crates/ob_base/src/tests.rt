//! What no clause says: that the calls that may lack memory find it, and what the adapters do over
//! readers, writers and files of std.
use crate::std_folder::read_limited;
use crate::std_sink::write_uninterrupted;
use crate::std_source::read_uninterrupted;
use crate::{
    Failed, FileAnswer, Folder, MemFolder, MemSink, MemSource, Sink, Source, StdFolder, StdSink,
    StdSource, Text, boxed_three, boxed_two, boxed_with, let_go, listed, push_on, push_with,
    with_last, write_all,
};
use std::io::{self, Read, Write};
use std::test::Fail;

#[test]
fn texts_grow(rt: HostRuntime) -> Result<(), Fail> {
    let mut text = Text::new(rt.alloc());
    text.push(b'a')?;
    text.add(b"bc")?;
    let copy = text.copy(rt.alloc())?;
    text.push(b'd')?;
    assert_eq!(rt; copy.bytes(), b"abc".as_slice());
    assert_eq!(rt; text.bytes(), b"abcd".as_slice());
    Ok(())
}

/// Each helper that boxes, lists or lets go, at numbers and texts.
#[test]
fn values_are_boxed_and_listed(rt: HostRuntime) -> Result<(), Fail> {
    let alloc = rt.alloc();
    let (one, two) = boxed_two(alloc, 1u8, 2u16)?;
    let (first, second, third) = boxed_three(alloc, *one, *two, 3u32)?;
    let (fourth, kept) = boxed_with(alloc, 4u64, 5u64)?;
    let mut list = listed(alloc, u64::from(*first))?;
    push_on(&mut list, u64::from(*second))?;
    let kept = push_with(&mut list, u64::from(*third), kept)?;
    let list = with_last(with_last(list, *fourth)?, kept)?;
    assert_eq!(rt; list.as_slice(), [1, 2, 3, 4, 5].as_slice());
    let_go(list);
    Ok(())
}

#[test]
fn source_in_memory(rt: HostRuntime) -> Result<(), Fail> {
    let mut source = MemSource::new(rt.alloc(), b"abcd", &[1], 3)?;
    let mut buf = [0u8; 8];
    for given in [Ok(3), Err(Failed), Ok(1), Ok(0)] {
        assert_eq!(rt; source.read(&mut buf), given);
    }
    Ok(())
}

#[test]
fn sink_in_memory(rt: HostRuntime) -> Result<(), Fail> {
    let mut sink = MemSink::new(rt.alloc(), 4, &[1], 2)?;
    for (piece, taken) in [
        ("abc", Ok(2)),
        ("c", Err(Failed)),
        ("cde", Ok(2)),
        ("", Ok(0)),
        ("e", Err(Failed)),
    ] {
        assert_eq!(rt; sink.write(piece.as_bytes()), taken);
    }
    assert_eq!(rt; sink.taken(), b"abcd".as_slice());
    Ok(())
}

#[test]
fn folder_in_memory(rt: HostRuntime) -> Result<(), Fail> {
    let alloc = rt.alloc();
    let mut folder = MemFolder::new(alloc, &[1])?;
    folder.add("a", b"old")?;
    folder.add("a", b"new")?;
    let loaded = folder.load(alloc, "a", 3);
    assert_eq!(rt; loaded.ok().ok_or("a")?.as_slice(), b"new".as_slice());
    let refusals = [
        ("a", FileAnswer::Failed),
        ("a", FileAnswer::Long),
        ("c", FileAnswer::Failed),
    ];
    for (name, answer) in refusals {
        assert_eq!(rt; folder.load(alloc, name, 2).err(), Some(answer));
    }
    Ok(())
}

/// A reader and writer that is interrupted at its first call and broken from its fourth on, and that
/// takes and gives one byte in a call.
#[derive(Drop)]
struct Frail {
    calls: u8,
    last: u8,
}

impl Frail {
    fn call(&mut self) -> io::Result<()> {
        self.calls = self.calls.saturating_add(1);
        match self.calls {
            1 => Err(io::Error::from(io::ErrorKind::Interrupted)),
            2 | 3 => Ok(()),
            _ => Err(io::Error::from(io::ErrorKind::BrokenPipe)),
        }
    }
}

impl Read for Frail {
    fn read(&mut self, buf: &mut [u8]) -> io::Result<usize> {
        self.call()?;
        if buf.is_empty() {
            return Ok(0);
        }
        buf[0] = self.last;
        Ok(1)
    }
}

impl Write for Frail {
    fn write(&mut self, buf: &[u8]) -> io::Result<usize> {
        self.call()?;
        if buf.is_empty() || self.calls == 3 {
            return Ok(0);
        }
        self.last = buf[0];
        Ok(1)
    }

    fn flush(&mut self) -> io::Result<()> {
        Ok(())
    }
}

#[test]
fn adapters_over_readers_and_writers(rt: HostRuntime) {
    let mut source = StdSource::new(b"ab".as_slice());
    let mut buf = [0u8; 8];
    assert_eq!(rt; source.read(&mut buf), Ok(2));
    assert_eq!(rt; buf[1], b'b');
    assert_eq!(rt; source.read(&mut buf), Ok(0));

    let mut frail = StdSource::new(Frail { calls: 0, last: 7 });
    assert_eq!(rt; frail.read(&mut buf), Ok(1));
    assert_eq!(rt; buf[0], 7);
    assert_eq!(rt; frail.read(&mut buf), Ok(1));
    assert_eq!(rt; frail.read(&mut buf), Err(Failed));
    assert_eq!(rt; frail.faults(), 1);

    // A write that takes no byte of a piece is a fault.
    let mut sink = StdSink::new(Frail { calls: 0, last: 0 });
    for answer in [Ok(1), Err(Failed), Err(Failed)] {
        assert_eq!(rt; sink.write(b"xy"), answer);
    }
    assert_eq!(rt; sink.faults(), 2);

    let mut short = StdSink::new(Frail { calls: 1, last: 0 });
    assert_eq!(rt; write_all(&mut short, b"z"), Ok(()));
    assert_eq!(rt; write_all(&mut short, b"z"), Err(Failed));
}

/// One call reads or writes once, and says how many bytes that gave or took: no short read is the
/// end, and no half of a piece is the whole.
#[test]
fn adapters_say_what_one_call_did(rt: HostRuntime) {
    let mut writer = Frail { calls: 1, last: 0 };
    assert_eq!(rt; write_uninterrupted(&mut writer, b"xyz"), Some(1));
    assert_eq!(rt; writer.calls, 2);
    assert_eq!(rt; writer.last, b'x');

    let mut reader = Frail { calls: 1, last: 7 };
    let mut buf = [0u8; 3];
    assert_eq!(rt; read_uninterrupted(&mut reader, &mut buf), Some(1));
    assert_eq!(rt; reader.calls, 2);
    assert_eq!(rt; buf[0], 7);
}

#[test]
fn adapter_over_files(rt: HostRuntime) -> Result<(), Fail> {
    let alloc = rt.alloc();
    std::fs::write(&rt, "five", "12345")?;
    let mut folder = StdFolder::new(&rt);
    let whole = folder.load(alloc, "five", 5);
    assert_eq!(rt; whole.ok().ok_or("five")?.as_slice(), b"12345".as_slice());
    assert_eq!(rt; folder.load(alloc, "five", 4).err(), Some(FileAnswer::Long));
    assert_eq!(rt;
        folder.load(alloc, "six", 4).err(),
        Some(FileAnswer::Failed)
    );
    assert_eq!(rt; folder.load(alloc, ".", 4).err(), Some(FileAnswer::Failed));
    assert_eq!(rt; folder.faults(), 2);
    Ok(())
}

/// Of a long file one byte more than the limit is read.
#[test]
fn long_files_are_left(rt: HostRuntime) {
    let mut reader = b"123456789".as_slice();
    assert_eq!(rt;
        read_limited(rt.alloc(), &mut reader, 4).err(),
        Some(FileAnswer::Long)
    );
    assert_eq!(rt; reader, b"6789".as_slice());
}
