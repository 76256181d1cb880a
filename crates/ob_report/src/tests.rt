//! Each printed text, as a user reads it.

use crate::{
    SampleRun, VerdictLine, bad_image_line, diagnostic, ending_line, file_fault_line,
    file_long_line, not_yet_line, report, sample_line, usage_line, verdict_text,
};
use ob_code::{BadImage, Part};
use ob_model::{Act, Ending, StrayEvent};
use ob_tree::{LexKind, SourceFault, SyntaxKind, TypeKind};
use ob_watch::{Counter, FirstEvents, Watcher};
use std::alloc::Global;
use std::process::Abort;
use std::test::Fail;

const DIAGNOSTICS: [(SourceFault, &str); 8] = [
    (
        SourceFault::Lex {
            kind: LexKind::Stray,
            line: 1,
            column: 1,
        },
        "a.c:1:1: lex Stray\n",
    ),
    (
        SourceFault::Lex {
            kind: LexKind::Wide,
            line: 12,
            column: 305,
        },
        "a.c:12:305: lex Wide\n",
    ),
    (
        SourceFault::Syntax {
            kind: SyntaxKind::NoTree,
            line: 4294967295,
            column: 10,
        },
        "a.c:4294967295:10: syntax NoTree\n",
    ),
    (
        SourceFault::Typing {
            kind: TypeKind::Unknown,
            line: 3,
            column: 7,
        },
        "a.c:3:7: type Unknown\n",
    ),
    (
        SourceFault::Typing {
            kind: TypeKind::NoBody,
            line: 90,
            column: 1048576,
        },
        "a.c:90:1048576: type NoBody\n",
    ),
    (SourceFault::Statics, "a.c: limit Statics\n"),
    (SourceFault::Code, "a.c: limit Code\n"),
    (SourceFault::NoMemory, ""),
];

#[test]
fn diagnostics(rt: HostRuntime) -> Result<(), Fail> {
    for (fault, want) in &DIAGNOSTICS {
        let text = diagnostic(rt.alloc(), "a.c", fault)?;
        assert_eq!(rt; text.bytes(), want.as_bytes(), "{want}");
    }
    Ok(())
}

const LEX_KINDS: [(LexKind, &str); 3] = [
    (LexKind::Stray, "b.c:2:9: lex Stray\n"),
    (LexKind::Unclosed, "b.c:2:9: lex Unclosed\n"),
    (LexKind::Wide, "b.c:2:9: lex Wide\n"),
];

const SYNTAX_KINDS: [(SyntaxKind, &str); 2] = [
    (SyntaxKind::NoTree, "b.c:2:9: syntax NoTree\n"),
    (SyntaxKind::TooDeep, "b.c:2:9: syntax TooDeep\n"),
];

const TYPE_KINDS: [(TypeKind, &str); 12] = [
    (TypeKind::Unknown, "b.c:2:9: type Unknown\n"),
    (TypeKind::Twice, "b.c:2:9: type Twice\n"),
    (TypeKind::Incomplete, "b.c:2:9: type Incomplete\n"),
    (TypeKind::NotPlace, "b.c:2:9: type NotPlace\n"),
    (TypeKind::Operand, "b.c:2:9: type Operand\n"),
    (TypeKind::Assign, "b.c:2:9: type Assign\n"),
    (TypeKind::Count, "b.c:2:9: type Count\n"),
    (TypeKind::NotFunction, "b.c:2:9: type NotFunction\n"),
    (TypeKind::Member, "b.c:2:9: type Member\n"),
    (TypeKind::Constant, "b.c:2:9: type Constant\n"),
    (TypeKind::Jump, "b.c:2:9: type Jump\n"),
    (TypeKind::NoBody, "b.c:2:9: type NoBody\n"),
];

fn says(rt: &impl Abort, alloc: Global, fault: SourceFault, want: &str) -> Result<(), Fail> {
    let text = diagnostic(alloc, "b.c", &fault)?;
    assert_eq!(rt; text.bytes(), want.as_bytes(), "{want}");
    Ok(())
}

#[test]
fn every_kind(rt: HostRuntime) -> Result<(), Fail> {
    let (line, column) = (2, 9);
    for (kind, want) in &LEX_KINDS {
        let kind = *kind;
        says(
            &rt,
            rt.alloc(),
            SourceFault::Lex { kind, line, column },
            want,
        )?;
    }
    for (kind, want) in &SYNTAX_KINDS {
        let kind = *kind;
        says(
            &rt,
            rt.alloc(),
            SourceFault::Syntax { kind, line, column },
            want,
        )?;
    }
    for (kind, want) in &TYPE_KINDS {
        let kind = *kind;
        says(
            &rt,
            rt.alloc(),
            SourceFault::Typing { kind, line, column },
            want,
        )?;
    }
    Ok(())
}

const SAMPLES: [(SampleRun, &str); 4] = [
    (
        SampleRun {
            number: 1,
            source: 136,
            count: 1,
            sum: 51,
            ending: Ending::Ended(0),
        },
        "sample 1: 136 bytes of source, 1 bytes of output, sum 51, Ended 0\n",
    ),
    (
        SampleRun {
            number: 3,
            source: 336,
            count: 3,
            sum: 150,
            ending: Ending::Ended(0),
        },
        "sample 3: 336 bytes of source, 3 bytes of output, sum 150, Ended 0\n",
    ),
    (
        SampleRun {
            number: 1000,
            source: 105706,
            count: 0,
            sum: 65535,
            ending: Ending::Steps,
        },
        "sample 1000: 105706 bytes of source, 0 bytes of output, sum 65535, Steps\n",
    ),
    (
        SampleRun {
            number: u32::MAX,
            source: usize::MAX,
            count: u64::MAX,
            sum: u64::MAX,
            ending: Ending::Ended(-1),
        },
        "sample 4294967295: 18446744073709551615 bytes of source, 18446744073709551615 bytes of output, sum 18446744073709551615, Ended -1\n",
    ),
];

#[test]
fn sample_lines(rt: HostRuntime) -> Result<(), Fail> {
    for (run, want) in &SAMPLES {
        let text = sample_line(rt.alloc(), run)?;
        assert_eq!(rt; text.bytes(), want.as_bytes(), "{want}");
    }
    Ok(())
}

const VERDICTS: [(VerdictLine, &str); 10] = [
    (VerdictLine::Plain(Ending::Ended(0)), "Ended 0\n"),
    (
        VerdictLine::Plain(Ending::Ended(i64::MIN)),
        "Ended -9223372036854775808\n",
    ),
    (VerdictLine::Plain(Ending::Steps), "Steps\n"),
    (VerdictLine::Plain(Ending::Divide), "Divide\n"),
    (VerdictLine::Plain(Ending::Stack), "Stack\n"),
    (VerdictLine::Plain(Ending::Descriptors), "Descriptors\n"),
    (VerdictLine::Plain(Ending::Far), "Far\n"),
    (VerdictLine::Plain(Ending::Spent), "Spent\n"),
    (VerdictLine::Dead(17), "Dead 17\n"),
    (VerdictLine::Dropped(4294967295), "Dropped 4294967295\n"),
];

#[test]
fn verdicts(rt: HostRuntime) -> Result<(), Fail> {
    for (verdict, want) in &VERDICTS {
        let text = verdict_text(rt.alloc(), verdict)?;
        assert_eq!(rt; text.bytes(), want.as_bytes(), "{want}");
    }
    Ok(())
}

const ENDINGS: [(Ending, &str); 10] = [
    (Ending::Ended(1), ""),
    (Ending::Steps, "oblivious: Steps\n"),
    (Ending::Divide, "oblivious: Divide\n"),
    (Ending::Stack, "oblivious: Stack\n"),
    (Ending::Descriptors, "oblivious: Descriptors\n"),
    (Ending::Far, "oblivious: Far\n"),
    (Ending::Spent, "oblivious: Spent\n"),
    (Ending::ReadFault, "oblivious: ReadFault\n"),
    (Ending::WriteFault, ""),
    (Ending::NoMemory, ""),
];

#[test]
fn endings(rt: HostRuntime) {
    for (ending, want) in &ENDINGS {
        assert_eq!(rt; ending_line(*ending), *want);
    }
}

const FIXED: [&str; 4] = [
    "oblivious: FileFault\n",
    "oblivious: FileLong\n",
    "oblivious: NotYet\n",
    "usage: oblivious run|compile|exec|check|audit|sample|migrate ARGUMENT [OPTIONS]\n",
];

#[test]
fn fixed_lines(rt: HostRuntime) {
    let lines = [
        file_fault_line(),
        file_long_line(),
        not_yet_line(),
        usage_line(),
    ];
    assert_eq!(rt; lines, FIXED);
}

const IMAGES: [(Part, u64, &str); 7] = [
    (Part::Bytes, 167, "oblivious: BadImage Bytes 167\n"),
    (Part::Static, 262_144, "oblivious: BadImage Static 262144\n"),
    (Part::Pointer, 1, "oblivious: BadImage Pointer 1\n"),
    (Part::Function, 0, "oblivious: BadImage Function 0\n"),
    (Part::Code, 3, "oblivious: BadImage Code 3\n"),
    (Part::Main, 0, "oblivious: BadImage Main 0\n"),
    (
        Part::Names,
        u64::MAX,
        "oblivious: BadImage Names 18446744073709551615\n",
    ),
];

#[test]
fn bad_images(rt: HostRuntime) -> Result<(), Fail> {
    for (part, at, want) in &IMAGES {
        let fault = BadImage {
            part: *part,
            at: *at,
        };
        let text = bad_image_line(rt.alloc(), fault)?;
        assert_eq!(rt; text.bytes(), want.as_bytes(), "{want}");
    }
    Ok(())
}

fn told(row: (u32, Act, u64, i64, u32)) -> StrayEvent {
    let (line, act, object, offset, size) = row;
    StrayEvent {
        line,
        act,
        object,
        offset,
        size,
    }
}

const EVENTS: [(u32, Act, u64, i64, u32); 10] = [
    (5, Act::Store, 1, 8, 1),
    (5, Act::Load, 1, -1, 4),
    (6, Act::Free, 0, 0, 0),
    (1, Act::Load, u64::MAX, i64::MIN, 8),
    (u32::MAX, Act::Store, 2, i64::MAX, 2),
    (7, Act::Store, 3, 40, 4),
    (7, Act::Store, 3, 44, 4),
    (8, Act::Load, 3, 48, 4),
    (9, Act::Load, 3, -16, 8),
    (10, Act::Free, 3, 12, 0),
];

const REPORT: &str = "watcher 0: 10 events\n\
5: Store object 1 offset 8 size 1\n\
5: Load object 1 offset -1 size 4\n\
6: Free object 0 offset 0 size 0\n\
1: Load object 18446744073709551615 offset -9223372036854775808 size 8\n\
4294967295: Store object 2 offset 9223372036854775807 size 2\n\
7: Store object 3 offset 40 size 4\n\
7: Store object 3 offset 44 size 4\n\
8: Load object 3 offset 48 size 4\n\
9: Load object 3 offset -16 size 8\n\
10: Free object 3 offset 12 size 0\n\
watcher 1: 10 events\n";

#[test]
fn ten_events(rt: HostRuntime) -> Result<(), Fail> {
    let alloc = rt.alloc();
    let mut watchers: Vec<Box<dyn Watcher>> = Vec::new(alloc);
    assert_eq!(rt; report(alloc, &watchers)?.bytes(), "".as_bytes());
    let mut first: Box<dyn Watcher> = Box::new(alloc, FirstEvents::new(alloc, 16)?)?;
    let mut counter: Box<dyn Watcher> = Box::new(alloc, Counter::new())?;
    for row in &EVENTS {
        first.tell(told(*row));
        counter.tell(told(*row));
    }
    watchers.push(first)?;
    watchers.push(counter)?;
    assert_eq!(rt; report(alloc, &watchers)?.bytes(), REPORT.as_bytes());
    Ok(())
}
