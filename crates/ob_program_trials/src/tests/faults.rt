//! Faults in the text of a source: their kinds, their places and their lines.
ghost use Rattle.std.specs.Prelude.{◌<◌};

use crate::tests::{HELLO, run, run_source, sound};
use std::alloc::{AllocError, Global};
use std::test::Fail;

#[test]
fn faults_of_tokens(rt: HostRuntime) -> Result<(), Fail> {
    let rows: [(&[u8], &str); 6] = [
        (b"int main(void){return 1.5;}", "c.c:1:23: lex Stray\n"),
        (b"int x=99999999999999999999;", "c.c:1:7: lex Wide\n"),
        (b"/*", "c.c:1:1: lex Unclosed\n"),
        (b"int x;\n  'a", "c.c:2:3: lex Unclosed\n"),
        (b"} $", "c.c:1:3: lex Stray\n"),
        (b"\n\n\t\"a", "c.c:3:2: lex Unclosed\n"),
    ];
    for (source, err) in rows {
        let ran = run_source(rt.alloc(), source)?;
        assert_eq!(rt; ran.err.as_str(), err);
        assert_eq!(rt; (ran.status, ran.out.as_str()), (131, ""));
        assert_eq!(rt; ran.instructions, 0);
    }
    Ok(())
}

#[test]
fn faults_of_syntax(rt: HostRuntime) -> Result<(), Fail> {
    let rows: [(&[u8], &str); 6] = [
        (b"int main(void){return 0;\n", "c.c:2:1: syntax NoTree\n"),
        (b"int main(void){return 0;\n\n", "c.c:3:1: syntax NoTree\n"),
        (b"int;\nint x;", "c.c:1:4: syntax NoTree\n"),
        (b"int x;\n\n   }\n", "c.c:3:4: syntax NoTree\n"),
        (b"/* \xc3\xa9 */ }", "c.c:1:10: syntax NoTree\n"),
        (b"// no line feed", "c.c:1:16: syntax NoTree\n"),
    ];
    for (source, err) in rows {
        let ran = run_source(rt.alloc(), source)?;
        assert_eq!(rt; ran.err.as_str(), err);
        assert_eq!(rt; (ran.status, ran.out.as_str()), (132, ""));
        assert_eq!(rt; ran.instructions, 0);
    }
    Ok(())
}

/// The line has the name as it was given.
#[test]
fn names_of_files(rt: HostRuntime) -> Result<(), Fail> {
    let alloc = rt.alloc();
    let empty = run(alloc, "run e.c", "e.c", b"", &sound())?;
    assert_eq!(rt;
        (empty.status, empty.err.as_str()),
        (132, "e.c:1:1: syntax NoTree\n")
    );
    let colon = run(alloc, "run ./a:b.c", "./a:b.c", b"}", &sound())?;
    assert_eq!(rt;
        (colon.status, colon.err.as_str()),
        (132, "./a:b.c:1:1: syntax NoTree\n")
    );
    Ok(())
}

/// `int main(void){return `, so many opening brackets, and what follows.
fn nested(alloc: Global, open: usize, rest: &[u8]) -> Result<Vec<u8>, AllocError> {
    let mut source = Vec::new(alloc);
    source.extend_from_slice(b"int main(void){return ")?;
    for _ in 0..open {
        source.push(b'(')?;
    }
    source.extend_from_slice(rest)?;
    Ok(source)
}

/// A path may have 256 nodes: the function, its body, the `return`, and 252 brackets round a number.
#[test]
fn sources_that_are_nested(rt: HostRuntime) -> Result<(), Fail> {
    let alloc = rt.alloc();
    let deep = run(alloc, "run d.c", "d.c", &nested(alloc, 254, b"")?, &sound())?;
    assert_eq!(rt;
        (deep.status, deep.err.as_str()),
        (134, "d.c:1:276: syntax TooDeep\n")
    );

    let mut closed = nested(alloc, 252, b"1")?;
    for _ in 0..252 {
        closed.push(b')')?;
    }
    closed.extend_from_slice(b";}")?;
    let most = run(alloc, "run d.c", "d.c", &closed, &sound())?;
    assert_eq!(rt;
        (most.status, most.err.as_str()),
        (145, "oblivious: NotYet\n")
    );
    Ok(())
}

const READS_A_LINE: &[u8] =
    b"#include <stdio.h>\nchar buf[8];\nint main(void){\n  int c, n = 0;\n  while ((c = getchar()) != EOF && c != '\\n') buf[n++] = c;\n  buf[n] = '\\0';\n  puts(buf);\n  return 0;\n}\n";

fn count(bytes: &[u8], wanted: u8) -> usize {
    bytes.iter().filter(|byte| **byte == wanted).count()
}

/// A text that stops short of its last bracket is cut in its include line or in a character constant, or
/// it is no program; but the declaration before `main` is one.
#[test]
fn sources_that_stop_short(rt: HostRuntime) -> Result<(), Fail> {
    let alloc = rt.alloc();
    let whole = READS_A_LINE.len();
    assert_eq!(rt; whole, 168);
    for length in 0..whole - 1 {
        let prefix = &READS_A_LINE[..length];
        let ran = run_source(alloc, prefix)?;
        let status = if length == 31 || length == 32 {
            145
        } else if 0 < length && length < 18 || count(prefix, b'\'') % 2 == 1 {
            131
        } else {
            132
        };
        assert_eq!(rt; ran.status, status, "at {length}");
    }
    let ran = run_source(alloc, READS_A_LINE)?;
    assert_eq!(rt; ran.status, 145);

    let cut = run(alloc, "run hello.c", "hello.c", &HELLO[..49], &sound())?;
    assert_eq!(rt;
        (cut.status, cut.err.as_str()),
        (132, "hello.c:1:50: syntax NoTree\n")
    );
    Ok(())
}
