//! Which programs run, and what they print.
ghost use Rattle.std.specs.Prelude.{◌<◌};

use crate::tests::{HELLO, run_source};
use std::alloc::{AllocError, Global};
use std::test::Fail;

#[test]
fn programs_that_run(rt: HostRuntime) -> Result<(), Fail> {
    let hello = run_source(rt.alloc(), HELLO)?;
    assert_eq!(rt; (hello.status, hello.out.as_str()), (3, "Hi"));
    assert_eq!(rt; hello.instructions, 6);
    let line = run_source(
        rt.alloc(),
        b"int main(void){putchar(72);putchar(105);return 3;}\n",
    )?;
    assert_eq!(rt; (line.status, line.out.as_str()), (3, "Hi"));
    let wraps = run_source(
        rt.alloc(),
        b"int main(void){putchar(2147483647+2147483647+67);return 0;}",
    )?;
    assert_eq!(rt; (wraps.status, wraps.out.as_str()), (0, "A"));
    Ok(())
}

#[test]
fn returned_numbers(rt: HostRuntime) -> Result<(), Fail> {
    let rows: [(&[u8], u8); 3] = [
        (b"int main(void){return 2147483647+1;}", 0),
        (b"int main(void){return 2147483647+2;}", 1),
        (b"int main(void){return 128+5;}", 5),
    ];
    for (source, status) in rows {
        let ran = run_source(rt.alloc(), source)?;
        assert_eq!(rt;
            (ran.status, ran.out.as_str(), ran.err.as_str()),
            (status, "", "")
        );
    }
    Ok(())
}

/// The same tokens in other spellings.
#[test]
fn spellings(rt: HostRuntime) -> Result<(), Fail> {
    let rows: [&[u8]; 4] = [
        b"int main(void){putchar('A');return 0;}",
        b"int main(void){putchar(0x41);return 0;}",
        b"int main(void){putchar(0101);return 0;}",
        b"#include <stdio.h>\n// one\nconst int main ( void ) { putchar ( 65 ) ; /* two */ return 0 ; }",
    ];
    for source in rows {
        let ran = run_source(rt.alloc(), source)?;
        assert_eq!(rt; (ran.status, ran.out.as_str()), (0, "A"));
    }
    Ok(())
}

#[test]
fn programs_that_do_not_run_yet(rt: HostRuntime) -> Result<(), Fail> {
    let rows: [&[u8]; 10] = [
        b"int main(void){putchar(65u);return 0;}",
        b"int main(void){putchar(65L);return 0;}",
        b"int main(void){return 2147483648;}",
        b"int main(){return 0;}",
        b"int main(void){return (1);}",
        b"int main(void){return -1;}",
        b"int main(void){return 1-1;}",
        b"int main(void){putchar(65)+0;return 0;}",
        b"int start(void){return 0;}",
        b"int x;",
    ];
    for source in rows {
        let ran = run_source(rt.alloc(), source)?;
        assert_eq!(rt;
            (ran.status, ran.out.as_str(), ran.err.as_str()),
            (145, "", "oblivious: NotYet\n")
        );
    }
    Ok(())
}

/// A program that returns a sum of so many ones.
fn sum_of(alloc: Global, ones: usize) -> Result<Vec<u8>, AllocError> {
    let mut source = Vec::new(alloc);
    source.extend_from_slice(b"int main(void){return 1")?;
    for _ in 1..ones {
        source.extend_from_slice(b"+1")?;
    }
    source.extend_from_slice(b";}")?;
    Ok(source)
}

#[test]
fn longest_sums(rt: HostRuntime) -> Result<(), Fail> {
    let alloc = rt.alloc();
    let most = run_source(alloc, &sum_of(alloc, 200)?)?;
    assert_eq!(rt; (most.status, most.instructions), (72, 400));
    let more = run_source(alloc, &sum_of(alloc, 201)?)?;
    assert_eq!(rt;
        (more.status, more.err.as_str()),
        (145, "oblivious: NotYet\n")
    );
    Ok(())
}
