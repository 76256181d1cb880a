//! The command `check`: which sources it accepts, the line of each fault, and devices that fail.
ghost use Rattle.std.specs.Prelude.{◌<◌};

use crate::tests::{Ran, run, sound};
use ob_base::NoMemory;
use std::alloc::{AllocError, Global};
use std::test::Fail;

/// Checks a source under the name `c.c`, on an input whose first read fails.
fn check(alloc: Global, source: &[u8]) -> Result<Ran, NoMemory> {
    run(alloc, "check c.c", "c.c", source, &sound())
}

const ACCEPTED: [&str; 6] = [
    "int main(void){return 0;}",
    "int main(){return 1/0;}",
    "#include <stdio.h>\nint main(void) { puts(\"Hi\"); return getchar(); }\n",
    "struct S { char *p; int n; } s;\nint f(struct S *q) { return q->n; }\nint main(void) { return f(&s); }",
    "int strlen(int n) { return n; }\nint main(void) { return strlen(3); }",
    "static int a[4] = {1, 2}; static int *p = a + 4;\nint main(void) { for (int i = 0; i < 9; i++) p[i] = i; return *p; }",
];

#[test]
fn accepted_sources(rt: HostRuntime) -> Result<(), Fail> {
    for source in &ACCEPTED {
        let ran = check(rt.alloc(), source.as_bytes())?;
        assert_eq!(rt; (ran.status, ran.instructions), (0, 0), "{source}");
        assert_eq!(rt;
            (ran.out.as_str(), ran.err.as_str()),
            ("ok\n", ""),
            "{source}"
        );
    }
    Ok(())
}

/// Of tokens, of syntax, and each kind of fault of types.
const FAULTY: [(&str, u8, &str); 18] = [
    ("int main(void){return 1.5;}", 131, "c.c:1:23: lex Stray\n"),
    (
        "int main(void){return 0;\n",
        132,
        "c.c:2:1: syntax NoTree\n",
    ),
    ("int main(void){return x;}", 133, "c.c:1:23: type Unknown\n"),
    (
        "int x;\nchar x;\nint main(void){return 0;}",
        133,
        "c.c:2:6: type Twice\n",
    ),
    (
        "struct S s;\nint main(void){return 0;}",
        133,
        "c.c:1:10: type Incomplete\n",
    ),
    ("int main(void){1 = 2;}", 133, "c.c:1:18: type NotPlace\n"),
    (
        "int main(void){int *p; return p * 2;}",
        133,
        "c.c:1:33: type Operand\n",
    ),
    (
        "int main(void){int *p; p = 3; return 0;}",
        133,
        "c.c:1:28: type Assign\n",
    ),
    (
        "int f(int a){return a;}\nint main(void){return f();}",
        133,
        "c.c:2:23: type Count\n",
    ),
    (
        "int x;\nint main(void){return x();}",
        133,
        "c.c:2:23: type NotFunction\n",
    ),
    (
        "struct S {int a;} s;\nint main(void){return s.b;}",
        133,
        "c.c:2:25: type Member\n",
    ),
    (
        "int a[0];\nint main(void){return 0;}",
        133,
        "c.c:1:7: type Constant\n",
    ),
    ("int main(void){break;}", 133, "c.c:1:16: type Jump\n"),
    (
        "int f(void);\nint main(void){return f();}",
        133,
        "c.c:2:23: type NoBody\n",
    ),
    ("int x;\n", 133, "c.c:2:1: type NoBody\n"),
    ("int main(int n){return n;}", 133, "c.c:1:5: type NoBody\n"),
    (
        "int main(void){return y;}\nint z = 1.5;",
        131,
        "c.c:2:9: lex Stray\n",
    ),
    (
        "int main(void){return y;}\nint z = ;",
        132,
        "c.c:2:9: syntax NoTree\n",
    ),
];

#[test]
fn first_faults(rt: HostRuntime) -> Result<(), Fail> {
    for (source, status, err) in &FAULTY {
        let ran = check(rt.alloc(), source.as_bytes())?;
        assert_eq!(rt; ran.err.as_str(), *err, "{source}");
        assert_eq!(rt; (ran.status, ran.out.as_str()), (*status, ""), "{source}");
    }
    Ok(())
}

/// The blocks of the static objects may have 4,194,304 bytes together: a block is the next multiple of 16 bytes that is greater
/// than the object.
const STATICS: [(&str, u8, &str, &str); 4] = [
    ("char a[4194303];\nint main(void){return 0;}", 0, "ok\n", ""),
    (
        "char a[4194304];\nint main(void){return 0;}",
        134,
        "",
        "c.c: limit Statics\n",
    ),
    (
        "char a[4194287];\nchar b;\nint main(void){return 0;}",
        0,
        "ok\n",
        "",
    ),
    (
        "char a[4194288];\nchar b;\nint main(void){return 0;}",
        134,
        "",
        "c.c: limit Statics\n",
    ),
];

#[test]
fn limit_of_static_objects(rt: HostRuntime) -> Result<(), Fail> {
    for (source, status, out, err) in &STATICS {
        let ran = check(rt.alloc(), source.as_bytes())?;
        assert_eq!(rt; (ran.status, ran.out.as_str()), (*status, *out), "{source}");
        assert_eq!(rt; ran.err.as_str(), *err, "{source}");
    }
    Ok(())
}

/// `main` with so many empty statements, which weighs 8 for each, and 16 for itself and its body.
fn heavy(alloc: Global, statements: usize) -> Result<Vec<u8>, AllocError> {
    let mut source = Vec::new(alloc);
    source.extend_from_slice(b"int main(void){")?;
    for _ in 0..statements {
        source.push(b';')?;
    }
    source.push(b'}')?;
    Ok(source)
}

/// The functions of a program may weigh 1,048,576 together.
#[test]
fn limit_of_code(rt: HostRuntime) -> Result<(), Fail> {
    let most = check(rt.alloc(), &heavy(rt.alloc(), 131_070)?)?;
    assert_eq!(rt; (most.status, most.out.as_str()), (0, "ok\n"));
    let over = check(rt.alloc(), &heavy(rt.alloc(), 131_071)?)?;
    assert_eq!(rt; (over.status, over.out.as_str()), (134, ""));
    assert_eq!(rt; over.err.as_str(), "c.c: limit Code\n");
    Ok(())
}

#[test]
fn devices_that_fail_a_check(rt: HostRuntime) -> Result<(), Fail> {
    let alloc = rt.alloc();
    let source = b"int main(void){return 0;}";
    let mut devices = sound();
    devices.loads = &[0];
    let load = run(alloc, "check c.c", "c.c", source, &devices)?;
    assert_eq!(rt;
        (load.status, load.err.as_str()),
        (129, "oblivious: FileFault\n")
    );

    let mut devices = sound();
    devices.outs = &[0];
    let none = run(alloc, "check c.c", "c.c", source, &devices)?;
    assert_eq!(rt;
        (none.status, none.out.as_str(), none.err.as_str()),
        (143, "", "")
    );
    devices.outs = &[1];
    devices.most = 1;
    let first = run(alloc, "check c.c", "c.c", source, &devices)?;
    assert_eq!(rt;
        (first.status, first.out.as_str(), first.err.as_str()),
        (143, "o", "")
    );

    let mut devices = sound();
    devices.errs = &[0];
    let fault = run(alloc, "check c.c", "c.c", b"int x;", &devices)?;
    assert_eq!(rt;
        (fault.status, fault.out.as_str(), fault.err.as_str()),
        (143, "", "")
    );
    Ok(())
}

#[test]
fn files_that_are_checked(rt: HostRuntime) -> Result<(), Fail> {
    let alloc = rt.alloc();
    let gone = run(alloc, "check gone.c", "c.c", b"int x;", &sound())?;
    assert_eq!(rt;
        (gone.status, gone.err.as_str()),
        (129, "oblivious: FileFault\n")
    );
    let mut source = Vec::new(alloc);
    source.extend_from_slice(b"int main(void){return 0;}")?;
    source.resize(1_048_576, b'\n')?;
    let most = check(alloc, &source)?;
    assert_eq!(rt; (most.status, most.out.as_str()), (0, "ok\n"));
    source.push(b'\n')?;
    let long = check(alloc, &source)?;
    assert_eq!(rt;
        (long.status, long.err.as_str()),
        (130, "oblivious: FileLong\n")
    );
    Ok(())
}
