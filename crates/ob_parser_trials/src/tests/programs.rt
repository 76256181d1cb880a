//! The answers to short programs.

use super::answers::{program_answer, program_tree};
use std::test::Fail;

/// Declarations. The answer `whole` is a program that spells the tokens.
const DECLARATIONS: [(&str, &str); 45] = [
    ("", "NoTree 0"),
    (";", "NoTree 0"),
    ("x;", "NoTree 0"),
    ("static x;", "NoTree 1"),
    ("static static int x;", "NoTree 1"),
    ("int static x;", "NoTree 1"),
    ("extern int x;", "NoTree 0"),
    ("typedef int t;", "NoTree 0"),
    ("int", "NoTree 1"),
    ("int x", "NoTree 2"),
    ("int;", "NoTree 1"),
    ("int *;", "NoTree 2"),
    ("int x y;", "NoTree 2"),
    ("int x, ;", "NoTree 3"),
    ("int x;;", "NoTree 3"),
    ("int (x);", "NoTree 1"),
    ("int x;", "whole"),
    ("static int x;", "whole"),
    ("const int x;", "whole"),
    ("int x; char y;", "whole"),
    ("struct s;", "whole"),
    ("struct s {int x;};", "whole"),
    ("struct {int x;} y;", "whole"),
    ("struct {int x;};", "NoTree 6"),
    ("int **x[2], *f(int), y = 1, z[] = {1, {2}, };", "whole"),
    ("int a[];", "NoTree 4"),
    ("int a[] = {1};", "whole"),
    ("int a[], b;", "NoTree 4"),
    ("int a[3][];", "NoTree 6"),
    ("int a[3][] = {1};", "NoTree 6"),
    ("int a[][];", "NoTree 5"),
    ("int a[][] = {1};", "NoTree 5"),
    ("int a[][3] = {1};", "whole"),
    ("int a[1, 2];", "NoTree 4"),
    ("int x = ;", "NoTree 3"),
    ("int x = 1, 2;", "NoTree 5"),
    ("int x = a = 1;", "whole"),
    ("int x = a, b;", "whole"),
    ("int x = {};", "NoTree 4"),
    ("int x = {1,,2};", "NoTree 6"),
    ("int x = {1 2};", "NoTree 5"),
    ("int x = {{1}, 2,};", "whole"),
    ("int f(void) = 1;", "NoTree 5"),
    ("int f(void)[3];", "NoTree 5"),
    ("int x[2](void);", "NoTree 5"),
];

/// Functions.
const FUNCTIONS: [(&str, &str); 40] = [
    ("int f();", "whole"),
    ("int f() {}", "whole"),
    ("int f(void) {}", "whole"),
    ("int f(void), g(void);", "whole"),
    ("int f(void), g(void) {}", "NoTree 10"),
    ("int x, f(void) {}", "NoTree 7"),
    ("int f(void) {} ;", "NoTree 7"),
    ("int f(void) {} int x;", "whole"),
    ("int f(void) int x; {}", "NoTree 5"),
    ("static struct s *f(struct s *p) {return p;}", "whole"),
    ("int f(int);", "whole"),
    ("int f(int){return 0;}", "NoTree 5"),
    ("int f(int, int x) {}", "NoTree 8"),
    ("int f(int x, int) {}", "NoTree 8"),
    ("int f(int x) {}", "whole"),
    ("int f(void, int);", "whole"),
    ("int f(int, void);", "whole"),
    ("int f(void, int x) {}", "NoTree 8"),
    ("int f(void x) {}", "whole"),
    ("int f(void *);", "whole"),
    ("int f(void *) {}", "NoTree 6"),
    ("int f(void[2]);", "whole"),
    ("int f(void,);", "NoTree 5"),
    ("int f(,);", "NoTree 3"),
    ("int f(int,);", "NoTree 5"),
    ("int f(int x y);", "NoTree 5"),
    ("int f(int x = 1);", "NoTree 5"),
    ("int f(static int x);", "NoTree 3"),
    ("int f(x);", "NoTree 3"),
    ("int f(int x, ...);", "NoTree 6"),
    ("int f(int *x[]);", "whole"),
    ("int f(int []);", "whole"),
    ("int f(int [3]);", "whole"),
    ("int f(int x[][3]);", "whole"),
    ("int f(int x[3][]);", "NoTree 9"),
    ("int f(int x[][]);", "NoTree 8"),
    ("int f(int [3][]);", "NoTree 8"),
    ("int f(int [][]);", "NoTree 7"),
    ("int f(struct s {int y;} x) {}", "whole"),
    ("int f(int g(void));", "NoTree 5"),
];

/// What stands in the body of `main`, whose first token has the place 6.
const BODIES: [(&str, &str); 67] = [
    (";", "whole"),
    ("{}", "whole"),
    ("{{;}{}}", "whole"),
    ("}", "NoTree 7"),
    ("{", "NoTree 8"),
    ("x", "NoTree 7"),
    ("x y;", "NoTree 7"),
    ("x, y;", "whole"),
    ("return;", "whole"),
    ("return x, y;", "whole"),
    ("return int;", "NoTree 7"),
    ("return", "NoTree 7"),
    ("break;", "whole"),
    ("break x;", "NoTree 7"),
    ("continue;", "whole"),
    ("if (x) y;", "whole"),
    ("if (x, y) z; else ;", "whole"),
    ("if x;", "NoTree 7"),
    ("if () ;", "NoTree 8"),
    ("if (x) int y;", "NoTree 10"),
    ("if (x) else y;", "NoTree 10"),
    ("else;", "NoTree 6"),
    ("if (1) ; else ; else ;", "NoTree 13"),
    ("while (1) if (1) ; else ; else ;", "NoTree 17"),
    ("if (1) if (1) ; else ; else ;", "whole"),
    ("if (1) do if (1) ; while (1); else ;", "whole"),
    ("while (x) ;", "whole"),
    ("while () ;", "NoTree 8"),
    ("do ; while (1);", "whole"),
    ("do ; while (1)", "NoTree 12"),
    ("do ;;", "NoTree 8"),
    ("do ; until", "NoTree 8"),
    ("do int x; while (1);", "NoTree 7"),
    ("for (;;);", "whole"),
    ("for (x, y; x; y, x) ;", "whole"),
    ("for (int i = 0, j; i; i++) {}", "whole"),
    ("for (struct s;;);", "whole"),
    ("for (struct s {int x;};;);", "whole"),
    ("for (int;;);", "NoTree 9"),
    ("for (static int i;;);", "NoTree 8"),
    ("for (int f(void);;);", "NoTree 10"),
    ("for (;;)", "NoTree 11"),
    ("for (;);", "NoTree 9"),
    ("for (;;;);", "NoTree 10"),
    ("for (int x) ;", "NoTree 10"),
    ("int x; x = 1; int y;", "whole"),
    ("static int x = 1, *y[2] = {1};", "whole"),
    ("struct s;", "whole"),
    ("struct s {int x;} y;", "whole"),
    ("struct {int x;};", "NoTree 12"),
    ("int;", "NoTree 7"),
    ("int a[];", "NoTree 10"),
    ("int a[] = {1};", "whole"),
    ("int f(void);", "NoTree 8"),
    ("int *f(void);", "NoTree 9"),
    ("int x = {1, {2,}, };", "whole"),
    ("int x = {{}};", "NoTree 11"),
    ("static x;", "NoTree 7"),
    ("case 1: ;", "NoTree 6"),
    ("goto x;", "NoTree 6"),
    ("switch (x) {}", "NoTree 6"),
    ("x: ;", "NoTree 7"),
    ("sizeof (int) * 2;", "whole"),
    ("(int)x = 1;", "NoTree 10"),
    ("a ? b : c = d;", "NoTree 11"),
    ("f(1)(2);", "NoTree 10"),
    ("f(1, );", "NoTree 10"),
];

#[test]
fn reads_programs(rt: HostRuntime) -> Result<(), Fail> {
    for rows in [DECLARATIONS.as_slice(), FUNCTIONS.as_slice()] {
        for (source, answer) in rows {
            let text = program_answer(rt.alloc(), source.as_bytes())?;
            assert_eq!(rt; text.as_str(), *answer, "at {source}");
        }
    }
    for (body, answer) in &BODIES {
        let source = format!(in rt.alloc(); "int main(void){{{body}}}")?;
        let text = program_answer(rt.alloc(), source.as_bytes())?;
        assert_eq!(rt; text.as_str(), *answer, "at {body}");
    }
    Ok(())
}

/// Bodies of `main` as trees.
const TREES: [(&str, &str); 9] = [
    ("if (a) if (b) c; else d;", "if(a)[if(b)[c;]else[d;]]"),
    ("if (a) {if (b) c;} else d;", "if(a)[{if(b)[c;]}]else[d;]"),
    (
        "if (a) while (b) if (c) d; else e;",
        "if(a)[while(b)[if(c)[d;]else[e;]]]",
    ),
    (
        "if (a) b; else if (c) d; else e;",
        "if(a)[b;]else[if(c)[d;]else[e;]]",
    ),
    ("do a; while (b); return;", "do[a;](b) return;"),
    ("for (a; b; c) d;", "for(a;b;c)[d;]"),
    ("for (int i = 1;;) {}", "for(Int i=1;;)[{}]"),
    (
        "for (;;) break; continue; return x;",
        "for(;;)[break;] continue; return x;",
    ),
    (
        "static int *a[2] = {1, {2, 3}}, b; a * b;",
        "static Int *a[2]={1, {2, 3}}, b; {a Star b};",
    ),
];

/// Programs as trees with the places and lines of their nodes.
const ITEMS: [(&str, &str); 2] = [
    (
        "static struct s {int x;} *f(int *a[], void), g[] = {1,};",
        "static struct s{Int.4 x.5;}.1 *f.9(Int.11 *a.13[].11.1, void.17.17.17.1), g.20[]={1.25.25.1,}.24;.0.1",
    ),
    (
        "struct s;\nint f(char c) {\nreturn\nc;}",
        "struct s.0;.0.1 Int.3 f.4(Char.6 c.7.6.2) {return c.11.11.4;.10.3}.9.2.3.2",
    ),
];

#[test]
fn makes_the_tree(rt: HostRuntime) -> Result<(), Fail> {
    for (body, tree) in &TREES {
        let source = format!(in rt.alloc(); "int main(void){{{body}}}")?;
        let answer = format!(in rt.alloc(); "Int main(void) {{{tree}}}")?;
        let text = program_tree(rt.alloc(), source.as_str(), false)?;
        assert_eq!(rt; text.as_str(), answer.as_str(), "at {body}");
    }
    for (source, answer) in &ITEMS {
        let text = program_tree(rt.alloc(), source, true)?;
        assert_eq!(rt; text.as_str(), *answer, "at {source}");
    }
    Ok(())
}
