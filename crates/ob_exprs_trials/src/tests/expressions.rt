//! The answers to short texts.

use super::answers::{FIRST, Part, Start, expr_answer, spec_answer};
use ob_exprs::Level;
use std::test::Fail;

/// Primary and postfix expressions.
const PRIMARY: [(&str, &str); 37] = [
    ("", "NoTree 0"),
    (")", "NoTree 0"),
    ("int", "NoTree 0"),
    ("= x", "NoTree 0"),
    ("x", "x 1"),
    ("12", "12 1"),
    ("'a'", "97 1"),
    ("NULL", "NULL 1"),
    ("EOF", "EOF 1"),
    ("\"a\" \"bc\"", "\"a\"\"bc\" 2"),
    ("\"a\" x", "\"a\" 1"),
    ("1 \"a\"", "1 1"),
    ("x y", "x 1"),
    ("x; y", "x 1"),
    ("()", "NoTree 1"),
    ("(x", "NoTree 2"),
    ("(x)", "(x) 3"),
    ("(x y)", "NoTree 2"),
    ("f()", "f() 3"),
    ("f(a, b)", "f(a; b) 6"),
    ("f(a = 1, (b, c))", "f({a Assign 1}; ({b Comma c})) 12"),
    ("f(", "NoTree 2"),
    ("f(1,", "NoTree 4"),
    ("f(,)", "NoTree 2"),
    ("f(1,)", "NoTree 4"),
    ("f(int)", "NoTree 2"),
    ("f(1)(2)", "f(1) 4"),
    ("(f)(1)", "(f) 3"),
    ("1(2)", "1 1"),
    ("a[b, c]", "{a OpenBracket {b Comma c}} 6"),
    ("a[]", "NoTree 2"),
    ("a[1", "NoTree 3"),
    (
        "a[1].x->y++ --",
        "{{{{{a OpenBracket 1} Dot x} Arrow y} PlusPlus} MinusMinus} 10",
    ),
    ("f(1)[2]", "{f(1) OpenBracket 2} 7"),
    ("a. 1", "NoTree 2"),
    ("a.", "NoTree 2"),
    ("a->(x)", "NoTree 2"),
];

/// Expressions with a sign or a type name before them.
const PREFIXES: [(&str, &str); 34] = [
    ("- x++", "{Minus {x PlusPlus}} 3"),
    ("-- x", "{MinusMinus x} 2"),
    ("++ x ++", "{PlusPlus {x PlusPlus}} 3"),
    ("++ ++ -x", "{PlusPlus {PlusPlus {Minus x}}} 4"),
    ("++ (int)x", "NoTree 2"),
    ("++ (x)", "{PlusPlus (x)} 4"),
    ("++ sizeof (int)", "{PlusPlus {Sizeof <Int>}} 5"),
    (
        "& * + - ~ ! x",
        "{Amp {Star {Plus {Minus {Tilde {Not x}}}}}} 7",
    ),
    ("! (int)x", "{Not {<Int> x}} 5"),
    ("/ x", "NoTree 0"),
    ("-", "NoTree 1"),
    ("sizeof", "NoTree 1"),
    ("sizeof (", "NoTree 2"),
    ("sizeof (int", "NoTree 3"),
    ("sizeof int", "NoTree 1"),
    ("sizeof x", "{Sizeof x} 2"),
    ("sizeof (x)[1]", "{Sizeof {(x) OpenBracket 1}} 7"),
    ("sizeof (int)[1]", "{Sizeof <Int>} 4"),
    ("sizeof (int) x", "{Sizeof <Int>} 4"),
    ("sizeof (int)++", "{Sizeof <Int>} 4"),
    ("sizeof (int) * p", "{{Sizeof <Int>} Star p} 6"),
    ("sizeof -x", "{Sizeof {Minus x}} 3"),
    ("sizeof sizeof (x)", "{Sizeof {Sizeof (x)}} 5"),
    ("sizeof (sizeof (int))", "{Sizeof ({Sizeof <Int>})} 7"),
    ("(int)x = 3", "{<Int> x} 4"),
    ("(int)(char)-x", "{<Int> {<Char> {Minus x}}} 8"),
    ("(int)x++", "{<Int> {x PlusPlus}} 5"),
    ("(int)x * y", "{{<Int> x} Star y} 6"),
    ("(int) + 1", "{<Int> {Plus 1}} 5"),
    ("(int)sizeof (int)", "{<Int> {Sizeof <Int>}} 7"),
    ("(int)", "NoTree 3"),
    ("(int x)", "NoTree 2"),
    ("(static int)x", "NoTree 1"),
    ("(const int)x", "{<Int> x} 4"),
];

/// Type names.
const TYPES: [(&str, &str); 39] = [
    ("(unsigned signed)x", "NoTree 2"),
    ("(long long long)x", "NoTree 3"),
    ("(int long)x", "NoTree 2"),
    ("(char signed)x", "NoTree 2"),
    ("(int int)x", "NoTree 2"),
    ("(short char)x", "NoTree 2"),
    (
        "(unsigned long long int)x",
        "{<Unsigned Long Long Int> x} 7",
    ),
    ("(signed)x", "{<Signed> x} 4"),
    ("(short int *)x", "{<Short Int *> x} 6"),
    ("(void)x", "{<void> x} 4"),
    ("(void **)x", "{<void **> x} 6"),
    ("(void int)x", "NoTree 2"),
    ("(size_t)x", "{<size_t> x} 4"),
    ("(size_t long)x", "NoTree 2"),
    ("(int[)", "NoTree 3"),
    ("(int[])x", "NoTree 3"),
    ("(int[3][])x", "NoTree 6"),
    ("(int[3]*)x", "NoTree 5"),
    ("(int[a ? b : c])x", "{<Int[{a Question b Colon c}]> x} 11"),
    ("(int[a = 1])x", "NoTree 4"),
    ("(int[a, b])x", "NoTree 4"),
    ("(int*[2][3])x", "{<Int *[2][3]> x} 11"),
    ("(int*x)y", "NoTree 3"),
    ("(struct s *)x", "{<struct s *> x} 6"),
    ("(struct s s)x", "NoTree 3"),
    ("(struct)x", "NoTree 2"),
    ("(struct {", "NoTree 3"),
    ("(struct {})x", "NoTree 3"),
    ("(struct s {})x", "NoTree 4"),
    ("(struct {int})x", "NoTree 4"),
    ("(struct {int;})x", "NoTree 4"),
    ("(struct {int x})y", "NoTree 5"),
    ("(struct {int x = 1;})y", "NoTree 5"),
    ("(struct {int x[];})y", "NoTree 6"),
    ("(struct {int x, ;})y", "NoTree 6"),
    ("(struct {static int x;})y", "NoTree 3"),
    ("(struct {int x;} {)y", "NoTree 7"),
    ("(struct {int x;} *)y", "{<struct {Int x;} *> y} 10"),
    (
        "sizeof (struct s {int x, *y[3]; struct {char z;} u;})",
        "{Sizeof <struct s{Int x *y[3];struct {Char z;} u;}>} 24",
    ),
];

/// Operators between expressions.
const OPERATORS: [(&str, &str); 44] = [
    (
        "a || b && c | d ^ e & f == g < h << i + j * k",
        "{a OrOr {b AndAnd {c Bar {d Caret {e Amp {f EqEq {g Lt {h Shl {i Plus {j Star k}}}}}}}}}} 21",
    ),
    (
        "a * b + c << d < e == f & g ^ h | i && j || k",
        "{{{{{{{{{{a Star b} Plus c} Shl d} Lt e} EqEq f} Amp g} Caret h} Bar i} AndAnd j} OrOr k} 21",
    ),
    ("a - b + c", "{{a Minus b} Plus c} 5"),
    ("a / b % c * d", "{{{a Slash b} Percent c} Star d} 7"),
    ("a >> b << c", "{{a Shr b} Shl c} 5"),
    ("a > b <= c >= d < e", "{{{{a Gt b} Le c} Ge d} Lt e} 9"),
    ("a != b == c", "{{a NotEq b} EqEq c} 5"),
    ("a & b & c", "{{a Amp b} Amp c} 5"),
    ("a ^ b ^ c", "{{a Caret b} Caret c} 5"),
    ("a | b | c", "{{a Bar b} Bar c} 5"),
    ("a && b && c", "{{a AndAnd b} AndAnd c} 5"),
    ("a || b || c", "{{a OrOr b} OrOr c} 5"),
    ("a + * b", "{a Plus {Star b}} 4"),
    ("a - - b", "{a Minus {Minus b}} 4"),
    ("a-- b", "{a MinusMinus} 2"),
    ("a & & b", "{a Amp {Amp b}} 4"),
    ("a +", "NoTree 2"),
    ("a + )", "NoTree 2"),
    ("a * int", "NoTree 2"),
    ("a + b = c", "{a Plus b} 3"),
    (
        "a ? b : c ? d : e",
        "{a Question b Colon {c Question d Colon e}} 9",
    ),
    (
        "a ? b ? c : d : e",
        "{a Question {b Question c Colon d} Colon e} 9",
    ),
    ("a ? b, c : d", "{a Question {b Comma c} Colon d} 7"),
    ("a ? b = c : d", "{a Question {b Assign c} Colon d} 7"),
    ("a ? b : c, d", "{{a Question b Colon c} Comma d} 7"),
    ("a = b ? c : d", "{a Assign {b Question c Colon d}} 7"),
    (
        "a || b ? c : d || e",
        "{{a OrOr b} Question c Colon {d OrOr e}} 9",
    ),
    ("a ?", "NoTree 2"),
    ("a ? b", "NoTree 3"),
    ("a ? b)", "NoTree 3"),
    ("a ? : c", "NoTree 2"),
    ("a : b", "a 1"),
    ("a = b = c", "{a Assign {b Assign c}} 5"),
    (
        "a *= b /= c %= d += e -= f <<= g >>= h &= i ^= j |= k",
        "{a StarAssign {b SlashAssign {c PercentAssign {d PlusAssign {e MinusAssign {f ShlAssign {g ShrAssign {h AmpAssign {i CaretAssign {j BarAssign k}}}}}}}}}} 21",
    ),
    ("a = b + c = d", "{a Assign {b Plus c}} 5"),
    ("(a = b) = c", "{({a Assign b}) Assign c} 7"),
    (
        "a[0] = f() = 1",
        "{{a OpenBracket 0} Assign {f() Assign 1}} 10",
    ),
    ("x++ = 1", "{{x PlusPlus} Assign 1} 4"),
    ("* x = 1", "{{Star x} Assign 1} 4"),
    ("- x = 1", "{{Minus x} Assign 1} 4"),
    ("sizeof (int) = 1", "{{Sizeof <Int>} Assign 1} 6"),
    ("a =", "NoTree 2"),
    ("a, b, c", "{{a Comma b} Comma c} 5"),
    ("a,", "NoTree 2"),
];

#[test]
fn reads_expressions(rt: HostRuntime) -> Result<(), Fail> {
    for rows in [
        PRIMARY.as_slice(),
        PREFIXES.as_slice(),
        TYPES.as_slice(),
        OPERATORS.as_slice(),
    ] {
        for (source, answer) in rows {
            let text = expr_answer(rt.alloc(), source, FIRST, Level::Comma, Part::Tree)?;
            assert_eq!(rt; text.as_str(), *answer, "at {source}");
        }
    }
    Ok(())
}

/// The answers of the levels: any expression, an assignment, a conditional.
const LEVELS: [(&str, &str, &str, &str); 8] = [
    ("a, b", "{a Comma b} 3", "a 1", "a 1"),
    ("a,", "NoTree 2", "a 1", "a 1"),
    (
        "a = b, c",
        "{{a Assign b} Comma c} 5",
        "{a Assign b} 3",
        "a 1",
    ),
    ("a =", "NoTree 2", "NoTree 2", "a 1"),
    (
        "a ? b : c = d",
        "{a Question b Colon c} 5",
        "{a Question b Colon c} 5",
        "{a Question b Colon c} 5",
    ),
    (
        "a ? b, c : d, e",
        "{{a Question {b Comma c} Colon d} Comma e} 9",
        "{a Question {b Comma c} Colon d} 7",
        "{a Question {b Comma c} Colon d} 7",
    ),
    (
        "(a, b) = c, d",
        "{{({a Comma b}) Assign c} Comma d} 9",
        "{({a Comma b}) Assign c} 7",
        "({a Comma b}) 5",
    ),
    (", a", "NoTree 0", "NoTree 0", "NoTree 0"),
];

#[test]
fn stops_at_the_level(rt: HostRuntime) -> Result<(), Fail> {
    for (source, comma, assign, cond) in &LEVELS {
        for (level, answer) in [
            (Level::Comma, *comma),
            (Level::Assign, *assign),
            (Level::Cond, *cond),
        ] {
            let text = expr_answer(rt.alloc(), source, FIRST, level, Part::Tree)?;
            assert_eq!(rt; text.as_str(), answer, "at {source}, {level:?}");
        }
    }
    Ok(())
}

/// Trees from a token on, with the places and lines of their nodes.
const MARKS: [(usize, &str, &str); 7] = [
    (
        0,
        "a +\n b * 2",
        "{a.0.0.1 Plus {b.2.2.2 Star 2.4.4.2}.2.3.2}.0.1.1 5",
    ),
    (2, "a , b + c", "{b.2.2.1 Plus c.4.4.1}.2.3.1 5"),
    (
        0,
        "(x)[1].m->n ++",
        "{{{{(x.1.1.1).0.0.1 OpenBracket 1.4.4.1}.0.3.1 Dot m}.0.6.1 Arrow n}.0.8.1 PlusPlus}.0.10.1 11",
    ),
    (
        0,
        "-- f(a, \"s\" \"t\", NULL)",
        "{MinusMinus f(a.3.3.1; \"s\"\"t\".5.5.1; NULL.8.8.1).1.1.1}.0.0.1 10",
    ),
    (
        0,
        "a ? b : c, d = e",
        "{{a.0.0.1 Question b.2.2.1 Colon c.4.4.1}.0.1.1 Comma {d.6.6.1 Assign e.8.8.1}.6.7.1}.0.5.1 9",
    ),
    (
        0,
        "sizeof (struct s {int x, *y[1];}) + (long)-z",
        "{{Sizeof <struct s{Int.5 x.6 *y.9[1.11.11.1];}.2>}.0.0.1 Plus {<Long.18> {Minus z.21.21.1}.20.20.1}.17.17.1}.0.16.1 22",
    ),
    (1, "a", "NoTree 1"),
];

#[test]
fn marks_each_node(rt: HostRuntime) -> Result<(), Fail> {
    for (from, source, answer) in &MARKS {
        let start = Start {
            from: *from,
            depth: 0,
        };
        let text = expr_answer(rt.alloc(), source, start, Level::Comma, Part::Marks)?;
        assert_eq!(rt; text.as_str(), *answer, "at {source}");
    }
    Ok(())
}

const SPECIFIERS: [(&str, &str); 41] = [
    ("", "NoTree 0"),
    ("x", "NoTree 0"),
    ("static int", "NoTree 0"),
    ("int", "Int 1"),
    ("int long", "Int 1"),
    ("int int", "Int 1"),
    ("char int", "Char 1"),
    ("short char", "Short 1"),
    ("short int int", "Short Int 2"),
    ("long long long", "Long Long 2"),
    ("long long int x", "Long Long Int 3"),
    ("long int long", "Long Int 2"),
    ("signed char *", "Signed Char 2"),
    ("signed unsigned", "Signed 1"),
    ("unsigned signed", "Unsigned 1"),
    ("unsigned int int", "Unsigned Int 2"),
    ("unsigned x", "Unsigned 1"),
    ("void *", "void 1"),
    ("void void", "void 1"),
    ("size_t x", "size_t 1"),
    ("struct", "NoTree 1"),
    ("struct 1", "NoTree 1"),
    ("struct int", "NoTree 1"),
    ("struct {", "NoTree 2"),
    ("struct {}", "NoTree 2"),
    ("struct s", "struct s 2"),
    ("struct s x", "struct s 2"),
    ("struct s {", "NoTree 3"),
    ("struct s {int x;} y", "struct s{Int x;} 7"),
    ("struct {int *x, y[2][3];}", "struct {Int *x y[2][3];} 15"),
    (
        "struct {struct {int x;} a; struct s *b;}",
        "struct {struct {Int x;} a;struct s *b;} 16",
    ),
    ("struct {int x;", "NoTree 5"),
    ("struct {int x; x", "NoTree 5"),
    ("struct {int x = 1;}", "NoTree 4"),
    ("struct {int x[];}", "NoTree 5"),
    ("struct {int x[1, 2];}", "NoTree 6"),
    ("struct {int x y;}", "NoTree 4"),
    ("struct {int x[1]y;}", "NoTree 7"),
    ("struct {int f();}", "NoTree 4"),
    ("struct {int *;}", "NoTree 4"),
    ("struct {long long long x;}", "NoTree 4"),
];

#[test]
fn reads_specifiers(rt: HostRuntime) -> Result<(), Fail> {
    for (source, answer) in &SPECIFIERS {
        let text = spec_answer(rt.alloc(), source, FIRST, Part::Tree)?;
        assert_eq!(rt; text.as_str(), *answer, "at {source}");
    }
    let start = Start { from: 1, depth: 0 };
    let text = spec_answer(rt.alloc(), "x struct {int y;}", start, Part::Marks)?;
    assert_eq!(rt; text.as_str(), "struct {Int.3 y.4;}.1 7");
    Ok(())
}
