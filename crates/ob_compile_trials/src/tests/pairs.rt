//! Each pair of operands of each operator of two operands: `.` where it takes the pair, `O` where the fault is Operand and
//! `N` where it is NotPlace, both at the sign, and `A` where it is Assign at the value.

use crate::answer::answer;
use std::alloc::{AllocError, Global};
use std::fmt::Write;
use std::process::Abort;
use std::test::Fail;

// It has 51 tokens, and each operand below has 5.
const BEFORE: &str =
    "int n;int*p;char*q;void*v;struct o;struct o*o;struct s{int m;}s;int a[3];void f(void){}int main(void){";

const COLUMNS: &str = "nzkpqvNosfac";

fn operand(letter: char) -> &'static str {
    match letter {
        'n' => "((n))",
        'z' => "((0))",
        'k' => "((1))",
        'p' => "((p))",
        'q' => "((q))",
        'v' => "((v))",
        'N' => "((NULL))",
        'o' => "((o))",
        's' => "((s))",
        'f' => "(f())",
        'a' => "((a))",
        _ => "(int*)0",
    }
}

/// A sign between two operands, what stands before them, and where the sign of the fault stands.
#[derive(Clone, Copy)]
struct Form<'a> {
    first: &'a str,
    sign: &'a str,
    at: u32,
}

fn wanted(alloc: Global, form: Form<'_>, verdict: char) -> Result<String, AllocError> {
    let mut text = String::new(alloc);
    match verdict {
        '.' => text.push_str("ok")?,
        'O' => write!(text, "{} Operand", form.at)?,
        'N' => write!(text, "{} NotPlace", form.at)?,
        _ => write!(text, "{} Assign", form.at.wrapping_add(1))?,
    }
    Ok(text)
}

fn program(alloc: Global, form: Form<'_>, left: char, right: char) -> Result<String, AllocError> {
    let mut text = String::from_str(alloc, BEFORE)?;
    text.push_str(form.first)?;
    text.push_str(operand(left))?;
    text.push_str(form.sign)?;
    text.push_str(operand(right))?;
    text.push_str(";}")?;
    Ok(text)
}

fn pair(
    rt: &impl Abort,
    alloc: Global,
    form: Form<'_>,
    left: char,
    right: char,
    verdict: char,
) -> Result<(), Fail> {
    let source = program(alloc, form, left, right)?;
    let found = answer(alloc, source.as_str())?;
    let wanted = wanted(alloc, form, verdict)?;
    assert_eq!(rt; found.as_str(), wanted.as_str(), "{}", source.as_str());
    Ok(())
}

// A line has the left operand's letter, a space, and a verdict for each column.
fn line(rt: &impl Abort, alloc: Global, form: Form<'_>, row: &str) -> Result<(), Fail> {
    let mut letters = row.chars();
    let left = letters.next().unwrap_or(' ');
    letters.next();
    for right in COLUMNS.chars() {
        let verdict = letters.next().unwrap_or(' ');
        pair(rt, alloc, form, left, right, verdict)?;
    }
    Ok(())
}

fn table(rt: &impl Abort, alloc: Global, form: Form<'_>, rows: &str) -> Result<(), Fail> {
    for row in rows.lines() {
        line(rt, alloc, form, row)?;
    }
    Ok(())
}

fn tables(rt: &impl Abort, alloc: Global, signs: &str, rows: &str) -> Result<(), Fail> {
    for sign in signs.split(' ') {
        let form = Form {
            first: "",
            sign,
            at: 56,
        };
        table(rt, alloc, form, rows)?;
    }
    Ok(())
}

const NUMBERS: &str = "\
n ...OOOOOOOOO
z ...OOOOOOOOO
k ...OOOOOOOOO
p OOOOOOOOOOOO
q OOOOOOOOOOOO
v OOOOOOOOOOOO
N OOOOOOOOOOOO
o OOOOOOOOOOOO
s OOOOOOOOOOOO
f OOOOOOOOOOOO
a OOOOOOOOOOOO
c OOOOOOOOOOOO
";

const SUM: &str = "\
n .....OOOOO..
z .....OOOOO..
k .....OOOOO..
p ...OOOOOOOOO
q ...OOOOOOOOO
v OOOOOOOOOOOO
N OOOOOOOOOOOO
o OOOOOOOOOOOO
s OOOOOOOOOOOO
f OOOOOOOOOOOO
a ...OOOOOOOOO
c ...OOOOOOOOO
";

const DIFFERENCE: &str = "\
n ...OOOOOOOOO
z ...OOOOOOOOO
k ...OOOOOOOOO
p ....OOOOOO..
q ...O.OOOOOOO
v OOOOOOOOOOOO
N OOOOOOOOOOOO
o OOOOOOOOOOOO
s OOOOOOOOOOOO
f OOOOOOOOOOOO
a ....OOOOOO..
c ....OOOOOO..
";

const ORDER: &str = "\
n ...OOOOOOOOO
z ...OOOOOOOOO
k ...OOOOOOOOO
p OOO.OOOOOO..
q OOOO.OOOOOOO
v OOOOO..OOOOO
N OOOOO..OOOOO
o OOOOOOO.OOOO
s OOOOOOOOOOOO
f OOOOOOOOOOOO
a OOO.OOOOOO..
c OOO.OOOOOO..
";

const EQUAL: &str = "\
n ...OOOOOOOOO
z ........OO..
k ...OOOOOOOOO
p O.O.O..OOO..
q O.OO...OOOO.
v O.O.....OO..
N O.O.....OO..
o O.OOO...OOO.
s OOOOOOOOOOOO
f OOOOOOOOOOOO
a O.O.O..OOO..
c O.O.....OO..
";

const TRUTH: &str = "\
n ........OO..
z ........OO..
k ........OO..
p ........OO..
q ........OO..
v ........OO..
N ........OO..
o ........OO..
s OOOOOOOOOOOO
f OOOOOOOOOOOO
a ........OO..
c ........OO..
";

const COMMA: &str = "\
n ........O...
z ........O...
p ........O...
v ........O...
N ........O...
s OOOOOOOOOOOO
f ........O...
a ........O...
c ........O...
";

const ASSIGN: &str = "\
n ...AAAAAOOAA
p A.A.A..AOO..
q A.AA...AOOA.
v A.A.....OO..
o A.AAA...OOA.
s AAAAAAAA.OAA
z NNNNNNNNNNNN
N NNNNNNNNNNNN
f NNNNNNNNNNNN
a NNNNNNNNNNNN
";

const ADD: &str = "\
n ...OOOOOOOOO
p ...OOOOOOOOO
q ...OOOOOOOOO
v OOOOOOOOOOOO
o OOOOOOOOOOOO
s OOOOOOOOOOOO
z NNNNNNNNNNNN
f NNNNNNNNNNNN
a NNNNNNNNNNNN
";

const MULTIPLY: &str = "\
n ...OOOOOOOOO
p OOOOOOOOOOOO
q OOOOOOOOOOOO
v OOOOOOOOOOOO
o OOOOOOOOOOOO
s OOOOOOOOOOOO
z NNNNNNNNNNNN
f NNNNNNNNNNNN
a NNNNNNNNNNNN
";

#[test]
fn takes_numbers(rt: HostRuntime) -> Result<(), Fail> {
    tables(&rt, rt.alloc(), "* / %", NUMBERS)
}

#[test]
fn takes_bits(rt: HostRuntime) -> Result<(), Fail> {
    tables(&rt, rt.alloc(), "<< >> & ^ |", NUMBERS)
}

#[test]
fn takes_sums(rt: HostRuntime) -> Result<(), Fail> {
    tables(&rt, rt.alloc(), "+", SUM)?;
    tables(&rt, rt.alloc(), "-", DIFFERENCE)
}

#[test]
fn takes_comparisons(rt: HostRuntime) -> Result<(), Fail> {
    tables(&rt, rt.alloc(), "< > <= >=", ORDER)?;
    tables(&rt, rt.alloc(), "== !=", EQUAL)?;
    tables(&rt, rt.alloc(), "&& ||", TRUTH)
}

#[test]
fn takes_assignments(rt: HostRuntime) -> Result<(), Fail> {
    tables(&rt, rt.alloc(), "=", ASSIGN)?;
    tables(&rt, rt.alloc(), "+= -=", ADD)
}

#[test]
fn takes_products_in_place(rt: HostRuntime) -> Result<(), Fail> {
    tables(&rt, rt.alloc(), "*= /= %=", MULTIPLY)
}

#[test]
fn takes_bits_in_place(rt: HostRuntime) -> Result<(), Fail> {
    tables(&rt, rt.alloc(), "<<= >>= &= ^= |=", MULTIPLY)
}

#[test]
fn takes_other_pairs(rt: HostRuntime) -> Result<(), Fail> {
    tables(&rt, rt.alloc(), ",", COMMA)?;
    let choice = Form {
        first: "1?",
        sign: ":",
        at: 52,
    };
    table(&rt, rt.alloc(), choice, EQUAL)
}
