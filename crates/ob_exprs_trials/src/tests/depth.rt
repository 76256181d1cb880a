//! The answers to texts near the greatest length of a path, which is 256 nodes.

use super::answers::{FIRST, Part, Start, expr_answer, spec_answer};
use ob_exprs::Level;
use std::alloc::{AllocError, Global};
use std::test::Fail;

/// The first piece, the second so many times, the third, the fourth so many times, the last.
fn nested(alloc: Global, pieces: &[&str; 5], count: u32) -> Result<String, AllocError> {
    let [first, left, middle, right, last] = pieces;
    let mut text = String::from_str(alloc, first)?;
    for _ in 0..count {
        text.push_str(left)?;
    }
    text.push_str(middle)?;
    for _ in 0..count {
        text.push_str(right)?;
    }
    text.push_str(last)?;
    Ok(text)
}

/// Nested texts, and the place behind each or its fault.
const NESTED: [([&str; 5], u32, &str); 41] = [
    (["", "(", "x", ")", ""], 254, "509"),
    (["", "(", "x", ")", ""], 255, "511"),
    (["", "(", "x", ")", ""], 256, "TooDeep 256"),
    (["", "(", "x", ")", ""], 257, "TooDeep 256"),
    (["", "- ", "x", "", ""], 254, "255"),
    (["", "- ", "x", "", ""], 255, "256"),
    (["", "- ", "x", "", ""], 256, "TooDeep 256"),
    (["", "sizeof ", "x", "", ""], 254, "255"),
    (["", "sizeof ", "x", "", ""], 255, "256"),
    (["", "sizeof ", "x", "", ""], 256, "TooDeep 256"),
    (["", "(int)", "x", "", ""], 254, "763"),
    (["", "(int)", "x", "", ""], 255, "766"),
    (["", "(int)", "x", "", ""], 256, "TooDeep 768"),
    (["", "1+", "1", "", ""], 254, "509"),
    (["", "1+", "1", "", ""], 255, "511"),
    (["", "1+", "1", "", ""], 256, "TooDeep 511"),
    (["", "1+", "1", "", ""], 300, "TooDeep 511"),
    (["", "a,", "a", "", ""], 254, "509"),
    (["", "a,", "a", "", ""], 255, "511"),
    (["", "a,", "a", "", ""], 256, "TooDeep 511"),
    (["", "a=", "a", "", ""], 254, "509"),
    (["", "a=", "a", "", ""], 255, "511"),
    (["", "a=", "a", "", ""], 256, "TooDeep 511"),
    (["", "a?b:", "a", "", ""], 254, "1017"),
    (["", "a?b:", "a", "", ""], 255, "1021"),
    (["", "a?b:", "a", "", ""], 256, "TooDeep 1021"),
    (["", "f(", "x", ")", ""], 254, "763"),
    (["", "f(", "x", ")", ""], 255, "766"),
    (["", "f(", "x", ")", ""], 256, "TooDeep 512"),
    (["", "", "a", "[0]", ""], 254, "763"),
    (["", "", "a", "[0]", ""], 255, "766"),
    (["", "", "a", "[0]", ""], 256, "TooDeep 766"),
    (["(int ", "*", ")x", "", ""], 254, "258"),
    (["(int ", "*", ")x", "", ""], 255, "259"),
    (["(int ", "*", ")x", "", ""], 256, "TooDeep 257"),
    (["(int", "[1]", ")x", "", ""], 253, "763"),
    (["(int", "[1]", ")x", "", ""], 254, "766"),
    (["(int", "[1]", ")x", "", ""], 255, "TooDeep 765"),
    (
        ["sizeof(struct{", "struct{", "int x;", "}y;", "})"],
        253,
        "1274",
    ),
    (
        ["sizeof(struct{", "struct{", "int x;", "}y;", "})"],
        254,
        "1279",
    ),
    (
        ["sizeof(struct{", "struct{", "int x;", "}y;", "})"],
        255,
        "TooDeep 512",
    ),
];

#[test]
fn counts_nodes_on_paths(rt: HostRuntime) -> Result<(), Fail> {
    for (pieces, count, answer) in &NESTED {
        let source = nested(rt.alloc(), pieces, *count)?;
        let text = expr_answer(
            rt.alloc(),
            source.as_str(),
            FIRST,
            Level::Comma,
            Part::Place,
        )?;
        assert_eq!(rt; text.as_str(), *answer, "at {count} times {pieces:?}");
    }
    Ok(())
}

/// Short expressions under so many nodes.
const UNDER: [(u32, &str, &str); 28] = [
    (255, "x", "1"),
    (256, "x", "TooDeep 0"),
    (256, ")", "NoTree 0"),
    (256, "", "NoTree 0"),
    (256, "x)", "TooDeep 0"),
    (255, "x y", "1"),
    (255, "- x", "TooDeep 1"),
    (255, "x + y", "TooDeep 1"),
    (254, "x + y", "3"),
    (255, "x, y", "TooDeep 1"),
    (255, "x = y", "TooDeep 1"),
    (255, "x ? y : z", "TooDeep 1"),
    (255, "x++", "TooDeep 1"),
    (255, "x.y", "TooDeep 1"),
    (255, "x[0]", "TooDeep 1"),
    (255, "(x)", "TooDeep 1"),
    (255, "(int", "NoTree 2"),
    (255, "f()", "3"),
    (255, "f(x)", "TooDeep 2"),
    (254, "f(x)", "4"),
    (255, "(int)x", "TooDeep 3"),
    (254, "(int)x", "4"),
    (255, "(int *)x", "TooDeep 2"),
    (255, "(struct s)x", "TooDeep 1"),
    (255, "sizeof (int)", "4"),
    (255, "sizeof (int[1])", "TooDeep 3"),
    (254, "sizeof (int[1])", "TooDeep 4"),
    (253, "sizeof (int[1])", "7"),
];

/// Specifiers under so many nodes.
const SPECIFIERS: [(u32, &str, &str); 12] = [
    (256, "int", "1"),
    (256, "void", "1"),
    (256, "x", "NoTree 0"),
    (256, "struct s", "TooDeep 0"),
    (255, "struct s", "2"),
    (255, "struct {int x;}", "6"),
    (255, "struct {int *x;}", "TooDeep 3"),
    (254, "struct {int *x;}", "7"),
    (255, "struct {int x[1];}", "TooDeep 4"),
    (254, "struct {int x[1];}", "TooDeep 5"),
    (253, "struct {int x[1];}", "9"),
    (255, "struct {struct s x;}", "TooDeep 2"),
];

#[test]
fn counts_nodes_above(rt: HostRuntime) -> Result<(), Fail> {
    for (depth, source, answer) in &UNDER {
        let start = Start {
            from: 0,
            depth: *depth,
        };
        let text = expr_answer(rt.alloc(), source, start, Level::Comma, Part::Place)?;
        assert_eq!(rt; text.as_str(), *answer, "at {source} under {depth}");
    }
    for (level, source, answer) in [(Level::Assign, "x, y", "1"), (Level::Cond, "x = y", "1")] {
        let start = Start {
            from: 0,
            depth: 255,
        };
        let text = expr_answer(rt.alloc(), source, start, level, Part::Place)?;
        assert_eq!(rt; text.as_str(), answer, "at {source}");
    }
    for (depth, source, answer) in &SPECIFIERS {
        let start = Start {
            from: 0,
            depth: *depth,
        };
        let text = spec_answer(rt.alloc(), source, start, Part::Place)?;
        assert_eq!(rt; text.as_str(), *answer, "at {source} under {depth}");
    }
    Ok(())
}
