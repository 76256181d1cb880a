//! The answers to programs near the greatest length of a path, which is 256 nodes.

use super::answers::program_answer;
use std::alloc::{AllocError, Global};
use std::test::Fail;

/// The first piece, the second so many times, the third, the fourth so many times, the last.
fn nested(alloc: Global, pieces: &[&str; 5], count: u32) -> Result<String, AllocError> {
    let [first, left, middle, right, last] = pieces;
    let mut text = String::from_str(alloc, first)?;
    for _ in 0..count {
        text.push_str(left)?;
    }
    text.push_str(middle)?;
    for _ in 0..count {
        text.push_str(right)?;
    }
    text.push_str(last)?;
    Ok(text)
}

/// Nested programs.
const PROGRAMS: [([&str; 5], u32, &str); 44] = [
    (["int main(void){", "{", "", "}", "}"], 253, "whole"),
    (["int main(void){", "{", "", "}", "}"], 254, "whole"),
    (["int main(void){", "{", "", "}", "}"], 255, "TooDeep 260"),
    (["int main(void){", "if(1)", ";", "", "}"], 252, "whole"),
    (["int main(void){", "if(1)", ";", "", "}"], 253, "whole"),
    (
        ["int main(void){", "if(1)", ";", "", "}"],
        254,
        "TooDeep 1020",
    ),
    (
        ["int main(void){", "if(1);else ", ";", "", "}"],
        252,
        "whole",
    ),
    (
        ["int main(void){", "if(1);else ", ";", "", "}"],
        253,
        "whole",
    ),
    (
        ["int main(void){", "if(1);else ", ";", "", "}"],
        254,
        "TooDeep 1526",
    ),
    (["int main(void){", "while(1)", ";", "", "}"], 252, "whole"),
    (["int main(void){", "while(1)", ";", "", "}"], 253, "whole"),
    (
        ["int main(void){", "while(1)", ";", "", "}"],
        254,
        "TooDeep 1020",
    ),
    (["int main(void){", "for(;;)", ";", "", "}"], 252, "whole"),
    (["int main(void){", "for(;;)", ";", "", "}"], 253, "whole"),
    (
        ["int main(void){", "for(;;)", ";", "", "}"],
        254,
        "TooDeep 1276",
    ),
    (
        ["int main(void){", "do ", ";", "while(1);", "}"],
        252,
        "whole",
    ),
    (
        ["int main(void){", "do ", ";", "while(1);", "}"],
        253,
        "whole",
    ),
    (
        ["int main(void){", "do ", ";", "while(1);", "}"],
        254,
        "TooDeep 260",
    ),
    (["int main(void){int x=", "{", "1", "}", ";}"], 251, "whole"),
    (["int main(void){int x=", "{", "1", "}", ";}"], 252, "whole"),
    (
        ["int main(void){int x=", "{", "1", "}", ";}"],
        253,
        "TooDeep 262",
    ),
    (
        ["int main(void){return ", "(", "x", ")", ";}"],
        251,
        "whole",
    ),
    (
        ["int main(void){return ", "(", "x", ")", ";}"],
        252,
        "whole",
    ),
    (
        ["int main(void){return ", "(", "x", ")", ";}"],
        253,
        "TooDeep 260",
    ),
    (["int x=", "{", "1", "}", ";"], 253, "whole"),
    (["int x=", "{", "1", "}", ";"], 254, "whole"),
    (["int x=", "{", "1", "}", ";"], 255, "TooDeep 258"),
    (["int ", "*", "x;", "", ""], 254, "whole"),
    (["int ", "*", "x;", "", ""], 255, "whole"),
    (["int ", "*", "x;", "", ""], 256, "TooDeep 256"),
    (["int x", "[1]", ";", "", ""], 253, "whole"),
    (["int x", "[1]", ";", "", ""], 254, "whole"),
    (["int x", "[1]", ";", "", ""], 255, "TooDeep 765"),
    (["int f(int ", "*", "x);", "", ""], 254, "whole"),
    (["int f(int ", "*", "x);", "", ""], 255, "whole"),
    (["int f(int ", "*", "x);", "", ""], 256, "TooDeep 259"),
    (["int ", "*", "f(void);", "", ""], 254, "whole"),
    (["int ", "*", "f(void);", "", ""], 255, "whole"),
    (["int ", "*", "f(void);", "", ""], 256, "TooDeep 256"),
    (["", "struct{", "int x;", "}y;", ""], 254, "whole"),
    (["", "struct{", "int x;", "}y;", ""], 255, "whole"),
    (["", "struct{", "int x;", "}y;", ""], 256, "TooDeep 510"),
    (["", "int x;", "int y;", "", ""], 1000, "whole"),
    (["int main(void){", "x;", "", "", "}"], 1000, "whole"),
];

#[test]
fn counts_nodes_of_programs(rt: HostRuntime) -> Result<(), Fail> {
    for (pieces, count, answer) in &PROGRAMS {
        let source = nested(rt.alloc(), pieces, *count)?;
        let text = program_answer(rt.alloc(), source.as_bytes())?;
        assert_eq!(rt; text.as_str(), *answer, "at {count} times {pieces:?}");
    }
    Ok(())
}
