//! The begins of a program, and a long one.

use super::answers::{LIMIT, kinds_of, program_answer};
use ob_lexer::lex;
use std::alloc::{AllocError, Global};
use std::test::Fail;

const LINE: &str = "#include <stdio.h>
char buf[8];
int main(void){
  int c, n = 0;
  while ((c = getchar()) != EOF && c != '\\n') buf[n++] = c;
  buf[n] = '\\0';
  puts(buf);
  return 0;
}
";

/// The answer to the first bytes of `LINE`, where they are a list of tokens. The fault stands behind
/// the last token, since each begin of the program's tokens begins a program; the first 6 are one too. A
/// word that is cut off is a name, and none can stand at the tokens 0, 6 and 9, where a declaration or a
/// parameter begins; nor can the `!` of the tokens 28 and 32. Every other token that is cut off can stand
/// where it stands.
fn wanted(alloc: Global, front: &[u8], whole: &str) -> Result<Option<String>, AllocError> {
    if front.len() > LIMIT {
        return Ok(None);
    }
    let Ok(tokens) = lex(alloc, front) else {
        return Ok(None);
    };
    let kinds = kinds_of(alloc, &tokens)?;
    let count = tokens.len();
    let place = if whole.starts_with(kinds.as_str()) {
        count
    } else {
        match count {
            1 => 0,
            7 => 6,
            10 => 9,
            29 => 28,
            33 => 32,
            _ => count,
        }
    };
    if place == count && (count == 6 || count == 59) {
        Ok(Some(String::from_str(alloc, "whole")?))
    } else {
        Ok(Some(format!(in alloc; "NoTree {place}")?))
    }
}

#[test]
fn stops_at_the_end_of_a_begin(rt: HostRuntime) -> Result<(), Fail> {
    let alloc = rt.alloc();
    let bytes = LINE.as_bytes();
    assert!(rt; bytes.len() < LIMIT);
    let tokens = lex(alloc, bytes).ok().ok_or("it is a list of tokens")?;
    let whole = kinds_of(alloc, &tokens)?;
    for end in 0..=bytes.len() {
        let front = &bytes[..end];
        if let Some(wanted) = wanted(alloc, front, whole.as_str())? {
            let answer = program_answer(alloc, front)?;
            assert_eq!(rt;
                answer.as_str(),
                wanted.as_str(),
                "at the first {end} bytes"
            );
        }
    }
    Ok(())
}

/// A program with so many statements.
fn long(alloc: Global, statements: u32) -> Result<Vec<u8>, AllocError> {
    let mut source = Vec::new(alloc);
    source.extend_from_slice(b"int f(int x, int y);int main(void){int x = 0;")?;
    for _ in 0..statements {
        source.extend_from_slice(b"if (x) x = x * 2 + f(x,1);")?;
    }
    source.extend_from_slice(b"return x;}")?;
    Ok(source)
}

#[test]
fn reads_a_long_program(rt: HostRuntime) -> Result<(), Fail> {
    let source = long(rt.alloc(), 400)?;
    let answer = program_answer(rt.alloc(), source.as_slice())?;
    assert_eq!(rt; answer.as_str(), "whole");
    Ok(())
}
