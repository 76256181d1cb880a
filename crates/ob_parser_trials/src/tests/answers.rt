//! The answers of the parser of programs as texts.

use ob_lexer::lex;
use ob_parser::parse;
use ob_tree::{SyntaxFault, Token, TokenKind, spell};
use ob_tree_texts::{Shown, show_program};
use std::alloc::{AllocError, Global};
use std::fmt::Write;

/// The greatest length of a source, in bytes.
pub const LIMIT: usize = 1_048_576;

fn show_fault(shown: &mut Shown, fault: SyntaxFault) -> Result<(), AllocError> {
    match fault {
        SyntaxFault::NoTree(at) => write!(shown.text, "NoTree {at}"),
        SyntaxFault::TooDeep(at) => write!(shown.text, "TooDeep {at}"),
        SyntaxFault::NoMemory => shown.text.push_str("NoMemory"),
    }
}

/// Adds a token's kind with a space behind it.
fn show_kind(text: &mut String, kind: &TokenKind) -> Result<(), AllocError> {
    match kind {
        TokenKind::Word(word) => write!(text, "{word:?} "),
        TokenKind::Name(name) => {
            for byte in name.bytes() {
                text.push(*byte as char)?;
            }
            text.push_str(" ")
        }
        TokenKind::Number { value, ty } => write!(text, "{value}{ty:?} "),
        TokenKind::Str(bytes) => write!(text, "{:?} ", bytes.bytes()),
        TokenKind::Sign(sign) => write!(text, "{sign:?} "),
    }
}

/// The kinds of tokens, with a space behind each.
pub fn kinds_of(alloc: Global, tokens: &[Token]) -> Result<String, AllocError> {
    let mut text = String::new(alloc);
    for token in tokens {
        show_kind(&mut text, &token.kind)?;
    }
    Ok(text)
}

/// What `parse` answers to the tokens of a text: `whole` for a program that spells their kinds.
pub fn program_answer(alloc: Global, bytes: &[u8]) -> Result<String, AllocError> {
    let mut shown = Shown::new(alloc, false);
    if bytes.len() > LIMIT {
        return Ok(shown.text);
    }
    let Ok(tokens) = lex(alloc, bytes) else {
        return Ok(shown.text);
    };
    match parse(alloc, &tokens) {
        Err(fault) => show_fault(&mut shown, fault)?,
        Ok(program) => {
            if let Ok(kinds) = spell(alloc, &program) {
                let mut spelled = String::new(alloc);
                for kind in &kinds {
                    show_kind(&mut spelled, kind)?;
                }
                if spelled == kinds_of(alloc, &tokens)? {
                    shown.put("whole")?;
                }
            }
        }
    }
    Ok(shown.text)
}

/// The program that `parse` gives, or its fault.
pub fn program_tree(alloc: Global, source: &str, marks: bool) -> Result<String, AllocError> {
    let mut shown = Shown::new(alloc, marks);
    let bytes = source.as_bytes();
    if bytes.len() > LIMIT {
        return Ok(shown.text);
    }
    let Ok(tokens) = lex(alloc, bytes) else {
        return Ok(shown.text);
    };
    match parse(alloc, &tokens) {
        Err(fault) => show_fault(&mut shown, fault)?,
        Ok(program) => show_program(&mut shown, &program)?,
    }
    Ok(shown.text)
}
