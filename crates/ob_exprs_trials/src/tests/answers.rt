//! The answers of the parsers as texts: a tree with the place behind it, or a fault with its place.

use ob_exprs::{Level, parse_expr, parse_spec};
use ob_lexer::lex;
use ob_tree::SyntaxFault;
use ob_tree_texts::{Shown, show_expr, show_spec};
use std::alloc::{AllocError, Global};
use std::fmt::Write;

/// The greatest length of a source, in bytes.
pub const LIMIT: usize = 1_048_576;

/// Where a parser begins: at a token, under so many nodes.
#[derive(Clone, Copy)]
pub struct Start {
    pub from: usize,
    pub depth: u32,
}

/// The first token, under no node.
pub const FIRST: Start = Start { from: 0, depth: 0 };

/// How much of a tree is shown.
#[derive(Clone, Copy, PartialEq, Eq)]
pub enum Part {
    /// The place behind it alone.
    Place,
    Tree,
    /// The tree with the places of its nodes.
    Marks,
}

pub fn show_fault(shown: &mut Shown, fault: SyntaxFault) -> Result<(), AllocError> {
    match fault {
        SyntaxFault::NoTree(at) => write!(shown.text, "NoTree {at}"),
        SyntaxFault::TooDeep(at) => write!(shown.text, "TooDeep {at}"),
        SyntaxFault::NoMemory => shown.text.push_str("NoMemory"),
    }
}

/// What `parse_expr` answers to the tokens of a text.
pub fn expr_answer(
    alloc: Global,
    source: &str,
    start: Start,
    level: Level,
    part: Part,
) -> Result<String, AllocError> {
    let mut shown = Shown::new(alloc, part == Part::Marks);
    let bytes = source.as_bytes();
    if bytes.len() > LIMIT || start.depth > 256 {
        return Ok(shown.text);
    }
    let Ok(tokens) = lex(alloc, bytes) else {
        return Ok(shown.text);
    };
    if start.from > tokens.len() {
        return Ok(shown.text);
    }
    match parse_expr(alloc, &tokens, start.from, start.depth, level) {
        Ok((expr, place)) => {
            if part != Part::Place {
                show_expr(&mut shown, &expr)?;
                shown.text.push_str(" ")?;
            }
            write!(shown.text, "{place}")?;
        }
        Err(fault) => show_fault(&mut shown, fault)?,
    }
    Ok(shown.text)
}

/// What `parse_spec` answers to the tokens of a text.
pub fn spec_answer(
    alloc: Global,
    source: &str,
    start: Start,
    part: Part,
) -> Result<String, AllocError> {
    let mut shown = Shown::new(alloc, part == Part::Marks);
    let bytes = source.as_bytes();
    if bytes.len() > LIMIT || start.depth > 256 {
        return Ok(shown.text);
    }
    let Ok(tokens) = lex(alloc, bytes) else {
        return Ok(shown.text);
    };
    if start.from > tokens.len() {
        return Ok(shown.text);
    }
    match parse_spec(alloc, &tokens, start.from, start.depth) {
        Ok((spec, place)) => {
            if part != Part::Place {
                show_spec(&mut shown, &spec)?;
                shown.text.push_str(" ")?;
            }
            write!(shown.text, "{place}")?;
        }
        Err(fault) => show_fault(&mut shown, fault)?,
    }
    Ok(shown.text)
}
