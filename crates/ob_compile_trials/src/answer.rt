//! What the compiler's first half says of a source text, as a text.

use ob_compile::examine;
use ob_lexer::lex;
use ob_tree::{SourceFault, Token, TypeKind};
use std::alloc::{AllocError, Global};
use std::fmt::Write;

const LIMIT: usize = 1_048_576;

fn kind_name(kind: TypeKind) -> &'static str {
    match kind {
        TypeKind::Unknown => "Unknown",
        TypeKind::Twice => "Twice",
        TypeKind::Incomplete => "Incomplete",
        TypeKind::NotPlace => "NotPlace",
        TypeKind::Operand => "Operand",
        TypeKind::Assign => "Assign",
        TypeKind::Count => "Count",
        TypeKind::NotFunction => "NotFunction",
        TypeKind::Member => "Member",
        TypeKind::Constant => "Constant",
        TypeKind::Jump => "Jump",
        TypeKind::NoBody => "NoBody",
    }
}

/// The number of the token that begins at a place, counted from 0; where none does, the greatest number.
fn token_at(tokens: &[Token], line: u32, column: u32) -> u32 {
    for (number, token) in tokens.iter().enumerate() {
        if token.span.line == line && token.span.column == column {
            return u32::try_from(number).unwrap_or(u32::MAX);
        }
    }
    u32::MAX
}

/// The number of a text's token at a place.
fn number_of(alloc: Global, bytes: &[u8], line: u32, column: u32) -> u32 {
    if bytes.len() > LIMIT {
        return u32::MAX;
    }
    match lex(alloc, bytes) {
        Ok(tokens) => token_at(&tokens, line, column),
        Err(_) => u32::MAX,
    }
}

fn verdict(alloc: Global, bytes: &[u8]) -> Result<(), SourceFault> {
    if bytes.len() > LIMIT {
        return Err(SourceFault::NoMemory);
    }
    examine(alloc, bytes)
}

/// `ok`, or the place of the first fault of types, counted in tokens from 0, and its kind.
pub fn answer(alloc: Global, source: &str) -> Result<String, AllocError> {
    let mut text = String::new(alloc);
    let bytes = source.as_bytes();
    match verdict(alloc, bytes) {
        Ok(()) => text.push_str("ok")?,
        Err(SourceFault::Typing { kind, line, column }) => {
            let at = number_of(alloc, bytes, line, column);
            write!(text, "{at} {}", kind_name(kind))?;
        }
        Err(SourceFault::Statics) => text.push_str("Statics")?,
        Err(SourceFault::Code) => text.push_str("Code")?,
        Err(SourceFault::NoMemory) => text.push_str("no memory")?,
        Err(_) => text.push_str("no program")?,
    }
    Ok(text)
}
