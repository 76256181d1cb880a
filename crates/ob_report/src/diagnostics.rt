ghost use Rattle.std.specs.Prelude.{◌≡◌, ◌++◌, IfOk, OnOk};
ghost use Rattle.ob_report.specs.Diagnostics as diagnostics;

use crate::numbers::put_number;
use ob_base::{NoMemory, Text};
use ob_tree::{LexKind, SourceFault, SyntaxKind, TypeKind};
use std::alloc::Global;

fn lex_words(kind: LexKind) -> &'static str
    ensures { result.now ≡ diagnostics.lex_words kind }
{
    match kind {
        LexKind::Stray => "lex Stray",
        LexKind::Unclosed => "lex Unclosed",
        LexKind::Wide => "lex Wide",
    }
}

fn syntax_words(kind: SyntaxKind) -> &'static str
    ensures { result.now ≡ diagnostics.syntax_words kind }
{
    match kind {
        SyntaxKind::NoTree => "syntax NoTree",
        SyntaxKind::TooDeep => "syntax TooDeep",
    }
}

fn type_words(kind: TypeKind) -> &'static str
    ensures { result.now ≡ diagnostics.type_words kind }
{
    match kind {
        TypeKind::Unknown => "type Unknown",
        TypeKind::Twice => "type Twice",
        TypeKind::Incomplete => "type Incomplete",
        TypeKind::NotPlace => "type NotPlace",
        TypeKind::Operand => "type Operand",
        TypeKind::Assign => "type Assign",
        TypeKind::Count => "type Count",
        TypeKind::NotFunction => "type NotFunction",
        TypeKind::Member => "type Member",
        TypeKind::Constant => "type Constant",
        TypeKind::Jump => "type Jump",
        TypeKind::NoBody => "type NoBody",
    }
}

/// A fault at a place: the line and column, both from 1, and the words for it.
fn put_placed(
    text: &mut Text,
    name: &str,
    line: u32,
    column: u32,
    words: &str,
) -> Result<(), NoMemory>
    ensures { OnOk result (text.new ≡ text.old ++ diagnostics.placed_line name.now line column words.now) }
{
    text.add(name.as_bytes())?;
    text.add(b":")?;
    put_number(text, line)?;
    text.add(b":")?;
    put_number(text, column)?;
    text.add(b": ")?;
    text.add(words.as_bytes())?;
    text.add(b"\n")
}

/// A limit that the whole source breaks.
fn put_limit(text: &mut Text, name: &str, words: &str) -> Result<(), NoMemory>
    ensures { OnOk result (text.new ≡ text.old ++ (name.now ++ words.now)) }
{
    text.add(name.as_bytes())?;
    text.add(words.as_bytes())
}

fn put_diagnostic(text: &mut Text, name: &str, f: &SourceFault) -> Result<(), NoMemory>
    ensures { OnOk result (text.new ≡ text.old ++ diagnostics.diagnostic_line name.now f.now) }
{
    match *f {
        SourceFault::Lex { kind, line, column } => {
            put_placed(text, name, line, column, lex_words(kind))
        }
        SourceFault::Syntax { kind, line, column } => {
            put_placed(text, name, line, column, syntax_words(kind))
        }
        SourceFault::Typing { kind, line, column } => {
            put_placed(text, name, line, column, type_words(kind))
        }
        SourceFault::Statics => put_limit(text, name, ": limit Statics\n"),
        SourceFault::Code => put_limit(text, name, ": limit Code\n"),
        SourceFault::NoMemory => Ok(()),
    }
}

/// The line for a source of that name that isn't compiled; empty where memory was wanted.
///
/// - `NoMemory`: too little memory for the line.
pub fn diagnostic(alloc: Global, name: &str, f: &SourceFault) -> Result<Text, NoMemory>
    ensures { IfOk result (λ text. text ≡ diagnostics.diagnostic_line name.now f.now) }
{
    let mut text = Text::new(alloc);
    put_diagnostic(&mut text, name, f)?;
    Ok(text)
}
