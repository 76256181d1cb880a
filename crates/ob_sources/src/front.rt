ghost use Rattle.std.specs.Prelude.{◌≤◌, ◌^◌, length, Ok, IfOk, IfErr};
ghost use Rattle.ob_tree.specs.ProgramSpelling.{spell_program};
ghost use Rattle.ob_tree.specs.ProgramView.{program_tree};
ghost use Rattle.ob_lexer.specs.Texts.{HasLexFault, Spells, StopsAt};
ghost use Rattle.ob_parser.specs.Answer.{IsAnswer, ParsedProgram};
ghost use Rattle.ob_sources.specs.Reading.{IsLexed, IsParsed, IsRead, fault_answer};
ghost use Rattle.ob_sources.specs.Stages.{MayStop};

use crate::position::{position_at, position_behind};
use ob_lexer::lex;
use ob_parser::parse;
use ob_tree::{LexFault, LexKind, Program, SourceFault, SyntaxFault, SyntaxKind, Token};
use std::alloc::Global;

/// A source as its tokens, in order, and as the program that they are.
#[derive(Drop)]
pub struct Source {
    pub tokens: Vec<Token>,
    pub program: Program,
}

/// The tokens and the program of a source, which has at most 2^20 bytes (C99 6.4 to 6.9).
///
/// - `Lex`: no token can be taken at a place of the text, whose line and column it has.
/// - `Syntax`: the tokens are no program, or one that is nested too deep. It has the line and the column of
///   the first token with which no program goes on, or those behind the text.
/// - `NoMemory`: there was too little memory for the tokens and the program.
///
/// The other faults don't come. Every line and column is counted from 1.
pub fn read(alloc: Global, bytes: &[u8]) -> Result<Source, SourceFault>
    requires { length bytes.now ≤ 2 ^ 20 }
    ensures tokens { IfOk result (λ s. IsLexed bytes.now (Ok s.tokens.items)) }
    ensures program { IfOk result (λ s. IsParsed bytes.now s.tokens.items (Ok (program_tree s.program))) }
    ensures few_tokens { IfOk result (λ s. length s.tokens.items ≤ 2 ^ 20) }
    ensures few_kinds { IfOk result (λ s. length (spell_program (program_tree s.program)) ≤ 2 ^ 20) }
    ensures fault { IfErr result (MayStop (IsRead bytes.now)) }
{
    let tokens = match lex(alloc, bytes) {
        Ok(tokens) => tokens,
        Err(fault) => return Err(lex_fault(bytes, fault)),
    };
    match parse(alloc, &tokens) {
        Ok(program) => Ok(Source { tokens, program }),
        Err(fault) => Err(syntax_fault(bytes, &tokens, fault)),
    }
}

/// The fault of a text that has one in its tokens.
fn lex_fault(bytes: &[u8], fault: LexFault) -> SourceFault
    requires short { length bytes.now ≤ 2 ^ 20 }
    requires fault { HasLexFault bytes.now fault }
    ensures { MayStop (IsRead bytes.now) result }
{
    match fault {
        LexFault::Stray(at) => lex_fault_at(bytes, LexKind::Stray, at),
        LexFault::Unclosed(at) => lex_fault_at(bytes, LexKind::Unclosed, at),
        LexFault::Wide(at) => lex_fault_at(bytes, LexKind::Wide, at),
        LexFault::NoMemory => SourceFault::NoMemory,
    }
}

fn lex_fault_at(bytes: &[u8], kind: LexKind, at: u32) -> SourceFault
    requires short { length bytes.now ≤ 2 ^ 20 }
    requires stops { StopsAt bytes.now kind at }
    ensures { MayStop (IsRead bytes.now) result }
{
    let position = position_behind(&bytes[..at as usize]);
    SourceFault::Lex {
        kind,
        line: position.line,
        column: position.column,
    }
}

/// The fault of a text whose tokens are no program.
fn syntax_fault(bytes: &[u8], tokens: &[Token], fault: SyntaxFault) -> SourceFault
    requires short { length bytes.now ≤ 2 ^ 20 }
    requires spelled { Spells tokens.now bytes.now }
    requires fault { ParsedProgram tokens.now (Err fault) }
    ensures { MayStop (IsRead bytes.now) result }
{
    match fault {
        SyntaxFault::NoTree(at) => syntax_fault_at(bytes, tokens, SyntaxKind::NoTree, at),
        SyntaxFault::TooDeep(at) => syntax_fault_at(bytes, tokens, SyntaxKind::TooDeep, at),
        SyntaxFault::NoMemory => SourceFault::NoMemory,
    }
}

fn syntax_fault_at(bytes: &[u8], tokens: &[Token], kind: SyntaxKind, at: u32) -> SourceFault
    requires short { length bytes.now ≤ 2 ^ 20 }
    requires spelled { Spells tokens.now bytes.now }
    requires fault { IsAnswer tokens.now (fault_answer kind at) }
    ensures { MayStop (IsRead bytes.now) result }
{
    let position = position_at(bytes, tokens, at);
    SourceFault::Syntax {
        kind,
        line: position.line,
        column: position.column,
    }
}
