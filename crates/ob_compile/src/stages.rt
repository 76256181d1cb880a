ghost use Rattle.std.specs.Prelude.{◌≡◌, ◌≤◌, length, Ok, MatchResult};
ghost use Rattle.ob_tree.specs.ProgramValid.{ValidProgram};
ghost use Rattle.ob_tree.specs.ProgramView.{program_tree};
ghost use Rattle.ob_typed.specs.ProgramView.{typed_program};
ghost use Rattle.ob_typed.specs.TypedTree.{TypedProgram};
ghost use Rattle.ob_sources.specs.Reading.{IsLexed, IsParsed};
ghost use Rattle.ob_sources.specs.Stages.{MayStop};
ghost use Rattle.ob_compile.specs.Accepted.{Accepted, ComesTo, IsChecked, IsLimited, IsTyped, most_source_bytes, type_fault_at};

use ob_base::{NoMemory, let_go};
use ob_limits::{Limit, limits};
use ob_prelude::{complete, law_completion};
use ob_sources::{Source, position_at, read};
use ob_tree::{Program, SourceFault, Token, TypeFault, TypeKind};
use ob_typed::Typed;
use ob_types::check;
use std::alloc::Global;

/// The typed tree of a source, of at most 2^20 bytes, with the functions of the library in C that it needs
/// (C99 6.4 to 6.9). The limits of programs aren't looked at.
///
/// - `Lex`: no token can be taken at a place of the text.
/// - `Syntax`: no program goes on with a token of the text.
/// - `Typing`: the first rule of types that is broken, at a token of the text.
/// - `NoMemory`: there was too little memory.
///
/// They are looked for in this order, and each has the line and the column of its place, both counted from 1. What stands at
/// no token of the text is told with the place behind it. `Statics` and `Code` don't come.
pub fn front(alloc: Global, bytes: &[u8]) -> Result<Typed, SourceFault>
    requires { length bytes.now ≤ most_source_bytes }
    ensures { MatchResult result (λ t. IsTyped bytes.now (Ok (typed_program t))) (MayStop (IsTyped bytes.now)) }
{
    match read(alloc, bytes) {
        Ok(source) => typed(alloc, bytes, source),
        Err(fault) => Err(fault),
    }
}

/// The typed tree of an accepted source, which has at most 2^20 bytes. Its faults are those of `front`, and then those of
/// the limits of programs.
///
/// - `Statics`: the blocks of its static objects have more than 4,194,304 bytes.
/// - `Code`: its functions weigh more than 1,048,576.
pub fn accept(alloc: Global, bytes: &[u8]) -> Result<Typed, SourceFault>
    requires { length bytes.now ≤ most_source_bytes }
    ensures { MatchResult result (λ t. Accepted bytes.now (typed_program t)) (MayStop (ComesTo bytes.now)) }
{
    match front(alloc, bytes) {
        Ok(t) => limited(t),
        Err(fault) => Err(fault),
    }
}

/// Looks for the first fault of a source of at most 2^20 bytes, whose typed tree isn't kept: the faults of `accept`.
pub fn examine(alloc: Global, bytes: &[u8]) -> Result<(), SourceFault>
    requires { length bytes.now ≤ most_source_bytes }
    ensures { MatchResult result (λ _. (t : TypedProgram) × Accepted bytes.now t) (MayStop (ComesTo bytes.now)) }
{
    match accept(alloc, bytes) {
        Ok(typed) => {
            let_go(typed);
            Ok(())
        }
        Err(fault) => Err(fault),
    }
}

/// A typed tree that keeps the limits of programs.
fn limited(t: Typed) -> Result<Typed, SourceFault>
    ensures { MatchResult result (λ u. IsLimited (typed_program t) (Ok (typed_program u))) (MayStop (IsLimited (typed_program t))) }
{
    match limits(&t) {
        Ok(()) => Ok(t),
        Err(Limit::Statics) => Err(SourceFault::Statics),
        Err(Limit::Code) => Err(SourceFault::Code),
    }
}

/// The typed tree of a source that is a program.
fn typed(alloc: Global, bytes: &[u8], source: Source) -> Result<Typed, SourceFault>
    requires short { length bytes.now ≤ most_source_bytes }
    requires tokens { IsLexed bytes.now (Ok source.tokens.items) }
    requires program { IsParsed bytes.now source.tokens.items (Ok (program_tree source.program)) }
    ensures { MatchResult result (λ t. IsTyped bytes.now (Ok (typed_program t))) (MayStop (IsTyped bytes.now)) }
{
    law_completion();
    let Source { tokens, program } = source;
    match complete(alloc, program) {
        Ok(whole) => checked(alloc, bytes, &tokens, &whole),
        Err(NoMemory) => Err(SourceFault::NoMemory),
    }
}

/// The types of a program, of whose text these are the tokens.
fn checked(
    alloc: Global,
    bytes: &[u8],
    tokens: &[Token],
    program: &Program,
) -> Result<Typed, SourceFault>
    requires short { length bytes.now ≤ most_source_bytes }
    requires valid { ValidProgram (program_tree program.now) }
    ensures { MatchResult result
        (λ t. IsChecked bytes.now tokens.now (program_tree program.now) (Ok (typed_program t)))
        (MayStop (IsChecked bytes.now tokens.now (program_tree program.now))) }
{
    match check(alloc, program) {
        Ok(t) => Ok(t),
        Err(TypeFault::Fault(kind, at)) => Err(type_fault(bytes, tokens, kind, at)),
        Err(TypeFault::NoMemory) => Err(SourceFault::NoMemory),
    }
}

fn type_fault(bytes: &[u8], tokens: &[Token], kind: TypeKind, at: u32) -> SourceFault
    requires { length bytes.now ≤ most_source_bytes }
    ensures { result ≡ type_fault_at bytes.now tokens.now kind at }
{
    let position = position_at(bytes, tokens, at);
    SourceFault::Typing {
        kind,
        line: position.line,
        column: position.column,
    }
}
