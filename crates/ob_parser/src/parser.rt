ghost use Rattle.std.specs.Prelude.{◌≤◌, ◌^◌, length};
ghost use Rattle.std.specs.List.{All};
ghost use Rattle.ob_tree.specs.Valid.{IsOfSource};
ghost use Rattle.ob_parser.specs.Answer.{ParsedProgram};

use crate::read::read;
use ob_declarations::finish;
use ob_tree::{Program, SyntaxFault, Token};
use std::alloc::Global;

/// The program that the tokens are (C99 6.9). Places count tokens from 0, and the one behind the
/// last token is their number.
///
/// `TooDeep` has the first token that can only go on with programs of longer paths than 256 nodes.
/// `NoTree` has the first token that no program goes on with, or the number of tokens where more
/// would have to follow. `NoMemory` comes for want of memory alone. Each error leaves the tokens as
/// they are.
pub fn parse(alloc: Global, tokens: &Vec<Token>) -> Result<Program, SyntaxFault>
    requires few { length tokens.now.items ≤ 2 ^ 20 }
    requires of_source { All (λ t. IsOfSource t.kind) tokens.now.items }
    ensures { ParsedProgram tokens.now.items result }
{
    let state = read(alloc, tokens)?;
    match finish(alloc, state)? {
        Some(program) => Ok(program),
        None => Err(SyntaxFault::NoTree(tokens.len() as u32)),
    }
}
