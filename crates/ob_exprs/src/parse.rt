ghost use Rattle.std.specs.Prelude.{◌≡◌, ◌≤◌, ◌^◌, length};
ghost use Rattle.std.specs.List.{All};
ghost use Rattle.ob_tree.specs.Fronts.{greatest_path};
ghost use Rattle.ob_tree.specs.Valid.{IsOfSource};
ghost use Rattle.ob_exprs.specs.DeepestPaths.{level_number};
ghost use Rattle.ob_exprs.specs.Parsed.{ParsedExpr, ParsedSpec};

use crate::level::{Level, NO_LEVEL};
use crate::read::{finish, finish_spec, read};
use crate::reader::Reader;
use crate::stack::empty;
use crate::state::Mode;
use ob_tree::{Expr, Spec, SyntaxFault, Token};
use std::alloc::Global;

/// The expression of the level that begins at the token `from` (C99 6.5), and the place behind it,
/// where a token stands that can't go on with it, or none. Places count tokens from 0. `depth` is
/// how many nodes stand above the expression; with them, a path may have 256.
///
/// `TooDeep` has the first token that can only go on with expressions of longer paths. `NoTree` has
/// the first token that none goes on with, where what stands before it is no whole expression.
/// `NoMemory` comes for want of memory alone. Each error leaves the tokens as they are.
pub fn parse_expr(
    alloc: Global,
    tokens: &Vec<Token>,
    from: usize,
    depth: u32,
    level: Level,
) -> Result<(Expr, usize), SyntaxFault>
    requires few { length tokens.now.items ≤ 2 ^ 20 }
    requires of_source { All (λ t. IsOfSource t.kind) tokens.now.items }
    requires from_in { from ≤ length tokens.now.items }
    requires depth_in { depth ≤ greatest_path }
    ensures { ParsedExpr tokens.now.items from depth (level_number level) result }
{
    let start = Reader {
        stack: empty(alloc),
        mode: Mode::BeforeOperand,
    };
    let (reader, place) = read(alloc, tokens.as_slice(), from, depth, level.number(), start)?;
    match finish(alloc, reader)? {
        Some(expr) => Ok((expr, place)),
        None => Err(SyntaxFault::NoTree(place as u32)),
    }
}

/// The specifier that begins at the token `from` (C99 6.7.2), and the place behind it, where a token
/// stands that can't go on with it, or none. Places, `depth` and the errors are as for an
/// expression.
pub fn parse_spec(
    alloc: Global,
    tokens: &Vec<Token>,
    from: usize,
    depth: u32,
) -> Result<(Spec, usize), SyntaxFault>
    requires few { length tokens.now.items ≤ 2 ^ 20 }
    requires of_source { All (λ t. IsOfSource t.kind) tokens.now.items }
    requires from_in { from ≤ length tokens.now.items }
    requires depth_in { depth ≤ greatest_path }
    ensures { ParsedSpec tokens.now.items from depth result }
{
    let start = Reader {
        stack: empty(alloc),
        mode: Mode::Specifier,
    };
    let (reader, place) = read(alloc, tokens.as_slice(), from, depth, NO_LEVEL, start)?;
    match finish_spec(reader) {
        Some(spec) => Ok((spec, place)),
        None => Err(SyntaxFault::NoTree(place as u32)),
    }
}
