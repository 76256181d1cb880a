ghost use Rattle.std.specs.Prelude.{◌≡◌, ◌≤◌, ◌<◌, ◌∷◌, IfOk, Some};
ghost use Rattle.ob_tree.specs.Fronts.{greatest_path};
ghost use Rattle.ob_tree.specs.Paths.{height_dims};
ghost use Rattle.ob_tree.specs.ExpressionView.{dim_trees};
ghost use Rattle.ob_tree.specs.ExprStates.{Declare, Dims as dims_state, InLength, BeforeOperand};
ghost use Rattle.ob_tree.specs.ExprMachine.{after_dims as after_dims_of, close_type as close_type_of, declare as declare_of, end_line as end_line_of, ended as ended_of, more_stars as more_stars_of, named as named_of, next_name as next_name_of};
ghost use Rattle.ob_exprs.specs.DeepestPaths.{depth_of, deepest_path};
ghost use Rattle.ob_exprs.specs.Reading.{Leads, held};
ghost use Rattle.ob_exprs.specs.View.{body_of, head_of, line_of};

use crate::lists::{add_members, add_name, copied_with, declarator, no_dims, type_name};
use crate::measured::Dims;
use crate::nodes::size_of_type;
use crate::reader::Reader;
use crate::stack::{Stack, push};
use crate::state::{Head, Mode, PendingNode, StructBody, StructDeclaration};
use ob_base::{NoMemory, Text, let_go};
use ob_tree::{Sign, TokenKind};
use std::alloc::Global;

/// A star behind a row of brackets.
#[tactic(auto, using(crate::proofs::Rows::star_more, crate::proofs::Rows::star_none))]
fn more_stars(stack: Stack, head: Head, dims: Dims) -> Option<Reader>
    requires { deepest_path (dims_state (head_of head) (dim_trees dims.items.items) (held stack)) ≤ greatest_path }
    ensures { Leads result (more_stars_of (head_of head) (dim_trees dims.items.items) (held stack)) }
{
    if 0 < dims.count {
        let_go((head, dims));
        return None;
    }
    match head {
        Head::Type {
            place,
            sized,
            spec,
            stars,
        } => {
            let head = Head::Type {
                place,
                sized,
                spec,
                stars: stars + 1,
            };
            Some(Reader {
                stack,
                mode: Mode::Dims(head, dims),
            })
        }
        other => {
            let_go((other, dims));
            None
        }
    }
}

/// The closing parenthesis of a type name.
fn close_type(
    alloc: Global,
    stack: Stack,
    head: Head,
    dims: Dims,
) -> Result<Option<Reader>, NoMemory>
    requires small { deepest_path (dims_state (head_of head) (dim_trees dims.items.items) (held stack)) ≤ greatest_path }
    requires shallow { depth_of (held stack) ≤ 1000 }
    ensures { IfOk result (λ o. Leads o (close_type_of (head_of head) (dim_trees dims.items.items) (held stack))) }
{
    match head {
        Head::Type {
            place,
            sized,
            spec,
            stars,
        } => {
            let name = type_name(spec, stars, dims);
            if sized {
                let operand = size_of_type(alloc, place, name)?;
                return Ok(Some(Reader {
                    stack,
                    mode: Mode::AfterOperand(operand),
                }));
            }
            let stack = push(stack, PendingNode::Cast(place, name))?;
            Ok(Some(Reader {
                stack,
                mode: Mode::BeforeOperand,
            }))
        }
        other => {
            let_go((other, dims));
            Ok(None)
        }
    }
}

/// The line with one name more.
fn line_with_name(
    line: StructDeclaration,
    stars: u32,
    name: Text,
    at: u32,
    dims: Dims,
) -> Result<StructDeclaration, NoMemory>
    requires low { height_dims (dim_trees dims.items.items) < 1000 }
    requires few { stars < 1000 }
    ensures { IfOk result (λ l. line_of l ≡ named_of (line_of line) stars name at (dim_trees dims.items.items)) }
{
    let StructDeclaration { body, spec, names } = line;
    let (names, (body, spec)) = add_name(names, declarator(stars, name, at, dims), (body, spec))?;
    Ok(StructDeclaration { body, spec, names })
}

/// The structure with one line more.
fn body_with_line(line: StructDeclaration) -> Result<StructBody, NoMemory>
    ensures { IfOk result (λ b. body_of b ≡ ended_of (line_of line)) }
{
    let StructDeclaration { body, spec, names } = line;
    let StructBody {
        first,
        tag,
        members,
    } = body;
    let (members, tag) = add_members(members, spec, names, tag)?;
    Ok(StructBody {
        first,
        tag,
        members,
    })
}

/// A comma behind a member.
fn next_name(stack: Stack, head: Head, dims: Dims) -> Result<Option<Reader>, NoMemory>
    requires { deepest_path (dims_state (head_of head) (dim_trees dims.items.items) (held stack)) ≤ greatest_path }
    ensures { IfOk result (λ o. Leads o (next_name_of (head_of head) (dim_trees dims.items.items) (held stack))) }
{
    match head {
        Head::Member {
            line,
            stars,
            name,
            at,
        } => {
            let line = line_with_name(line, stars, name, at, dims)?;
            Ok(Some(Reader {
                stack,
                mode: Mode::Declare(line, 0),
            }))
        }
        other => {
            let_go((other, dims));
            Ok(None)
        }
    }
}

/// A semicolon behind a line of members.
fn end_line(stack: Stack, head: Head, dims: Dims) -> Result<Option<Reader>, NoMemory>
    requires { deepest_path (dims_state (head_of head) (dim_trees dims.items.items) (held stack)) ≤ greatest_path }
    ensures { IfOk result (λ o. Leads o (end_line_of (head_of head) (dim_trees dims.items.items) (held stack))) }
{
    match head {
        Head::Member {
            line,
            stars,
            name,
            at,
        } => {
            let line = line_with_name(line, stars, name, at, dims)?;
            let body = body_with_line(line)?;
            Ok(Some(Reader {
                stack,
                mode: Mode::Members(body),
            }))
        }
        other => {
            let_go((other, dims));
            Ok(None)
        }
    }
}

/// An opening bracket behind a row of brackets.
fn open_bracket(stack: Stack, head: Head, dims: Dims) -> Result<Option<Reader>, NoMemory>
    requires small { deepest_path (dims_state (head_of head) (dim_trees dims.items.items) (held stack)) ≤ greatest_path }
    requires shallow { depth_of (held stack) ≤ 1000 }
    ensures { IfOk result (λ o. Leads o (Some (BeforeOperand (InLength (head_of head) (dim_trees dims.items.items) ∷ held stack)))) }
{
    let stack = push(stack, PendingNode::Length(head, dims))?;
    Ok(Some(Reader {
        stack,
        mode: Mode::BeforeOperand,
    }))
}

/// A token behind a row of brackets.
pub fn after_dims(
    alloc: Global,
    stack: Stack,
    head: Head,
    dims: Dims,
    kind: &TokenKind,
) -> Result<Option<Reader>, NoMemory>
    requires small { deepest_path (dims_state (head_of head) (dim_trees dims.items.items) (held stack)) ≤ greatest_path }
    requires shallow { depth_of (held stack) ≤ 1000 }
    ensures { IfOk result (λ o. Leads o (after_dims_of kind.now (head_of head) (dim_trees dims.items.items) (held stack))) }
{
    match kind {
        TokenKind::Sign(Sign::OpenBracket) => open_bracket(stack, head, dims),
        TokenKind::Sign(Sign::Star) => Ok(more_stars(stack, head, dims)),
        TokenKind::Sign(Sign::CloseParen) => close_type(alloc, stack, head, dims),
        TokenKind::Sign(Sign::Comma) => next_name(stack, head, dims),
        TokenKind::Sign(Sign::Semi) => end_line(stack, head, dims),
        _ => {
            let_go((head, dims));
            Ok(None)
        }
    }
}

/// A token before a member's name.
pub fn declare(
    alloc: Global,
    stack: Stack,
    line: StructDeclaration,
    stars: u32,
    kind: &TokenKind,
    at: u32,
) -> Result<Option<Reader>, NoMemory>
    requires { deepest_path (Declare (line_of line) stars (held stack)) ≤ greatest_path }
    ensures { IfOk result (λ o. Leads o (declare_of at kind.now (line_of line) stars (held stack))) }
{
    match kind {
        TokenKind::Sign(Sign::Star) => Ok(Some(Reader {
            stack,
            mode: Mode::Declare(line, stars + 1),
        })),
        TokenKind::Name(text) => {
            let (name, line) = copied_with(alloc, text, line)?;
            let head = Head::Member {
                line,
                stars,
                name,
                at,
            };
            Ok(Some(Reader {
                stack,
                mode: Mode::Dims(head, no_dims(alloc)),
            }))
        }
        _ => {
            let_go(line);
            Ok(None)
        }
    }
}
