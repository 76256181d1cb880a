ghost use Rattle.std.specs.Prelude.{◌≡◌, ◌≤◌, ◌<◌, IfOk};
ghost use Rattle.ob_tree.specs.Fronts.{greatest_path};
ghost use Rattle.ob_tree.specs.Trees.{SpecTree};
ghost use Rattle.ob_tree.specs.ExpressionView.{spec_tree};
ghost use Rattle.ob_tree.specs.ExprStates.{AfterSpec, Members as members_state};
ghost use Rattle.ob_tree.specs.ExprMachine.{after_spec as after_spec_of, brace_to, close_struct as close_struct_of, members_to, spec_under as spec_under_of, struct_to, word_to};
ghost use Rattle.ob_exprs.specs.Lists.{member_trees};
ghost use Rattle.ob_exprs.specs.Behind.{shifted as shifted_of};
ghost use Rattle.ob_exprs.specs.DeepestPaths.{depth_of, deepest_path};
ghost use Rattle.ob_exprs.specs.Reading.{Shifts, Leads, held};
ghost use Rattle.ob_exprs.specs.View.{body_of};

use crate::brackets::{after_dims, declare};
use crate::integers::is_integer;
use crate::lists::{no_dims, no_members, no_names};
use crate::measured::MeasuredSpec;
use crate::operands::specifier;
use crate::reader::{Reader, Shift};
use crate::spec_nodes::{integer, structure, tag};
use crate::stack::{Stack, pop, push};
use crate::state::{ExprMark, Head, Mode, PendingNode, StructBody, StructDeclaration};
use ob_base::{NoMemory, let_go};
use ob_tree::{Keyword, Sign, Spec, SpecNode, TokenKind};
use std::alloc::Global;

/// The answer where nothing whole was read before.
pub fn shifted(reader: Option<Reader>) -> Shift
    ensures { result ≡ shifted_of reader }
{
    match reader {
        Some(reader) => Shift::Shifted(reader),
        None => Shift::Rejected,
    }
}

/// One word more of an integer type.
fn integer_to(
    stack: Stack,
    first: u32,
    words: Vec<Keyword>,
    word: Keyword,
) -> Result<Shift, NoMemory>
    ensures { IfOk result (λ a. Shifts (AfterSpec (SpecTree.Integer first words.items) (held stack)) a (word_to word (SpecTree.Integer first words.items) (held stack))) }
{
    let mut words = words;
    words.push(word)?;
    if is_integer(words.as_slice()) {
        return Ok(Shift::Shifted(Reader {
            stack,
            mode: Mode::AfterSpec(integer(first, words)),
        }));
    }
    words.pop();
    Ok(Shift::Ended(Reader {
        stack,
        mode: Mode::AfterSpec(integer(first, words)),
    }))
}

/// A word behind a specifier.
fn word(stack: Stack, spec: MeasuredSpec, word: Keyword) -> Result<Shift, NoMemory>
    ensures { IfOk result (λ a. Shifts (AfterSpec (spec_tree spec.spec) (held stack)) a (word_to word (spec_tree spec.spec) (held stack))) }
{
    let MeasuredSpec { spec, height, .. } = spec;
    let Spec { first, node } = spec;
    match node {
        SpecNode::Integer(words) => integer_to(stack, first, words, word),
        node => Ok(Shift::Ended(Reader {
            stack,
            mode: Mode::AfterSpec(MeasuredSpec {
                spec: Spec { first, node },
                height,
            }),
        })),
    }
}

/// An opening brace behind a specifier.
fn brace(alloc: Global, stack: Stack, spec: MeasuredSpec) -> Shift
    ensures { Shifts (AfterSpec (spec_tree spec.spec) (held stack)) result (brace_to (spec_tree spec.spec) (held stack)) }
{
    let MeasuredSpec { spec, height, .. } = spec;
    let Spec { first, node } = spec;
    match node {
        SpecNode::Tag(tag) => {
            let body = StructBody {
                first,
                tag: Some(tag),
                members: no_members(alloc),
            };
            Shift::Shifted(Reader {
                stack,
                mode: Mode::Members(body),
            })
        }
        node => Shift::Ended(Reader {
            stack,
            mode: Mode::AfterSpec(MeasuredSpec {
                spec: Spec { first, node },
                height,
            }),
        }),
    }
}

/// Another token behind a specifier.
#[tactic(auto, using(crate::proofs::Behinds::leads_answers))]
fn under(
    alloc: Global,
    stack: Stack,
    spec: MeasuredSpec,
    kind: &TokenKind,
    at: u32,
) -> Result<Shift, NoMemory>
    requires small { deepest_path (AfterSpec (spec_tree spec.spec) (held stack)) ≤ greatest_path }
    requires shallow { depth_of (held stack) ≤ 1000 }
    ensures { IfOk result (λ a. Shifts (AfterSpec (spec_tree spec.spec) (held stack)) a (spec_under_of at kind.now (spec_tree spec.spec) (held stack))) }
{
    let (stack, top) = pop(stack);
    match top {
        Some(PendingNode::Type(place, sized)) => {
            let head = Head::Type {
                place,
                sized,
                spec,
                stars: 0,
            };
            Ok(shifted(after_dims(alloc, stack, head, no_dims(alloc), kind)?))
        }
        Some(PendingNode::Struct(body)) => {
            let line = StructDeclaration {
                body,
                spec,
                names: no_names(alloc),
            };
            Ok(shifted(declare(alloc, stack, line, 0, kind, at)?))
        }
        Some(other) => {
            let_go((other, spec));
            Ok(Shift::Rejected)
        }
        None => Ok(Shift::Ended(Reader {
            stack,
            mode: Mode::AfterSpec(spec),
        })),
    }
}

/// A token behind a specifier.
pub fn after_spec(
    alloc: Global,
    stack: Stack,
    spec: MeasuredSpec,
    kind: &TokenKind,
    at: u32,
) -> Result<Shift, NoMemory>
    requires small { deepest_path (AfterSpec (spec_tree spec.spec) (held stack)) ≤ greatest_path }
    requires shallow { depth_of (held stack) ≤ 1000 }
    ensures { IfOk result (λ a. Shifts (AfterSpec (spec_tree spec.spec) (held stack)) a (after_spec_of at kind.now (spec_tree spec.spec) (held stack))) }
{
    match kind {
        TokenKind::Word(next) => word(stack, spec, *next),
        TokenKind::Sign(Sign::OpenBrace) => Ok(brace(alloc, stack, spec)),
        _ => under(alloc, stack, spec, kind, at),
    }
}

/// The token behind `struct`.
pub fn structured(
    alloc: Global,
    stack: Stack,
    first: u32,
    kind: &TokenKind,
) -> Result<Option<Reader>, NoMemory>
    ensures { IfOk result (λ o. Leads o (struct_to kind.now first (held stack))) }
{
    let mode = match kind {
        TokenKind::Name(text) => Mode::AfterSpec(tag(first, text.copy(alloc)?)),
        TokenKind::Sign(Sign::OpenBrace) => Mode::Members(StructBody {
            first,
            tag: None,
            members: no_members(alloc),
        }),
        _ => return Ok(None),
    };
    Ok(Some(Reader { stack, mode }))
}

/// The closing brace of a structure, which stands behind members.
#[tactic(auto, using(crate::proofs::Rows::struct_some, crate::proofs::Rows::struct_none))]
fn close_struct(stack: Stack, body: StructBody) -> Option<Reader>
    requires { deepest_path (members_state (body_of body) (held stack)) ≤ greatest_path }
    ensures { Leads result (close_struct_of body.first body.tag (member_trees body.members.items.items) (held stack)) }
{
    let StructBody {
        first,
        tag,
        members,
    } = body;
    if members.items.len() == 0 {
        let_go((tag, members));
        return None;
    }
    Some(Reader {
        stack,
        mode: Mode::AfterSpec(structure(first, tag, members)),
    })
}

/// A token where a line of members or the end of the structure comes.
pub fn members(
    alloc: Global,
    stack: Stack,
    body: StructBody,
    kind: &TokenKind,
    place: ExprMark,
) -> Result<Option<Reader>, NoMemory>
    requires small { deepest_path (members_state (body_of body) (held stack)) ≤ greatest_path }
    requires shallow { depth_of (held stack) ≤ 1000 }
    ensures { IfOk result (λ o. Leads o (members_to place.first kind.now (body_of body) (held stack))) }
{
    match kind {
        TokenKind::Sign(Sign::CloseBrace) => Ok(close_struct(stack, body)),
        _ => {
            let stack = push(stack, PendingNode::Struct(body))?;
            specifier(alloc, stack, kind, place.first)
        }
    }
}
