ghost use Rattle.std.specs.Prelude.{◌≡◌, IfOk};
ghost use Rattle.ob_tree.specs.ProgramMachine.{shift as shift_of};
ghost use Rattle.ob_tree.specs.ProgramParts.{at_open as at_open_of};
ghost use Rattle.ob_declarations.specs.Shifts.{FewStars, Leads, Reaches, state_of};
ghost use Rattle.ob_declarations.specs.View.{mark};

use crate::contexts::at_semi;
use crate::declarations::{begin_declaration, declare};
use crate::declarators::after_dims;
use crate::endings::done;
use crate::initialisers::initialised;
use crate::optional::{begin_init, optional};
use crate::params::{begin_param, closed, first_param, param};
use crate::state::{Scope, Shift, State, TokenMark, shifted};
use crate::statements::{begin, for_start};
use ob_base::{NoMemory, let_go};
use ob_tree::{Sign, TokenKind};
use std::alloc::Global;

fn at_open(kind: &TokenKind, state: State) -> Option<State>
    ensures { Reaches result (at_open_of kind.now (state_of state)) }
{
    match kind {
        TokenKind::Sign(Sign::OpenParen) => Some(state),
        _ => {
            let_go(state);
            None
        }
    }
}

/// What the token at `place` leads to.
#[tactic(auto, using(crate::proofs::Pushed::reaches_leads))]
pub fn shift(
    alloc: Global,
    kind: &TokenKind,
    place: TokenMark,
    state: State,
) -> Result<Shift, NoMemory>
    requires { FewStars (state_of state) }
    ensures { IfOk result (λ s. Leads (mark place) kind.now s (shift_of (mark place) kind.now (state_of state))) }
{
    let next = match state {
        State::Items(items) => return Ok(begin_declaration(kind, place, Scope::FileScope(items))),
        State::Specifying(context) => return Ok(Shift::NeedsSpec(context)),
        State::Reading(context) => return Ok(Shift::NeedsExpr(context)),
        State::Optional(context) => return optional(alloc, kind, context),
        State::Init(target, lists) => return begin_init(alloc, kind, place, target, lists),
        State::Params(listing) => return Ok(first_param(kind, place, listing)),
        State::NextParam(listing) => return Ok(begin_param(kind, place, listing)),
        State::Begin(pending) => return begin(alloc, kind, place, pending),
        State::ForOpen {
            first,
            line,
            pending,
        } => return for_start(alloc, kind, place, first, line, pending),
        State::Done(stmt, pending) => return done(alloc, kind, place, stmt, pending),
        State::Declare(declaration, stars) => declare(alloc, kind, place, declaration, stars)?,
        State::Dims(head, dims) => after_dims(alloc, kind, head, dims)?,
        State::AfterInit(target, lists, init) => initialised(alloc, kind, target, lists, init)?,
        State::Param {
            listing,
            first,
            line,
            spec,
            stars,
        } => param(alloc, kind, place, listing, first, line, spec, stars)?,
        State::Closed(declarator, params) => closed(alloc, kind, place, declarator, params)?,
        State::Opening(context) => at_open(kind, State::Reading(context)),
        State::ForWord {
            first,
            line,
            pending,
        } => at_open(
            kind,
            State::ForOpen {
                first,
                line,
                pending,
            },
        ),
        State::Semi(stmt, pending) => at_semi(kind, State::Done(stmt, pending)),
    };
    Ok(shifted(next))
}
