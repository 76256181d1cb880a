//! Whether an expression assigns the plain variable of a word.
ghost use Rattle.std.specs.Prelude.{◌≡◌};
ghost use Rattle.std.specs.List.{list_any};
ghost use Rattle.ob_typed.specs.ProgramView.{typed_program};
ghost use Rattle.ob_typed.specs.TypedView.{typed_expr, typed_function, typed_lean, typed_place};
ghost use Rattle.ob_lower.specs.Assigned.{assigns, is_word, lean_assigns, place_assigns};
ghost use Rattle.ob_homes.specs.HomesView.{context_in};

use crate::home::Homes;
use crate::words::variable_word;
use ob_typed::{TExpr, TFunction, TLean, TNode, TPlace, Typed};

/// Whether a place is the plain variable of a word.
fn is_word(word: Option<u32>, w: u32) -> bool
    ensures { result ≡ is_word word w }
{
    match word {
        None => false,
        Some(v) => v == w,
    }
}

/// Whether an expression assigns the plain variable whose word is `w`. Takes no memory.
#[cycle(assigns)]
pub fn assigns(t: &Typed, f: &TFunction, h: &Homes, e: &TExpr, w: u32) -> bool
    ensures { result ≡ assigns (context_in (typed_program t.now) (typed_function f.now) h.now) (typed_expr e.now) w }
{
    match &e.node {
        TNode::Num(_) | TNode::Null => false,
        TNode::Read(p) => lean_assigns(t, f, h, &p.lean, w),
        TNode::Lean(lean) => lean_assigns(t, f, h, lean, w),
        TNode::Convert(_, e) | TNode::ToVoid(e) => assigns(t, f, h, e, w),
        TNode::Arith(_, _, a, b)
        | TNode::Compare(_, a, b)
        | TNode::PtrCompare(_, a, b)
        | TNode::PtrDiff(_, a, b)
        | TNode::And(a, b)
        | TNode::Or(a, b)
        | TNode::Comma(a, b) => assigns(t, f, h, a, w) || assigns(t, f, h, b, w),
        TNode::Cond(a, b, d) => {
            assigns(t, f, h, a, w) || assigns(t, f, h, b, w) || assigns(t, f, h, d, w)
        }
        TNode::Assign(place, value)
        | TNode::Update { place, value, .. }
        | TNode::PtrUpdate { place, value, .. } => {
            place_assigns(t, f, h, place, w) || assigns(t, f, h, value, w)
        }
        TNode::CopyStruct(to, from) => {
            lean_assigns(t, f, h, &to.lean, w) || lean_assigns(t, f, h, &from.lean, w)
        }
        TNode::Call(_, arguments) | TNode::Builtin(_, arguments) => {
            arguments_assign(t, f, h, arguments, w)
        }
    }
}

/// Whether a place that is assigned is the plain variable whose word is `w`, or its evaluation assigns it.
#[cycle(assigns)]
pub fn place_assigns(t: &Typed, f: &TFunction, h: &Homes, p: &TPlace, w: u32) -> bool
    ensures { result ≡ place_assigns (context_in (typed_program t.now) (typed_function f.now) h.now) (typed_place p.now) w }
{
    is_word(variable_word(t, f, h, &p.lean), w) || lean_assigns(t, f, h, &p.lean, w)
}

/// Whether what a lean evaluates assigns the plain variable whose word is `w`.
#[cycle(assigns)]
pub fn lean_assigns(t: &Typed, f: &TFunction, h: &Homes, lean: &TLean, w: u32) -> bool
    ensures { result ≡ lean_assigns (context_in (typed_program t.now) (typed_function f.now) h.now) (typed_lean lean.now) w }
{
    match lean {
        TLean::Static(_) | TLean::Local(_) => false,
        TLean::Value(e) => assigns(t, f, h, e, w),
        TLean::Slide { base, by, .. } => {
            lean_assigns(t, f, h, base, w) || assigns(t, f, h, by, w)
        }
        TLean::Member(base, _) => lean_assigns(t, f, h, base, w),
    }
}

/// Whether one of these arguments assigns the plain variable whose word is `w`.
#[cycle(assigns)]
pub fn arguments_assign(t: &Typed, f: &TFunction, h: &Homes, arguments: &[TExpr], w: u32) -> bool
    ensures { result ≡ list_any (λ e. assigns (context_in (typed_program t.now) (typed_function f.now) h.now) (typed_expr e) w) arguments.now }
{
    for e in arguments {
        if assigns(t, f, h, e, w) {
            return true;
        }
    }
    false
}
