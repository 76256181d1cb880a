//! How many numbers and pointers the structure assignments in an expression copy.
ghost use Rattle.std.specs.Prelude.{◌≡◌, ◌+◌, OnOk};
ghost use Rattle.std.specs.List.{sum_by};
ghost use Rattle.ob_tree.specs.Sizes.{scalars};
ghost use Rattle.ob_tree.specs.StructsView.{plain_structs};
ghost use Rattle.ob_typed.specs.Counts.{copies, copies_of_lean, copies_of_place, type_of_place};
ghost use Rattle.ob_typed.specs.TypedView.{typed_expr, typed_lean, typed_place};

use crate::adding::add;
use crate::scalars::scalars;
use ob_base::NoMemory;
use ob_tree::Structs;
use ob_typed::{TExpr, TLean, TNode, TPlace};

/// Adds the numbers and pointers of an object of a place's type.
pub(crate) fn add_scalars(s: &Structs, total: &mut u64, p: &TPlace) -> Result<(), NoMemory>
    ensures { OnOk result (total.new ≡ total.old + scalars (plain_structs s.now) (type_of_place (typed_place p.now))) }
{
    let n = scalars(s, &p.ty)?;
    add(total, n)
}

/// Adds what an expression copies.
#[cycle(copies)]
pub(crate) fn add_expr(s: &Structs, total: &mut u64, e: &TExpr) -> Result<(), NoMemory>
    ensures { OnOk result (total.new ≡ total.old + copies (plain_structs s.now) (typed_expr e.now)) }
{
    match &e.node {
        TNode::Num(_) | TNode::Null => Ok(()),
        TNode::Read(p) => add_place(s, total, p),
        TNode::Lean(lean) => add_lean(s, total, lean),
        TNode::Convert(_, e) | TNode::ToVoid(e) => add_expr(s, total, e),
        TNode::Arith(_, _, a, b)
        | TNode::Compare(_, a, b)
        | TNode::PtrCompare(_, a, b)
        | TNode::PtrDiff(_, a, b)
        | TNode::And(a, b)
        | TNode::Or(a, b)
        | TNode::Comma(a, b) => {
            add_expr(s, total, a)?;
            add_expr(s, total, b)
        }
        TNode::Cond(test, then, other) => {
            add_expr(s, total, test)?;
            add_expr(s, total, then)?;
            add_expr(s, total, other)
        }
        TNode::Assign(place, value)
        | TNode::Update { place, value, .. }
        | TNode::PtrUpdate { place, value, .. } => {
            add_place(s, total, place)?;
            add_expr(s, total, value)
        }
        TNode::CopyStruct(to, from) => {
            add_scalars(s, total, to)?;
            add_place(s, total, to)?;
            add_place(s, total, from)
        }
        TNode::Call(_, arguments) | TNode::Builtin(_, arguments) => {
            add_arguments(s, total, arguments)
        }
    }
}

/// Adds what is copied on the way to a place.
#[cycle(copies)]
pub(crate) fn add_place(s: &Structs, total: &mut u64, p: &TPlace) -> Result<(), NoMemory>
    ensures { OnOk result (total.new ≡ total.old + copies_of_place (plain_structs s.now) (typed_place p.now)) }
{
    add_lean(s, total, &p.lean)
}

#[cycle(copies)]
fn add_lean(s: &Structs, total: &mut u64, lean: &TLean) -> Result<(), NoMemory>
    ensures { OnOk result (total.new ≡ total.old + copies_of_lean (plain_structs s.now) (typed_lean lean.now)) }
{
    match lean {
        TLean::Static(_) | TLean::Local(_) => Ok(()),
        TLean::Value(e) => add_expr(s, total, e),
        TLean::Slide { base, by, .. } => {
            add_lean(s, total, base)?;
            add_expr(s, total, by)
        }
        TLean::Member(base, _) => add_lean(s, total, base),
    }
}

#[cycle(copies)]
fn add_arguments(s: &Structs, total: &mut u64, arguments: &[TExpr]) -> Result<(), NoMemory>
    ensures { OnOk result (total.new ≡ total.old + sum_by (λ e. copies (plain_structs s.now) (typed_expr e)) arguments.now) }
{
    for e in arguments {
        add_expr(s, total, e)?;
    }
    Ok(())
}
