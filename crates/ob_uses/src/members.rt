//! Members of structures (C99 6.5.2.3).
ghost use Rattle.std.specs.Prelude.{◌≡◌, Err, IfOk, option_map};
ghost use Rattle.ob_tree.specs.declared.faults.TypeFault.TheVariants.{Fault};
ghost use Rattle.ob_tree.specs.declared.faults.TypeKind.TheVariants as kind;
ghost use Rattle.ob_tree.specs.Sizes.{is_complete, member};
ghost use Rattle.ob_tree.specs.Types.{PlainType};
ghost use Rattle.ob_tree.specs.TypeView.{plain_struct, plain_type};
ghost use Rattle.ob_typed.specs.Conversions.{Checked as PlainChecked};
ghost use Rattle.ob_typed.specs.Faults.{place_behind};
ghost use Rattle.ob_typed.specs.Places.{pointed_to};
ghost use Rattle.ob_typed.specs.PostfixRules.{arrow_rule, member_found, member_of, member_rule};
ghost use Rattle.ob_typed.specs.TypedTree.{TypedLean};
ghost use Rattle.ob_typed.specs.TypedView.{typed_expr, typed_lean};
ghost use Rattle.ob_members.specs.StructuresView.{plain_structures};
ghost use Rattle.ob_conversions.specs.CheckedView.{checked, mark, target};
ghost use Rattle.ob_conversions.specs.Gives.{Gives};
ghost use Rattle.ob_uses.specs.MemberTypes.{placed_member, type_at};

use ob_base::{NoMemory, Text, boxed_with, let_go};
use ob_context::refused;
use ob_conversions::leans::pointed_to;
use ob_conversions::types::{copy_type, target};
use ob_conversions::values::placed;
use ob_conversions::{Checked, Mark, beside};
use ob_layout::is_complete;
use ob_members::Structures;
use ob_tree::{CType, StructRow, TypeFault, TypeKind};
use ob_typed::{TExpr, TLean, TPlace};
use std::alloc::Global;

/// No such member, or no structure before the name.
fn no_member<T: Drop>(m: Mark, parts: T) -> Result<Checked, TypeFault>
    ensures { result ≡ Err (Fault kind.Member (place_behind m.at)) }
{
    refused(TypeKind::Member, m.at.saturating_add(1), parts)
}

/// A member of a type, so many bytes behind the begin of what lies at a base.
fn member_place(
    alloc: Global,
    line: u32,
    lean: TLean,
    offset: u64,
    t: &CType,
) -> Result<Checked, NoMemory>
    ensures { IfOk result (λ r. checked r ≡ PlainChecked.Place line (plain_type t.now) (TypedLean.Member (typed_lean lean) offset)) }
{
    let (ty, lean) = beside(copy_type(alloc, t), lean)?;
    let (lean, ty) = boxed_with(alloc, lean, ty)?;
    Ok(placed(line, ty, TLean::Member(lean, offset)))
}

/// The type of a member by its index, counted from 0.
fn type_at(row: &StructRow, index: usize) -> Option<&CType>
    ensures { option_map (λ t. plain_type t.now) result ≡ type_at (plain_struct row.now).members index }
{
    match row.members.get(index) {
        Some(member) => Some(&member.ty),
        None => None,
    }
}

/// The member of a row that has this offset and this index.
fn member_found(
    alloc: Global,
    m: Mark,
    row: &StructRow,
    found: Option<(u64, usize)>,
    lean: TLean,
) -> Result<Checked, TypeFault>
    ensures { Gives checked result (member_found (mark m) (typed_lean lean) (placed_member (plain_struct row.now).members found)) }
{
    match found {
        Some((offset, index)) => match type_at(row, index) {
            Some(t) => Ok(member_place(alloc, m.line, lean, offset, t)?),
            None => no_member(m, lean),
        },
        None => no_member(m, lean),
    }
}

/// Whether the structure of a number is complete.
fn is_whole(s: &Structures, number: u32) -> bool
    ensures { result ≡ is_complete (plain_structures s.now) (PlainType.Struct number) }
{
    is_complete(s.rows(), &CType::Struct(number))
}

/// The member of a name in the structure of a number. A structure with members is complete, so that the last branch
/// never comes.
fn struct_member(
    alloc: Global,
    s: &Structures,
    m: Mark,
    number: u32,
    lean: TLean,
    name: &Text,
) -> Result<Checked, TypeFault>
    ensures { Gives checked result (member_found (mark m) (typed_lean lean) (member (plain_structures s.now) number name.now)) }
{
    match s.row(number) {
        Some(row) => if row.members.is_empty() {
            no_member(m, lean)
        } else if is_whole(s, number) {
            member_found(alloc, m, row, s.member(number, name), lean)
        } else {
            let_go(lean);
            Err(TypeFault::NoMemory)
        },
        None => no_member(m, lean),
    }
}

/// The member of a name in what lies at a place of a type.
fn member_of(
    alloc: Global,
    s: &Structures,
    m: Mark,
    t: &CType,
    lean: TLean,
    name: &Text,
) -> Result<Checked, TypeFault>
    ensures { Gives checked result (member_of (plain_structures s.now) (mark m) (plain_type t.now) (typed_lean lean) name.now) }
{
    match t {
        CType::Struct(number) => struct_member(alloc, s, m, *number, lean, name),
        _ => no_member(m, lean),
    }
}

/// `.`: the member of a name in the structure at a place. The name's token follows the `.`.
pub fn member_rule(
    alloc: Global,
    s: &Structures,
    m: Mark,
    x: Checked,
    name: &Text,
) -> Result<Checked, TypeFault>
    ensures { Gives checked result (member_rule (plain_structures s.now) (mark m) (checked x) name.now) }
{
    match x {
        Checked::Place(p) => {
            let TPlace { line, ty, lean } = p;
            member_of(alloc, s, m, &ty, lean, name)
        }
        x => no_member(m, x),
    }
}

/// The member of a name in what a pointer points to.
fn pointed_member(
    alloc: Global,
    s: &Structures,
    m: Mark,
    x: TExpr,
    name: &Text,
) -> Result<Checked, TypeFault>
    ensures { Gives checked result (member_of (plain_structures s.now) (mark m) (target (plain_type x.ty)) (pointed_to (typed_expr x)) name.now) }
{
    let (t, x) = beside(target(alloc, &x.ty), x)?;
    let (lean, t) = beside(pointed_to(alloc, x), t)?;
    member_of(alloc, s, m, &t, lean, name)
}

/// `->`: the member of a name in the structure that a pointer points to. The name's token follows the `->`.
pub fn arrow_rule(
    alloc: Global,
    s: &Structures,
    m: Mark,
    x: TExpr,
    name: &Text,
) -> Result<Checked, TypeFault>
    ensures { Gives checked result (arrow_rule (plain_structures s.now) (mark m) (typed_expr x) name.now) }
{
    match &x.ty {
        CType::Pointer(_) => pointed_member(alloc, s, m, x, name),
        _ => no_member(m, x),
    }
}
