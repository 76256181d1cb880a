//! Lists in braces, for an array or a structure.
ghost use Rattle.std.specs.Prelude.{◌≡◌, IfOk, Some, map, option_map, slice_get};
ghost use Rattle.std.specs.Option.{is_some};
ghost use Rattle.ob_tree.specs.ExpressionView.{init_tree};
ghost use Rattle.ob_tree.specs.Parts.{part, row_part};
ghost use Rattle.ob_tree.specs.StructsView.{plain_structs};
ghost use Rattle.ob_tree.specs.TypeView.{plain_struct, plain_type};
ghost use Rattle.ob_typed.specs.Initialisers.{init_list, list_rule, part_type, past_end, type_of};
ghost use Rattle.ob_typed.specs.Marks.{first_of_init};
ghost use Rattle.ob_typed.specs.TypedTree.{TypedInit};
ghost use Rattle.ob_typed.specs.TypedView.{typed_init};
ghost use Rattle.ob_conversions.specs.Gives.{Gives};
ghost use Rattle.ob_initialisers.specs.Lists.{init_trees};

use ob_base::NoMemory;
use ob_context::refused;
use ob_conversions::types::copy_type;
use ob_tree::{CType, Init, StructRow, Structs, TypeFault, TypeKind};
use ob_typed::TInit;
use std::alloc::Global;

/// The type of member `i` of a structure.
fn member_type(row: &StructRow, i: usize) -> Option<&CType>
    ensures { option_map (λ u. plain_type u.now) result ≡ option_map (λ m. m.ty) (slice_get (plain_struct row.now).members i) }
{
    match row.members.get(i) {
        Some(member) => Some(&member.ty),
        None => None,
    }
}

/// The type of member `i` of the structure of a number.
fn member_at(s: &Structs, number: u32, i: usize) -> Option<&CType>
    ensures { option_map (λ u. plain_type u.now) result ≡ type_of (row_part (plain_structs s.now) (slice_get (plain_structs s.now) number) i) }
{
    match s.row(number) {
        Some(row) => member_type(row, i),
        None => None,
    }
}

/// The type of part `i` of a type, where there is one. An array whose length is yet to be told has each.
fn part_at<'a>(s: &'a Structs, t: &'a CType, i: usize) -> Option<&'a CType>
    ensures { option_map (λ u. plain_type u.now) result ≡ type_of (part (plain_structs s.now) (plain_type t.now) i) }
{
    match t {
        CType::Array(element, count) => if *count == 0 || (i as u64) < *count {
            Some(element)
        } else {
            None
        },
        CType::Struct(number) => member_at(s, *number, i),
        _ => None,
    }
}

/// Whether a type has a part `i`.
fn has_part(s: &Structs, t: &CType, i: usize) -> bool
    ensures { result ≡ is_some (part (plain_structs s.now) (plain_type t.now) i) }
{
    part_at(s, t, i).is_some()
}

/// The type of part `i`, where there is one.
pub(crate) fn part_type(
    alloc: Global,
    s: &Structs,
    t: Option<&CType>,
    i: usize,
) -> Result<Option<CType>, NoMemory>
    ensures { IfOk result (λ r. option_map plain_type r ≡ part_type (plain_structs s.now) (option_map (λ u. plain_type u.now) t.entry) i) }
{
    match t {
        Some(t) => match part_at(s, t, i) {
            Some(part) => Ok(Some(copy_type(alloc, part)?)),
            None => Ok(None),
        },
        None => Ok(None),
    }
}

/// The place of an initialiser's first token.
fn first_of_init(i: &Init) -> u32
    ensures { result ≡ first_of_init (init_tree i.now) }
{
    match i {
        Init::Value(e) => e.first,
        Init::List { first, .. } => *first,
    }
}

/// Where the first item past the end begins.
fn past_end(s: &Structs, t: &CType, items: &Vec<Init>) -> Option<u32>
    ensures { result ≡ past_end (plain_structs s.now) (plain_type t.now) 0 (init_trees items.now.items) }
{
    for (i, item) in items.iter().enumerate() {
        if !has_part(s, t, i) {
            return Some(first_of_init(item));
        }
    }
    None
}

/// A list of items.
fn list_of(items: Vec<TInit>) -> TInit
    ensures { typed_init result ≡ TypedInit.Items (init_list (map typed_init items.items)) }
{
    TInit::List(items)
}

/// A list, whose brace stands at `first`, from what its items are.
pub(crate) fn list_rule(
    s: &Structs,
    t: Option<&CType>,
    first: u32,
    sources: &Vec<Init>,
    items: Vec<TInit>,
) -> Result<TInit, TypeFault>
    ensures { Gives typed_init result (list_rule (plain_structs s.now) (option_map (λ u. plain_type u.now) t.entry) first (init_trees sources.now.items) (map typed_init items.items)) }
{
    match t {
        None => Ok(list_of(items)),
        Some(t) => list_for(s, t, first, sources, items),
    }
}

/// A list for a type that there is.
fn list_for(
    s: &Structs,
    t: &CType,
    first: u32,
    sources: &Vec<Init>,
    items: Vec<TInit>,
) -> Result<TInit, TypeFault>
    ensures { Gives typed_init result (list_rule (plain_structs s.now) (Some (plain_type t.now)) first (init_trees sources.now.items) (map typed_init items.items)) }
{
    match t {
        CType::Array(_, _) | CType::Struct(_) => match past_end(s, t, sources) {
            None => Ok(list_of(items)),
            Some(place) => refused(TypeKind::Count, place, items),
        },
        _ => refused(TypeKind::Count, first, items),
    }
}
