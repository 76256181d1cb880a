//! The rules that ask which structures are known.
ghost use Rattle.std.specs.Prelude.{◌≡◌, IfOk, map, option_map};
ghost use Rattle.ob_tree.specs.TypeView.{plain_type};
ghost use Rattle.ob_typed.specs.Initialisers.{list_rule, part_rule, part_type, static_types};
ghost use Rattle.ob_typed.specs.TypedView.{typed_init};
ghost use Rattle.ob_conversions.specs.CheckedView.{checked, mark};
ghost use Rattle.ob_conversions.specs.Gives.{Gives};
ghost use Rattle.ob_context.specs.KnownView.{known_of};
ghost use Rattle.ob_initialisers.specs.Lists.{init_trees};

use crate::items::part_rule;
use crate::lists::{list_rule, part_type};
use ob_base::NoMemory;
use ob_context::Known;
use ob_conversions::{Checked, Mark};
use ob_tree::{CType, Init, TypeFault};
use ob_typed::TInit;
use std::alloc::Global;

/// An expression for a part of a type, or past the end.
pub(crate) fn known_item(
    alloc: Global,
    known: &Known,
    fixed: bool,
    t: Option<&CType>,
    m: Mark,
    x: Checked,
) -> Result<TInit, TypeFault>
    ensures { Gives typed_init result (part_rule (known_of known.now).structs (static_types (known_of known.now).statics) fixed (option_map (λ u. plain_type u.now) t.entry) (mark m) (checked x)) }
{
    part_rule(alloc, known.structs.rows(), &known.statics, fixed, t, m, x)
}

/// A list, whose brace stands at `first`, from what its items are.
pub(crate) fn known_list(
    known: &Known,
    t: Option<&CType>,
    first: u32,
    sources: &Vec<Init>,
    items: Vec<TInit>,
) -> Result<TInit, TypeFault>
    ensures { Gives typed_init result (list_rule (known_of known.now).structs (option_map (λ u. plain_type u.now) t.entry) first (init_trees sources.now.items) (map typed_init items.items)) }
{
    list_rule(known.structs.rows(), t, first, sources, items)
}

/// The type of part `i`, where there is one.
pub(crate) fn known_part(
    alloc: Global,
    known: &Known,
    t: Option<&CType>,
    i: usize,
) -> Result<Option<CType>, NoMemory>
    ensures { IfOk result (λ r. option_map plain_type r ≡ part_type (known_of known.now).structs (option_map (λ u. plain_type u.now) t.entry) i) }
{
    part_type(alloc, known.structs.rows(), t, i)
}
