ghost use Rattle.std.specs.Prelude.{◌≡◌, ◌≤◌, IsFalse, option_map, length};
ghost use Rattle.ob_words.specs.Types.{width};
ghost use Rattle.ob_tree.specs.Types.{PlainType};
ghost use Rattle.ob_tree.specs.TypeView.{plain_members, plain_type};
ghost use Rattle.ob_tree.specs.StructsView.{plain_structs};
ghost use Rattle.ob_tree.specs.Sizes.{IsComplete, align, scalars, size, has_size, is_complete, laid, layout, int_size, members_layout, no_layout, struct_layout};
ghost use Rattle.ob_layout.specs.Capped.{capped, shown};
ghost use Rattle.ob_layout.specs.Spread.{innermost, is_array, spread};

use crate::counted::Counted;
use ob_tree::{CType, MemberRow, Structs};
use ob_words::{IntType, width};

/// The bytes of an object of type `t`, at most 4,194,304 (C99 6.5.3.4). `t` is complete: it isn't
/// `void`, each structure that it holds has its members, none of these holds itself, and it has at most
/// 4,194,304 bytes.
pub fn size(s: &Structs, t: &CType) -> u64
    requires { IsComplete (plain_structs s.now) (plain_type t.now) }
    ensures is { result ≡ size (plain_structs s.now) (plain_type t.now) }
    ensures within { result ≤ 4194304 }
{
    complete(s, t).size
}

/// The alignment of type `t`: 1, 2, 4 or 8. `t` is complete.
pub fn align(s: &Structs, t: &CType) -> u64
    requires { IsComplete (plain_structs s.now) (plain_type t.now) }
    ensures { result ≡ align (plain_structs s.now) (plain_type t.now) }
{
    complete(s, t).align
}

/// How many numbers and pointers an object of type `t` holds. `t` is complete.
pub fn leaves(s: &Structs, t: &CType) -> u64
    requires { IsComplete (plain_structs s.now) (plain_type t.now) }
    ensures { result ≡ scalars (plain_structs s.now) (plain_type t.now) }
{
    complete(s, t).scalars
}

/// Whether type `t` has a size: it isn't `void`, each structure that it holds has its members, and none
/// of these holds itself (C99 6.2.5).
pub fn has_size(s: &Structs, t: &CType) -> bool
    ensures { result ≡ has_size (plain_structs s.now) (plain_type t.now) }
{
    type_layout(s, t).is_some()
}

/// Whether type `t` is complete: it has a size, of at most 4,194,304 bytes.
pub fn is_complete(s: &Structs, t: &CType) -> bool
    ensures { result ≡ is_complete (plain_structs s.now) (plain_type t.now) }
{
    match type_layout(s, t) {
        Some(l) => l.size <= 4_194_304,
        None => false,
    }
}

fn complete(s: &Structs, t: &CType) -> Counted
    requires { IsComplete (plain_structs s.now) (plain_type t.now) }
    ensures { shown result ≡ laid (layout (plain_structs s.now) (plain_type t.now)) }
{
    laid(s, t)
}

/// The layout of a type; nothing where it has none.
pub(crate) fn laid(s: &Structs, t: &CType) -> Counted
    ensures { shown result ≡ capped (laid (layout (plain_structs s.now) (plain_type t.now))) }
{
    match type_layout(s, t) {
        Some(l) => l,
        None => Counted::none(),
    }
}

/// The layout of a type.
#[tactic(auto, using(crate::proofs::Layouts::spread_some, crate::proofs::Layouts::spread_none))]
pub(crate) fn type_layout(s: &Structs, t: &CType) -> Option<Counted>
    ensures { option_map shown result ≡ option_map capped (layout (plain_structs s.now) (plain_type t.now)) }
{
    match elements_layout(s, innermost(t)) {
        Some(l) => Some(spread(t, l)),
        None => None,
    }
}

/// The layout of a type that is no array.
fn elements_layout(s: &Structs, t: &CType) -> Option<Counted>
    requires { IsFalse (is_array (plain_type t.now)) }
    ensures { option_map shown result ≡ option_map capped (layout (plain_structs s.now) (plain_type t.now)) }
{
    match t {
        CType::Void => None,
        CType::Int(kind) => Some(Counted::scalar(int_size(*kind))),
        CType::Pointer(_) => Some(Counted::scalar(8)),
        CType::Array(_, _) => None,
        CType::Struct(number) => struct_layout(s, *number),
    }
}

/// The layout of the structure of a number, which is looked up.
fn struct_layout(s: &Structs, number: u32) -> Option<Counted>
    ensures { option_map shown result ≡ option_map capped (struct_layout (length (plain_structs s.now)) (plain_structs s.now) number) }
{
    match s.layout(number) {
        Some(l) => Some(Counted::of_struct(l)),
        None => None,
    }
}

/// The layout of a structure's members and of the padding behind them.
pub(crate) fn members_layout(s: &Structs, members: &Vec<MemberRow>) -> Option<Counted>
    ensures { option_map shown result ≡ option_map capped (members_layout (struct_layout (length (plain_structs s.now)) (plain_structs s.now)) no_layout (plain_members members.now.items)) }
{
    let mut before = Counted::none();
    for member in members {
        match type_layout(s, &member.ty) {
            Some(l) => before = before.append(&l),
            None => return None,
        }
    }
    Some(before.pad())
}

fn int_size(kind: IntType) -> u64
    ensures is { result ≡ int_size kind }
    ensures some { 1 ≤ result }
    ensures few { result ≤ 8 }
{
    (width(kind) / 8) as u64
}

/// The type of the innermost elements of an array of arrays; any other type itself.
fn innermost(t: &CType) -> &CType
    ensures is { plain_type result.now ≡ innermost (plain_type t.now) }
    ensures no_array { IsFalse (is_array (plain_type result.now)) }
{
    match t {
        CType::Array(element, _) => innermost(element),
        _ => t,
    }
}

/// The layout of `t`, from that of its innermost elements.
#[tactic(auto, using(crate::proofs::Layouts::spread_array))]
fn spread(t: &CType, l: Counted) -> Counted
    ensures { shown result ≡ capped (spread (plain_type t.now) (shown l)) }
{
    match t {
        CType::Array(element, count) => spread(element, l).repeat(*count),
        _ => l,
    }
}
