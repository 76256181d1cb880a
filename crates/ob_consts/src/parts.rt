ghost use Rattle.std.specs.Prelude.{◌≡◌, ◌+◌, ◌*◌, IfOk, IsTrue, IsFalse, option_map, slice_get};
ghost use Rattle.ob_tree.specs.TypeView.{plain_member, plain_struct, plain_type};
ghost use Rattle.ob_tree.specs.StructsView.{plain_structs};
ghost use Rattle.ob_tree.specs.Sizes.{align, next_offset, laid, layout, round_up, size};
ghost use Rattle.ob_consts.specs.Placing.{is_element, members_of, sized};

use ob_base::NoMemory;
use ob_layout::{align, is_complete, size};
use ob_tree::{CType, MemberRow, StructRow, Structs};

/// A sum, where a word holds it.
pub(crate) fn sum(a: u64, b: u64) -> Result<u64, NoMemory>
    ensures { IfOk result (λ r. r ≡ a + b) }
{
    match a.checked_add(b) {
        Some(c) => Ok(c),
        None => Err(NoMemory),
    }
}

/// Where element `i` of so many bytes begins.
pub(crate) fn element_offset(i: u64, bytes: u64) -> Result<u64, NoMemory>
    ensures { IfOk result (λ r. r ≡ i * bytes) }
{
    match i.checked_mul(bytes) {
        Some(c) => Ok(c),
        None => Err(NoMemory),
    }
}

/// The bytes of a part's type, where it is complete.
pub(crate) fn bytes_of(s: &Structs, t: &CType) -> Result<u64, NoMemory>
    ensures { IfOk result (λ r. r ≡ size (plain_structs s.now) (plain_type t.now)) }
{
    if is_complete(s, t) {
        Ok(size(s, t))
    } else {
        Err(NoMemory)
    }
}

/// Where a member begins that follows so many bytes.
pub(crate) fn member_offset(s: &Structs, before: u64, t: &CType) -> Result<u64, NoMemory>
    ensures { IfOk result (λ r. r ≡ next_offset (sized before) (laid (layout (plain_structs s.now) (plain_type t.now)))) }
{
    if is_complete(s, t) {
        rounded(before, align(s, t))
    } else {
        Err(NoMemory)
    }
}

/// The least multiple of `align` that is at least `n`.
fn rounded(n: u64, align: u64) -> Result<u64, NoMemory>
    ensures { IfOk result (λ r. r ≡ round_up n align) }
{
    if align == 0 {
        Err(NoMemory)
    } else {
        sum(n, (align - n % align) % align)
    }
}

/// Whether an array of so many elements, or of a length that isn't known, has an element `i`.
pub(crate) fn is_element(count: u64, i: u64) -> bool
    ensures { result ≡ is_element count i }
{
    match count {
        0 => true,
        _ => i < count,
    }
}

/// Member `i` of a row.
pub(crate) fn member_at(row: Option<&StructRow>, i: usize) -> Option<&MemberRow>
    ensures { option_map (λ m. plain_member m.now) result ≡ slice_get (members_of (option_map (λ r. plain_struct r.now) row.entry)) i }
{
    match row {
        Some(r) => r.members.get(i),
        None => None,
    }
}
