ghost use Rattle.std.specs.Prelude.{◌≡◌, option_map, slice_get};

use ob_homes::{Home, Homes};
use ob_tree::CType;

/// The home of a variable.
pub(crate) fn home_at(h: &Homes, v: u32) -> Option<Home>
    ensures { result ≡ slice_get h.now.list.items v }
{
    match h.list.get(v as usize) {
        Some(home) => Some(*home),
        None => None,
    }
}

/// The type of a variable.
pub(crate) fn type_at(types: &Vec<CType>, v: u32) -> Option<&CType>
    ensures { option_map (λ t. t.now) result ≡ slice_get types.now.items v }
{
    types.get(v as usize)
}
