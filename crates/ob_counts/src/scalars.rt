//! How many numbers and pointers an object holds.
ghost use Rattle.std.specs.Prelude.{◌≡◌, IfOk, length};
ghost use Rattle.ob_tree.specs.Sizes.{laid, scalars, struct_layout};
ghost use Rattle.ob_tree.specs.StructsView.{plain_structs};
ghost use Rattle.ob_tree.specs.TypeView.{plain_type};

use crate::adding::product;
use ob_base::NoMemory;
use ob_tree::{CType, Structs};

/// How many numbers and pointers an object of a type holds; none where the type has no size. A tree may name a
/// type of any size, so this doesn't ask `ob_layout`, whose numbers stop above the greatest object.
#[tactic(auto, using(crate::proofs::ArrayScalars::scalars_of_array))]
pub(crate) fn scalars(s: &Structs, t: &CType) -> Result<u64, NoMemory>
    ensures { IfOk result (λ n. n ≡ scalars (plain_structs s.now) (plain_type t.now)) }
{
    match t {
        CType::Void => Ok(0),
        CType::Int(_) | CType::Pointer(_) => Ok(1),
        CType::Array(element, count) => {
            let each = scalars(s, element)?;
            product(each, *count)
        }
        CType::Struct(number) => Ok(scalars_of_struct(s, *number)),
    }
}

fn scalars_of_struct(s: &Structs, number: u32) -> u64
    ensures { result ≡ (laid (struct_layout (length (plain_structs s.now)) (plain_structs s.now) number)).scalars }
{
    match s.layout(number) {
        Some(l) => l.scalars,
        None => 0,
    }
}
