ghost use Rattle.std.specs.Prelude.{◌≡◌, ◌≤◌, IfOk};
ghost use Rattle.std.specs.List.{list_all};
ghost use Rattle.ob_tree.specs.Sizes.{allowance, is_complete, size};
ghost use Rattle.ob_tree.specs.StructsView.{plain_structs};
ghost use Rattle.ob_tree.specs.TypeView.{plain_type, plain_types};

use ob_base::NoMemory;
use ob_layout::{allowance, is_complete, size};
use ob_tree::{CType, Structs};

/// The greatest number of nodes, parameters and variables of a function.
const MOST: u64 = 1_048_576;

/// The bytes of an object of a type, or `NoMemory` where none has the type.
pub(crate) fn known_size(s: &Structs, t: &CType) -> Result<u64, NoMemory>
    ensures is { IfOk result (λ n. n ≡ size (plain_structs s.now) (plain_type t.now)) }
    ensures within { IfOk result (λ n. n ≤ 4194304) }
{
    if is_complete(s, t) {
        Ok(size(s, t))
    } else {
        Err(NoMemory)
    }
}

/// What a call of a function takes of the stack, in bytes, or `NoMemory` where one of the numbers or types is none of a
/// function.
pub(crate) fn known_allowance(
    s: &Structs,
    nodes: u64,
    params: u32,
    locals: &Vec<CType>,
) -> Result<u64, NoMemory>
    ensures { IfOk result (λ n. n ≡ allowance (plain_structs s.now) nodes params (plain_types locals.now.items)) }
{
    let few = nodes <= MOST && params as u64 <= MOST && locals.len() as u64 <= MOST;
    if few && are_complete(s, locals) {
        Ok(allowance(s, nodes, params, locals))
    } else {
        Err(NoMemory)
    }
}

/// Whether objects can have each of these types.
fn are_complete(s: &Structs, types: &[CType]) -> bool
    ensures { result ≡ list_all (λ t. is_complete (plain_structs s.now) (plain_type t)) types.now }
{
    for t in types {
        if !is_complete(s, t) {
            return false;
        }
    }
    true
}
