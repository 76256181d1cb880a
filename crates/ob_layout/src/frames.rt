ghost use Rattle.std.specs.Prelude.{◌≡◌, ◌≤◌, length};
ghost use Rattle.std.specs.List.{All};
ghost use Rattle.ob_tree.specs.TypeView.{plain_types};
ghost use Rattle.ob_tree.specs.StructsView.{plain_structs};
ghost use Rattle.ob_tree.specs.Sizes.{IsComplete, allowance};

use crate::sizes::size;
use ob_tree::{CType, Structs};
use ob_words::block;

/// What a call of a function takes of the stack, in bytes: 16, 16 for each of its `nodes` expressions and
/// of its `params` parameters, and the blocks of its automatic objects, whose types `locals` are and begin
/// with those of the parameters. These types are complete, and `nodes`, `params` and the number of
/// locals are each at most 1,048,576.
pub fn allowance(s: &Structs, nodes: u64, params: u32, locals: &Vec<CType>) -> u64
    requires complete { All (IsComplete (plain_structs s.now)) (plain_types locals.now.items) }
    requires nodes { nodes ≤ 1048576 }
    requires params { params ≤ 1048576 }
    requires locals { length locals.now.items ≤ 1048576 }
    ensures { result ≡ allowance (plain_structs s.now) nodes params (plain_types locals.now.items) }
{
    let mut bytes = 16 + 16 * (nodes + params as u64);
    for local in locals {
        bytes += block(size(s, local));
    }
    bytes
}
