//! Types with a size (C99 6.2.5, 6.5.3.4).
ghost use Rattle.std.specs.Prelude.{◌≡◌, ◌≤◌, IsTrue};
ghost use Rattle.ob_tree.specs.Sizes.{IsComplete};
ghost use Rattle.ob_tree.specs.StructsView.{plain_structs};
ghost use Rattle.ob_tree.specs.TypeView.{plain_type};
ghost use Rattle.ob_typed.specs.Completeness.{has_length, is_counted, is_object_type, is_sized};

use ob_layout::{has_size, is_complete};
use ob_tree::{CType, Structs};

/// Whether an array has a length; a length of 0 is still to be told by an initialiser.
fn is_counted(count: u64) -> bool
    ensures { result ≡ is_counted count }
{
    count != 0
}

/// Whether a type is no array that waits for its length.
pub fn has_length(t: &CType) -> bool
    ensures { result ≡ has_length (plain_type t.now) }
{
    match t {
        CType::Array(_, count) => is_counted(*count),
        _ => true,
    }
}

/// Whether a type has a size, however great.
pub fn is_sized(s: &Structs, t: &CType) -> bool
    ensures { result ≡ is_sized (plain_structs s.now) (plain_type t.now) }
{
    has_length(t) && has_size(s, t)
}

/// Whether an object can have a type: it has a size, of at most 4,194,304 bytes.
pub fn is_object_type(s: &Structs, t: &CType) -> bool
    ensures is { result ≡ is_object_type (plain_structs s.now) (plain_type t.now) }
    ensures complete { IsTrue result → IsComplete (plain_structs s.now) (plain_type t.now) }
{
    has_length(t) && is_complete(s, t)
}
