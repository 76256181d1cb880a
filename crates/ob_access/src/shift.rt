ghost use Rattle.std.specs.Prelude.{◌≡◌, false, if◌then◌else◌};
ghost use Rattle.std.specs.Option.{ForSome};
ghost use Rattle.ob_model.specs.Accesses.{is_far};
ghost use Rattle.ob_model.specs.Pointers.{moved_by, moved_to, too_far};
ghost use Rattle.ob_code.specs.Pointers.{pointer_of, size_of};
ghost use Rattle.ob_access.specs.Pointees.{target_of};
ghost use Rattle.ob_access.specs.Reaches.{near};
ghost use Rattle.ob_access.specs.Shifts.{IsNear, as_moved, landed};

use crate::Pointee;
use crate::reach::{is_far, moved};
use ob_model::inside;

/// Where a moved pointer goes: null stays null; its offset is too far out; it lies in its object or one past
/// the object's end; or it lies out of bounds, and needs a word of its own.
#[derive(Clone, Copy, Debug, PartialEq, Eq)]
pub enum Shift {
    StaysNull,
    TooFar,
    InBounds { object: u64, offset: i64 },
    OutOfBounds { object: u64, offset: i64 },
}

// Where an offset of an object of so many bytes lies.
fn landed(size: u64, object: u64, to: Option<i64>) -> Shift
    requires { ForSome to (λ offset. is_far offset ≡ false) }
    ensures moved { as_moved result ≡ landed size object to }
    ensures near { IsNear result }
{
    match to {
        None => Shift::TooFar,
        Some(offset) if inside(size, offset, 0) => Shift::InBounds { object, offset },
        Some(offset) => Shift::OutOfBounds { object, offset },
    }
}

/// Where a pointer goes that is moved by so many bytes. It is too far exactly where the displacement, or the
/// pointer's offset plus the displacement, lies outside -2^62 to 2^62. No other offset lies there.
pub fn shift_to(pointer: Option<Pointee>, displacement: i64) -> Shift
    ensures near { IsNear result }
    ensures moved { as_moved result ≡ (if is_far displacement then too_far else moved_by (size_of (target_of pointer)) (pointer_of (target_of pointer)) displacement) }
{
    if is_far(displacement) {
        return Shift::TooFar;
    }
    match pointer {
        None => Shift::StaysNull,
        Some(p) => landed(p.entry.size, p.entry.object, moved(p.offset, displacement)),
    }
}
