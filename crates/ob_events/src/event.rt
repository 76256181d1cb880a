ghost use Rattle.std.specs.Prelude.{◌≡◌, Some};
ghost use Rattle.ob_model.specs.Accesses.{stray_event};
ghost use Rattle.ob_code.specs.Accesses.{event_of};
ghost use Rattle.ob_access.specs.Reaches.{as_access};

use ob_access::Access;
use ob_model::{Act, StrayEvent};

fn stray(line: u32, act: Act, object: u64, offset: i64, size: u32) -> Option<StrayEvent>
    ensures { result ≡ Some (stray_event line act object offset size) }
{
    Some(StrayEvent {
        line,
        act,
        object,
        offset,
        size,
    })
}

/// The event of an access of so many bytes on a source line, which comes exactly where it goes astray: none
/// where it is direct, and none where it is too far.
pub fn event_of(access: Access, line: u32, act: Act, size: u32) -> Option<StrayEvent>
    ensures { result ≡ event_of (as_access access) line act size }
{
    match access {
        Access::TooFar | Access::Direct { .. } => None,
        Access::Own { object, offset, .. } => stray(line, act, object, offset, size),
        Access::Outside { object, offset } => stray(line, act, object, offset, size),
        Access::Vanishing { object, offset } => stray(line, act, object, offset, size),
    }
}
