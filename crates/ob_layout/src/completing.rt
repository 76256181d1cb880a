ghost use Rattle.std.specs.Prelude.{◌≡◌, Some, OnErr, OnOk, is_ok, length, option_map, slice_get};
ghost use Rattle.ob_tree.specs.Types.{PlainType, unknown_struct, with_members};
ghost use Rattle.ob_tree.specs.TypeView.{plain_members};
ghost use Rattle.ob_tree.specs.StructsView.{plain_structs};
ghost use Rattle.ob_tree.specs.StructLayouts.{shown_layout};
ghost use Rattle.ob_tree.specs.Sizes.{is_complete, members_layout, no_layout, struct_layout};
ghost use Rattle.ob_layout.specs.Capped.{object_layout};

use crate::sizes::members_layout;
use ob_tree::{MemberRow, StructLayout, Structs};

/// The one refusal of [`complete`]: the structure would not be complete, since a member has no size, or
/// since it would have more than 4,194,304 bytes.
#[derive(Clone, Copy, Debug, PartialEq, Eq)]
pub struct NotComplete;

/// Gives the structure numbered `number` its members (C99 6.7.2.1). It is declared and has none yet.
/// Refused exactly where it would not be complete with them, and then the structures stay as they were.
/// Takes no memory, and looks at each member once, whatever the structures hold that these are.
pub fn complete(s: &mut Structs, number: u32, members: Vec<MemberRow>) -> Result<(), NotComplete>
    requires { slice_get (plain_structs s.old) number ≡ Some unknown_struct }
    ensures when { is_ok result ≡ is_complete (with_members (plain_structs s.old) number (plain_members members.items)) (PlainType.Struct number) }
    ensures ok { OnOk result (plain_structs s.new ≡ with_members (plain_structs s.old) number (plain_members members.items)) }
    ensures err { OnErr result (plain_structs s.new ≡ plain_structs s.old) }
{
    s.law_members(number);
    match object_layout(s, &members) {
        Some(layout) => {
            s.complete(number, members, layout);
            Ok(())
        }
        None => Err(NotComplete),
    }
}

/// The layout of a structure's members, where that is known and small enough for an object.
fn object_layout(s: &Structs, members: &Vec<MemberRow>) -> Option<StructLayout>
    ensures { option_map shown_layout result ≡ object_layout (members_layout (struct_layout (length (plain_structs s.now)) (plain_structs s.now)) no_layout (plain_members members.now.items)) }
{
    match members_layout(s, members) {
        Some(l) => l.object(),
        None => None,
    }
}
