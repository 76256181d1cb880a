ghost use Rattle.std.specs.Prelude.{◌≡◌, ◌≤◌, option_map, length};
ghost use Rattle.std.specs.Str.{bytes_eq};
ghost use Rattle.ob_tree.specs.Types.{PlainType};
ghost use Rattle.ob_tree.specs.TypeView.{plain_struct};
ghost use Rattle.ob_tree.specs.StructsView.{plain_structs};
ghost use Rattle.ob_tree.specs.Sizes.{IsComplete, member, member_from, no_layout, struct_layout};
ghost use Rattle.ob_layout.specs.Capped.{capped_place, placed, shown, capped_pair};

use crate::counted::Counted;
use crate::sizes::laid;
use ob_base::Text;
use ob_tree::{MemberRow, StructRow, Structs};

/// The member of a name in the structure numbered `number`: how many bytes it lies behind the begin of
/// the structure, at most 4,194,304, and which of the members it is, counted from 0 (C99 6.7.2.1).
/// `None` exactly where the structure has no such member. The structure is complete.
pub fn member(s: &Structs, number: u32, name: &Text) -> Option<(u64, usize)>
    requires { IsComplete (plain_structs s.now) (PlainType.Struct number) }
    ensures { result ≡ option_map placed (member (plain_structs s.now) number name.now) }
{
    match s.row(number) {
        Some(row) => find(s, row, name),
        None => None,
    }
}

/// The member of a name in a row, its offset up to the cap.
fn find(s: &Structs, row: &StructRow, name: &Text) -> Option<(u64, usize)>
    ensures { option_map capped_pair result ≡ option_map capped_place (member_from (struct_layout (length (plain_structs s.now)) (plain_structs s.now)) no_layout 0 (plain_struct row.now).members name.now) }
{
    let mut before = Counted::none();
    for (index, member) in row.members.iter().enumerate() {
        let layout = laid(s, &member.ty);
        if is_named(member, name) {
            return Some((before.next_offset(&layout), index));
        }
        before = before.append(&layout);
    }
    None
}

fn is_named(member: &MemberRow, name: &Text) -> bool
    ensures { result ≡ bytes_eq member.now.name name.now }
{
    member.name.bytes() == name.bytes()
}
