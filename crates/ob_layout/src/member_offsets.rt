ghost use Rattle.std.specs.Prelude.{◌≡◌, IfOk, length, map};
ghost use Rattle.ob_tree.specs.Types.{PlainType};
ghost use Rattle.ob_tree.specs.TypeView.{plain_struct};
ghost use Rattle.ob_tree.specs.StructsView.{plain_structs};
ghost use Rattle.ob_tree.specs.Sizes.{IsComplete, no_layout, struct_layout};
ghost use Rattle.ob_layout.specs.Capped.{cut};
ghost use Rattle.ob_layout.specs.Offsets.{offsets, offsets_from};

use crate::counted::Counted;
use crate::sizes::laid;
use ob_base::NoMemory;
use ob_tree::{StructRow, Structs};
use std::alloc::Global;

/// How many bytes each member of the structure numbered `number` lies behind its begin, in order, each at
/// most 4,194,304 (C99 6.7.2.1). The structure is complete. Looks at each member once.
pub fn offsets(alloc: Global, s: &Structs, number: u32) -> Result<Vec<u64>, NoMemory>
    requires { IsComplete (plain_structs s.now) (PlainType.Struct number) }
    ensures { IfOk result (λ all. all.items ≡ offsets (plain_structs s.now) number) }
{
    match s.row(number) {
        Some(row) => row_offsets(alloc, s, row),
        None => Ok(Vec::new(alloc)),
    }
}

/// The offsets of the members of a row, up to the cap.
fn row_offsets(alloc: Global, s: &Structs, row: &StructRow) -> Result<Vec<u64>, NoMemory>
    ensures { IfOk result (λ all. map cut all.items ≡ map cut (offsets_from (struct_layout (length (plain_structs s.now)) (plain_structs s.now)) no_layout (plain_struct row.now).members)) }
{
    let mut all = Vec::new(alloc);
    let mut before = Counted::none();
    for member in &row.members {
        let layout = laid(s, &member.ty);
        all.push(before.next_offset(&layout))?;
        before = before.append(&layout);
    }
    Ok(all)
}
