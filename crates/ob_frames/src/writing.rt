ghost use Rattle.std.specs.Prelude.{◌≡◌, ◌-◌, ◌%◌};
ghost use Rattle.ob_model.specs.Accesses.{bytes_of_kind};
ghost use Rattle.ob_flat.specs.Memory.{IsIn, IsLaidOut, with_zeros};
ghost use Rattle.ob_code.specs.Accesses.{write_memory};
ghost use Rattle.ob_statics.specs.Held.{KeepsRanges};
ghost use Rattle.ob_frames.specs.Writes.{KeepsOthers};

use ob_access::write_memory;
use ob_flat::Flat;
use ob_flat::laws::{law_fields, law_layout, law_zeros};
use ob_model::LoadKind;

/// Writes a word by its kind, which changes no byte outside of its granule.
pub fn write_granule(flat: &mut Flat, kind: LoadKind, address: u64, w: u64)
    requires laid_out { IsLaidOut flat.old }
    requires granule { IsIn flat.old (address - address % 8) 8 }
    requires aligned { address % bytes_of_kind kind ≡ 0 }
    ensures memory { flat.new ≡ write_memory kind flat.old address w }
    ensures others { KeepsOthers flat.old flat.new (address - address % 8) 8 }
    ensures ranges { KeepsRanges flat.old flat.new }
{
    law_zeros();
    law_fields();
    law_layout();
    write_memory(flat, kind, address, w);
}

/// Makes bytes zero bytes, and changes no other byte.
pub fn zero_bytes(flat: &mut Flat, address: u64, length: u64)
    requires laid_out { IsLaidOut flat.old }
    requires address { address % 8 ≡ 0 }
    requires length { length % 8 ≡ 0 }
    requires inside { IsIn flat.old address length }
    ensures memory { flat.new ≡ with_zeros flat.old address length }
    ensures others { KeepsOthers flat.old flat.new address length }
    ensures ranges { KeepsRanges flat.old flat.new }
{
    law_zeros();
    law_layout();
    flat.zero(address, length);
}
