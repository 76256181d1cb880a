ghost use Rattle.std.specs.Prelude.{◌≡◌, true, length};
ghost use Rattle.ob_model.specs.Limits.{statics_start};
ghost use Rattle.ob_flat.specs.Memory.{IsLaidOut, IsWithin, with_field, with_mark};
ghost use Rattle.ob_code.specs.Layout.{static_blocks};
ghost use Rattle.ob_code.specs.Limits.{most_statics};
ghost use Rattle.ob_code.specs.Rules.{AreSound, IsStaticSound};
ghost use Rattle.ob_code.specs.Start.{with_bytes};
ghost use Rattle.ob_statics.specs.Contents.{with_given};
ghost use Rattle.ob_statics.specs.Held.{AreBases, KeepsRanges};

use ob_code::StaticRow;
use ob_flat::Flat;
use ob_flat::laws::law_layout;

/// Puts the given bytes of static objects at their bases.
pub fn lay_bytes(flat: &mut Flat, rows: &[StaticRow], bases: &[u64])
    requires sound { AreSound most_statics (length rows.now) (IsStaticSound rows.now) }
    requires bases { AreBases rows.now bases.now }
    requires laid_out { IsLaidOut flat.old }
    requires statics { flat.old.statics ≡ static_blocks rows.now }
    ensures memory { flat.new ≡ with_given statics_start rows.now flat.old }
    ensures ranges { KeepsRanges flat.old flat.new }
{
    for i in 0..rows.len() {
        put_bytes(flat, bases[i], rows[i].given.bytes());
    }
}

// Puts bytes among those of static objects, from `address` on.
fn put_bytes(flat: &mut Flat, address: u64, bytes: &[u8])
    requires laid_out { IsLaidOut flat.old }
    requires inside { IsWithin statics_start flat.old.statics address (length bytes.now) }
    ensures memory { flat.new ≡ with_bytes flat.old address bytes.now }
    ensures ranges { KeepsRanges flat.old flat.new }
{
    for i in 0..bytes.len() {
        put_byte(flat, address + i as u64, bytes[i]);
    }
}

fn put_byte(flat: &mut Flat, address: u64, byte: u8)
    requires laid_out { IsLaidOut flat.old }
    requires inside { IsWithin statics_start flat.old.statics address 1 }
    ensures memory { flat.new ≡ with_field flat.old address 1 byte }
    ensures ranges { KeepsRanges flat.old flat.new }
{
    law_layout();
    flat.put(address, 1, u64::from(byte));
}

/// Puts a pointer among the bytes of static objects.
pub fn put_pointer(flat: &mut Flat, address: u64, pointer: u64)
    requires laid_out { IsLaidOut flat.old }
    requires inside { IsWithin statics_start flat.old.statics address 8 }
    ensures memory { flat.new ≡ with_mark (with_field flat.old address 8 pointer) address true }
    ensures ranges { KeepsRanges flat.old flat.new }
{
    law_layout();
    flat.put(address, 8, pointer);
    flat.mark(address, true);
}
