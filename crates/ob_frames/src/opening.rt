ghost use Rattle.std.specs.Prelude.{◌≡◌, ◌+◌, ◌%◌, ◌≤◌, ◌^◌, ◌<◌};
ghost use Rattle.ob_flat.specs.Memory.{Memory, IsLaidOut, field, with_field, with_zeros};
ghost use Rattle.ob_frames.specs.Writes.{HasStack};
ghost use Rattle.ob_frames.specs.Writes.{IsOnStack, KeepsBelow, WritesWord, frame_opened};

use ob_flat::Flat;
use ob_flat::laws::{law_fields, law_layout, law_zeros};

/// Makes the `length` bytes of a frame zero bytes, and writes its two link words.
pub fn open_frame(flat: &mut Flat, base: u64, length: u64, link: u64, caller: u64)
    requires stack { HasStack flat.old }
    requires inside { IsOnStack base length }
    requires words { 16 ≤ length }
    requires base { base % 8 ≡ 0 }
    requires length { length % 8 ≡ 0 }
    ensures memory { flat.new ≡ frame_opened base length link caller flat.old }
    ensures link { field flat.new base 8 ≡ link }
    ensures caller { field flat.new (base + 8) 8 ≡ caller }
    ensures below { KeepsBelow flat.old flat.new base }
    ensures stack { HasStack flat.new }
{
    law_zeros();
    law_fields();
    law_layout();
    flat.zero(base, length);
    flat.put(base, 8, link);
    flat.put(base + 8, 8, caller);
}

/// Writes a word of a frame behind its link words.
pub fn put_in_frame(flat: &mut Flat, base: u64, address: u64, w: u64)
    requires stack { HasStack flat.old }
    requires inside { IsOnStack address 8 }
    requires behind { base + 16 ≤ address }
    ensures memory { flat.new ≡ with_field flat.old address 8 w }
    ensures word { WritesWord address w flat.old flat.new }
    ensures below { KeepsBelow flat.old flat.new (base + 16) }
    ensures stack { HasStack flat.new }
{
    law_fields();
    law_layout();
    flat.put(address, 8, w);
}
