ghost use Rattle.std.specs.Prelude.{◌≡◌, ◌-◌, ◌%◌, true};
ghost use Rattle.ob_model.specs.Accesses.{bytes_of_kind};
ghost use Rattle.ob_flat.specs.Memory.{IsIn, field, with_field, has_mark, with_mark};
ghost use Rattle.ob_code.specs.Accesses.{number_word, read_memory, without_pointer, write_memory};

use ob_flat::Flat;
use ob_model::{LoadKind, size_of_kind};
use ob_words::{IntType, number, word};

/// The word of the number of a type that a word's low bytes stand for.
pub fn number_word(t: IntType, w: u64) -> u64
    ensures { result ≡ number_word t w }
{
    word(number(t, w))
}

/// What a load of this kind reads at an address: the number there, which is 0 in a granule that holds a
/// pointer; or the pointer, which is null among bytes. The bytes lie in one of the three ranges.
pub fn read_memory(flat: &Flat, kind: LoadKind, address: u64) -> u64
    requires { IsIn flat.now address (bytes_of_kind kind) }
    ensures { result ≡ read_memory kind flat.now address }
{
    let marked = flat.is_pointer(address);
    let field = flat.get(address, size_of_kind(kind));
    match (kind, marked) {
        (LoadKind::Num(_), true) | (LoadKind::Ptr, false) => 0,
        (LoadKind::Num(t), false) => number_word(t, field),
        (LoadKind::Ptr, true) => field,
    }
}

// A pointer that stands in the granule of an address leaves zero bytes.
fn remove_pointer(flat: &mut Flat, address: u64)
    requires { IsIn flat.old (address - address % 8) 8 }
    ensures { flat.new ≡ without_pointer flat.old address }
{
    if flat.is_pointer(address) {
        flat.zero(address - address % 8, 8);
    }
}

fn write_pointer(flat: &mut Flat, address: u64, w: u64)
    requires { IsIn flat.old address 8 }
    ensures { flat.new ≡ with_mark (with_field flat.old address 8 w) address true }
{
    flat.put(address, 8, w);
    flat.mark(address, true);
}

/// What a store of this kind writes at an address: a number's bytes, with the others of its granule 0 where
/// a pointer stood there; or a pointer, which takes the whole granule. The address is a multiple of the
/// bytes that the store writes, and its granule lies in one of the three ranges.
pub fn write_memory(flat: &mut Flat, kind: LoadKind, address: u64, w: u64)
    requires granule { IsIn flat.old (address - address % 8) 8 }
    requires aligned { address % bytes_of_kind kind ≡ 0 }
    ensures { flat.new ≡ write_memory kind flat.old address w }
{
    match kind {
        LoadKind::Num(_) => {
            remove_pointer(flat, address);
            flat.put(address, size_of_kind(kind), w);
        }
        LoadKind::Ptr => write_pointer(flat, address, w),
    }
}
