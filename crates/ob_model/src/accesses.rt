ghost use Rattle.std.specs.Prelude.{◌≡◌, ◌↔◌, IsTrue};
ghost use Rattle.ob_model.specs.Accesses.{bytes_of_kind, is_inside, IsInside, granule};

use crate::values::LoadKind;
use ob_words::IntType;

/// How many bytes a load or store of this kind moves: 1, 2, 4 or 8.
pub fn size_of_kind(k: LoadKind) -> u32
    ensures { result ≡ bytes_of_kind k }
{
    match k {
        LoadKind::Num(IntType::Char | IntType::SChar | IntType::UChar) => 1,
        LoadKind::Num(IntType::Short | IntType::UShort) => 2,
        LoadKind::Num(IntType::Int | IntType::UInt) => 4,
        LoadKind::Num(_) | LoadKind::Ptr => 8,
    }
}

/// Whether the `k` bytes from `offset` on lie in an object of `size` bytes.
pub fn inside(size: u64, offset: i64, k: u32) -> bool
    ensures fact { IsTrue result ↔ IsInside size offset k }
    ensures test { result ≡ is_inside size offset k }
{
    match u64::try_from(offset) {
        Ok(start) => u64::from(k) <= size && start <= size - u64::from(k),
        Err(_) => false,
    }
}

/// The granule of eight bytes that holds the byte at `offset`: `offset / 8`, rounded down.
pub fn granule_of(offset: i64) -> i64
    ensures { result ≡ granule offset }
{
    offset.div_euclid(8)
}
