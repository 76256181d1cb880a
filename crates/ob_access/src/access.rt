ghost use Rattle.std.specs.Prelude.{◌≡◌, ◌<◌, ◌≤◌, ◌+◌, ◌^◌, false, unsigned_abs, if◌then◌else◌};
ghost use Rattle.std.specs.Option.{ForSome};
ghost use Rattle.ob_model.specs.Accesses.{is_far};
ghost use Rattle.ob_model.specs.Settings.{keeps_strays};
ghost use Rattle.ob_code.specs.Accesses.{access_to, too_far};
ghost use Rattle.ob_access.specs.Pointees.{target_of};
ghost use Rattle.ob_access.specs.Reaches.{access_at, as_access};

use crate::Pointee;
use crate::reach::{Reach, is_far, moved, reach_of};
use ob_model::{Entry, Mode};

/// What becomes of an access: it is too far; it is direct, at an address of its object; or it is astray, at a
/// granule of the object's own, at a granule outside of the object, or without effect. Through null the
/// object is 0 and the offset is the displacement.
#[derive(Clone, Copy, Debug, PartialEq, Eq)]
pub enum Access {
    TooFar,
    Direct {
        address: u64,
    },
    Own {
        object: u64,
        offset: i64,
        address: u64,
    },
    Outside {
        object: u64,
        offset: i64,
    },
    Vanishing {
        object: u64,
        offset: i64,
    },
}

// The address of an offset that is not too far.
fn address(entry: &Entry, offset: i64) -> u64
    requires base { entry.now.base < 2 ^ 63 }
    requires near { unsigned_abs offset ≤ 2 ^ 62 }
    ensures { result ≡ entry.now.base + unsigned_abs offset }
{
    entry.base + offset.unsigned_abs()
}

fn keeps_strays(mode: Mode) -> bool
    ensures { result ≡ keeps_strays mode }
{
    match mode {
        Mode::Oblivious => false,
        Mode::Boundless => true,
    }
}

// An access at an offset of the object, or at none where the offset is too far.
fn access_at(mode: Mode, entry: &Entry, freed: bool, to: Option<i64>, k: u32) -> Access
    requires base { entry.now.base < 2 ^ 63 }
    requires near { ForSome to (λ offset. is_far offset ≡ false) }
    requires size { 0 < k }
    ensures { as_access result ≡ access_at mode (record { entry = entry.now; freed = freed }) to k }
{
    let Some(offset) = to else {
        return Access::TooFar;
    };
    let object = entry.object;
    match reach_of(keeps_strays(mode), freed, entry.size, offset, k) {
        Reach::Inside => Access::Direct {
            address: address(entry, offset),
        },
        Reach::Own => Access::Own {
            object,
            offset,
            address: address(entry, offset),
        },
        Reach::Outside => Access::Outside { object, offset },
        Reach::Vanishing => Access::Vanishing { object, offset },
    }
}

/// What becomes of an access of `k` bytes through a pointer, displaced by so many bytes. It is too far exactly
/// where the displacement, or the pointer's offset plus the displacement, lies outside -2^62 to 2^62. `k` is
/// at least 1, and the object's address is below 2^63.
pub fn access_to(mode: Mode, pointer: Option<Pointee>, displacement: i64, k: u32) -> Access
    requires base { ForSome pointer (λ p. p.entry.base < 2 ^ 63) }
    requires size { 0 < k }
    ensures { as_access result ≡ (if is_far displacement then too_far else access_to mode (target_of pointer) displacement k) }
{
    if is_far(displacement) {
        return Access::TooFar;
    }
    match pointer {
        None => Access::Vanishing {
            object: 0,
            offset: displacement,
        },
        Some(p) => access_at(mode, &p.entry, p.freed, moved(p.offset, displacement), k),
    }
}
