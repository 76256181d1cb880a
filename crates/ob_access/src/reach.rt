ghost use Rattle.std.specs.Prelude.{◌≡◌, ◌<◌, ◌+ℤ◌, false, IfSome};
ghost use Rattle.ob_model.specs.Accesses.{is_aligned, is_far, is_own, reach};
ghost use Rattle.ob_access.specs.Reaches.{as_reach, near};

use ob_model::inside;

/// The greatest distance of an offset from 0.
const MOST_OFFSET: u64 = 1 << 62;

/// How far an access reaches, and what becomes of it.
#[derive(Clone, Copy, Debug, PartialEq, Eq)]
pub(crate) enum Reach {
    Inside,
    Own,
    Outside,
    Vanishing,
}

/// Whether an offset or a displacement lies outside -2^62 to 2^62.
pub fn is_far(offset: i64) -> bool
    ensures { result ≡ is_far offset }
{
    offset.unsigned_abs() > MOST_OFFSET
}

/// An offset moved by a displacement; none where it then lies too far out.
pub(crate) fn moved(offset: i64, displacement: i64) -> Option<i64>
    ensures value { result ≡ near (offset +ℤ displacement) }
    ensures near { IfSome result (λ to. is_far to ≡ false) }
{
    let to = offset.checked_add(displacement)?;
    if is_far(to) { None } else { Some(to) }
}

fn is_aligned(offset: i64, k: u32) -> bool
    requires { 0 < k }
    ensures { result ≡ is_aligned offset k }
{
    offset.unsigned_abs() % u64::from(k) == 0
}

fn is_own(size: u64, offset: i64) -> bool
    ensures { result ≡ is_own size offset }
{
    match u64::try_from(offset) {
        Ok(place) => place / 8 < size.div_ceil(8),
        Err(_) => false,
    }
}

/// How far an access of `k` bytes at an offset of an object reaches.
pub(crate) fn reach_of(keeps: bool, freed: bool, size: u64, offset: i64, k: u32) -> Reach
    requires { 0 < k }
    ensures { as_reach result ≡ reach keeps freed size offset k }
{
    if freed || !is_aligned(offset, k) {
        return Reach::Vanishing;
    }
    if inside(size, offset, k) {
        return Reach::Inside;
    }
    match (keeps, is_own(size, offset)) {
        (false, _) => Reach::Vanishing,
        (true, true) => Reach::Own,
        (true, false) => Reach::Outside,
    }
}
