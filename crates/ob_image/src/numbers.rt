ghost use Rattle.std.specs.Prelude.{◌≡◌, ◌<◌, ◌≤◌, IfOk};
ghost use Rattle.ob_image.specs.Layout.{any_word};
ghost use Rattle.ob_image.specs.Reading.{Gives, number, nonzero, from_one, choice, exactly};

use crate::faults::Stop;

/// A number in `size` bytes, the lowest first, that is at most `limit`. It stops at the first byte from
/// which no such number is left.
#[tactic(auto, unfolding(crate::specs::Reading::number, crate::specs::Reading::gives))]
fn number(size: u32, limit: u64, bytes: &[u8]) -> Result<(u64, &[u8]), Stop>
    ensures value { Gives (λ x. (x.0, x.1.now)) result (number size limit bytes.now) }
    ensures most { IfOk result (λ x. x.0 ≤ limit) }
{
    if size == 0 {
        return Ok((0, bytes));
    }
    match bytes {
        [] => Err(Stop::Left(0)),
        [low, rest @ ..] => {
            let low = u64::from(*low);
            if limit < low {
                return Err(Stop::Left(bytes.len()));
            }
            let (high, rest) = number(size - 1, (limit - low) / 256, rest)?;
            Ok((low + 256 * high, rest))
        }
    }
}

/// A number of one byte that is at most `limit`.
pub(crate) fn byte(limit: u8, bytes: &[u8]) -> Result<(u8, &[u8]), Stop>
    ensures value { Gives (λ x. (x.0, x.1.now)) result (number 1 limit bytes.now) }
    ensures most { IfOk result (λ x. x.0 ≤ limit) }
{
    let (n, rest) = number(1, u64::from(limit), bytes)?;
    Ok((n as u8, rest))
}

/// Two bytes of 0.
pub(crate) fn zeros(bytes: &[u8]) -> Result<(u64, &[u8]), Stop>
    ensures { Gives (λ x. (x.0, x.1.now)) result (number 2 0 bytes.now) }
{
    number(2, 0, bytes)
}

/// A number of four bytes that is at most `limit`.
pub(crate) fn word(limit: u32, bytes: &[u8]) -> Result<(u32, &[u8]), Stop>
    ensures value { Gives (λ x. (x.0, x.1.now)) result (number 4 limit bytes.now) }
    ensures most { IfOk result (λ x. x.0 ≤ limit) }
{
    let (n, rest) = number(4, u64::from(limit), bytes)?;
    Ok((n as u32, rest))
}

/// A number of eight bytes that is at most `limit`.
pub(crate) fn long(limit: u64, bytes: &[u8]) -> Result<(u64, &[u8]), Stop>
    ensures value { Gives (λ x. (x.0, x.1.now)) result (number 8 limit bytes.now) }
    ensures most { IfOk result (λ x. x.0 ≤ limit) }
{
    number(8, limit, bytes)
}

/// A number of four bytes that isn't 0. Where it is, the last of them is the wrong one.
#[tactic(auto, unfolding(crate::specs::Reading::nonzero, crate::specs::Reading::read_if))]
pub(crate) fn nonzero(bytes: &[u8]) -> Result<(u32, &[u8]), Stop>
    ensures value { Gives (λ x. (x.0, x.1.now)) result (nonzero bytes.now) }
    ensures some { IfOk result (λ x. 0 < x.0) }
{
    let (n, rest) = word(u32::MAX, bytes)?;
    if n == 0 {
        return Err(Stop::Left(rest.len() + 1));
    }
    Ok((n, rest))
}

/// A byte from 1 up to `limit`.
#[tactic(auto, unfolding(crate::specs::Reading::from_one, crate::specs::Reading::one))]
pub(crate) fn from_one(limit: u8, bytes: &[u8]) -> Result<(u8, &[u8]), Stop>
    ensures value { Gives (λ x. (x.0, x.1.now)) result (from_one limit bytes.now) }
    ensures range { IfOk result (λ x. (1 ≤ x.0) × (x.0 ≤ limit)) }
{
    match bytes {
        [n, rest @ ..] if 1 <= *n && *n <= limit => Ok((*n, rest)),
        _ => Err(Stop::Left(bytes.len())),
    }
}

/// A number of four bytes from 1 up to `limit`.
#[tactic(auto, unfolding(crate::specs::Reading::choice, crate::specs::Reading::gives))]
pub(crate) fn choice(limit: u8, bytes: &[u8]) -> Result<(u8, &[u8]), Stop>
    ensures value { Gives (λ x. (x.0, x.1.now)) result (choice limit bytes.now) }
    ensures range { IfOk result (λ x. (1 ≤ x.0) × (x.0 ≤ limit)) }
{
    let (n, rest) = from_one(limit, bytes)?;
    let (_zeros, rest) = number(3, 0, rest)?;
    Ok((n, rest))
}

/// The bytes of `text`.
#[tactic(auto, unfolding(crate::specs::Reading::exactly, crate::specs::Reading::one, crate::specs::Reading::gives))]
pub(crate) fn exactly<'a>(text: &[u8], bytes: &'a [u8]) -> Result<&'a [u8], Stop>
    ensures { Gives (λ x. (text.now, x.now)) result (exactly text.now bytes.now) }
{
    match text {
        [] => Ok(bytes),
        [wanted, others @ ..] => match bytes {
            [] => Err(Stop::Left(0)),
            [byte, ..] if byte != wanted => Err(Stop::Left(bytes.len())),
            [_, rest @ ..] => exactly(others, rest),
        },
    }
}
