ghost use Rattle.std.specs.Prelude.{◌≡◌};
ghost use Rattle.ob_image.specs.Reading.{Gives, given};

use crate::faults::Stop;
use ob_base::Text;
use std::alloc::Global;

/// A static object's first `count` bytes, of which the last isn't 0. Memory is taken only once the bytes
/// are there.
pub(crate) fn given(alloc: Global, count: usize, bytes: &[u8]) -> Result<(Text, &[u8]), Stop>
    ensures { Gives (λ x. (x.0, x.1.now)) result (given count bytes.now) }
{
    if bytes.len() < count {
        return Err(Stop::Left(0));
    }
    let (text, rest) = bytes.split_at(count);
    if ends_with_zero(text) {
        return Err(Stop::Left(rest.len() + 1));
    }
    Ok((Text::from_vec(Vec::from_slice(alloc, text)?), rest))
}

ghost use Rattle.std.specs.Prelude.{◌↔◌, ◌<◌, ◌-◌, IsTrue, length, slice_index};

fn ends_with_zero(text: &[u8]) -> bool
    ensures { IsTrue result ↔ ((0 < length text.now) × (slice_index text.now (length text.now - 1) ≡ 0)) }
{
    !text.is_empty() && text[text.len() - 1] == 0
}
