ghost use Rattle.std.specs.Prelude.{◌≡◌, ◌<◌, ◌≤◌, length};
ghost use Rattle.std.specs.List.{prefix_len};
ghost use Rattle.ob_base.specs.Names.{is_letter, is_name_byte};
ghost use Rattle.ob_image.specs.Reading.{Gives, leading, name};

use crate::faults::Stop;
use ob_base::{Text, is_name};
use std::alloc::Global;

#[tactic(auto, unfolding(ob_base::specs::Names::is_letter))]
fn is_letter(byte: u8) -> bool
    ensures { result ≡ is_letter byte }
{
    byte.is_ascii_alphabetic() || byte == b'_'
}

#[tactic(auto, unfolding(ob_base::specs::Names::is_name_byte, ob_base::specs::Names::is_digit))]
fn is_name_byte(byte: u8) -> bool
    ensures { result ≡ is_name_byte byte }
{
    is_letter(byte) || byte.is_ascii_digit()
}

/// How many bytes at the begin are letters, digits or `_`.
fn name_run(text: &[u8]) -> usize
    ensures run { result ≡ prefix_len is_name_byte text.now }
    ensures within { result ≤ length text.now }
{
    for (i, byte) in text.iter().enumerate() {
        if !is_name_byte(*byte) {
            return i;
        }
    }
    text.len()
}

/// How many bytes at the begin can stand in a name that begins there.
fn leading(text: &[u8]) -> usize
    ensures run { result ≡ leading text.now }
    ensures within { result ≤ length text.now }
{
    match text.first() {
        Some(first) if is_letter(*first) => name_run(text),
        _ => 0,
    }
}

/// A name of `count` bytes. It stops at the first byte that can't stand in one, and at the last byte of a
/// reserved word. Memory is taken only once the bytes are there.
pub(crate) fn name(alloc: Global, count: usize, bytes: &[u8]) -> Result<(Text, &[u8]), Stop>
    requires { 0 < count }
    ensures { Gives (λ x. (x.0, x.1.now)) result (name count bytes.now) }
{
    if bytes.len() < count {
        return Err(Stop::Left(bytes.len() - leading(bytes)));
    }
    let (text, rest) = bytes.split_at(count);
    let length = leading(text);
    if length < count {
        return Err(Stop::Left(bytes.len() - length));
    }
    if !is_name(text) {
        return Err(Stop::Left(rest.len() + 1));
    }
    Ok((Text::from_vec(Vec::from_slice(alloc, text)?), rest))
}
