ghost use Rattle.std.specs.Prelude.{◌≡◌, ◌+◌, ◌<◌, ◌≤◌, ◌^◌, ◌↔◌, IsTrue, ℕ, length, MatchOption};
ghost use Rattle.ob_words.specs.Words.{block};
ghost use Rattle.ob_code.specs.Frames.{words_end, local_end, locals_end, frame_length, function_at};
ghost use Rattle.ob_code.specs.Rules.{IsLocalSound, local_at, IsFrameSound, IsEntrySound, IsFunctionSound, AreFunctionsSound};
ghost use Rattle.ob_code.specs.FirstFault.{IsFunctionFault};

use crate::image::{FunctionRow, Image, LocalRow};

const MOST_FUNCTIONS: usize = 65_536;

const MOST_BYTES: u64 = 4_194_304;

// Where the words of a frame end, in bytes from its base.
fn words_end(words: u32) -> u64
    ensures { result ≡ words_end words }
{
    (u64::from(words) + 1) / 2 * 16
}

// Where the block of a local object ends.
fn local_end(l: &LocalRow) -> u128
    ensures { result ≡ local_end l.now }
{
    u128::from(l.place) + (u128::from(l.size) / 16 + 1) * 16
}

fn local_is_sound(f: &FunctionRow, j: usize) -> bool
    requires { j < length f.now.locals }
    ensures { IsTrue result ↔ IsLocalSound f.now j }
{
    let locals = f.locals.as_slice();
    let l = &locals[j];
    l.ordinal < f.vars
        && l.size <= MOST_BYTES
        && l.place % 16 == 0
        && words_end(f.words) <= l.place
        && (j == 0 || follows(&locals[j - 1], l))
}

// Whether a local object comes after another: by its ordinal, and by the bytes that it takes.
fn follows(before: &LocalRow, l: &LocalRow) -> bool
    ensures { IsTrue result ↔ ((before.now.ordinal < l.now.ordinal) × (local_end before.now ≤ l.now.place)) }
{
    before.ordinal < l.ordinal && local_end(before) <= u128::from(l.place)
}

fn locals_are_sound(f: &FunctionRow) -> bool
    ensures { IsTrue result ↔ ((j : ℕ) → j < length f.now.locals → IsLocalSound f.now j) }
{
    for j in 0..f.locals.as_slice().len() {
        if !local_is_sound(f, j) {
            return false;
        }
    }
    true
}

/// How many bytes a frame of this function has: its words, in whole blocks of 16 bytes, and the blocks of
/// its local objects.
pub fn frame_length(f: &FunctionRow) -> u128
    ensures { result ≡ frame_length f.now }
{
    let end = match f.locals.as_slice().last() {
        Some(l) => local_end(l),
        None => 0,
    };
    u128::from(words_end(f.words)).max(end)
}

fn frame_is_sound(f: &FunctionRow) -> bool
    ensures { IsTrue result ↔ IsFrameSound f.now }
{
    2 + u64::from(f.params) <= u64::from(f.words)
        && f.words <= 4_194_304
        && f.vars <= 524_288
        && locals_are_sound(f)
        && f.allowance % 16 == 0
        && f.allowance <= 0x4000_0000_0000_0000
        && frame_length(f) <= u128::from(f.allowance)
}

fn entry_is_sound(image: &Image, i: usize) -> bool
    requires { i < length image.now.functions }
    ensures { IsTrue result ↔ IsEntrySound image.now i }
{
    let functions = image.functions.as_slice();
    let entry = functions[i].entry;
    let after = if i == 0 {
        entry == 0
    } else {
        functions[i - 1].entry < entry
    };
    after && (entry as usize) < image.code.as_slice().len()
}

fn function_is_sound(image: &Image, i: usize) -> bool
    requires { i < length image.now.functions }
    ensures { IsTrue result ↔ IsFunctionSound image.now i }
{
    let f = &image.functions.as_slice()[i];
    entry_is_sound(image, i) && frame_is_sound(f)
}

/// The first function row that breaks a rule: 0 where there is none.
pub fn function_fault(image: &Image) -> Option<u64>
    ensures { MatchOption result (AreFunctionsSound image.now) (IsFunctionFault image.now) }
{
    let count = image.functions.as_slice().len();
    if count == 0 {
        return Some(0);
    }
    if count > MOST_FUNCTIONS {
        return Some(MOST_FUNCTIONS as u64);
    }
    for i in 0..count {
        if !function_is_sound(image, i) {
            return Some(i as u64);
        }
    }
    None
}
