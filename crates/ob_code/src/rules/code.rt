ghost use Rattle.std.specs.Prelude.{◌≡◌, ◌+◌, ◌<◌, ◌≤◌, ◌↔◌, IsTrue, length, unsigned_abs};
ghost use Rattle.ob_code.specs.Frames.{function_at};
ghost use Rattle.ob_code.specs.Rules.{IsCodeOf, AreFunctionsSound, code_end, words_of, IsWritten, IsPlaceOf, IsBelow, IsBetween, IsOrdering, IsLast, AreOperandsSound, IsInstructionSound, IsCodeSound};
ghost use Rattle.ob_code.specs.FirstFault.{IsPartAnswer};
ghost use Rattle.ob_code.specs.Limits.{most_instructions};

use crate::image::Image;
use crate::instructions::Instr;
use ob_words::Relation;

const MOST_INSTRUCTIONS: usize = 1_048_576;

// Where the code of function f ends.
fn code_end(image: &Image, f: usize) -> usize
    requires { f < length image.now.functions }
    ensures { result ≡ code_end image.now f }
{
    match image.functions.as_slice().get(f + 1) {
        Some(next) => next.entry as usize,
        None => image.code.as_slice().len(),
    }
}

pub fn is_written(words: u32, a: u32) -> bool
    ensures { IsTrue result ↔ IsWritten words a }
{
    2 <= a && a < words
}

fn is_place_of(image: &Image, f: usize, imm: i64) -> bool
    requires { f < length image.now.functions }
    ensures { IsTrue result ↔ IsPlaceOf image.now f imm }
{
    match usize::try_from(imm) {
        Ok(to) => image.functions.as_slice()[f].entry as usize <= to && to < code_end(image, f),
        Err(_) => false,
    }
}

fn is_below(count: usize, imm: i64) -> bool
    ensures { IsTrue result ↔ IsBelow count imm }
{
    match usize::try_from(imm) {
        Ok(n) => n < count,
        Err(_) => false,
    }
}

fn is_between(low: usize, high: usize, imm: i64) -> bool
    ensures { IsTrue result ↔ IsBetween low high imm }
{
    match usize::try_from(imm) {
        Ok(n) => low <= n && n <= high,
        Err(_) => false,
    }
}

// Pointers are ordered by < > <= >= alone.
fn is_ordering(relation: Relation) -> bool
    ensures { IsTrue result ↔ IsOrdering relation }
{
    match relation {
        Relation::Lt | Relation::Gt | Relation::Le | Relation::Ge => true,
        Relation::Eq | Relation::Ne => false,
    }
}

// A call's function exists and has no more parameters than words from b on.
fn is_call(image: &Image, words: u32, b: u32, imm: i64) -> bool
    ensures { IsTrue result ↔ (IsBelow (length image.now.functions) imm × (b + (function_at image.now.functions (unsigned_abs imm)).params ≤ words)) }
{
    let functions = image.functions.as_slice();
    match usize::try_from(imm) {
        Ok(n) => n < functions.len()
            && u64::from(b) + u64::from(functions[n].params) <= u64::from(words),
        Err(_) => false,
    }
}

// The operands of an instruction on words alone: each that it has is in the frame, and a word that it
// writes is no link.
fn writes_of_two(words: u32, a: u32, b: u32) -> bool
    ensures { IsTrue result ↔ (IsWritten words a × (b < words)) }
{
    is_written(words, a) && b < words
}

fn writes_of_three(words: u32, a: u32, b: u32, c: u32) -> bool
    ensures { IsTrue result ↔ (IsWritten words a × (b < words) × (c < words)) }
{
    is_written(words, a) && b < words && c < words
}

fn operands_are_sound(image: &Image, f: usize, instr: Instr) -> bool
    requires { f < length image.now.functions }
    ensures { IsTrue result ↔ AreOperandsSound image.now f instr }
{
    let row = &image.functions.as_slice()[f];
    let words = row.words;
    match instr {
        Instr::Tick => true,
        Instr::Set { a, .. } | Instr::GetChar { a } => is_written(words, a),
        Instr::Move { a, b } | Instr::Convert { a, b, .. } => writes_of_two(words, a, b),
        Instr::PutChar { a, b } | Instr::Malloc { a, b } => writes_of_two(words, a, b),
        Instr::Binary { a, b, c, .. } | Instr::Compare { a, b, c, .. } => writes_of_three(
            words, a, b, c,
        ),
        Instr::Load { a, b, c, .. } | Instr::Shift { a, b, c } => writes_of_three(words, a, b, c),
        Instr::Same { a, b, c } | Instr::Calloc { a, b, c } => writes_of_three(words, a, b, c),
        Instr::Store { a, b, c, .. } => a < words && b < words && c < words,
        Instr::Return { b } | Instr::Free { b, .. } | Instr::Exit { b } => b < words,
        Instr::Jump { imm } => is_place_of(image, f, imm),
        Instr::JumpZero { b, imm } => b < words && is_place_of(image, f, imm),
        Instr::JumpNonzero { b, imm } => b < words && is_place_of(image, f, imm),
        Instr::Call { a, b, imm } => writes_of_two(words, a, b) && is_call(image, words, b, imm),
        Instr::Static { a, imm } => {
            is_written(words, a) && is_between(1, image.statics.as_slice().len(), imm)
        }
        Instr::Local { a, imm } => {
            is_written(words, a) && is_below(row.locals.as_slice().len(), imm)
        }
        Instr::Wipe { imm } => is_below(row.locals.as_slice().len(), imm),
        Instr::Slide { a, b, c, imm } => {
            writes_of_three(words, a, b, c) && imm.unsigned_abs() <= 4_194_304
        }
        Instr::SlideBy { a, b, imm } => {
            writes_of_two(words, a, b) && is_between(0, 4_194_304, imm)
        }
        Instr::Order { relation, a, b, c } => {
            writes_of_three(words, a, b, c) && is_ordering(relation)
        }
        Instr::Difference { a, b, c, imm } => {
            writes_of_three(words, a, b, c) && is_between(1, 4_194_304, imm)
        }
    }
}

fn is_last(instr: Instr) -> bool
    ensures { IsTrue result ↔ IsLast instr }
{
    match instr {
        Instr::Jump { .. } | Instr::Return { .. } | Instr::Exit { .. } => true,
        _ => false,
    }
}

fn instruction_is_sound(image: &Image, f: usize, i: usize) -> bool
    requires function { f < length image.now.functions }
    requires place { i < length image.now.code }
    ensures { IsTrue result ↔ IsInstructionSound image.now f i }
{
    let instr = image.code.as_slice()[i];
    let goes_on = i + 1 != code_end(image, f) || is_last(instr);
    goes_on && operands_are_sound(image, f, instr)
}

// The function whose code has place i, where f is that of the place before.
fn holder(image: &Image, f: usize, i: usize) -> usize
    requires sound { AreFunctionsSound image.now }
    requires place { i < length image.now.code }
    requires function { f < length image.now.functions }
    requires after_entry { (function_at image.now.functions f).entry ≤ i }
    requires before_end { i ≤ code_end image.now f }
    ensures { IsCodeOf image.now result i }
{
    if i == code_end(image, f) { f + 1 } else { f }
}

/// The first instruction that breaks a rule.
pub fn code_fault(image: &Image) -> Option<u64>
    requires { AreFunctionsSound image.now }
    ensures { IsPartAnswer most_instructions (length image.now.code) (IsCodeSound image.now) result }
{
    let count = image.code.as_slice().len();
    if count > MOST_INSTRUCTIONS {
        return Some(MOST_INSTRUCTIONS as u64);
    }
    let mut f = 0;
    for i in 0..count {
        f = holder(image, f, i);
        if !instruction_is_sound(image, f, i) {
            return Some(i as u64);
        }
    }
    None
}
