ghost use Rattle.std.specs.Prelude.{◌≡◌, ◌≤◌, min, nat_lt, MatchResult};
ghost use Rattle.ob_words.specs.Words.{block};
ghost use Rattle.ob_tree.specs.Sizes.{size};
ghost use Rattle.ob_tree.specs.StructsView.{plain_structs};
ghost use Rattle.ob_tree.specs.TypeView.{plain_type};
ghost use Rattle.ob_typed.specs.ProgramView.{typed_program};
ghost use Rattle.ob_limits.specs.Limits.{IsOver, IsWithinLimits, most_static_bytes, most_weight, static_bytes, weight};

use ob_layout::{has_size, is_complete, size};
use ob_tree::{CType, Structs};
use ob_typed::Typed;
use ob_words::block;

/// The most bytes that the blocks of all static objects have.
const MOST_STATIC_BYTES: u64 = 4_194_304;

/// The most that all functions weigh.
const MOST_WEIGHT: u64 = 1_048_576;

/// The bytes of a block that is over the limit by itself: that of the greatest object.
const GREATEST_BLOCK: u64 = 4_194_320;

/// A limit of programs.
#[derive(Clone, Copy, Debug, PartialEq, Eq)]
pub enum Limit {
    /// The blocks of the static objects have at most 4,194,304 bytes in all.
    Statics,
    /// The functions weigh at most 1,048,576 in all.
    Code,
}

/// Whether a program keeps the limits. `Statics` says that the blocks of its static objects have more than 4,194,304
/// bytes, and `Code` that they haven't, and that its functions weigh more than 1,048,576. Takes no memory.
pub fn limits(t: &Typed) -> Result<(), Limit>
    ensures { MatchResult result (λ _. IsWithinLimits (typed_program t.now)) (IsOver (typed_program t.now)) }
{
    if has_great_statics(t) {
        return Err(Limit::Statics);
    }
    if has_great_code(t) {
        return Err(Limit::Code);
    }
    Ok(())
}

/// Whether the static objects are over their limit.
fn has_great_statics(t: &Typed) -> bool
    ensures { result ≡ nat_lt most_static_bytes (static_bytes (typed_program t.now)) }
{
    let mut bytes: u64 = 0;
    for object in &t.statics {
        bytes += block_up_to(&t.structs, &object.ty);
        if MOST_STATIC_BYTES < bytes {
            return true;
        }
    }
    false
}

/// Whether the functions are over their limit.
fn has_great_code(t: &Typed) -> bool
    ensures { result ≡ nat_lt most_weight (weight (typed_program t.now)) }
{
    let mut left = MOST_WEIGHT;
    for function in &t.functions {
        if left < function.weight {
            return true;
        }
        left -= function.weight;
    }
    false
}

/// The bytes of the block of an object, or those of the greatest object's where it has more.
fn block_up_to(structs: &Structs, ty: &CType) -> u64
    ensures { result ≡ min (block (size (plain_structs structs.now) (plain_type ty.now))) 4194320 }
{
    if is_complete(structs, ty) {
        return block(size(structs, ty));
    }
    if has_size(structs, ty) {
        return GREATEST_BLOCK;
    }
    block(0)
}
