ghost use Rattle.std.specs.Prelude.{◌≡◌, ◌≤◌, ◌<◌, ◌^◌, ◌+ℤ◌, ◌*ℤ◌, unsigned_abs, IsFalse};
ghost use Rattle.ob_words.specs.Operators.{binary, compare, shifts};
ghost use Rattle.ob_words.specs.Types.{IsNumber};
ghost use Rattle.ob_words.specs.Words.{number, word};
ghost use Rattle.ob_words.specs.declared.types.IntType.TheVariants.{Int, Long};
ghost use Rattle.ob_code.specs.Machine.{right_number};
ghost use Rattle.ob_machine.specs.Executions.{near_word, result_word};

use ob_words::{BinOp, IntType, Relation, binary, compare, convert, word};

/// The greatest distance of an offset from 0.
const MOST_OFFSET: u128 = 1 << 62;

/// The number of type `t` that a word stands for.
#[inline(always)]
fn number(t: IntType, w: u64) -> i128
    ensures value { result ≡ number t w }
    ensures range { IsNumber t result }
{
    convert(t, w as i128)
}

/// The `int` that a word stands for.
pub(crate) fn int_of(w: u64) -> i64
    ensures { result ≡ number Int w }
{
    number(IntType::Int, w) as i64
}

/// A number of an instruction that isn't negative.
pub(crate) fn natural(imm: i64) -> u32
    requires { unsigned_abs imm < 2 ^ 32 }
    ensures { result ≡ unsigned_abs imm }
{
    imm.unsigned_abs() as u32
}

/// The `long` that a word stands for.
pub(crate) fn signed(w: u64) -> i64
    ensures { result ≡ number Long w }
{
    number(IntType::Long, w) as i64
}

#[inline(always)]
fn converted_to(t: IntType, w: u64) -> u64
    ensures { result ≡ word (number t w) }
{
    word(number(t, w))
}

/// The word of a word's number in type `t`.
#[inline(always)]
pub(crate) fn converted(t: IntType, w: u64) -> u64
    ensures { result ≡ word (number t w) }
{
    match t {
        IntType::Char => converted_to(IntType::Char, w),
        IntType::SChar => converted_to(IntType::SChar, w),
        IntType::UChar => converted_to(IntType::UChar, w),
        IntType::Short => converted_to(IntType::Short, w),
        IntType::UShort => converted_to(IntType::UShort, w),
        IntType::Int => converted_to(IntType::Int, w),
        IntType::UInt => converted_to(IntType::UInt, w),
        IntType::Long => converted_to(IntType::Long, w),
        IntType::ULong => converted_to(IntType::ULong, w),
        IntType::LLong => converted_to(IntType::LLong, w),
        IntType::ULLong => converted_to(IntType::ULLong, w),
    }
}

#[inline(always)]
fn shifts(operator: BinOp) -> bool
    ensures { result ≡ shifts operator }
{
    matches!(operator, BinOp::Shl | BinOp::Shr)
}

#[inline(always)]
fn right(operator: BinOp, t: IntType, w: u64) -> i128
    ensures value { result ≡ right_number operator t w }
    ensures range { IsFalse (shifts operator) → IsNumber t result }
{
    if shifts(operator) {
        w as i128
    } else {
        number(t, w)
    }
}

#[inline(always)]
fn computed_by(operator: BinOp, t: IntType, x: u64, y: u64) -> Option<u64>
    ensures { result ≡ result_word (binary operator t (number t x) (right_number operator t y)) }
{
    match binary(operator, t, number(t, x), right(operator, t, y)) {
        Ok(n) => Some(word(n)),
        Err(_) => None,
    }
}

#[inline(always)]
fn computed_in(operator: BinOp, t: IntType, x: u64, y: u64) -> Option<u64>
    ensures { result ≡ result_word (binary operator t (number t x) (right_number operator t y)) }
{
    match operator {
        BinOp::Add => computed_by(BinOp::Add, t, x, y),
        BinOp::Sub => computed_by(BinOp::Sub, t, x, y),
        BinOp::Mul => computed_by(BinOp::Mul, t, x, y),
        BinOp::Div => computed_by(BinOp::Div, t, x, y),
        BinOp::Rem => computed_by(BinOp::Rem, t, x, y),
        BinOp::And => computed_by(BinOp::And, t, x, y),
        BinOp::Or => computed_by(BinOp::Or, t, x, y),
        BinOp::Xor => computed_by(BinOp::Xor, t, x, y),
        BinOp::Shl => computed_by(BinOp::Shl, t, x, y),
        BinOp::Shr => computed_by(BinOp::Shr, t, x, y),
    }
}

/// The word of what an operator gives in type `t`; none where it divides by zero.
#[inline(always)]
pub(crate) fn computed(operator: BinOp, t: IntType, x: u64, y: u64) -> Option<u64>
    ensures { result ≡ result_word (binary operator t (number t x) (right_number operator t y)) }
{
    match t {
        IntType::Char => computed_in(operator, IntType::Char, x, y),
        IntType::SChar => computed_in(operator, IntType::SChar, x, y),
        IntType::UChar => computed_in(operator, IntType::UChar, x, y),
        IntType::Short => computed_in(operator, IntType::Short, x, y),
        IntType::UShort => computed_in(operator, IntType::UShort, x, y),
        IntType::Int => computed_in(operator, IntType::Int, x, y),
        IntType::UInt => computed_in(operator, IntType::UInt, x, y),
        IntType::Long => computed_in(operator, IntType::Long, x, y),
        IntType::ULong => computed_in(operator, IntType::ULong, x, y),
        IntType::LLong => computed_in(operator, IntType::LLong, x, y),
        IntType::ULLong => computed_in(operator, IntType::ULLong, x, y),
    }
}

#[inline(always)]
fn compared_small(relation: Relation, a: i64, b: i64) -> bool
    ensures { result ≡ compare relation a b }
{
    match relation {
        Relation::Lt => a < b,
        Relation::Gt => a > b,
        Relation::Le => a <= b,
        Relation::Ge => a >= b,
        Relation::Eq => a == b,
        Relation::Ne => a != b,
    }
}

#[inline(always)]
fn compared_in(relation: Relation, t: IntType, x: u64, y: u64) -> bool
    ensures { result ≡ compare relation (number t x) (number t y) }
{
    compare(relation, number(t, x), number(t, y))
}

/// Whether two words stand in a relation as numbers of type `t`.
#[inline(always)]
pub(crate) fn compared(relation: Relation, t: IntType, x: u64, y: u64) -> bool
    ensures { result ≡ compare relation (number t x) (number t y) }
{
    match t {
        IntType::Char => compared_small(
            relation,
            number(IntType::Char, x) as i64,
            number(IntType::Char, y) as i64,
        ),
        IntType::SChar => compared_small(
            relation,
            number(IntType::SChar, x) as i64,
            number(IntType::SChar, y) as i64,
        ),
        IntType::UChar => compared_small(
            relation,
            number(IntType::UChar, x) as i64,
            number(IntType::UChar, y) as i64,
        ),
        IntType::Short => compared_small(
            relation,
            number(IntType::Short, x) as i64,
            number(IntType::Short, y) as i64,
        ),
        IntType::UShort => compared_small(
            relation,
            number(IntType::UShort, x) as i64,
            number(IntType::UShort, y) as i64,
        ),
        IntType::Int => compared_small(
            relation,
            number(IntType::Int, x) as i64,
            number(IntType::Int, y) as i64,
        ),
        IntType::UInt => compared_small(
            relation,
            number(IntType::UInt, x) as i64,
            number(IntType::UInt, y) as i64,
        ),
        IntType::Long => compared_small(
            relation,
            number(IntType::Long, x) as i64,
            number(IntType::Long, y) as i64,
        ),
        IntType::LLong => compared_small(
            relation,
            number(IntType::LLong, x) as i64,
            number(IntType::LLong, y) as i64,
        ),
        IntType::ULong => compared_in(relation, IntType::ULong, x, y),
        IntType::ULLong => compared_in(relation, IntType::ULLong, x, y),
    }
}

fn near(d: i128) -> Option<u64>
    ensures { result ≡ near_word d }
{
    if d.unsigned_abs() > MOST_OFFSET {
        None
    } else {
        Some(word(d))
    }
}

fn scaled(start: i128, size: i64, count: i128) -> i128
    requires start { IsNumber Long start }
    requires size { unsigned_abs size ≤ 4194304 }
    requires count { IsNumber Long count }
    ensures { result ≡ start +ℤ size *ℤ count }
{
    start + size as i128 * count
}

/// The word of a displacement plus some times a size; none where it is too far.
pub(crate) fn slid_by_size(start: u64, size: i64, count: u64) -> Option<u64>
    requires { unsigned_abs size ≤ 4194304 }
    ensures { result ≡ near_word (number Long start +ℤ size *ℤ number Long count) }
{
    near(scaled(
        number(IntType::Long, start),
        size,
        number(IntType::Long, count),
    ))
}

fn moved(start: i128, offset: i64) -> i128
    requires start { IsNumber Long start }
    requires offset { unsigned_abs offset ≤ 4194304 }
    ensures { result ≡ start +ℤ offset }
{
    start + offset as i128
}

/// The word of a displacement plus an offset; none where it is too far.
pub(crate) fn slid_by_offset(start: u64, offset: i64) -> Option<u64>
    requires { unsigned_abs offset ≤ 4194304 }
    ensures { result ≡ near_word (number Long start +ℤ offset) }
{
    near(moved(number(IntType::Long, start), offset))
}
