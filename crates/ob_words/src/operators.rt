ghost use Rattle.std.specs.Prelude.{◌≡◌, ◌↔◌, IsTrue, IsFalse};
ghost use Rattle.ob_words.specs.Types.{IsNumber};
ghost use Rattle.ob_words.specs.Operators.{binary, shifts, places, compare, Holds};

use crate::conversion::{convert, number, word};
use crate::ranks::width;
use crate::types::{BinOp, DivideByZero, IntType, Relation};

/// `a op b` in type `t` (C99 6.5.5 to 6.5.12), computed exactly and then converted to `t`, so that
/// it wraps. `a` and `b` are numbers of `t`; of a shift `b` is any number, and the count is its
/// non-negative remainder by the width of `t`. Division truncates toward zero, and the least number
/// by -1 wraps to itself with remainder 0; a right shift rounds down. Refused exactly where `op` is
/// `Div` or `Rem` and `b` is 0.
pub fn binary(op: BinOp, t: IntType, a: i128, b: i128) -> Result<i128, DivideByZero>
    requires left { IsNumber t a }
    requires right { IsFalse (shifts op) → IsNumber t b }
    ensures { result ≡ binary op t a b }
{
    Ok(match op {
        BinOp::Add => convert(t, a + b),
        BinOp::Sub => convert(t, a - b),
        BinOp::Mul => number(t, word(a).wrapping_mul(word(b))),
        BinOp::Div if b == 0 => return Err(DivideByZero),
        BinOp::Div => convert(t, a / b),
        BinOp::Rem if b == 0 => return Err(DivideByZero),
        BinOp::Rem => convert(t, a % b),
        BinOp::And => number(t, word(a) & word(b)),
        BinOp::Or => number(t, word(a) | word(b)),
        BinOp::Xor => number(t, word(a) ^ word(b)),
        BinOp::Shl => number(t, word(a) << places(t, b)),
        BinOp::Shr => a >> places(t, b),
    })
}

/// By how many places a shift by `b` moves a number of type `t`: from 0 to one less than its width.
fn places(t: IntType, b: i128) -> u32
    ensures { result ≡ places t b }
{
    (b & (width(t) as i128 - 1)) as u32
}

/// Whether `a r b` holds (C99 6.5.8 and 6.5.9). `a` and `b` are any numbers.
pub fn compare(r: Relation, a: i128, b: i128) -> bool
    ensures value { result ≡ compare r a b }
    ensures meaning { IsTrue result ↔ Holds r a b }
{
    match r {
        Relation::Lt => a < b,
        Relation::Gt => a > b,
        Relation::Le => a <= b,
        Relation::Ge => a >= b,
        Relation::Eq => a == b,
        Relation::Ne => a != b,
    }
}
