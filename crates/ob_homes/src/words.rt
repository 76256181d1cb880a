//! The home of one variable.
ghost use Rattle.std.specs.Prelude.{◌≡◌};
ghost use Rattle.ob_typed.specs.ProgramView.{typed_program};
ghost use Rattle.ob_typed.specs.TypedView.{typed_function, typed_lean};
ghost use Rattle.ob_lower.specs.Homes.{home_of, local_row, variable_word};
ghost use Rattle.ob_homes.specs.HomesView.{context_in, plain_home};

use crate::home::{Home, Homes};
use ob_typed::{TFunction, TLean, Typed};

/// Where variable `v` of a function of the program is. Takes no memory.
pub fn home_of(_t: &Typed, _f: &TFunction, h: &Homes, v: u32) -> Home
    ensures { plain_home result ≡ home_of (context_in (typed_program _t.now) (typed_function _f.now) h.now) v }
{
    match h.list.get(v as usize) {
        Some(home) => *home,
        None => Home::Bytes(0),
    }
}

/// The word of what a lean designates, where that is a plain variable.
pub fn variable_word(t: &Typed, f: &TFunction, h: &Homes, lean: &TLean) -> Option<u32>
    ensures { result ≡ variable_word (context_in (typed_program t.now) (typed_function f.now) h.now) (typed_lean lean.now) }
{
    match lean {
        TLean::Local(v) => match home_of(t, f, h, *v) {
            Home::Plain(word) => Some(word),
            Home::Bytes(_) | Home::Unseen(_) => None,
        },
        _ => None,
    }
}

/// The row of a variable that has bytes, or 0.
pub fn local_row(t: &Typed, f: &TFunction, h: &Homes, v: u32) -> u32
    ensures { result ≡ local_row (context_in (typed_program t.now) (typed_function f.now) h.now) v }
{
    match home_of(t, f, h, v) {
        Home::Plain(_) => 0,
        Home::Bytes(row) | Home::Unseen(row) => row,
    }
}
