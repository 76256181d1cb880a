//! The homes of a function's variables.
ghost use Rattle.std.specs.Prelude.{◌≡◌, ◌+◌, ℕ, List, ◌∷◌, false, slice_index_or, IfOk};
ghost use Rattle.ob_tree.specs.TypeView.{plain_type};
ghost use Rattle.ob_typed.specs.TypeTests.{is_scalar};
ghost use Rattle.ob_typed.specs.TypedView.{typed_function};
ghost use Rattle.ob_lower.specs.Homes.{Home as PlainHome, first_word, home_first, homes, need_of, next_word, own_word, past_word, past_words, zero_word};
ghost use Rattle.ob_homes.specs.HomesView.{AreHomesOf, plain_home, plain_homes};

use crate::adding::add;
use crate::exposed::exposed_flags;
use crate::home::{Home, Homes};
use ob_base::{NoMemory, push_on};
use ob_conversions::types::is_scalar;
use ob_tree::CType;
use ob_typed::TFunction;
use std::alloc::Global;

/// What the variables so far leave: the next word for a variable that is no parameter, and the next row.
#[derive(Drop)]
struct Next {
    word: u32,
    row: u32,
}

/// Where the variables of a function are, its zero word, and the first word that is free for values of expressions.
///
/// `NoMemory` comes also where the number of a word or a row is over a `u32`; that no function of a program within the
/// limits has so many isn't proved yet. Looks at the function's tree once, going down it by recursion.
pub fn homes(alloc: Global, f: &TFunction) -> Result<Homes, NoMemory>
    ensures { IfOk result (λ h. AreHomesOf (typed_function f.now) h) }
{
    let zero = zero_word(f)?;
    let first = first_word(f)?;
    let list = home_list(alloc, f, first)?;
    let free = past_words(&list, first)?;
    Ok(Homes { list, zero, free })
}

/// The word that is 0 for the whole call.
fn zero_word(f: &TFunction) -> Result<u32, NoMemory>
    ensures { IfOk result (λ word. word ≡ zero_word (typed_function f.now)) }
{
    if f.nodes == 0 {
        Ok(1)
    } else {
        add(2, f.params)
    }
}

/// The first word for a variable that is no parameter.
fn first_word(f: &TFunction) -> Result<u32, NoMemory>
    ensures { IfOk result (λ word. word ≡ first_word (typed_function f.now)) }
{
    if f.nodes == 0 {
        add(2, f.params)
    } else {
        add(3, f.params)
    }
}

/// The homes of all variables, where `first` is the first word for one that is no parameter.
fn home_list(alloc: Global, f: &TFunction, first: u32) -> Result<Vec<Home>, NoMemory>
    requires { first ≡ first_word (typed_function f.now) }
    ensures { IfOk result (λ list. plain_homes list.items ≡ homes (typed_function f.now)) }
{
    let exposed = exposed_flags(alloc, f)?;
    let mut list = Vec::with_capacity(alloc, f.locals.len())?;
    let mut next = Next {
        word: first,
        row: 0,
    };
    let mut v: u32 = 0;
    for t in &f.locals {
        let home = placed(f, v, t, flag(&exposed, v), &mut next)?;
        push_on(&mut list, home)?;
        v = add(v, 1)?;
    }
    Ok(list)
}

/// The flag of a variable.
fn flag(flags: &[bool], v: u32) -> bool
    ensures { result ≡ slice_index_or flags.now v false }
{
    match flags.get(v as usize) {
        Some(flag) => *flag,
        None => false,
    }
}

/// The home of variable `v`, which is exposed or not, before those of others.
fn placed(
    f: &TFunction,
    v: u32,
    t: &CType,
    exposed: bool,
    next: &mut Next,
) -> Result<Home, NoMemory>
    ensures { IfOk result (λ h. (others : ℕ → ℕ → List PlainHome) → home_first (need_of (is_scalar (plain_type t.now)) exposed) (own_word (typed_function f.now) v next.old.word) (next_word (typed_function f.now) v next.old.word) next.old.word next.old.row others ≡ plain_home h ∷ others next.new.word next.new.row) }
{
    if !is_scalar(t) && !exposed {
        Ok(Home::Unseen(take_row(next)?))
    } else if exposed {
        Ok(Home::Bytes(take_row(next)?))
    } else {
        Ok(Home::Plain(take_word(f, v, next)?))
    }
}

/// The word of plain variable `v`.
fn take_word(f: &TFunction, v: u32, next: &mut Next) -> Result<u32, NoMemory>
    ensures own { IfOk result (λ word. word ≡ own_word (typed_function f.now) v next.old.word) }
    ensures next { IfOk result (λ _. next.new ≡ record next.old { word = next_word (typed_function f.now) v next.old.word }) }
{
    if v < f.params {
        return add(2, v);
    }
    let word = next.word;
    next.word = add(word, 1)?;
    Ok(word)
}

/// The next row.
fn take_row(next: &mut Next) -> Result<u32, NoMemory>
    ensures row { IfOk result (λ row. row ≡ next.old.row) }
    ensures next { IfOk result (λ _. next.new ≡ record next.old { row = next.old.row + 1 }) }
{
    let row = next.row;
    next.row = add(row, 1)?;
    Ok(row)
}

/// The first word after all that variables have, and not before `first`.
fn past_words(list: &[Home], first: u32) -> Result<u32, NoMemory>
    ensures { IfOk result (λ word. word ≡ past_words (plain_homes list.now) first) }
{
    let mut past = first;
    for home in list {
        past = past_word(*home, past)?;
    }
    Ok(past)
}

/// The first word after a variable's, and not before `n`.
fn past_word(home: Home, n: u32) -> Result<u32, NoMemory>
    ensures { IfOk result (λ word. word ≡ past_word (plain_home home) n) }
{
    match home {
        Home::Plain(word) => {
            let past = add(word, 1)?;
            Ok(if n < past { past } else { n })
        }
        Home::Bytes(_) | Home::Unseen(_) => Ok(n),
    }
}
