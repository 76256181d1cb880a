//! The rows of functions, and of their variables that have bytes.
ghost use Rattle.std.specs.Prelude.{◌≡◌, ◌++◌, ℕ, List, length, IfOk, OnOk};
ghost use Rattle.ob_tree.specs.StructsView.{plain_structs};
ghost use Rattle.ob_tree.specs.TypeView.{plain_type, plain_types};
ghost use Rattle.ob_typed.specs.ProgramView.{typed_program};
ghost use Rattle.ob_typed.specs.TypedView.{typed_function};
ghost use Rattle.ob_code.specs.declared.image.LocalRow.{LocalRow as PlainRow};
ghost use Rattle.ob_code.specs.Frames.{words_end};
ghost use Rattle.ob_lower.specs.Functions.{row_first, row_of_words, rows_from};
ghost use Rattle.ob_homes.specs.HomesView.{context_in, plain_home, plain_homes};

use crate::adding::{add, next};
use crate::lookup::home_at;
use crate::sizes::{known_allowance, known_size};
use ob_base::{NoMemory, push_on};
use ob_code::{FunctionRow, LocalRow, Rows};
use ob_homes::{Home, Homes};
use ob_tree::{CType, Structs};
use ob_typed::{TFunction, Typed};
use ob_words::block;
use std::alloc::Global;

/// The row of a function of a program, whose code begins at `entry` and names so many words.
pub fn function_row(
    alloc: Global,
    t: &Typed,
    f: &TFunction,
    h: &Homes,
    entry: u32,
    words: u32,
) -> Result<FunctionRow, NoMemory>
    ensures { IfOk result (λ row. row ≡ row_of_words (context_in (typed_program t.now) (typed_function f.now) h.now) (typed_function f.now) entry words) }
{
    let allowance = known_allowance(&t.structs, f.nodes, f.params, &f.locals)?;
    let vars = count(&f.locals)?;
    let locals = local_rows(alloc, &t.structs, &f.locals, h, words)?;
    Ok(FunctionRow {
        entry,
        params: f.params,
        words,
        vars,
        allowance,
        locals: Rows::from_vec(locals),
    })
}

/// How many variables a function has.
fn count(locals: &[CType]) -> Result<u32, NoMemory>
    ensures { IfOk result (λ n. n ≡ length (plain_types locals.now)) }
{
    match u32::try_from(locals.len()) {
        Ok(n) => Ok(n),
        Err(_) => Err(NoMemory),
    }
}

/// The rows of the variables that have bytes, in order, each after the block before, the first after so many words.
pub fn local_rows(
    alloc: Global,
    s: &Structs,
    locals: &[CType],
    h: &Homes,
    words: u32,
) -> Result<Vec<LocalRow>, NoMemory>
    ensures { IfOk result (λ rows. rows.items ≡ rows_from (plain_structs s.now) 0 (words_end words) (plain_types locals.now) (plain_homes h.now.list.items)) }
{
    let mut rows = Vec::new(alloc);
    let mut place = words_end(words);
    let mut ordinal: u32 = 0;
    for t in locals {
        match home_at(h, ordinal) {
            Some(home) => push_local(&mut rows, s, home, ordinal, &mut place, t)?,
            None => return Ok(rows),
        }
        ordinal = next(ordinal)?;
    }
    Ok(rows)
}

/// Where the words of a frame end, in bytes.
fn words_end(words: u32) -> u64
    ensures { result ≡ words_end words }
{
    16 * ((words as u64 + 1) / 2)
}

/// Puts the row of a variable at the end, where it has bytes, and goes past its block.
fn push_local(
    rows: &mut Vec<LocalRow>,
    s: &Structs,
    home: Home,
    ordinal: u32,
    place: &mut u64,
    t: &CType,
) -> Result<(), NoMemory>
    ensures { OnOk result ((others : ℕ → List PlainRow) → rows.old.items ++ row_first (plain_home home) (plain_structs s.now) ordinal place.old (plain_type t.now) others ≡ rows.new.items ++ others place.new) }
{
    match home {
        Home::Plain(_) => Ok(()),
        Home::Bytes(_) | Home::Unseen(_) => {
            let size = known_size(s, t)?;
            let row = LocalRow {
                ordinal,
                place: *place,
                size,
            };
            push_on(rows, row)?;
            *place = add(*place, block(size))?;
            Ok(())
        }
    }
}
