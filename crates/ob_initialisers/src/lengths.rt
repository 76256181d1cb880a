//! The length that an initialiser tells (C99 6.7.8).
ghost use Rattle.std.specs.Prelude.{◌≡◌, ◌+◌, IfOk, length};
ghost use Rattle.ob_tree.specs.ExpressionView.{expr_tree, init_tree};
ghost use Rattle.ob_tree.specs.TypeView.{plain_type};
ghost use Rattle.ob_typed.specs.Initialisers.{completed, foreseen, string_count, string_node, text_length, told_length, with_length};
ghost use Rattle.ob_typed.specs.Strings.{joined_bytes};
ghost use Rattle.ob_typed.specs.TypedView.{typed_init};

use ob_base::{NoMemory, Text};
use ob_conversions::types::{array_of, copy_type};
use ob_tree::{CType, Expr, ExprNode, Init};
use ob_typed::TInit;
use std::alloc::Global;

/// One more than a number.
fn one_more(n: u64) -> Result<u64, NoMemory>
    ensures { IfOk result (λ r. r ≡ n + 1) }
{
    match n.checked_add(1) {
        Some(r) => Ok(r),
        None => Err(NoMemory),
    }
}

/// How many bytes several strings have together.
fn bytes_of(strings: &Vec<Text>) -> Result<u64, NoMemory>
    ensures { IfOk result (λ r. r ≡ length (joined_bytes strings.now.items)) }
{
    let mut total: u64 = 0;
    for string in strings {
        match total.checked_add(string.bytes().len() as u64) {
            Some(sum) => total = sum,
            None => return Err(NoMemory),
        }
    }
    Ok(total)
}

/// The length of the array that a string literal is; 0 of any other expression.
fn string_length(e: &Expr) -> Result<u64, NoMemory>
    ensures { IfOk result (λ r. r ≡ string_count (string_node (expr_tree e.now))) }
{
    match &e.node {
        ExprNode::Str(strings) => one_more(bytes_of(strings)?),
        _ => Ok(0),
    }
}

/// The length that the text of an initialiser tells.
fn text_length(i: &Init) -> Result<u64, NoMemory>
    ensures { IfOk result (λ r. r ≡ text_length (init_tree i.now)) }
{
    match i {
        Init::Value(e) => string_length(e),
        Init::List { items, .. } => Ok(items.len() as u64),
    }
}

/// The length that an initialiser tells.
fn told_length(x: &TInit) -> Result<u64, NoMemory>
    ensures { IfOk result (λ r. r ≡ told_length (typed_init x.now)) }
{
    match x {
        TInit::List(items) => Ok(items.len() as u64),
        TInit::Chars(bytes) => one_more(bytes.bytes().len() as u64),
        _ => Ok(0),
    }
}

/// An array of a length, or of the length that was told where it has none.
fn with_length(alloc: Global, element: &CType, count: u64, told: u64) -> Result<CType, NoMemory>
    ensures { IfOk result (λ r. plain_type r ≡ with_length (plain_type element.now) count told) }
{
    let element = copy_type(alloc, element)?;
    array_of(alloc, element, if count == 0 { told } else { count })
}

/// The type that an object of type `t` will have after this initialiser, which bounds the addresses in it.
pub fn foreseen(alloc: Global, t: &CType, i: &Init) -> Result<CType, NoMemory>
    ensures { IfOk result (λ r. plain_type r ≡ foreseen (plain_type t.now) (init_tree i.now)) }
{
    match t {
        CType::Array(element, count) => {
            let told = text_length(i)?;
            with_length(alloc, element, *count, told)
        }
        t => copy_type(alloc, t),
    }
}

/// The type of an object of type `t` after this initialiser.
pub fn completed(alloc: Global, t: &CType, x: &TInit) -> Result<CType, NoMemory>
    ensures { IfOk result (λ r. plain_type r ≡ completed (plain_type t.now) (typed_init x.now)) }
{
    match t {
        CType::Array(element, count) => {
            let told = told_length(x)?;
            with_length(alloc, element, *count, told)
        }
        t => copy_type(alloc, t),
    }
}
