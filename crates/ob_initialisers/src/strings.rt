//! String literals for arrays of characters. The final zero is stored where there is room.
ghost use Rattle.std.specs.Prelude.{◌≡◌, IfOk, option_map};
ghost use Rattle.ob_tree.specs.ExpressionView.{expr_tree};
ghost use Rattle.ob_tree.specs.TypeView.{plain_type};
ghost use Rattle.ob_typed.specs.Initialisers.{chars_for, fits_length, string_for, string_node, string_rule};
ghost use Rattle.ob_typed.specs.TypedView.{typed_init};
ghost use Rattle.ob_conversions.specs.CheckedView.{mark};
ghost use Rattle.ob_conversions.specs.Gives.{Gives};

use ob_base::{NoMemory, Text};
use ob_context::refused;
use ob_conversions::Mark;
use ob_conversions::types::is_char;
use ob_specifiers::joined;
use ob_tree::{CType, Expr, ExprNode, TypeFault, TypeKind};
use ob_typed::TInit;
use std::alloc::Global;

/// The bytes of a string literal, where an expression is one.
fn string_node(alloc: Global, e: &Expr) -> Result<Option<Text>, NoMemory>
    ensures { IfOk result (λ bytes. bytes ≡ string_node (expr_tree e.now)) }
{
    match &e.node {
        ExprNode::Str(strings) => Ok(Some(joined(alloc, strings)?)),
        _ => Ok(None),
    }
}

/// The string literal for an array of elements of type `t`.
fn chars_for(alloc: Global, t: &CType, e: &Expr) -> Result<Option<Text>, NoMemory>
    ensures { IfOk result (λ bytes. bytes ≡ chars_for (plain_type t.now) (expr_tree e.now)) }
{
    match t {
        CType::Int(kind) => if is_char(*kind) {
            string_node(alloc, e)
        } else {
            Ok(None)
        },
        _ => Ok(None),
    }
}

/// The bytes of a string literal that initialises a part of type `t`.
pub(crate) fn string_for(
    alloc: Global,
    t: Option<&CType>,
    e: &Expr,
) -> Result<Option<Text>, NoMemory>
    ensures { IfOk result (λ bytes. bytes ≡ string_for (option_map (λ u. plain_type u.now) t.entry) (expr_tree e.now)) }
{
    match t {
        Some(CType::Array(element, _)) => chars_for(alloc, element, e),
        _ => Ok(None),
    }
}

/// Whether a string of this length, its final zero left out, fits an array of `count` elements, where 0 is yet to be told.
fn fits_length(count: u64, length: usize) -> bool
    ensures { result ≡ fits_length count length }
{
    count == 0 || length as u64 <= count
}

/// A string literal for an array.
pub(crate) fn string_rule(t: Option<&CType>, m: Mark, bytes: Text) -> Result<TInit, TypeFault>
    ensures { Gives typed_init result (string_rule (option_map (λ u. plain_type u.now) t.entry) (mark m) bytes) }
{
    match t {
        Some(CType::Array(_, count)) => if fits_length(*count, bytes.bytes().len()) {
            Ok(TInit::Chars(bytes))
        } else {
            refused(TypeKind::Count, m.first, bytes)
        },
        _ => refused(TypeKind::Count, m.first, bytes),
    }
}
