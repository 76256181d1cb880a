ghost use Rattle.std.specs.Prelude.{◌≡◌, IfOk, ◌∷◌, []};
ghost use Rattle.ob_tree.specs.Trees.{ExprTree};
ghost use Rattle.ob_tree.specs.ExpressionView.{expr_tree};
ghost use Rattle.ob_library.specs.Nodes.{no_place, nowhere, named, number as number_of, string as string_of, paren as paren_of, index as index_of, binary as binary_of, assign as assign_of, conditional as conditional_of, call_one as call_one_of, call_two as call_two_of, cast as cast_of, element as element_of, of_names as of_names_of, with_number as with_number_of, element_with as element_with_of, set_to as set_to_of, moved as moved_of};
ghost use Rattle.ob_library.specs.Lists.{argument_trees};

use crate::types::{Base, NOWHERE, text_of, type_name};
use ob_base::{NoMemory, Text, boxed, listed, with_last};
use ob_tree::{Expr, ExprNode, Sign};
use ob_words::IntType;
use std::alloc::Global;

fn unplaced(node: ExprNode) -> Expr
    ensures { result ≡ record { first = no_place; at = no_place; line = 0; node = node } }
{
    Expr {
        first: NOWHERE,
        at: NOWHERE,
        line: 0,
        node,
    }
}

fn made(alloc: Global, node: ExprNode) -> Result<Box<Expr>, NoMemory>
    ensures { IfOk result (λ e. e.value ≡ record { first = no_place; at = no_place; line = 0; node = node }) }
{
    boxed(alloc, unplaced(node))
}

pub fn name(alloc: Global, text: &[u8]) -> Result<Box<Expr>, NoMemory>
    ensures { IfOk result (λ e. expr_tree e.value ≡ named text.now) }
{
    let text = text_of(alloc, text)?;
    made(alloc, ExprNode::Name(text))
}

pub fn number(alloc: Global, value: i128) -> Result<Box<Expr>, NoMemory>
    ensures { IfOk result (λ e. expr_tree e.value ≡ number_of value) }
{
    made(
        alloc,
        ExprNode::Number {
            value,
            ty: IntType::Int,
        },
    )
}

pub fn string(alloc: Global, text: &[u8]) -> Result<Box<Expr>, NoMemory>
    ensures { IfOk result (λ e. expr_tree e.value ≡ string_of text.now) }
{
    let text = text_of(alloc, text)?;
    let texts = listed(alloc, text)?;
    made(alloc, ExprNode::Str(texts))
}

pub fn paren(alloc: Global, inner: Box<Expr>) -> Result<Box<Expr>, NoMemory>
    ensures { IfOk result (λ e. expr_tree e.value ≡ paren_of (expr_tree inner.value)) }
{
    made(alloc, ExprNode::Paren(inner))
}

pub fn index(alloc: Global, array: Box<Expr>, place: Box<Expr>) -> Result<Box<Expr>, NoMemory>
    ensures { IfOk result (λ e. expr_tree e.value ≡ index_of (expr_tree array.value) (expr_tree place.value)) }
{
    made(alloc, ExprNode::Index(array, place))
}

pub fn binary(
    alloc: Global,
    sign: Sign,
    left: Box<Expr>,
    right: Box<Expr>,
) -> Result<Box<Expr>, NoMemory>
    ensures { IfOk result (λ e. expr_tree e.value ≡ binary_of sign (expr_tree left.value) (expr_tree right.value)) }
{
    made(alloc, ExprNode::Binary(sign, left, right))
}

pub fn assign(alloc: Global, left: Box<Expr>, right: Box<Expr>) -> Result<Box<Expr>, NoMemory>
    ensures { IfOk result (λ e. expr_tree e.value ≡ assign_of (expr_tree left.value) (expr_tree right.value)) }
{
    made(alloc, ExprNode::Assign(Sign::Assign, left, right))
}

pub fn conditional(
    alloc: Global,
    test: Box<Expr>,
    then: Box<Expr>,
    other: Box<Expr>,
) -> Result<Box<Expr>, NoMemory>
    ensures { IfOk result (λ e. expr_tree e.value
        ≡ conditional_of (expr_tree test.value) (expr_tree then.value) (expr_tree other.value)) }
{
    made(alloc, ExprNode::Cond(test, then, other))
}

pub fn cast(alloc: Global, base: Base, inner: Box<Expr>) -> Result<Box<Expr>, NoMemory>
    ensures { IfOk result (λ e. expr_tree e.value ≡ cast_of base (expr_tree inner.value)) }
{
    let name = type_name(alloc, base)?;
    made(alloc, ExprNode::Cast(name, inner))
}

fn call_of(name: Text, arguments: Vec<Expr>) -> Expr
    ensures { expr_tree result ≡ ExprTree.Call nowhere name (argument_trees arguments.items) }
{
    unplaced(ExprNode::Call(name, arguments))
}

fn call(alloc: Global, name: &[u8], arguments: Vec<Expr>) -> Result<Box<Expr>, NoMemory>
    ensures { IfOk result (λ e. expr_tree e.value ≡ ExprTree.Call nowhere name.now (argument_trees arguments.items)) }
{
    let name = text_of(alloc, name)?;
    boxed(alloc, call_of(name, arguments))
}

/// A call with one argument.
pub fn call_one(alloc: Global, name: &[u8], argument: Box<Expr>) -> Result<Box<Expr>, NoMemory>
    ensures { IfOk result (λ e. expr_tree e.value ≡ call_one_of name.now (expr_tree argument.value)) }
{
    let arguments = listed(alloc, Box::into_inner(argument))?;
    call(alloc, name, arguments)
}

fn two(alloc: Global, first: Box<Expr>, second: Box<Expr>) -> Result<Vec<Expr>, NoMemory>
    ensures { IfOk result (λ es. es.items ≡ first.value ∷ (second.value ∷ [])) }
{
    let arguments = listed(alloc, Box::into_inner(first))?;
    with_last(arguments, Box::into_inner(second))
}

/// A call with two arguments.
pub fn call_two(
    alloc: Global,
    name: &[u8],
    first: Box<Expr>,
    second: Box<Expr>,
) -> Result<Box<Expr>, NoMemory>
    ensures { IfOk result (λ e. expr_tree e.value ≡ call_two_of name.now (expr_tree first.value) (expr_tree second.value)) }
{
    let arguments = two(alloc, first, second)?;
    call(alloc, name, arguments)
}

/// `array[place]`
pub fn element(alloc: Global, array: &[u8], place: &[u8]) -> Result<Box<Expr>, NoMemory>
    ensures { IfOk result (λ e. expr_tree e.value ≡ element_of array.now place.now) }
{
    let array = name(alloc, array)?;
    let place = name(alloc, place)?;
    index(alloc, array, place)
}

/// `left sign right`
pub fn of_names(alloc: Global, left: &[u8], sign: Sign, right: &[u8]) -> Result<Box<Expr>, NoMemory>
    ensures { IfOk result (λ e. expr_tree e.value ≡ of_names_of left.now sign right.now) }
{
    let left = name(alloc, left)?;
    let right = name(alloc, right)?;
    binary(alloc, sign, left, right)
}

/// `text sign value`
pub fn with_number(
    alloc: Global,
    text: &[u8],
    sign: Sign,
    value: i128,
) -> Result<Box<Expr>, NoMemory>
    ensures { IfOk result (λ e. expr_tree e.value ≡ with_number_of text.now sign value) }
{
    let left = name(alloc, text)?;
    let right = number(alloc, value)?;
    binary(alloc, sign, left, right)
}

/// `array[place] sign value`
pub fn element_with(
    alloc: Global,
    array: &[u8],
    place: &[u8],
    sign: Sign,
    value: i128,
) -> Result<Box<Expr>, NoMemory>
    ensures { IfOk result (λ e. expr_tree e.value ≡ element_with_of array.now place.now sign value) }
{
    let left = element(alloc, array, place)?;
    let right = number(alloc, value)?;
    binary(alloc, sign, left, right)
}

/// `text = value`
pub fn set_to(alloc: Global, text: &[u8], value: Box<Expr>) -> Result<Box<Expr>, NoMemory>
    ensures { IfOk result (λ e. expr_tree e.value ≡ set_to_of text.now (expr_tree value.value)) }
{
    let left = name(alloc, text)?;
    assign(alloc, left, value)
}

/// `text = text sign value`
pub fn moved(alloc: Global, text: &[u8], sign: Sign, value: i128) -> Result<Box<Expr>, NoMemory>
    ensures { IfOk result (λ e. expr_tree e.value ≡ moved_of text.now sign value) }
{
    let sum = with_number(alloc, text, sign, value)?;
    set_to(alloc, text, sum)
}
