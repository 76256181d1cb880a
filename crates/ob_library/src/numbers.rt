ghost use Rattle.std.specs.Prelude.{◌≡◌, pos, [], IfOk, OnOk, codes};
ghost use Rattle.ob_tree.specs.ExpressionView.{expr_tree};
ghost use Rattle.ob_tree.specs.ProgramView.{stmt_tree};
ghost use Rattle.ob_library.specs.Lists.{block_trees};
ghost use Rattle.ob_tree.specs.ProgramParts.{add_statement, add_local};
ghost use Rattle.ob_library.specs.declared.types.Base.TheVariants as base;
ghost use Rattle.ob_library.specs.Nodes.{element_with as element_with_of, expr_stmt, return_stmt, set_number, set_to, variable};
ghost use Rattle.ob_library.specs.Numbers.{between as between_of, is_space as is_space_tree, spaces_skipped as spaces_skipped_tree, minus_taken as minus_taken_tree, plus_taken as plus_taken_tree, sign_taken as sign_taken_tree, with_digit as with_digit_tree, digit_taken as digit_taken_tree, digits_taken as digits_taken_tree, negated as negated_tree, signed_number as signed_number_tree, atoi_items};

use crate::functions::declare;
use crate::nodes::{binary, conditional, element_with, name, number, paren, with_number};
use crate::statements::{
    block, if_else_stmt, if_stmt, put, put_number, put_return, put_set, put_step, step, while_step,
    while_stmt,
};
use crate::types::Base;
use ob_base::NoMemory;
use ob_tree::{BlockItem, Expr, Sign, Stmt};
use std::alloc::Global;

/// `s[i] sign value`
fn compared(alloc: Global, sign: Sign, value: i128) -> Result<Box<Expr>, NoMemory>
    ensures { IfOk result (λ e. expr_tree e.value ≡ element_with_of (codes "s") (codes "i") sign value) }
{
    element_with(alloc, b"s", b"i", sign, value)
}

/// `s[i] >= low && s[i] <= high`
fn between(alloc: Global, low: i128, high: i128) -> Result<Box<Expr>, NoMemory>
    ensures { IfOk result (λ e. expr_tree e.value ≡ between_of low high) }
{
    let left = compared(alloc, Sign::Ge, low)?;
    let right = compared(alloc, Sign::Le, high)?;
    binary(alloc, Sign::AndAnd, left, right)
}

/// `s[i] == 32 || (s[i] >= 9 && s[i] <= 13)`
fn is_space(alloc: Global) -> Result<Box<Expr>, NoMemory>
    ensures { IfOk result (λ e. expr_tree e.value ≡ is_space_tree) }
{
    let right = between(alloc, 9, 13)?;
    let right = paren(alloc, right)?;
    let left = compared(alloc, Sign::EqEq, 32)?;
    binary(alloc, Sign::OrOr, left, right)
}

fn spaces_skipped(alloc: Global) -> Result<Box<Stmt>, NoMemory>
    ensures { IfOk result (λ s. stmt_tree s.value ≡ spaces_skipped_tree) }
{
    let test = is_space(alloc)?;
    while_step(alloc, test, b"i")
}

fn minus_taken(alloc: Global) -> Result<Box<Stmt>, NoMemory>
    ensures { IfOk result (λ s. stmt_tree s.value ≡ minus_taken_tree) }
{
    let mut items = Vec::new(alloc);
    put_number(alloc, &mut items, b"g", 1)?;
    put_step(alloc, &mut items, b"i", Sign::Plus, 1)?;
    block(alloc, items)
}

fn plus_taken(alloc: Global) -> Result<Box<Stmt>, NoMemory>
    ensures { IfOk result (λ s. stmt_tree s.value ≡ plus_taken_tree) }
{
    let test = compared(alloc, Sign::EqEq, 43)?;
    let then = step(alloc, b"i", Sign::Plus, 1)?;
    if_stmt(alloc, test, then)
}

fn sign_taken(alloc: Global) -> Result<Box<Stmt>, NoMemory>
    ensures { IfOk result (λ s. stmt_tree s.value ≡ sign_taken_tree) }
{
    let test = compared(alloc, Sign::EqEq, 45)?;
    let then = minus_taken(alloc)?;
    let other = plus_taken(alloc)?;
    if_else_stmt(alloc, test, then, other)
}

/// `n * 10 + (s[i] - 48)`
fn with_digit(alloc: Global) -> Result<Box<Expr>, NoMemory>
    ensures { IfOk result (λ e. expr_tree e.value ≡ with_digit_tree) }
{
    let right = compared(alloc, Sign::Minus, 48)?;
    let right = paren(alloc, right)?;
    let left = with_number(alloc, b"n", Sign::Star, 10)?;
    binary(alloc, Sign::Plus, left, right)
}

fn put_with_digit(alloc: Global, items: &mut Vec<BlockItem>) -> Result<(), NoMemory>
    ensures { OnOk result (block_trees items.new.items ≡ add_statement (block_trees items.old.items) (expr_stmt (set_to (codes "n") with_digit_tree))) }
{
    let value = with_digit(alloc)?;
    put_set(alloc, items, b"n", value)
}

fn digit_taken(alloc: Global) -> Result<Box<Stmt>, NoMemory>
    ensures { IfOk result (λ s. stmt_tree s.value ≡ digit_taken_tree) }
{
    let mut items = Vec::new(alloc);
    put_with_digit(alloc, &mut items)?;
    put_step(alloc, &mut items, b"i", Sign::Plus, 1)?;
    block(alloc, items)
}

fn digits_taken(alloc: Global) -> Result<Box<Stmt>, NoMemory>
    ensures { IfOk result (λ s. stmt_tree s.value ≡ digits_taken_tree) }
{
    let test = between(alloc, 48, 57)?;
    let body = digit_taken(alloc)?;
    while_stmt(alloc, test, body)
}

/// `0 - n`
fn negated(alloc: Global) -> Result<Box<Expr>, NoMemory>
    ensures { IfOk result (λ e. expr_tree e.value ≡ negated_tree) }
{
    let left = number(alloc, 0)?;
    let right = name(alloc, b"n")?;
    binary(alloc, Sign::Minus, left, right)
}

/// `g ? 0 - n : n`
fn signed_number(alloc: Global) -> Result<Box<Expr>, NoMemory>
    ensures { IfOk result (λ e. expr_tree e.value ≡ signed_number_tree) }
{
    let test = name(alloc, b"g")?;
    let then = negated(alloc)?;
    let other = name(alloc, b"n")?;
    conditional(alloc, test, then, other)
}

fn put_begin(alloc: Global, items: &mut Vec<BlockItem>) -> Result<(), NoMemory>
    ensures { OnOk result (block_trees items.new.items ≡ add_statement (add_statement (add_local (add_local (add_local (block_trees items.old.items) (variable base.Int 0 (codes "n"))) (variable base.Int 0 (codes "g"))) (variable base.Size 0 (codes "i"))) (set_number (codes "i") (pos 0))) spaces_skipped_tree) }
{
    declare(alloc, items, Base::Int, 0, b"n")?;
    declare(alloc, items, Base::Int, 0, b"g")?;
    declare(alloc, items, Base::Size, 0, b"i")?;
    put_number(alloc, items, b"i", 0)?;
    let stmt = spaces_skipped(alloc)?;
    put(items, stmt)
}

fn put_sign(alloc: Global, items: &mut Vec<BlockItem>) -> Result<(), NoMemory>
    ensures { OnOk result (block_trees items.new.items ≡ add_statement (add_statement (block_trees items.old.items) (set_number (codes "g") (pos 0))) sign_taken_tree) }
{
    put_number(alloc, items, b"g", 0)?;
    let stmt = sign_taken(alloc)?;
    put(items, stmt)
}

fn put_digits(alloc: Global, items: &mut Vec<BlockItem>) -> Result<(), NoMemory>
    ensures { OnOk result (block_trees items.new.items ≡ add_statement (add_statement (block_trees items.old.items) (set_number (codes "n") (pos 0))) digits_taken_tree) }
{
    put_number(alloc, items, b"n", 0)?;
    let stmt = digits_taken(alloc)?;
    put(items, stmt)
}

fn put_signed(alloc: Global, items: &mut Vec<BlockItem>) -> Result<(), NoMemory>
    ensures { OnOk result (block_trees items.new.items ≡ add_statement (block_trees items.old.items) (return_stmt signed_number_tree)) }
{
    let value = signed_number(alloc)?;
    put_return(alloc, items, value)
}

pub fn atoi(alloc: Global, items: &mut Vec<BlockItem>) -> Result<(), NoMemory>
    requires { items.old.items ≡ [] }
    ensures { OnOk result (block_trees items.new.items ≡ atoi_items) }
{
    put_begin(alloc, items)?;
    put_sign(alloc, items)?;
    put_digits(alloc, items)?;
    put_signed(alloc, items)
}
