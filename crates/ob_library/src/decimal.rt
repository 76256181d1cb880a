ghost use Rattle.std.specs.Prelude.{◌≡◌, [], IfOk, OnOk, codes};
ghost use Rattle.ob_tree.specs.ExpressionView.{expr_tree};
ghost use Rattle.ob_tree.specs.ProgramView.{stmt_tree};
ghost use Rattle.ob_tree.specs.ProgramParts.{add_statement};
ghost use Rattle.ob_tree.specs.declared.tokens.Sign.TheVariants as sign;
ghost use Rattle.ob_library.specs.Lists.{block_trees};
ghost use Rattle.ob_library.specs.Nodes.{named, of_names as of_names_of, set_to, expr_stmt, block as block_of, return_stmt};
ghost use Rattle.ob_library.specs.Printing.{digit as digit_tree, next_digit as next_digit_tree, digit_kept as digit_kept_tree, digits_kept, digit_printed as digit_printed_tree, digits_printed, print_u_items, in_decimal as in_decimal_of, magnitude as magnitude_tree, negative as negative_tree, negative_block as negative_block_tree, if_negative, print_d_items};

use crate::functions::{declare, declare_array};
use crate::nodes::{
    binary, call_two, cast, element, index, name, number, of_names, string, with_number,
};
use crate::printing::{put_element_char, put_number_char};
use crate::statements::{
    assign_stmt, block, do_stmt, if_stmt, put, put_name, put_number, put_return, put_return_name,
    put_set, put_step, while_stmt,
};
use crate::types::Base;
use ob_base::NoMemory;
use ob_tree::{BlockItem, Expr, Sign, Stmt};
use std::alloc::Global;

/// `"0123456789abcdef"[v % b]`
fn digit(alloc: Global) -> Result<Box<Expr>, NoMemory>
    ensures { IfOk result (λ e. expr_tree e.value ≡ digit_tree) }
{
    let digits = string(alloc, b"0123456789abcdef")?;
    let place = of_names(alloc, b"v", Sign::Percent, b"b")?;
    index(alloc, digits, place)
}

fn next_digit(alloc: Global) -> Result<Box<Stmt>, NoMemory>
    ensures { IfOk result (λ s. stmt_tree s.value ≡ next_digit_tree) }
{
    let left = element(alloc, b"d", b"n")?;
    let right = digit(alloc)?;
    assign_stmt(alloc, left, right)
}

fn put_next_digit(alloc: Global, items: &mut Vec<BlockItem>) -> Result<(), NoMemory>
    ensures { OnOk result (block_trees items.new.items ≡ add_statement (block_trees items.old.items) next_digit_tree) }
{
    let stmt = next_digit(alloc)?;
    put(items, stmt)
}

/// Puts `v = v / b;` behind the items.
fn put_rest(alloc: Global, items: &mut Vec<BlockItem>) -> Result<(), NoMemory>
    ensures { OnOk result (block_trees items.new.items ≡ add_statement (block_trees items.old.items) (expr_stmt (set_to (codes "v") (of_names_of (codes "v") sign.Slash (codes "b"))))) }
{
    let rest = of_names(alloc, b"v", Sign::Slash, b"b")?;
    put_set(alloc, items, b"v", rest)
}

fn put_digit(alloc: Global, items: &mut Vec<BlockItem>) -> Result<(), NoMemory>
    requires { items.old.items ≡ [] }
    ensures { OnOk result (block_of (block_trees items.new.items) ≡ digit_kept_tree) }
{
    put_next_digit(alloc, items)?;
    put_step(alloc, items, b"n", Sign::Plus, 1)?;
    put_rest(alloc, items)
}

fn digit_kept(alloc: Global) -> Result<Box<Stmt>, NoMemory>
    ensures { IfOk result (λ s. stmt_tree s.value ≡ digit_kept_tree) }
{
    let mut items = Vec::new(alloc);
    put_digit(alloc, &mut items)?;
    block(alloc, items)
}

fn put_digits_kept(alloc: Global, items: &mut Vec<BlockItem>) -> Result<(), NoMemory>
    ensures { OnOk result (block_trees items.new.items ≡ add_statement (block_trees items.old.items) digits_kept) }
{
    let body = digit_kept(alloc)?;
    let test = with_number(alloc, b"v", Sign::NotEq, 0)?;
    let stmt = do_stmt(alloc, body, test)?;
    put(items, stmt)
}

fn digit_printed(alloc: Global) -> Result<Box<Stmt>, NoMemory>
    ensures { IfOk result (λ s. stmt_tree s.value ≡ digit_printed_tree) }
{
    let mut items = Vec::new(alloc);
    put_step(alloc, &mut items, b"k", Sign::Minus, 1)?;
    put_element_char(alloc, &mut items, b"d", b"k")?;
    block(alloc, items)
}

fn put_digits_printed(alloc: Global, items: &mut Vec<BlockItem>) -> Result<(), NoMemory>
    ensures { OnOk result (block_trees items.new.items ≡ add_statement (block_trees items.old.items) digits_printed) }
{
    let test = with_number(alloc, b"k", Sign::Gt, 0)?;
    let body = digit_printed(alloc)?;
    let stmt = while_stmt(alloc, test, body)?;
    put(items, stmt)
}

pub fn print_u(alloc: Global, items: &mut Vec<BlockItem>) -> Result<(), NoMemory>
    requires { items.old.items ≡ [] }
    ensures { OnOk result (block_trees items.new.items ≡ print_u_items) }
{
    declare_array(alloc, items, Base::Char, b"d", 24)?;
    declare(alloc, items, Base::Int, 0, b"n")?;
    declare(alloc, items, Base::Int, 0, b"k")?;
    put_number(alloc, items, b"n", 0)?;
    put_digits_kept(alloc, items)?;
    put_name(alloc, items, b"k", b"n")?;
    put_digits_printed(alloc, items)?;
    put_return_name(alloc, items, b"n")
}

/// `__print_u(value, 10)`
fn in_decimal(alloc: Global, value: Box<Expr>) -> Result<Box<Expr>, NoMemory>
    ensures { IfOk result (λ e. expr_tree e.value ≡ in_decimal_of (expr_tree value.value)) }
{
    let ten = number(alloc, 10)?;
    call_two(alloc, b"__print_u", value, ten)
}

/// `0 - (unsigned long) v`
fn magnitude(alloc: Global) -> Result<Box<Expr>, NoMemory>
    ensures { IfOk result (λ e. expr_tree e.value ≡ magnitude_tree) }
{
    let value = name(alloc, b"v")?;
    let value = cast(alloc, Base::UnsignedLong, value)?;
    let zero = number(alloc, 0)?;
    binary(alloc, Sign::Minus, zero, value)
}

/// `__print_u(0 - (unsigned long) v, 10) + 1`
fn negative(alloc: Global) -> Result<Box<Expr>, NoMemory>
    ensures { IfOk result (λ e. expr_tree e.value ≡ negative_tree) }
{
    let value = magnitude(alloc)?;
    let printed = in_decimal(alloc, value)?;
    let one = number(alloc, 1)?;
    binary(alloc, Sign::Plus, printed, one)
}

fn put_negative(alloc: Global, items: &mut Vec<BlockItem>) -> Result<(), NoMemory>
    ensures { OnOk result (block_trees items.new.items ≡ add_statement (block_trees items.old.items) (return_stmt negative_tree)) }
{
    let value = negative(alloc)?;
    put_return(alloc, items, value)
}

fn negative_block(alloc: Global) -> Result<Box<Stmt>, NoMemory>
    ensures { IfOk result (λ s. stmt_tree s.value ≡ negative_block_tree) }
{
    let mut items = Vec::new(alloc);
    put_number_char(alloc, &mut items, 45)?;
    put_negative(alloc, &mut items)?;
    block(alloc, items)
}

fn put_if_negative(alloc: Global, items: &mut Vec<BlockItem>) -> Result<(), NoMemory>
    ensures { OnOk result (block_trees items.new.items ≡ add_statement (block_trees items.old.items) if_negative) }
{
    let test = with_number(alloc, b"v", Sign::Lt, 0)?;
    let then = negative_block(alloc)?;
    let stmt = if_stmt(alloc, test, then)?;
    put(items, stmt)
}

fn put_plain(alloc: Global, items: &mut Vec<BlockItem>) -> Result<(), NoMemory>
    ensures { OnOk result (block_trees items.new.items ≡ add_statement (block_trees items.old.items) (return_stmt (in_decimal_of (named (codes "v"))))) }
{
    let value = name(alloc, b"v")?;
    let printed = in_decimal(alloc, value)?;
    put_return(alloc, items, printed)
}

pub fn print_d(alloc: Global, items: &mut Vec<BlockItem>) -> Result<(), NoMemory>
    requires { items.old.items ≡ [] }
    ensures { OnOk result (block_trees items.new.items ≡ print_d_items) }
{
    put_if_negative(alloc, items)?;
    put_plain(alloc, items)
}
