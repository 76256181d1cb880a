ghost use Rattle.std.specs.Prelude.{◌≡◌, [], IfOk, OnOk};
ghost use Rattle.ob_tree.specs.ExpressionView.{expr_tree};
ghost use Rattle.ob_tree.specs.ProgramView.{stmt_tree};
ghost use Rattle.ob_tree.specs.ProgramParts.{add_statement};
ghost use Rattle.ob_library.specs.Lists.{block_trees};
ghost use Rattle.ob_library.specs.Nodes.{number as number_of, element as element_of};
ghost use Rattle.ob_library.specs.Printing.{put_char as put_char_of, printing_block as printing_block_tree, printing, puts_items, print_s_items};

use crate::functions::declare;
use crate::nodes::{call_one, element, number};
use crate::statements::{
    block, expr_stmt, put, put_number, put_return_name, put_return_number, put_step, while_stmt,
};
use crate::types::Base;
use ob_base::NoMemory;
use ob_tree::{BlockItem, Expr, Sign, Stmt};
use std::alloc::Global;

/// `putchar(value);`
fn put_char(alloc: Global, value: Box<Expr>) -> Result<Box<Stmt>, NoMemory>
    ensures { IfOk result (λ s. stmt_tree s.value ≡ put_char_of (expr_tree value.value)) }
{
    let call = call_one(alloc, b"putchar", value)?;
    expr_stmt(alloc, call)
}

/// Puts `putchar(array[place]);` behind the items.
pub fn put_element_char(
    alloc: Global,
    items: &mut Vec<BlockItem>,
    array: &[u8],
    place: &[u8],
) -> Result<(), NoMemory>
    ensures { OnOk result (block_trees items.new.items ≡ add_statement (block_trees items.old.items) (put_char_of (element_of array.now place.now))) }
{
    let value = element(alloc, array, place)?;
    let stmt = put_char(alloc, value)?;
    put(items, stmt)
}

/// Puts `putchar(value);` behind the items.
pub fn put_number_char(
    alloc: Global,
    items: &mut Vec<BlockItem>,
    value: i128,
) -> Result<(), NoMemory>
    ensures { OnOk result (block_trees items.new.items ≡ add_statement (block_trees items.old.items) (put_char_of (number_of value))) }
{
    let value = number(alloc, value)?;
    let stmt = put_char(alloc, value)?;
    put(items, stmt)
}

fn printing_block(alloc: Global) -> Result<Box<Stmt>, NoMemory>
    ensures { IfOk result (λ s. stmt_tree s.value ≡ printing_block_tree) }
{
    let mut items = Vec::new(alloc);
    put_element_char(alloc, &mut items, b"s", b"n")?;
    put_step(alloc, &mut items, b"n", Sign::Plus, 1)?;
    block(alloc, items)
}

/// Puts `while (s[n]) {putchar(s[n]); n = n + 1;}` behind the items.
fn put_printing(alloc: Global, items: &mut Vec<BlockItem>) -> Result<(), NoMemory>
    ensures { OnOk result (block_trees items.new.items ≡ add_statement (block_trees items.old.items) printing) }
{
    let test = element(alloc, b"s", b"n")?;
    let body = printing_block(alloc)?;
    let stmt = while_stmt(alloc, test, body)?;
    put(items, stmt)
}

pub fn puts(alloc: Global, items: &mut Vec<BlockItem>) -> Result<(), NoMemory>
    requires { items.old.items ≡ [] }
    ensures { OnOk result (block_trees items.new.items ≡ puts_items) }
{
    declare(alloc, items, Base::Size, 0, b"n")?;
    put_number(alloc, items, b"n", 0)?;
    put_printing(alloc, items)?;
    put_number_char(alloc, items, 10)?;
    put_return_number(alloc, items, 0)
}

pub fn print_s(alloc: Global, items: &mut Vec<BlockItem>) -> Result<(), NoMemory>
    requires { items.old.items ≡ [] }
    ensures { OnOk result (block_trees items.new.items ≡ print_s_items) }
{
    declare(alloc, items, Base::Int, 0, b"n")?;
    put_number(alloc, items, b"n", 0)?;
    put_printing(alloc, items)?;
    put_return_name(alloc, items, b"n")
}
