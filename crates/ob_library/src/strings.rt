ghost use Rattle.std.specs.Prelude.{◌≡◌, [], IfOk, OnOk, codes};
ghost use Rattle.ob_tree.specs.ExpressionView.{expr_tree};
ghost use Rattle.ob_tree.specs.ProgramParts.{add_statement};
ghost use Rattle.ob_library.specs.Lists.{block_trees};
ghost use Rattle.ob_library.specs.Nodes.{element as element_of, return_stmt};
ghost use Rattle.ob_library.specs.Strings.{strlen_items, copying, strcpy_items, strcat_items, goes_on as goes_on_tree, same_element, end_element, comparing, difference, unsigned_element as unsigned_element_of, strcmp_items};

use crate::functions::declare;
use crate::nodes::{assign, binary, cast, element, index, name, of_names, paren};
use crate::statements::{put, put_number, put_return, put_return_name, put_scan, while_step};
use crate::types::Base;
use ob_base::NoMemory;
use ob_tree::{BlockItem, Expr, Sign};
use std::alloc::Global;

pub fn strlen(alloc: Global, items: &mut Vec<BlockItem>) -> Result<(), NoMemory>
    requires { items.old.items ≡ [] }
    ensures { OnOk result (block_trees items.new.items ≡ strlen_items) }
{
    declare(alloc, items, Base::Size, 0, b"n")?;
    put_number(alloc, items, b"n", 0)?;
    put_scan(alloc, items, b"s", b"n")?;
    put_return_name(alloc, items, b"n")
}

/// Puts `while ((target = s[n])) n = n + 1;` behind the items.
fn put_copying(alloc: Global, items: &mut Vec<BlockItem>, target: Box<Expr>) -> Result<(), NoMemory>
    ensures { OnOk result (block_trees items.new.items ≡ add_statement (block_trees items.old.items) (copying (expr_tree target.value))) }
{
    let source = element(alloc, b"s", b"n")?;
    let test = assign(alloc, target, source)?;
    let test = paren(alloc, test)?;
    let stmt = while_step(alloc, test, b"n")?;
    put(items, stmt)
}

fn put_copying_to(alloc: Global, items: &mut Vec<BlockItem>) -> Result<(), NoMemory>
    ensures { OnOk result (block_trees items.new.items ≡ add_statement (block_trees items.old.items) (copying (element_of (codes "d") (codes "n")))) }
{
    let target = element(alloc, b"d", b"n")?;
    put_copying(alloc, items, target)
}

pub fn strcpy(alloc: Global, items: &mut Vec<BlockItem>) -> Result<(), NoMemory>
    requires { items.old.items ≡ [] }
    ensures { OnOk result (block_trees items.new.items ≡ strcpy_items) }
{
    declare(alloc, items, Base::Size, 0, b"n")?;
    put_number(alloc, items, b"n", 0)?;
    put_copying_to(alloc, items)?;
    put_return_name(alloc, items, b"d")
}

fn put_copying_behind(alloc: Global, items: &mut Vec<BlockItem>) -> Result<(), NoMemory>
    ensures { OnOk result (block_trees items.new.items ≡ add_statement (block_trees items.old.items) (copying end_element)) }
{
    let place = of_names(alloc, b"i", Sign::Plus, b"n")?;
    let array = name(alloc, b"d")?;
    let target = index(alloc, array, place)?;
    put_copying(alloc, items, target)
}

pub fn strcat(alloc: Global, items: &mut Vec<BlockItem>) -> Result<(), NoMemory>
    requires { items.old.items ≡ [] }
    ensures { OnOk result (block_trees items.new.items ≡ strcat_items) }
{
    declare(alloc, items, Base::Size, 0, b"i")?;
    declare(alloc, items, Base::Size, 0, b"n")?;
    put_number(alloc, items, b"i", 0)?;
    put_scan(alloc, items, b"d", b"i")?;
    put_number(alloc, items, b"n", 0)?;
    put_copying_behind(alloc, items)?;
    put_return_name(alloc, items, b"d")
}

/// `a[n] == b[n]`
fn same_byte(alloc: Global) -> Result<Box<Expr>, NoMemory>
    ensures { IfOk result (λ e. expr_tree e.value ≡ same_element) }
{
    let left = element(alloc, b"a", b"n")?;
    let right = element(alloc, b"b", b"n")?;
    binary(alloc, Sign::EqEq, left, right)
}

/// `a[n] && a[n] == b[n]`
fn goes_on(alloc: Global) -> Result<Box<Expr>, NoMemory>
    ensures { IfOk result (λ e. expr_tree e.value ≡ goes_on_tree) }
{
    let left = element(alloc, b"a", b"n")?;
    let right = same_byte(alloc)?;
    binary(alloc, Sign::AndAnd, left, right)
}

fn put_comparing(alloc: Global, items: &mut Vec<BlockItem>) -> Result<(), NoMemory>
    ensures { OnOk result (block_trees items.new.items ≡ add_statement (block_trees items.old.items) comparing) }
{
    let test = goes_on(alloc)?;
    let stmt = while_step(alloc, test, b"n")?;
    put(items, stmt)
}

/// `(unsigned char) text[n]`
fn unsigned_element(alloc: Global, text: &[u8]) -> Result<Box<Expr>, NoMemory>
    ensures { IfOk result (λ e. expr_tree e.value ≡ unsigned_element_of text.now) }
{
    let inner = element(alloc, text, b"n")?;
    cast(alloc, Base::UnsignedChar, inner)
}

fn put_difference(alloc: Global, items: &mut Vec<BlockItem>) -> Result<(), NoMemory>
    ensures { OnOk result (block_trees items.new.items ≡ add_statement (block_trees items.old.items) (return_stmt difference)) }
{
    let left = unsigned_element(alloc, b"a")?;
    let right = unsigned_element(alloc, b"b")?;
    let value = binary(alloc, Sign::Minus, left, right)?;
    put_return(alloc, items, value)
}

pub fn strcmp(alloc: Global, items: &mut Vec<BlockItem>) -> Result<(), NoMemory>
    requires { items.old.items ≡ [] }
    ensures { OnOk result (block_trees items.new.items ≡ strcmp_items) }
{
    declare(alloc, items, Base::Size, 0, b"n")?;
    put_number(alloc, items, b"n", 0)?;
    put_comparing(alloc, items)?;
    put_difference(alloc, items)
}
