ghost use Rattle.std.specs.Prelude.{◌≡◌, [], IfOk, OnOk, codes};
ghost use Rattle.ob_tree.specs.ExpressionView.{expr_tree};
ghost use Rattle.ob_tree.specs.ProgramView.{stmt_tree};
ghost use Rattle.ob_tree.specs.ProgramParts.{add_statement};
ghost use Rattle.ob_library.specs.Lists.{block_trees};
ghost use Rattle.ob_library.specs.Nodes.{named, element as element_of};
ghost use Rattle.ob_library.specs.Copies.{filled as filled_of, start as start_of, filling as filling_of, memset_items, memcpy_items};

use crate::functions::declare;
use crate::nodes::{element, moved, name, number, of_names, set_to};
use crate::statements::{assign_stmt, for_stmt, put, put_name, put_return_name};
use crate::types::Base;
use ob_base::NoMemory;
use ob_tree::{BlockItem, Expr, Sign, Stmt};
use std::alloc::Global;

/// `d[i] = value;`
fn filled(alloc: Global, value: Box<Expr>) -> Result<Box<Stmt>, NoMemory>
    ensures { IfOk result (λ s. stmt_tree s.value ≡ filled_of (expr_tree value.value)) }
{
    let left = element(alloc, b"d", b"i")?;
    assign_stmt(alloc, left, value)
}

fn start(alloc: Global) -> Result<Box<Expr>, NoMemory>
    ensures { IfOk result (λ e. expr_tree e.value ≡ start_of) }
{
    let zero = number(alloc, 0)?;
    set_to(alloc, b"i", zero)
}

/// `for (i = 0; i < n; i = i + 1) d[i] = value;`
fn filling(alloc: Global, value: Box<Expr>) -> Result<Box<Stmt>, NoMemory>
    ensures { IfOk result (λ s. stmt_tree s.value ≡ filling_of (expr_tree value.value)) }
{
    let body = filled(alloc, value)?;
    let start = start(alloc)?;
    let test = of_names(alloc, b"i", Sign::Lt, b"n")?;
    let next = moved(alloc, b"i", Sign::Plus, 1)?;
    for_stmt(alloc, start, test, next, body)
}

fn put_set_loop(alloc: Global, items: &mut Vec<BlockItem>) -> Result<(), NoMemory>
    ensures { OnOk result (block_trees items.new.items ≡ add_statement (block_trees items.old.items) (filling_of (named (codes "c")))) }
{
    let value = name(alloc, b"c")?;
    let stmt = filling(alloc, value)?;
    put(items, stmt)
}

pub fn memset(alloc: Global, items: &mut Vec<BlockItem>) -> Result<(), NoMemory>
    requires { items.old.items ≡ [] }
    ensures { OnOk result (block_trees items.new.items ≡ memset_items) }
{
    declare(alloc, items, Base::Char, 1, b"d")?;
    declare(alloc, items, Base::Size, 0, b"i")?;
    put_name(alloc, items, b"d", b"p")?;
    put_set_loop(alloc, items)?;
    put_return_name(alloc, items, b"p")
}

fn put_copy_loop(alloc: Global, items: &mut Vec<BlockItem>) -> Result<(), NoMemory>
    ensures { OnOk result (block_trees items.new.items ≡ add_statement (block_trees items.old.items) (filling_of (element_of (codes "s") (codes "i")))) }
{
    let value = element(alloc, b"s", b"i")?;
    let stmt = filling(alloc, value)?;
    put(items, stmt)
}

pub fn memcpy(alloc: Global, items: &mut Vec<BlockItem>) -> Result<(), NoMemory>
    requires { items.old.items ≡ [] }
    ensures { OnOk result (block_trees items.new.items ≡ memcpy_items) }
{
    declare(alloc, items, Base::Char, 1, b"d")?;
    declare(alloc, items, Base::Char, 1, b"s")?;
    declare(alloc, items, Base::Size, 0, b"i")?;
    put_name(alloc, items, b"d", b"p")?;
    put_name(alloc, items, b"s", b"q")?;
    put_copy_loop(alloc, items)?;
    put_return_name(alloc, items, b"p")
}
