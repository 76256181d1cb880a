ghost use Rattle.std.specs.Prelude.{◌≡◌, ◌++◌, map, IfOk, OnOk};
ghost use Rattle.std.specs.List.{flat_map};
ghost use Rattle.ob_tree.specs.ProgramView.{item_tree, program_tree};
ghost use Rattle.ob_prelude.specs.Completion.{called_alone, wanted, share, complete as complete_of};

use crate::program_calls::{program_calls, program_defines};
use ob_base::{NoMemory, push_on};
use ob_library::LibraryFunction;
use ob_tree::{Item, Program};
use std::alloc::Global;

/// The functions, in the order in which they are appended to a program.
const LIBRARY: [LibraryFunction; 11] = [
    LibraryFunction::Strlen,
    LibraryFunction::Strcpy,
    LibraryFunction::Strcat,
    LibraryFunction::Strcmp,
    LibraryFunction::Memset,
    LibraryFunction::Memcpy,
    LibraryFunction::Puts,
    LibraryFunction::Atoi,
    LibraryFunction::PrintU,
    LibraryFunction::PrintD,
    LibraryFunction::PrintS,
];

/// Whether the program calls the function and doesn't define it.
fn is_called(p: &Program, function: LibraryFunction) -> bool
    ensures { result ≡ called_alone (program_tree p.now) function }
{
    !program_defines(function.name(), p) && program_calls(function.name(), p)
}

fn is_wanted(p: &Program, function: LibraryFunction) -> bool
    ensures { result ≡ wanted (program_tree p.now) function }
{
    match function {
        LibraryFunction::PrintU => {
            !program_defines(function.name(), p)
                && (program_calls(function.name(), p) || is_called(p, LibraryFunction::PrintD))
        }
        _ => is_called(p, function),
    }
}

#[tactic(auto, unfolding(crate::specs::Completion::share), using(crate::proofs::Wanted::items_joined))]
fn put_wanted(
    alloc: Global,
    items: &mut Vec<Item>,
    p: &Program,
    function: LibraryFunction,
) -> Result<(), NoMemory>
    ensures { OnOk result (map item_tree items.new.items ≡ map item_tree items.old.items ++ share (program_tree p.now) function) }
{
    if !is_wanted(p, function) {
        return Ok(());
    }
    let item = function.tree(alloc)?;
    push_on(items, item)
}

fn additions(
    alloc: Global,
    p: &Program,
    functions: &[LibraryFunction],
) -> Result<Vec<Item>, NoMemory>
    ensures { IfOk result (λ items. map item_tree items.items ≡ flat_map (share (program_tree p.now)) functions.now) }
{
    let mut items = Vec::new(alloc);
    for function in functions {
        put_wanted(alloc, &mut items, p, *function)?;
    }
    Ok(items)
}

/// The program with the functions of the library in C that it needs behind its items: in their order, the trees of those
/// that the program calls, or one that is appended, and that the program doesn't define. Every place in such a tree is
/// the greatest of `u32`, and every line 0.
///
/// Takes memory for the trees. `NoMemory` says that there was too little, and the program is let go.
#[tactic(auto, using(crate::proofs::Wanted::items_joined))]
pub fn complete(alloc: Global, p: Program) -> Result<Program, NoMemory>
    ensures { IfOk result (λ q. program_tree q ≡ complete_of (program_tree p)) }
{
    let mut added = additions(alloc, &p, &LIBRARY)?;
    let Program { mut items } = p;
    items.append(&mut added)?;
    Ok(Program { items })
}
