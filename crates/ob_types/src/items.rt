//! External declarations (C99 6.9), in order.
ghost use Rattle.std.specs.Prelude.{◌≡◌, OnOk, map};
ghost use Rattle.ob_tree.specs.ExpressionView.{spec_tree};
ghost use Rattle.ob_tree.specs.ProgramView.{file_tree, item_tree};
ghost use Rattle.ob_typed.specs.Faults.{then_rule};
ghost use Rattle.ob_typed.specs.Typing.{check_all, check_files, check_item, file_base, file_env, function_names, knowing};
ghost use Rattle.ob_conversions.specs.Gives.{Gives};
ghost use Rattle.ob_context.specs.KnownView.{known_of, stand_of};
ghost use Rattle.ob_types.specs.FileView.{file_of, file_stand};

use crate::declarations::{check_files, file_base};
use crate::file::File;
use crate::functions::check_function;
use ob_base::let_go;
use ob_tree::{FileDecl, Item, ItemNode, Spec, TypeFault};
use std::alloc::Global;

/// A declaration at file scope.
fn check_decls(
    alloc: Global,
    file: &mut File,
    line: u32,
    spec: &Spec,
    ds: &Vec<FileDecl>,
) -> Result<(), TypeFault>
    requires stand { stand_of file.old.body.known ≡ file_stand }
    requires defined { file.old.defined ≡ function_names (file_of file.old).functions }
    ensures is { Gives (λ _. file_of file.new) result (then_rule (file_base (file_env file.old.env.bodies (file_of file.old).declared) (spec_tree spec.now) (map file_tree ds.now.items) (known_of file.old.body.known)) (λ t. check_files file.old.env.bodies line t.0 (map file_tree ds.now.items) (knowing (file_of file.old) t.1))) }
    ensures stand { OnOk result (stand_of file.new.body.known ≡ file_stand) }
    ensures defined { OnOk result (file.new.defined ≡ function_names (file_of file.new).functions) }
    ensures bodies { OnOk result (file.new.env.bodies ≡ file.old.env.bodies) }
{
    let t = file_base(alloc, &file.env, &mut file.body.known, spec, ds)?;
    let checked = check_files(alloc, file, line, &t, ds);
    let_go(t);
    checked
}

/// A function with a body, or a declaration.
fn check_item(alloc: Global, file: &mut File, item: &Item) -> Result<(), TypeFault>
    requires stand { stand_of file.old.body.known ≡ file_stand }
    requires defined { file.old.defined ≡ function_names (file_of file.old).functions }
    ensures is { Gives (λ _. file_of file.new) result (check_item file.old.env.bodies (item_tree item.now) (file_of file.old)) }
    ensures stand { OnOk result (stand_of file.new.body.known ≡ file_stand) }
    ensures defined { OnOk result (file.new.defined ≡ function_names (file_of file.new).functions) }
    ensures bodies { OnOk result (file.new.env.bodies ≡ file.old.env.bodies) }
{
    match &item.node {
        ItemNode::Function {
            stars,
            name,
            at,
            params,
            body,
        } => check_function(alloc, file, &item.spec, *stars, name, *at, params, body),
        ItemNode::Decls(ds) => check_decls(alloc, file, item.line, &item.spec, ds),
    }
}

/// The items of a program, in order.
pub(crate) fn check_all(alloc: Global, file: &mut File, items: &Vec<Item>) -> Result<(), TypeFault>
    requires stand { stand_of file.old.body.known ≡ file_stand }
    requires defined { file.old.defined ≡ function_names (file_of file.old).functions }
    ensures is { Gives (λ _. file_of file.new) result (check_all file.old.env.bodies (map item_tree items.now.items) (file_of file.old)) }
    ensures bodies { OnOk result (file.new.env.bodies ≡ file.old.env.bodies) }
{
    for item in items {
        check_item(alloc, file, item)?;
    }
    Ok(())
}
