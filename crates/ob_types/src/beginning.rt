//! What is known before the first line: the built-in functions, the names of the functions with a body, and the functions of
//! the library (C99 7.19.7, 7.20.3, 7.20.4).
ghost use Rattle.std.specs.Prelude.{◌≡◌, ◌++◌, [], ◌∷◌, Ok, IfOk, OnOk, map, true};
ghost use Rattle.ob_tree.specs.ExpressionView.{spec_tree};
ghost use Rattle.ob_tree.specs.ProgramView.{item_tree, params_tree};
ghost use Rattle.ob_tree.specs.TypeView.{plain_type};
ghost use Rattle.ob_typed.specs.Expressions.{check_spec};
ghost use Rattle.ob_typed.specs.Scopes.{Env as PlainEnv, Known as PlainKnown};
ghost use Rattle.ob_typed.specs.Typing.{body_names, builtin_named, builtins, function_names, head_known, library_known};
ghost use Rattle.ob_scopes.specs.Names.{declared_in};
ghost use Rattle.ob_conversions.specs.Gives.{Gives};
ghost use Rattle.ob_context.specs.KnownView.{stand_of};
ghost use Rattle.ob_types.specs.FileView.{file_of, file_stand, known_item};

use crate::file::File;
use crate::heads::declare_head;
use ob_base::{NoMemory, Text, let_go};
use ob_context::Bodies;
use ob_conversions::beside;
use ob_scopes::{Meaning, Named, Names};
use ob_specifiers::{int_words, pointers};
use ob_tree::{CType, Item, ItemNode, Params, Spec, SpecNode, TypeFault};
use ob_typed::Builtin;
use ob_words::IntType;
use std::alloc::Global;

/// Declares a built-in function.
fn declare_builtin(
    alloc: Global,
    names: &mut Names,
    name: &[u8],
    b: Builtin,
) -> Result<(), NoMemory>
    ensures declared { OnOk result (declared_in names.new ≡ builtin_named name.now b ∷ declared_in names.old) }
{
    let mut text = Text::new(alloc);
    text.add(name)?;
    let meaning = Meaning::BuiltIn(b);
    names.declare(alloc, &text, Named { depth: 0, meaning })
}

/// Declares the built-in functions, the last of them first.
fn declare_builtins(alloc: Global, names: &mut Names) -> Result<(), NoMemory>
    ensures { OnOk result (declared_in names.new ≡ builtins ++ declared_in names.old) }
{
    declare_builtin(alloc, names, b"exit", Builtin::Exit)?;
    declare_builtin(alloc, names, b"free", Builtin::Free)?;
    declare_builtin(alloc, names, b"calloc", Builtin::Calloc)?;
    declare_builtin(alloc, names, b"malloc", Builtin::Malloc)?;
    declare_builtin(alloc, names, b"putchar", Builtin::PutChar)?;
    declare_builtin(alloc, names, b"getchar", Builtin::GetChar)
}

/// The names of the built-in functions, at file scope.
pub(crate) fn builtins(alloc: Global) -> Result<Names, NoMemory>
    ensures { IfOk result (λ names. declared_in names ≡ builtins) }
{
    let mut names = Names::new(alloc);
    let ((), names) = beside(declare_builtins(alloc, &mut names), names)?;
    Ok(names)
}

/// Adds the name of an item that is a function with a body.
fn add_body(alloc: Global, bodies: &mut Bodies, item: &Item) -> Result<(), NoMemory>
    ensures { OnOk result (bodies.new ≡ bodies.old ++ body_names (item_tree item.now ∷ [])) }
{
    match &item.node {
        ItemNode::Function { name, .. } => bodies.add(alloc, name),
        ItemNode::Decls(_) => Ok(()),
    }
}

/// Adds the names of all functions with a body, in order.
fn add_bodies(alloc: Global, bodies: &mut Bodies, items: &Vec<Item>) -> Result<(), NoMemory>
    ensures { OnOk result (bodies.new ≡ bodies.old ++ body_names (map item_tree items.now.items)) }
{
    for item in items {
        add_body(alloc, bodies, item)?;
    }
    Ok(())
}

/// The names of all functions with a body, in order.
pub(crate) fn body_names(alloc: Global, items: &Vec<Item>) -> Result<Bodies, NoMemory>
    ensures { IfOk result (λ bodies. bodies ≡ body_names (map item_tree items.now.items)) }
{
    let mut bodies = Bodies::new(alloc);
    let ((), bodies) = beside(add_bodies(alloc, &mut bodies, items), bodies)?;
    Ok(bodies)
}

/// The type that the specifier of a library function names. The library has no structures: one would find too little memory.
fn library_type(s: &Spec) -> Result<CType, NoMemory>
    ensures { (env : PlainEnv) (k : PlainKnown) → IfOk result (λ t. check_spec env (spec_tree s.now) k ≡ Ok (plain_type t, k)) }
{
    match &s.node {
        SpecNode::Void => Ok(CType::Void),
        SpecNode::SizeT => Ok(CType::Int(IntType::ULong)),
        SpecNode::Integer(words) => Ok(CType::Int(int_words(words))),
        _ => Err(NoMemory),
    }
}

/// Declares a library function.
fn head_known(
    alloc: Global,
    file: &mut File,
    spec: &Spec,
    stars: u32,
    name: &Text,
    at: u32,
    params: &Params,
) -> Result<(), TypeFault>
    requires stand { stand_of file.old.body.known ≡ file_stand }
    requires defined { file.old.defined ≡ function_names (file_of file.old).functions }
    ensures is { Gives (λ _. file_of file.new) result (head_known true file.old.env.bodies (spec_tree spec.now) stars name.now at (params_tree params.now) (file_of file.old)) }
    ensures stand { OnOk result (stand_of file.new.body.known ≡ file_stand) }
    ensures defined { OnOk result (file.new.defined ≡ function_names (file_of file.new).functions) }
    ensures bodies { OnOk result (file.new.env.bodies ≡ file.old.env.bodies) }
{
    let base = library_type(spec)?;
    let t = pointers(alloc, stars, base)?;
    let declared = declare_head(alloc, file, name, at, &t, params);
    let_go(t);
    declared
}

/// Declares a function whose tree has no places, which is one of the library.
fn known_item(alloc: Global, file: &mut File, item: &Item) -> Result<(), TypeFault>
    requires stand { stand_of file.old.body.known ≡ file_stand }
    requires defined { file.old.defined ≡ function_names (file_of file.old).functions }
    ensures is { Gives (λ _. file_of file.new) result (known_item file.old.env.bodies (item_tree item.now) (file_of file.old)) }
    ensures stand { OnOk result (stand_of file.new.body.known ≡ file_stand) }
    ensures defined { OnOk result (file.new.defined ≡ function_names (file_of file.new).functions) }
    ensures bodies { OnOk result (file.new.env.bodies ≡ file.old.env.bodies) }
{
    match &item.node {
        ItemNode::Function {
            stars,
            name,
            at,
            params,
            ..
        } => {
            if item.first == u32::MAX {
                head_known(alloc, file, &item.spec, *stars, name, *at, params)
            } else {
                Ok(())
            }
        }
        ItemNode::Decls(_) => Ok(()),
    }
}

/// Declares the functions of the library.
pub(crate) fn library_known(
    alloc: Global,
    file: &mut File,
    items: &Vec<Item>,
) -> Result<(), TypeFault>
    requires stand { stand_of file.old.body.known ≡ file_stand }
    requires defined { file.old.defined ≡ function_names (file_of file.old).functions }
    ensures is { Gives (λ _. file_of file.new) result (library_known file.old.env.bodies (map item_tree items.now.items) (file_of file.old)) }
    ensures stand { OnOk result (stand_of file.new.body.known ≡ file_stand) }
    ensures defined { OnOk result (file.new.defined ≡ function_names (file_of file.new).functions) }
    ensures bodies { OnOk result (file.new.env.bodies ≡ file.old.env.bodies) }
{
    for item in items {
        known_item(alloc, file, item)?;
    }
    Ok(())
}
