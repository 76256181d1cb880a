//! Declarations at file scope (C99 6.9.2).
ghost use Rattle.std.specs.Prelude.{◌≡◌, false, OnOk, map};
ghost use Rattle.ob_tree.specs.ExpressionView.{obj_tree, spec_tree};
ghost use Rattle.ob_tree.specs.ProgramView.{file_tree, params_tree};
ghost use Rattle.ob_tree.specs.TypeView.{plain_type};
ghost use Rattle.ob_typed.specs.Declarations.{check_static};
ghost use Rattle.ob_typed.specs.Specifiers.{pointers};
ghost use Rattle.ob_typed.specs.Typing.{check_file, check_files, check_head, file_base, file_env, function_names, with_head, with_object};
ghost use Rattle.ob_conversions.specs.Gives.{Gives};
ghost use Rattle.ob_context.specs.KnownView.{env_of, known_of, stand_of};
ghost use Rattle.ob_context.specs.Walks.{Walks};
ghost use Rattle.ob_types.specs.FileView.{file_of, file_stand};

use crate::file::File;
use crate::heads::declare_head;
use ob_base::{Text, let_go};
use ob_context::{Env, Known};
use ob_conversions::types::copy_type;
use ob_expressions::check_spec;
use ob_specifiers::pointers;
use ob_tree::{CType, FileDecl, ObjDecl, Params, Spec, TypeFault};
use ob_variables::{alone, check_static};
use std::alloc::Global;

/// The type that the specifier of a declaration of these names. A tag alone is declared.
pub(crate) fn file_base(
    alloc: Global,
    env: &Env,
    known: &mut Known,
    s: &Spec,
    ds: &Vec<FileDecl>,
) -> Result<CType, TypeFault>
    ensures walks { Walks plain_type result (known_of known.new) (file_base (env_of env.now (stand_of known.old)) (spec_tree s.now) (map file_tree ds.now.items) (known_of known.old)) }
    ensures stays { OnOk result (stand_of known.new ≡ stand_of known.old) }
{
    if ds.is_empty() {
        alone(alloc, env, known, s)
    } else {
        check_spec(alloc, env, known, s)
    }
}

/// The declarator of an object.
fn with_object(
    alloc: Global,
    file: &mut File,
    line: u32,
    t: &CType,
    o: &ObjDecl,
) -> Result<(), TypeFault>
    requires stand { stand_of file.old.body.known ≡ file_stand }
    requires defined { file.old.defined ≡ function_names (file_of file.old).functions }
    ensures is { Gives (λ _. file_of file.new) result (with_object (file_of file.old) (check_static (file_env file.old.env.bodies (file_of file.old).declared) line (plain_type t.now) (obj_tree o.now) (known_of file.old.body.known))) }
    ensures stand { OnOk result (stand_of file.new.body.known ≡ file_stand) }
    ensures defined { OnOk result (file.new.defined ≡ function_names (file_of file.new).functions) }
    ensures bodies { OnOk result (file.new.env.bodies ≡ file.old.env.bodies) }
{
    let named = check_static(alloc, &mut file.env, &mut file.body.known, line, t, o)?;
    Ok(file.env.names.declare(alloc, &o.name, named)?)
}

/// The declarator of a function without a body.
fn with_function(
    alloc: Global,
    file: &mut File,
    stars: u32,
    name: &Text,
    at: u32,
    t: &CType,
    params: &Params,
) -> Result<(), TypeFault>
    requires stand { stand_of file.old.body.known ≡ file_stand }
    requires defined { file.old.defined ≡ function_names (file_of file.old).functions }
    ensures is { Gives (λ _. file_of file.new) result (with_head (file_of file.old) (known_of file.old.body.known) (check_head file.old.env.bodies (file_of file.old) false name.now at (pointers stars (plain_type t.now)) (params_tree params.now) (known_of file.old.body.known))) }
    ensures stand { OnOk result (stand_of file.new.body.known ≡ file_stand) }
    ensures defined { OnOk result (file.new.defined ≡ function_names (file_of file.new).functions) }
    ensures bodies { OnOk result (file.new.env.bodies ≡ file.old.env.bodies) }
{
    let own = copy_type(alloc, t)?;
    let t = pointers(alloc, stars, own)?;
    let declared = declare_head(alloc, file, name, at, &t, params);
    let_go(t);
    declared
}

/// A declarator.
fn check_file(
    alloc: Global,
    file: &mut File,
    line: u32,
    t: &CType,
    d: &FileDecl,
) -> Result<(), TypeFault>
    requires stand { stand_of file.old.body.known ≡ file_stand }
    requires defined { file.old.defined ≡ function_names (file_of file.old).functions }
    ensures is { Gives (λ _. file_of file.new) result (check_file file.old.env.bodies line (plain_type t.now) (file_tree d.now) (file_of file.old)) }
    ensures stand { OnOk result (stand_of file.new.body.known ≡ file_stand) }
    ensures defined { OnOk result (file.new.defined ≡ function_names (file_of file.new).functions) }
    ensures bodies { OnOk result (file.new.env.bodies ≡ file.old.env.bodies) }
{
    match d {
        FileDecl::Function {
            stars,
            name,
            at,
            params,
        } => with_function(alloc, file, *stars, name, *at, t, params),
        FileDecl::Object(o) => with_object(alloc, file, line, t, o),
    }
}

/// The declarators of a declaration, in order.
pub(crate) fn check_files(
    alloc: Global,
    file: &mut File,
    line: u32,
    t: &CType,
    ds: &Vec<FileDecl>,
) -> Result<(), TypeFault>
    requires stand { stand_of file.old.body.known ≡ file_stand }
    requires defined { file.old.defined ≡ function_names (file_of file.old).functions }
    ensures is { Gives (λ _. file_of file.new) result (check_files file.old.env.bodies line (plain_type t.now) (map file_tree ds.now.items) (file_of file.old)) }
    ensures stand { OnOk result (stand_of file.new.body.known ≡ file_stand) }
    ensures defined { OnOk result (file.new.defined ≡ function_names (file_of file.new).functions) }
    ensures bodies { OnOk result (file.new.env.bodies ≡ file.old.env.bodies) }
{
    for d in ds {
        check_file(alloc, file, line, t, d)?;
    }
    Ok(())
}
