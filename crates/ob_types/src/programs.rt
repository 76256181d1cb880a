//! Programs (C99 6.9).
ghost use Rattle.std.specs.Prelude.{◌≡◌, IfOk, OnOk};
ghost use Rattle.ob_tree.specs.ProgramValid.{ValidProgram};
ghost use Rattle.ob_tree.specs.ProgramView.{program_tree};
ghost use Rattle.ob_typed.specs.Faults.{then_rule};
ghost use Rattle.ob_typed.specs.ProgramView.{typed_program};
ghost use Rattle.ob_typed.specs.Typing.{Types, body_names, check_all, completed_file, empty_file, function_names, library_known, main_name, typing};
ghost use Rattle.ob_conversions.specs.Gives.{Gives};
ghost use Rattle.ob_context.specs.KnownView.{stand_of};
ghost use Rattle.ob_types.specs.Answered.{Answered};
ghost use Rattle.ob_types.specs.FileView.{file_of, file_stand, program_of};

use crate::beginning::{body_names, builtins, library_known};
use crate::file::File;
use crate::items::check_all;
use crate::missing::{least, missing_call, missing_main};
use ob_base::{NoMemory, Text, let_go};
use ob_context::{Bodies, Env, Known, beside_part};
use ob_conversions::beside;
use ob_tree::{Program, TypeFault, TypeKind};
use ob_typed::Typed;
use ob_variables::Body;
use std::alloc::Global;

/// What is known before the first line, where these are the names of the functions with a body.
fn empty_file(alloc: Global, bodies: Bodies) -> Result<File, NoMemory>
    ensures file { IfOk result (λ f. file_of f ≡ empty_file) }
    ensures stand { IfOk result (λ f. stand_of f.body.known ≡ file_stand) }
    ensures defined { IfOk result (λ f. f.defined ≡ function_names (file_of f).functions) }
    ensures bodies { IfOk result (λ f. f.env.bodies ≡ bodies) }
{
    let (names, bodies) = beside(builtins(alloc), bodies)?;
    Ok(File {
        body: Body {
            known: Known::new(alloc),
            locals: Vec::new(alloc),
            names: Vec::new(alloc),
        },
        env: Env { names, bodies },
        functions: Vec::new(alloc),
        defined: Bodies::new(alloc),
    })
}

/// Walks a program, the functions of the library first.
fn walk(alloc: Global, file: &mut File, p: &Program) -> Result<(), TypeFault>
    requires stand { stand_of file.old.body.known ≡ file_stand }
    requires defined { file.old.defined ≡ function_names (file_of file.old).functions }
    ensures is { Gives (λ _. file_of file.new) result (then_rule (library_known file.old.env.bodies (program_tree p.now) (file_of file.old)) (λ f. check_all file.old.env.bodies (program_tree p.now) f)) }
    ensures bodies { OnOk result (file.new.env.bodies ≡ file.old.env.bodies) }
{
    library_known(alloc, file, &p.items)?;
    check_all(alloc, file, &p.items)
}

/// The items of a program.
fn walked(alloc: Global, p: &Program) -> Result<File, TypeFault>
    ensures is { Gives file_of result (then_rule (library_known (body_names (program_tree p.now)) (program_tree p.now) empty_file) (λ f. check_all (body_names (program_tree p.now)) (program_tree p.now) f)) }
    ensures bodies { IfOk result (λ f. f.env.bodies ≡ body_names (program_tree p.now)) }
{
    let bodies = body_names(alloc, &p.items)?;
    let mut file = empty_file(alloc, bodies)?;
    let ((), file) = beside_part(walk(alloc, &mut file, p), file)?;
    Ok(file)
}

/// `main`.
fn main_name(alloc: Global) -> Result<Text, NoMemory>
    ensures { IfOk result (λ name. name ≡ main_name) }
{
    let mut name = Text::new(alloc);
    name.add(b"main")?;
    Ok(name)
}

/// The number of `main`, where no function lacks a body.
fn completed_file(alloc: Global, p: &Program, file: &File) -> Result<u32, TypeFault>
    ensures { Gives (λ main. program_of (file_of file.now) main) result (completed_file file.now.env.bodies (program_tree p.now) (file_of file.now)) }
{
    let name = main_name(alloc)?;
    let main = file.env.bodies.number(&name);
    let call = missing_call(&file.env.bodies, &file.body.known.calls);
    match least(call, missing_main(&name, &p.items, &file.functions, main)) {
        Some(place) => Err(TypeFault::Fault(TypeKind::NoBody, place)),
        None => Ok(main),
    }
}

/// The typed tree of a program.
fn typed(p: &Program, file: File, main: u32) -> Typed
    requires valid { ValidProgram (program_tree p.now) }
    requires types { Types (program_tree p.now) (program_of (file_of file) main) }
    ensures { typed_program result ≡ program_of (file_of file) main }
{
    let File {
        body,
        env,
        functions,
        defined,
    } = file;
    let_go((env, defined));
    let Body {
        known,
        locals,
        names,
    } = body;
    let_go((locals, names));
    let Known {
        structs,
        tags,
        statics,
        calls,
        around,
    } = known;
    let_go((tags, calls, around));
    Typed {
        structs: structs.into_rows(),
        statics,
        functions,
        main,
    }
}

/// The typed tree of a program, or its first fault.
fn checked(alloc: Global, p: &Program) -> Result<Typed, TypeFault>
    requires { ValidProgram (program_tree p.now) }
    ensures { Gives typed_program result (typing (program_tree p.now)) }
{
    let file = walked(alloc, p)?;
    let (main, file) = beside_part(completed_file(alloc, p, &file), file)?;
    Ok(typed(p, file, main))
}

/// The typed tree of a program, or its first fault in the order of its tokens. A call of a function without a body, or a `main`
/// that isn't an `int` without parameters, is the last of all faults. More functions, parameters, objects or calls than a `u32`
/// counts find too little memory.
pub fn check(alloc: Global, p: &Program) -> Result<Typed, TypeFault>
    requires { ValidProgram (program_tree p.now) }
    ensures { Answered (program_tree p.now) result }
{
    checked(alloc, p)
}
