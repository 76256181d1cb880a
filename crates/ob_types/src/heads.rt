//! Function declarators at file scope (C99 6.7.5.3).
ghost use Rattle.std.specs.Prelude.{◌≡◌, false, OnOk};
ghost use Rattle.ob_tree.specs.ProgramView.{params_tree};
ghost use Rattle.ob_tree.specs.TypeView.{plain_type};
ghost use Rattle.ob_typed.specs.Typing.{check_head, function_names, with_head};
ghost use Rattle.ob_scopes.specs.Names.{declared_in};
ghost use Rattle.ob_conversions.specs.Gives.{Gives};
ghost use Rattle.ob_context.specs.KnownView.{known_of, stand_of, within};
ghost use Rattle.ob_context.specs.Walks.{Walks};
ghost use Rattle.ob_functions.specs.FunctionView.{parameters};
ghost use Rattle.ob_types.specs.FileView.{file_of, file_stand};

use crate::file::File;
use ob_base::{Text, let_go};
use ob_context::beside_part;
use ob_functions::{Parameter, check_params, function_rule};
use ob_tree::{CType, Params, TypeFault};
use std::alloc::Global;

/// The declarator of a function of a result type: its parameters, with their tags in a block that stays open.
pub(crate) fn check_head(
    alloc: Global,
    file: &mut File,
    body: bool,
    name: &Text,
    at: u32,
    t: &CType,
    params: &Params,
) -> Result<Vec<Parameter>, TypeFault>
    requires stand { stand_of file.old.body.known ≡ file_stand }
    requires defined { file.old.defined ≡ function_names (file_of file.old).functions }
    ensures walks { Walks (λ ps. record { result = plain_type t.now; params = parameters ps.items; declared = declared_in file.new.env.names }) result (known_of file.new.body.known) (check_head file.old.env.bodies (file_of file.old) body name.now at (plain_type t.now) (params_tree params.now) (known_of file.old.body.known)) }
    ensures stand { OnOk result (stand_of file.new.body.known ≡ within (known_of file.old.body.known).tags file_stand) }
    ensures functions { OnOk result (file.new.functions.items ≡ file.old.functions.items) }
    ensures defined { OnOk result (file.new.defined ≡ file.old.defined) }
    ensures bodies { OnOk result (file.new.env.bodies ≡ file.old.env.bodies) }
{
    let list = check_params(alloc, &mut file.env, &mut file.body.known, params)?;
    let ruled = function_rule(
        alloc,
        &mut file.env.names,
        &file.defined,
        body,
        name,
        at,
        t,
        &list,
    );
    let (_, list) = beside_part(ruled, list)?;
    Ok(list)
}

/// Declares a function without a body. The tags in its parameters are in force in the declarator alone.
pub(crate) fn declare_head(
    alloc: Global,
    file: &mut File,
    name: &Text,
    at: u32,
    t: &CType,
    params: &Params,
) -> Result<(), TypeFault>
    requires stand { stand_of file.old.body.known ≡ file_stand }
    requires defined { file.old.defined ≡ function_names (file_of file.old).functions }
    ensures is { Gives (λ _. file_of file.new) result (with_head (file_of file.old) (known_of file.old.body.known) (check_head file.old.env.bodies (file_of file.old) false name.now at (plain_type t.now) (params_tree params.now) (known_of file.old.body.known))) }
    ensures stand { OnOk result (stand_of file.new.body.known ≡ file_stand) }
    ensures defined { OnOk result (file.new.defined ≡ function_names (file_of file.new).functions) }
    ensures bodies { OnOk result (file.new.env.bodies ≡ file.old.env.bodies) }
{
    let list = check_head(alloc, file, false, name, at, t, params)?;
    let_go(list);
    file.body.known.leave();
    Ok(())
}
