//! Functions with a body (C99 6.9.1).
ghost use Rattle.std.specs.Prelude.{◌≡◌, ◌++◌, [], ◌∷◌, false, IfOk, OnOk, length, map, true};
ghost use Rattle.ob_tree.specs.ExpressionView.{spec_tree};
ghost use Rattle.ob_tree.specs.ProgramView.{params_tree, stmt_tree};
ghost use Rattle.ob_tree.specs.TypeView.{plain_type};
ghost use Rattle.ob_typed.specs.Counts.{weight};
ghost use Rattle.ob_typed.specs.Faults.{then_rule};
ghost use Rattle.ob_typed.specs.Statements.{check_block, stmt_list};
ghost use Rattle.ob_typed.specs.TypedTree.{TypedStmt};
ghost use Rattle.ob_typed.specs.TypedView.{typed_function, typed_stmt};
ghost use Rattle.ob_typed.specs.Typing.{body_env, body_items, body_of as begun, check_function, check_head, function_names, with_function_of};
ghost use Rattle.ob_scopes.specs.Names.{declared_in};
ghost use Rattle.ob_conversions.specs.Gives.{Gives};
ghost use Rattle.ob_context.specs.KnownView.{env_of, known_of, stand_of};
ghost use Rattle.ob_context.specs.Walks.{Walks};
ghost use Rattle.ob_variables.specs.BodyView.{body_of, stmts_of};
ghost use Rattle.ob_functions.specs.FunctionView.{parameters};
ghost use Rattle.ob_types.specs.FileView.{among_params, file_of, file_stand, first_body, function_from};

use crate::file::File;
use crate::heads::check_head;
use ob_base::{NoMemory, Text, let_go, push_on};
use ob_context::{Env, beside_part};
use ob_conversions::beside;
use ob_conversions::types::copy_type;
use ob_counts::{nodes_of_function, weight};
use ob_expressions::check_spec;
use ob_functions::{Parameter, declare_params, parameter_names, parameter_types};
use ob_specifiers::pointers;
use ob_statements::check_body;
use ob_tree::{CType, Params, Spec, Stmt, TypeFault};
use ob_typed::{TFunction, TStmt};
use ob_variables::Body;
use std::alloc::Global;
use std::mem::replace;

/// Begins the body of a function: its automatic objects are its parameters, whose names are declared in a block of their own.
fn begin_body(
    alloc: Global,
    env: &mut Env,
    body: &mut Body,
    params: &Vec<Parameter>,
) -> Result<(), NoMemory>
    ensures body { OnOk result (body_of body.new ≡ first_body (known_of body.old.known) (parameters params.now.items)) }
    ensures env { OnOk result (env_of env.new (stand_of body.new.known) ≡ among_params (env_of env.old (stand_of body.old.known)) (parameters params.now.items)) }
    ensures stays { OnOk result (stand_of body.new.known ≡ stand_of body.old.known) }
    ensures scopes { OnOk result (env.new.names.outer ≡ env.old.names.bindings ∷ env.old.names.outer) }
    ensures bodies { OnOk result (env.new.bodies ≡ env.old.bodies) }
{
    body.locals = parameter_types(alloc, params)?;
    body.names = parameter_names(alloc, params)?;
    env.names.enter()?;
    declare_params(alloc, env, &body.known, params)
}

/// The statements of a function's body, whose outermost block is that of the parameters.
fn walk_body(
    alloc: Global,
    env: &mut Env,
    body: &mut Body,
    t: &CType,
    params: &Vec<Parameter>,
    s: &Stmt,
) -> Result<Vec<TStmt>, TypeFault>
    ensures walks { Walks (λ ss. stmts_of ss.items) result (body_of body.new) (check_block (among_params (env_of env.old (stand_of body.old.known)) (parameters params.now.items)) false (plain_type t.now) [] (body_items (stmt_tree s.now)) (first_body (known_of body.old.known) (parameters params.now.items))) }
    ensures stays { OnOk result (stand_of body.new.known ≡ stand_of body.old.known) }
    ensures env { OnOk result (env.new ≡ env.old) }
{
    begin_body(alloc, env, body, params)?;
    let statements = check_body(alloc, env, body, t, s)?;
    env.names.leave();
    Ok(statements)
}

/// A block of statements.
fn block(statements: Vec<TStmt>) -> TStmt
    ensures { typed_stmt result ≡ TypedStmt.Block (stmt_list (stmts_of statements.items)) }
{
    TStmt::Block(statements)
}

/// The number of parameters. More than a `u32` counts find too little memory.
fn counted(count: usize) -> Result<u32, NoMemory>
    ensures { IfOk result (λ n. n ≡ count) }
{
    match u32::try_from(count) {
        Ok(count) => Ok(count),
        Err(_) => Err(NoMemory),
    }
}

/// The weight of a function of this body, with `nodes` expressions.
fn weight_of(body: &Body, nodes: u64, statements: &TStmt) -> Result<u64, NoMemory>
    ensures { IfOk result (λ n. n ≡ weight (known_of body.now.known).structs (length (body_of body.now).locals) nodes (typed_stmt statements.now)) }
{
    weight(
        body.known.structs.rows(),
        body.locals.len(),
        nodes,
        statements,
    )
}

/// A function of this body, with `count` parameters and `nodes` expressions. Its automatic objects are taken from what its
/// statements added to.
fn function(
    alloc: Global,
    body: &mut Body,
    name: &Text,
    t: &CType,
    count: usize,
    nodes: u64,
    statements: TStmt,
) -> Result<TFunction, NoMemory>
    ensures is { IfOk result (λ f. typed_function f ≡ function_from name.now (plain_type t.now) count nodes (body_of body.old) (typed_stmt statements)) }
    ensures known { known_of body.new.known ≡ known_of body.old.known }
    ensures stays { stand_of body.new.known ≡ stand_of body.old.known }
{
    let (weight, statements) = beside(weight_of(body, nodes, &statements), statements)?;
    let (result, statements) = beside(copy_type(alloc, t), statements)?;
    let (name, (result, statements)) = beside(name.copy(alloc), (result, statements))?;
    let (params, (name, result, statements)) = beside(counted(count), (name, result, statements))?;
    Ok(TFunction {
        name,
        result,
        params,
        locals: replace(&mut body.locals, Vec::new(alloc)),
        names: replace(&mut body.names, Vec::new(alloc)),
        nodes,
        weight,
        body: statements,
    })
}

/// One more function with a body.
fn add_function(
    alloc: Global,
    file: &mut File,
    name: &Text,
    t: &CType,
    count: usize,
    nodes: u64,
    statements: Vec<TStmt>,
) -> Result<(), NoMemory>
    ensures functions { OnOk result ((file_of file.new).functions ≡ (file_of file.old).functions ++ function_from name.now (plain_type t.now) count nodes (body_of file.old.body) (TypedStmt.Block (stmt_list (stmts_of statements.items))) ∷ []) }
    ensures defined { OnOk result (file.new.defined ≡ file.old.defined ++ name.now ∷ []) }
    ensures known { OnOk result (known_of file.new.body.known ≡ known_of file.old.body.known) }
    ensures stays { OnOk result (stand_of file.new.body.known ≡ stand_of file.old.body.known) }
    ensures env { OnOk result (file.new.env ≡ file.old.env) }
{
    let added = function(
        alloc,
        &mut file.body,
        name,
        t,
        count,
        nodes,
        block(statements),
    )?;
    push_on(&mut file.functions, added)?;
    file.defined.add(alloc, name)
}

/// A function of a result type, from its declarator on. The tags in its parameters are in force in its body too.
fn with_body(
    alloc: Global,
    file: &mut File,
    name: &Text,
    at: u32,
    t: &CType,
    nodes: u64,
    params: &Params,
    body: &Stmt,
) -> Result<(), TypeFault>
    requires stand { stand_of file.old.body.known ≡ file_stand }
    requires defined { file.old.defined ≡ function_names (file_of file.old).functions }
    ensures is { Gives (λ _. file_of file.new) result (then_rule (check_head file.old.env.bodies (file_of file.old) true name.now at (plain_type t.now) (params_tree params.now) (known_of file.old.body.known)) (λ h. with_function_of (file_of file.old) (known_of file.old.body.known) name.now h.0 nodes (check_block (body_env file.old.env.bodies h.0) false h.0.result [] (body_items (stmt_tree body.now)) (begun h.0 h.1)))) }
    ensures stand { OnOk result (stand_of file.new.body.known ≡ file_stand) }
    ensures defined { OnOk result (file.new.defined ≡ function_names (file_of file.new).functions) }
    ensures bodies { OnOk result (file.new.env.bodies ≡ file.old.env.bodies) }
{
    let list = check_head(alloc, file, true, name, at, t, params)?;
    let walked = walk_body(alloc, &mut file.env, &mut file.body, t, &list, body);
    let (statements, list) = beside_part(walked, list)?;
    let count = list.len();
    let_go(list);
    file.body.known.leave();
    Ok(add_function(alloc, file, name, t, count, nodes, statements)?)
}

/// A function with a body.
pub(crate) fn check_function(
    alloc: Global,
    file: &mut File,
    spec: &Spec,
    stars: u32,
    name: &Text,
    at: u32,
    params: &Params,
    body: &Stmt,
) -> Result<(), TypeFault>
    requires stand { stand_of file.old.body.known ≡ file_stand }
    requires defined { file.old.defined ≡ function_names (file_of file.old).functions }
    ensures is { Gives (λ _. file_of file.new) result (check_function file.old.env.bodies (file_of file.old) (spec_tree spec.now) stars name.now at (params_tree params.now) (stmt_tree body.now)) }
    ensures stand { OnOk result (stand_of file.new.body.known ≡ file_stand) }
    ensures defined { OnOk result (file.new.defined ≡ function_names (file_of file.new).functions) }
    ensures bodies { OnOk result (file.new.env.bodies ≡ file.old.env.bodies) }
{
    let nodes = nodes_of_function(spec, params, body)?;
    let base = check_spec(alloc, &file.env, &mut file.body.known, spec)?;
    let t = pointers(alloc, stars, base)?;
    let checked = with_body(alloc, file, name, at, &t, nodes, params, body);
    let_go(t);
    checked
}
