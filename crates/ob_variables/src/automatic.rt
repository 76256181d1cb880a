//! Automatic objects (C99 6.2.4), and static ones in a block.
ghost use Rattle.std.specs.Prelude.{◌≡◌, IfOk, OnOk, length};
ghost use Rattle.ob_tree.specs.ExpressionView.{init_tree, obj_tree};
ghost use Rattle.ob_tree.specs.TypeView.{plain_type};
ghost use Rattle.ob_typed.specs.Declarations.{check_automatic, check_object, named, with_local};
ghost use Rattle.ob_typed.specs.TypedView.{typed_init};
ghost use Rattle.ob_context.specs.KnownView.{env_of, stand_of};
ghost use Rattle.ob_context.specs.Walks.{Walks};
ghost use Rattle.ob_variables.specs.BodyView.{body_of, introduced_as, name_of};
ghost use Rattle.ob_variables.specs.Pieces.{initial_local, local_walk};

use crate::body::Body;
use crate::naming::check_named;
use crate::rules::{named, own_type, variable, whole_type};
use crate::statics::check_static;
use ob_base::{NoMemory, Text, let_go};
use ob_context::{Env, beside_part};
use ob_conversions::beside;
use ob_conversions::types::copy_type;
use ob_initialisers::completed;
use ob_scopes::{Named, Storage};
use ob_tree::{CType, Init, ObjDecl, TypeFault};
use ob_typed::{TInit, TStmt};
use std::alloc::Global;

/// What the name of a declared object stands for, and the statement that initialises it, or none.
#[derive(Drop)]
pub(crate) struct Introduced {
    pub named: Named,
    pub init: Option<TStmt>,
}

/// The declarator of an object in a block.
pub(crate) fn check_object(
    alloc: Global,
    env: &mut Env,
    body: &mut Body,
    fixed: bool,
    line: u32,
    base: &CType,
    o: &ObjDecl,
) -> Result<Introduced, TypeFault>
    ensures walks { Walks (introduced_as (name_of o.now)) result (body_of body.new) (check_object (env_of env.old (stand_of body.old.known)) fixed line (plain_type base.now) (obj_tree o.now) (body_of body.old)) }
    ensures stays { OnOk result (stand_of body.new.known ≡ stand_of body.old.known) }
    ensures env { OnOk result (env.new ≡ env.old) }
{
    if fixed {
        let named = check_static(alloc, env, &mut body.known, line, base, o)?;
        Ok(Introduced { named, init: None })
    } else {
        check_automatic(alloc, env, body, line, base, o)
    }
}

/// One more automatic object of a name, and its number.
fn added(alloc: Global, body: &mut Body, line: u32, name: &Text, t: &CType) -> Result<u32, NoMemory>
    ensures number { IfOk result (λ n. n ≡ length (body_of body.old).locals) }
    ensures body { OnOk result (body_of body.new ≡ with_local (named name.now line) (plain_type t.now) (body_of body.old)) }
    ensures stands { OnOk result (stand_of body.new.known ≡ stand_of body.old.known) }
{
    let (name, own) = beside(named(alloc, name, line), copy_type(alloc, t)?)?;
    body.add_local(name, own)
}

/// The declarator of an automatic object.
#[tactic(auto, using(crate::proofs::Declarators::automatic_is))]
fn check_automatic(
    alloc: Global,
    env: &mut Env,
    body: &mut Body,
    line: u32,
    base: &CType,
    o: &ObjDecl,
) -> Result<Introduced, TypeFault>
    ensures walks { Walks (introduced_as (name_of o.now)) result (body_of body.new) (check_automatic (env_of env.old (stand_of body.old.known)) line (plain_type base.now) (obj_tree o.now) (body_of body.old)) }
    ensures stays { OnOk result (stand_of body.new.known ≡ stand_of body.old.known) }
    ensures env { OnOk result (env.new ≡ env.old) }
{
    let t = own_type(alloc, env, &mut body.known, base, o)?;
    let (number, t) = beside(added(alloc, body, line, &o.name, &t), t)?;
    match &o.init {
        Some(i) => initialised(alloc, env, body, number, &o.name, o.at, t, i),
        None => Ok(Introduced {
            named: variable(&body.known, t, Storage::Local(number)),
            init: None,
        }),
    }
}

/// Automatic object `number`, of type `t` up to its length, with its initialiser.
fn initialised(
    alloc: Global,
    env: &mut Env,
    body: &mut Body,
    number: u32,
    name: &Text,
    at: u32,
    t: CType,
    i: &Init,
) -> Result<Introduced, TypeFault>
    ensures walks { Walks (introduced_as name.now) result (body_of body.new) (initial_local (env_of env.old (stand_of body.old.known)) name.now number at (plain_type t) (init_tree i.now) (body_of body.old)) }
    ensures stays { OnOk result (stand_of body.new.known ≡ stand_of body.old.known) }
    ensures env { OnOk result (env.new ≡ env.old) }
{
    let (x, t) = beside_part(walked(alloc, env, body, number, name, &t, i), t)?;
    let (u, x) = beside(completed(alloc, &t, &x), x)?;
    let_go(t);
    let ((), (u, x)) = beside_part(whole_type(&body.known, &u, at), (u, x))?;
    let (own, (u, x)) = beside(copy_type(alloc, &u), (u, x))?;
    body.set_local(number, own);
    Ok(Introduced {
        named: variable(&body.known, u, Storage::Local(number)),
        init: Some(TStmt::Init {
            local: number,
            init: x,
        }),
    })
}

/// The initialiser of automatic object `number`, with the name declared as an object of type `t`.
fn walked(
    alloc: Global,
    env: &mut Env,
    body: &mut Body,
    number: u32,
    name: &Text,
    t: &CType,
    i: &Init,
) -> Result<TInit, TypeFault>
    ensures walks { Walks typed_init result (body_of body.new) (local_walk (env_of env.old (stand_of body.old.known)) name.now number (plain_type t.now) (init_tree i.now) (body_of body.old)) }
    ensures stays { OnOk result (stand_of body.new.known ≡ stand_of body.old.known) }
    ensures env { OnOk result (env.new ≡ env.old) }
{
    let own = copy_type(alloc, t)?;
    let named = variable(&body.known, own, Storage::Local(number));
    check_named(alloc, env, &mut body.known, false, name, named, t, i)
}
