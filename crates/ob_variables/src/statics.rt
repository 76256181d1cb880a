//! Static objects (C99 6.2.4). One has its number from its name on, so that it comes before the string literals in its
//! brackets and in its initialiser.
ghost use Rattle.std.specs.Prelude.{◌≡◌, IfOk, OnOk, length};
ghost use Rattle.ob_tree.specs.ExpressionView.{init_tree, obj_tree};
ghost use Rattle.ob_tree.specs.TypeView.{plain_type};
ghost use Rattle.ob_typed.specs.Declarations.{check_static, named, set_static, static_object, variable};
ghost use Rattle.ob_typed.specs.Images.{image, no_image};
ghost use Rattle.ob_typed.specs.TypedTree.{TypedLean};
ghost use Rattle.ob_typed.specs.TypedView.{plain_image, typed_init, typed_object};
ghost use Rattle.ob_scopes.specs.Names.{declared_as};
ghost use Rattle.ob_context.specs.KnownView.{env_of, known_of, stand_of};
ghost use Rattle.ob_context.specs.Walks.{Walks};
ghost use Rattle.ob_variables.specs.BodyView.{name_of};
ghost use Rattle.ob_variables.specs.Pieces.{held_static, initial_static, static_walk};

use crate::naming::check_named;
use crate::rules::{named, own_type, variable, whole_type};
use ob_base::{NoMemory, Text, let_go};
use ob_consts::initial_image;
use ob_context::{Env, Known, beside_part};
use ob_conversions::beside;
use ob_conversions::types::copy_type;
use ob_initialisers::{completed, foreseen};
use ob_scopes::{Named, Storage};
use ob_tree::{CType, Init, ObjDecl, TypeFault};
use ob_typed::{StaticImage, TInit, TStatic};
use std::alloc::Global;

/// What an object holds without an initialiser: bytes that are all 0.
fn no_image(alloc: Global) -> StaticImage
    ensures { plain_image result ≡ no_image }
{
    StaticImage {
        bytes: Text::new(alloc),
        pointers: Vec::new(alloc),
    }
}

/// A static object without an image yet.
fn blank(alloc: Global, name: &Text, line: u32, ty: CType) -> Result<TStatic, NoMemory>
    ensures { IfOk result (λ o. typed_object o ≡ static_object (named name.now line) (plain_type ty) no_image) }
{
    let (name, ty) = beside(named(alloc, name, line), ty)?;
    Ok(TStatic {
        name,
        ty,
        image: no_image(alloc),
    })
}

/// The declarator of a static object: what its name stands for afterwards. The name is declared while its initialiser is
/// walked, and by the caller then.
#[tactic(auto, using(crate::proofs::Declarators::static_is))]
pub fn check_static(
    alloc: Global,
    env: &mut Env,
    known: &mut Known,
    line: u32,
    base: &CType,
    o: &ObjDecl,
) -> Result<Named, TypeFault>
    ensures walks { Walks (λ d. declared_as (name_of o.now, d)) result (known_of known.new) (check_static (env_of env.old (stand_of known.old)) line (plain_type base.now) (obj_tree o.now) (known_of known.old)) }
    ensures stays { OnOk result (stand_of known.new ≡ stand_of known.old) }
    ensures env { OnOk result (env.new ≡ env.old) }
{
    let number = known.add_static(blank(alloc, &o.name, line, CType::Void)?)?;
    let t = own_type(alloc, env, known, base, o)?;
    match &o.init {
        Some(i) => initialised(alloc, env, known, line, number, &o.name, o.at, t, i),
        None => Ok(uninitialised(alloc, known, line, number, &o.name, t)?),
    }
}

/// Static object `number` without an initialiser.
fn uninitialised(
    alloc: Global,
    known: &mut Known,
    line: u32,
    number: u32,
    name: &Text,
    t: CType,
) -> Result<Named, NoMemory>
    ensures named { IfOk result (λ d. declared_as (name.now, d) ≡ variable name.now (length (stand_of known.old).outer) (plain_type t) (TypedLean.Static number)) }
    ensures known { OnOk result (known_of known.new ≡ set_static number (static_object (named name.now line) (plain_type t) no_image) (known_of known.old)) }
    ensures stays { OnOk result (stand_of known.new ≡ stand_of known.old) }
{
    let (own, t) = beside(copy_type(alloc, &t), t)?;
    let (object, t) = beside(blank(alloc, name, line, own), t)?;
    known.set_static(number, object);
    Ok(variable(known, t, Storage::Static(number)))
}

/// Static object `number`, of type `t` up to its length, with its initialiser.
fn initialised(
    alloc: Global,
    env: &mut Env,
    known: &mut Known,
    line: u32,
    number: u32,
    name: &Text,
    at: u32,
    t: CType,
    i: &Init,
) -> Result<Named, TypeFault>
    ensures walks { Walks (λ d. declared_as (name.now, d)) result (known_of known.new) (initial_static (env_of env.old (stand_of known.old)) (named name.now line) number at (plain_type t) (init_tree i.now) (known_of known.old)) }
    ensures stays { OnOk result (stand_of known.new ≡ stand_of known.old) }
    ensures env { OnOk result (env.new ≡ env.old) }
{
    let (x, t) = beside_part(walked(alloc, env, known, line, number, name, &t, i), t)?;
    let (u, x) = beside(completed(alloc, &t, &x), x)?;
    let_go(t);
    let ((), (u, x)) = beside_part(whole_type(known, &u, at), (u, x))?;
    Ok(finished(alloc, known, line, number, name, u, x)?)
}

/// The initialiser of static object `number`, with the name declared as an object of type `t`.
fn walked(
    alloc: Global,
    env: &mut Env,
    known: &mut Known,
    line: u32,
    number: u32,
    name: &Text,
    t: &CType,
    i: &Init,
) -> Result<TInit, TypeFault>
    ensures walks { Walks typed_init result (known_of known.new) (static_walk (env_of env.old (stand_of known.old)) (named name.now line) number (plain_type t.now) (init_tree i.now) (known_of known.old)) }
    ensures stays { OnOk result (stand_of known.new ≡ stand_of known.old) }
    ensures env { OnOk result (env.new ≡ env.old) }
{
    let ty = foreseen(alloc, t, i)?;
    let object = blank(alloc, name, line, ty)?;
    known.set_static(number, object);
    let own = copy_type(alloc, t)?;
    let named = variable(known, own, Storage::Static(number));
    check_named(alloc, env, known, true, name, named, t, i)
}

/// What an object of this type with this initialiser holds at the start.
fn image_of(alloc: Global, known: &Known, t: &CType, x: &TInit) -> Result<StaticImage, NoMemory>
    ensures { IfOk result (λ i. plain_image i ≡ image (known_of known.now).structs (plain_type t.now) (typed_init x.now)) }
{
    initial_image(alloc, known.structs.rows(), t, x)
}

/// Gives static object `number` its type and what it holds.
fn finished(
    alloc: Global,
    known: &mut Known,
    line: u32,
    number: u32,
    name: &Text,
    u: CType,
    x: TInit,
) -> Result<Named, NoMemory>
    ensures named { IfOk result (λ d. declared_as (name.now, d) ≡ variable name.now (length (stand_of known.old).outer) (plain_type u) (TypedLean.Static number)) }
    ensures known { OnOk result (known_of known.new ≡ held_static (named name.now line) number (plain_type u) (typed_init x) (known_of known.old)) }
    ensures stays { OnOk result (stand_of known.new ≡ stand_of known.old) }
{
    let (image, u) = beside(image_of(alloc, known, &u, &x), u)?;
    let_go(x);
    let (ty, (u, image)) = beside(copy_type(alloc, &u), (u, image))?;
    let (name, (ty, u, image)) = beside(named(alloc, name, line), (ty, u, image))?;
    known.set_static(number, TStatic { name, ty, image });
    Ok(variable(known, u, Storage::Static(number)))
}
