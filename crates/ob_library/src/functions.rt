ghost use Rattle.std.specs.Prelude.{◌≡◌, Bool, IfOk, OnOk};
ghost use Rattle.ob_tree.specs.Trees.{ObjTree, DimTrees};
ghost use Rattle.ob_tree.specs.ExpressionView.{expr_tree, spec_tree, obj_tree, obj_trees, dim_trees};
ghost use Rattle.ob_tree.specs.ProgramView.{local_tree};
ghost use Rattle.ob_tree.specs.ProgramParts.{add_local};
ghost use Rattle.ob_library.specs.Nodes.{no_place, local as local_of, variable, array};
ghost use Rattle.ob_library.specs.Lists.{block_trees};

use crate::nodes::number;
use crate::types::{Base, NOWHERE, spec, text_of};
use ob_base::{NoMemory, Text, listed, push_on};
use ob_tree::{BlockItem, Dim, Expr, Local, ObjDecl, Spec};
use std::alloc::Global;

#[tactic(auto, using(crate::proofs::Views::declarator_made))]
fn declarator(stars: u32, name: Text, dims: Vec<Dim>) -> ObjDecl
    ensures { obj_tree result ≡ ObjTree.Bare stars name no_place (dim_trees dims.items) }
{
    ObjDecl {
        stars,
        name,
        at: NOWHERE,
        dims,
        init: None,
    }
}

fn local(spec: Spec, names: Vec<ObjDecl>) -> Local
    ensures { local_tree result ≡ record { first = no_place; line = 0; fixed = Bool.false; spec = spec_tree spec; names = obj_trees names.items } }
{
    Local {
        first: NOWHERE,
        line: 0,
        fixed: false,
        spec,
        names,
    }
}

fn declared(alloc: Global, base: Base, object: ObjDecl) -> Result<Local, NoMemory>
    ensures { IfOk result (λ l. local_tree l ≡ local_of base (obj_tree object)) }
{
    let names = listed(alloc, object)?;
    let spec = spec(alloc, base)?;
    Ok(local(spec, names))
}

#[tactic(auto, using(crate::proofs::Views::locals_pushed))]
fn put_local(items: &mut Vec<BlockItem>, local: Local) -> Result<(), NoMemory>
    ensures { OnOk result (block_trees items.new.items ≡ add_local (block_trees items.old.items) (local_tree local)) }
{
    push_on(items, BlockItem::Local(local))
}

/// Puts `base *..text;` behind the items.
pub fn declare(
    alloc: Global,
    items: &mut Vec<BlockItem>,
    base: Base,
    stars: u32,
    text: &[u8],
) -> Result<(), NoMemory>
    ensures { OnOk result (block_trees items.new.items ≡ add_local (block_trees items.old.items) (variable base stars text.now)) }
{
    let text = text_of(alloc, text)?;
    let local = declared(alloc, base, declarator(stars, text, Vec::new(alloc)))?;
    put_local(items, local)
}

#[tactic(auto, using(crate::proofs::Views::bracket_made))]
fn bracket(alloc: Global, length: Box<Expr>) -> Result<Vec<Dim>, NoMemory>
    ensures { IfOk result (λ dims. dim_trees dims.items ≡ DimTrees.Sized (expr_tree length.value) DimTrees.NoDims) }
{
    listed(
        alloc,
        Dim {
            length: Some(Box::into_inner(length)),
        },
    )
}

/// Puts `base text[length];` behind the items.
pub fn declare_array(
    alloc: Global,
    items: &mut Vec<BlockItem>,
    base: Base,
    text: &[u8],
    length: i128,
) -> Result<(), NoMemory>
    ensures { OnOk result (block_trees items.new.items ≡ add_local (block_trees items.old.items) (array base text.now length)) }
{
    let length = number(alloc, length)?;
    let dims = bracket(alloc, length)?;
    let text = text_of(alloc, text)?;
    let local = declared(alloc, base, declarator(0, text, dims))?;
    put_local(items, local)
}
