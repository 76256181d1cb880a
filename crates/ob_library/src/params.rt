ghost use Rattle.std.specs.Prelude.{◌≡◌, ◌++◌, ◌∷◌, [], map, Some, IfOk, OnOk};
ghost use Rattle.ob_tree.specs.Trees.{DimTrees};
ghost use Rattle.ob_tree.specs.ExpressionView.{spec_tree};
ghost use Rattle.ob_tree.specs.ProgramView.{param_tree};
ghost use Rattle.ob_library.specs.Nodes.{no_place, param as param_of};
ghost use Rattle.ob_library.specs.Library.{params_of};
ghost use Rattle.ob_library.specs.declared.library.LibraryFunction.TheVariants as function;

use crate::library::LibraryFunction;
use crate::types::{Base, NOWHERE, spec, text_of};
use ob_base::{NoMemory, Text, push_on};
use ob_tree::{Param, Spec};
use std::alloc::Global;

fn param(alloc: Global, spec: Spec, stars: u32, name: Text) -> Param
    ensures { param_tree result ≡ record { first = no_place; line = 0; spec = spec_tree spec; stars = stars; name = Some name; at = no_place; dims = DimTrees.NoDims } }
{
    Param {
        first: NOWHERE,
        line: 0,
        spec,
        stars,
        name: Some(name),
        at: NOWHERE,
        dims: Vec::new(alloc),
    }
}

/// Puts the parameter `base *..text` behind the parameters.
#[tactic(auto, using(crate::proofs::Views::params_pushed))]
fn put_param(
    alloc: Global,
    params: &mut Vec<Param>,
    base: Base,
    stars: u32,
    text: &[u8],
) -> Result<(), NoMemory>
    ensures { OnOk result (map param_tree params.new.items ≡ map param_tree params.old.items ++ param_of base stars text.now ∷ []) }
{
    let text = text_of(alloc, text)?;
    let spec = spec(alloc, base)?;
    push_on(params, param(alloc, spec, stars, text))
}

fn put_two(
    alloc: Global,
    params: &mut Vec<Param>,
    base: Base,
    stars: u32,
    first: &[u8],
    second: &[u8],
) -> Result<(), NoMemory>
    requires { params.old.items ≡ [] }
    ensures { OnOk result (map param_tree params.new.items ≡ param_of base stars first.now ∷ (param_of base stars second.now ∷ [])) }
{
    put_param(alloc, params, base, stars, first)?;
    put_param(alloc, params, base, stars, second)
}

fn put_set(alloc: Global, params: &mut Vec<Param>) -> Result<(), NoMemory>
    requires { params.old.items ≡ [] }
    ensures { OnOk result (map param_tree params.new.items ≡ params_of function.Memset) }
{
    put_param(alloc, params, Base::Void, 1, b"p")?;
    put_param(alloc, params, Base::Int, 0, b"c")?;
    put_param(alloc, params, Base::Size, 0, b"n")
}

fn put_copy(alloc: Global, params: &mut Vec<Param>) -> Result<(), NoMemory>
    requires { params.old.items ≡ [] }
    ensures { OnOk result (map param_tree params.new.items ≡ params_of function.Memcpy) }
{
    put_param(alloc, params, Base::Void, 1, b"p")?;
    put_param(alloc, params, Base::Void, 1, b"q")?;
    put_param(alloc, params, Base::Size, 0, b"n")
}

fn put_params(
    alloc: Global,
    params: &mut Vec<Param>,
    function: LibraryFunction,
) -> Result<(), NoMemory>
    requires { params.old.items ≡ [] }
    ensures { OnOk result (map param_tree params.new.items ≡ params_of function) }
{
    match function {
        LibraryFunction::Strlen => put_param(alloc, params, Base::Char, 1, b"s"),
        LibraryFunction::Strcpy => put_two(alloc, params, Base::Char, 1, b"d", b"s"),
        LibraryFunction::Strcat => put_two(alloc, params, Base::Char, 1, b"d", b"s"),
        LibraryFunction::Strcmp => put_two(alloc, params, Base::Char, 1, b"a", b"b"),
        LibraryFunction::Memset => put_set(alloc, params),
        LibraryFunction::Memcpy => put_copy(alloc, params),
        LibraryFunction::Puts => put_param(alloc, params, Base::Char, 1, b"s"),
        LibraryFunction::Atoi => put_param(alloc, params, Base::Char, 1, b"s"),
        LibraryFunction::PrintU => put_two(alloc, params, Base::UnsignedLong, 0, b"v", b"b"),
        LibraryFunction::PrintD => put_param(alloc, params, Base::Long, 0, b"v"),
        LibraryFunction::PrintS => put_param(alloc, params, Base::Char, 1, b"s"),
    }
}

/// The parameters of the function.
pub fn params(alloc: Global, function: LibraryFunction) -> Result<Vec<Param>, NoMemory>
    ensures { IfOk result (λ params. map param_tree params.items ≡ params_of function) }
{
    let mut params = Vec::new(alloc);
    put_params(alloc, &mut params, function)?;
    Ok(params)
}
