//! Functions without a body: the least place of a call of one, or the name of `main`.
ghost use Rattle.std.specs.Prelude.{ℕ, ◌≡◌, [], ◌∷◌, Option, Some, None, if◌then◌else◌, map, option_map, slice_get};
ghost use Rattle.ob_tree.specs.Programs.{ProgramTree};
ghost use Rattle.ob_tree.specs.ProgramView.{file_tree, item_tree};
ghost use Rattle.ob_typed.specs.Functions.{is_one_of};
ghost use Rattle.ob_typed.specs.TypedView.{typed_function};
ghost use Rattle.ob_typed.specs.Typing.{if_named, is_main, least, main_name, missing_call, missing_main, place_in_files, place_of};
ghost use Rattle.ob_context.specs.KnownView.{called_as};
ghost use Rattle.ob_types.specs.FileView.{or_else};

use ob_base::Text;
use ob_context::{Bodies, Called};
use ob_conversions::types::same_type;
use ob_tree::{CType, FileDecl, Item, ItemNode};
use ob_typed::TFunction;
use ob_words::IntType;

/// The lesser of two places, where there are two.
pub(crate) fn least(a: Option<u32>, b: Option<u32>) -> Option<u32>
    ensures { result ≡ least a b }
{
    match (a, b) {
        (Some(a), Some(b)) => Some(a.min(b)),
        (Some(a), None) => Some(a),
        (None, b) => b,
    }
}

/// Where a call stands, if its function has no body.
fn missing_at(bodies: &Bodies, c: &Called) -> Option<u32>
    ensures { result ≡ (if is_one_of c.now.name bodies.now then None else Some c.now.place) }
{
    if bodies.has(&c.name) {
        None
    } else {
        Some(c.place)
    }
}

/// The least place of a call of a function without a body.
pub(crate) fn missing_call(bodies: &Bodies, calls: &Vec<Called>) -> Option<u32>
    ensures { result ≡ missing_call bodies.now (map called_as calls.now.items) }
{
    let mut place = None;
    for c in calls {
        place = least(place, missing_at(bodies, c));
    }
    place
}

/// The place of a name, if it is this one.
fn if_named(name: &Text, other: &Text, at: u32) -> Option<u32>
    ensures { (after : Option ℕ) → if_named name.now other.now at after ≡ or_else result after }
{
    if other.bytes() == name.bytes() {
        Some(at)
    } else {
        None
    }
}

/// The place of a name in a declarator of it.
fn place_in_file(name: &Text, d: &FileDecl) -> Option<u32>
    ensures { (after : Option ℕ) → place_in_files name.now (file_tree d.now ∷ []) after ≡ or_else result after }
{
    match d {
        FileDecl::Function {
            name: other,
            at,
            ..
        } => if_named(name, other, *at),
        FileDecl::Object(o) => if_named(name, &o.name, o.at),
    }
}

/// The place of a name in the first declarator of it.
fn place_in_files(name: &Text, ds: &Vec<FileDecl>) -> Option<u32>
    ensures { (after : Option ℕ) → place_in_files name.now (map file_tree ds.now.items) after ≡ or_else result after }
{
    for d in ds {
        match place_in_file(name, d) {
            Some(place) => return Some(place),
            None => {}
        }
    }
    None
}

/// The place of a name in the first declarator of it in an item.
fn place_in_item(name: &Text, item: &Item) -> Option<u32>
    ensures { (rest : ProgramTree) → place_of name.now (item_tree item.now ∷ rest) ≡ or_else result (place_of name.now rest) }
{
    match &item.node {
        ItemNode::Function {
            name: other,
            at,
            ..
        } => if_named(name, other, *at),
        ItemNode::Decls(ds) => place_in_files(name, ds),
    }
}

/// Where a name is declared at file scope first.
fn place_of(name: &Text, items: &Vec<Item>) -> Option<u32>
    ensures { result ≡ place_of name.now (map item_tree items.now.items) }
{
    for item in items {
        match place_in_item(name, item) {
            Some(place) => return Some(place),
            None => {}
        }
    }
    None
}

/// The function of a number, counted from 0.
fn function_at(functions: &Vec<TFunction>, number: u32) -> Option<&TFunction>
    ensures { option_map (λ f. typed_function f.now) result ≡ slice_get (map typed_function functions.now.items) number }
{
    functions.get(number as usize)
}

/// Whether `main` is an `int` without parameters (C99 5.1.2.2.1).
fn is_main(f: Option<&TFunction>) -> bool
    ensures { result ≡ is_main (option_map (λ f. typed_function f.now) f.entry) }
{
    match f {
        Some(f) => same_type(&f.result, &CType::Int(IntType::Int)) && f.params == 0,
        None => false,
    }
}

/// The place of the name of `main`, if it isn't a function with a body as `main` has to be; the greatest `u32` where nothing
/// has the name. `name` is that name, and `number` the number that its function has.
pub(crate) fn missing_main(
    name: &Text,
    items: &Vec<Item>,
    functions: &Vec<TFunction>,
    number: u32,
) -> Option<u32>
    requires { name.now ≡ main_name }
    ensures { result ≡ missing_main (map item_tree items.now.items) (slice_get (map typed_function functions.now.items) number) }
{
    if is_main(function_at(functions, number)) {
        return None;
    }
    match place_of(name, items) {
        Some(place) => Some(place),
        None => Some(u32::MAX),
    }
}
