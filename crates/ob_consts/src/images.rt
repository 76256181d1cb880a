ghost use Rattle.std.specs.Prelude.{◌≡◌, IfOk};
ghost use Rattle.ob_tree.specs.StructsView.{plain_structs};
ghost use Rattle.ob_tree.specs.TypeView.{plain_type, plain_types};
ghost use Rattle.ob_typed.specs.Images.{image};
ghost use Rattle.ob_typed.specs.Strings.{trimmed};
ghost use Rattle.ob_typed.specs.TypedView.{plain_image, typed_init};
ghost use Rattle.ob_consts.specs.ConstantItems.{are_constants};
ghost use Rattle.ob_consts.specs.ImageAnswers.{ImageAnswers};
ghost use Rattle.std.specs.List.{list_all};

use crate::addresses::is_static_value;
use crate::pieces::put_init;
use ob_base::{NoMemory, Text};
use ob_tree::{CType, Structs};
use ob_typed::{StaticImage, TInit};
use std::alloc::Global;

/// Why [`static_image`] gave no image: an item that is no constant, or too little memory.
#[derive(Clone, Copy, Debug, PartialEq, Eq)]
pub enum ConstFault {
    NotConstant,
    NoMemory,
}

/// What a static object of type `t` with this initialiser holds at the start (C99 6.7.8): its bytes up to
/// the last that isn't 0, and the pointers in it, in order of their places. `statics` has the types of the
/// static objects, in order of number. `NotConstant` comes exactly where an item is no constant (6.6). Where
/// each is one, `NoMemory` comes for want of memory, and where an item is for a part of a type that isn't
/// complete, or a place or an offset has 2^64 bytes or more before it. The last two aren't so where `t`, with
/// the lengths of its arrays, and the types of `statics` are complete.
pub fn static_image(
    alloc: Global,
    s: &Structs,
    statics: &Vec<CType>,
    t: &CType,
    init: &TInit,
) -> Result<StaticImage, ConstFault>
    ensures { ImageAnswers result (are_constants (plain_structs s.now) (plain_types statics.now.items) (typed_init init.now)) (image (plain_structs s.now) (plain_type t.now) (typed_init init.now)) }
{
    if !are_constants(s, statics, init) {
        return Err(ConstFault::NotConstant);
    }
    match initial_image(alloc, s, t, init) {
        Ok(i) => Ok(i),
        Err(_) => Err(ConstFault::NoMemory),
    }
}

/// The bytes without the zeros at their end.
pub fn trimmed(bytes: Text) -> Text
    ensures { result ≡ trimmed bytes }
{
    let mut bytes = bytes.into_vec();
    let mut len = bytes.len();
    while len > 0 && bytes[len - 1] == 0 {
        len -= 1;
    }
    bytes.truncate(len);
    Text::from_vec(bytes)
}

/// What a static object of type `t` with this initialiser, whose items are judged to be constants, holds at the start: as
/// [`static_image`], which judges them. `NoMemory` comes as it does there.
pub fn initial_image(
    alloc: Global,
    s: &Structs,
    t: &CType,
    init: &TInit,
) -> Result<StaticImage, NoMemory>
    ensures { IfOk result (λ i. plain_image i ≡ image (plain_structs s.now) (plain_type t.now) (typed_init init.now)) }
{
    let mut whole = StaticImage {
        bytes: Text::new(alloc),
        pointers: Vec::new(alloc),
    };
    put_init(&mut whole, s, 0, Some(t), init)?;
    let StaticImage { bytes, pointers } = whole;
    Ok(StaticImage {
        bytes: trimmed(bytes),
        pointers,
    })
}

/// Whether each item of an initialiser is a constant.
#[cycle(constants)]
fn are_constants(s: &Structs, statics: &Vec<CType>, init: &TInit) -> bool
    ensures { result ≡ are_constants (plain_structs s.now) (plain_types statics.now.items) (typed_init init.now) }
{
    match init {
        TInit::Value(e) => is_static_value(s, statics, e),
        TInit::Chars(_) => true,
        TInit::List(items) => are_constant_items(s, statics, items),
        TInit::Copy(_) => false,
    }
}

#[cycle(constants)]
fn are_constant_items(s: &Structs, statics: &Vec<CType>, items: &[TInit]) -> bool
    ensures { result ≡ list_all (λ x. are_constants (plain_structs s.now) (plain_types statics.now.items) (typed_init x)) items.now }
{
    for item in items {
        if !are_constants(s, statics, item) {
            return false;
        }
    }
    true
}
