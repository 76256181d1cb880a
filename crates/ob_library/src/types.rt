ghost use Rattle.std.specs.Prelude.{◌≡◌, IfOk};
ghost use Rattle.ob_tree.specs.ExpressionView.{spec_tree, type_tree};
ghost use Rattle.ob_tree.specs.Trees.{TypeTree, DimTrees};
ghost use Rattle.ob_library.specs.Nodes.{no_place, integer as integer_of, base_tree};

use ob_base::{NoMemory, Text};
use ob_tree::{Keyword, Spec, SpecNode, TypeName};
use std::alloc::Global;

/// The place of every node of a library tree, which no token has.
pub const NOWHERE: u32 = 4294967295;

/// The types that the library's trees name.
#[derive(Clone, Copy)]
pub enum Base {
    Void,
    Size,
    Char,
    UnsignedChar,
    Int,
    Long,
    UnsignedLong,
}

pub fn text_of(alloc: Global, bytes: &[u8]) -> Result<Text, NoMemory>
    ensures { IfOk result (λ t. t ≡ bytes.now) }
{
    let mut text = Text::new(alloc);
    text.add(bytes)?;
    Ok(text)
}

fn integer(alloc: Global, words: &[Keyword]) -> Result<Spec, NoMemory>
    ensures { IfOk result (λ s. spec_tree s ≡ integer_of words.now) }
{
    let words = Vec::from_slice(alloc, words)?;
    Ok(Spec {
        first: NOWHERE,
        node: SpecNode::Integer(words),
    })
}

pub fn spec(alloc: Global, base: Base) -> Result<Spec, NoMemory>
    ensures { IfOk result (λ s. spec_tree s ≡ base_tree base) }
{
    match base {
        Base::Void => Ok(Spec {
            first: NOWHERE,
            node: SpecNode::Void,
        }),
        Base::Size => Ok(Spec {
            first: NOWHERE,
            node: SpecNode::SizeT,
        }),
        Base::Char => integer(alloc, &[Keyword::Char]),
        Base::UnsignedChar => integer(alloc, &[Keyword::Unsigned, Keyword::Char]),
        Base::Int => integer(alloc, &[Keyword::Int]),
        Base::Long => integer(alloc, &[Keyword::Long]),
        Base::UnsignedLong => integer(alloc, &[Keyword::Unsigned, Keyword::Long]),
    }
}

fn type_of(alloc: Global, spec: Spec) -> TypeName
    ensures { type_tree result ≡ TypeTree.TypeName (spec_tree spec) 0 DimTrees.NoDims }
{
    TypeName {
        spec,
        stars: 0,
        dims: Vec::new(alloc),
    }
}

/// The type name of one of these types.
pub fn type_name(alloc: Global, base: Base) -> Result<TypeName, NoMemory>
    ensures { IfOk result (λ t. type_tree t ≡ TypeTree.TypeName (base_tree base) 0 DimTrees.NoDims) }
{
    let spec = spec(alloc, base)?;
    Ok(type_of(alloc, spec))
}
