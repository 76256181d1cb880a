ghost use Rattle.std.specs.Prelude.{◌≡◌, ◌<◌, Some};
ghost use Rattle.ob_tree.specs.Trees.{SpecTree};
ghost use Rattle.ob_tree.specs.Paths.{height_members};
ghost use Rattle.ob_tree.specs.ExpressionView.{spec_tree};
ghost use Rattle.ob_exprs.specs.Lists.{member_trees};

use crate::measured::{MeasuredSpec, Members};
use ob_base::Text;
use ob_tree::{Keyword, MemberDecl, Spec, SpecNode};

pub fn void(first: u32) -> MeasuredSpec
    ensures { spec_tree result.spec ≡ SpecTree.Void first }
{
    MeasuredSpec {
        spec: Spec {
            first,
            node: SpecNode::Void,
        },
        height: 0,
    }
}

pub fn size_t(first: u32) -> MeasuredSpec
    ensures { spec_tree result.spec ≡ SpecTree.SizeT first }
{
    MeasuredSpec {
        spec: Spec {
            first,
            node: SpecNode::SizeT,
        },
        height: 0,
    }
}

pub fn integer(first: u32, words: Vec<Keyword>) -> MeasuredSpec
    ensures { spec_tree result.spec ≡ SpecTree.Integer first words.items }
{
    MeasuredSpec {
        spec: Spec {
            first,
            node: SpecNode::Integer(words),
        },
        height: 0,
    }
}

pub fn tag(first: u32, tag: Text) -> MeasuredSpec
    ensures { spec_tree result.spec ≡ SpecTree.Tag first tag }
{
    MeasuredSpec {
        spec: Spec {
            first,
            node: SpecNode::Tag(tag),
        },
        height: 1,
    }
}

fn structure_spec(first: u32, tag: Option<Text>, members: Vec<MemberDecl>) -> Spec
    ensures { spec_tree result ≡ SpecTree.Struct first tag (member_trees members.items) }
{
    Spec {
        first,
        node: SpecNode::Struct { tag, members },
    }
}

pub fn structure(first: u32, tag: Option<Text>, members: Members) -> MeasuredSpec
    requires { height_members (member_trees members.items.items) < 1000 }
    ensures { spec_tree result.spec ≡ SpecTree.Struct first tag (member_trees members.items.items) }
{
    let Members { items, height, .. } = members;
    MeasuredSpec {
        spec: structure_spec(first, tag, items),
        height: height + 1,
    }
}
