use crate::names::VarName;
use ob_base::Text;
use ob_tree::CType;

/// A static object (C99 6.2.4): one at file scope, one that is declared `static` in a block, or a
/// string literal, whose name is empty. Its type, and what it holds at the start.
#[derive(Drop)]
pub struct TStatic {
    pub name: VarName,
    pub ty: CType,
    pub image: StaticImage,
}

/// What a static object holds at the start: its first bytes, all others being 0 and the last of these
/// not 0, and the pointers to static objects in it, in order of their places.
#[derive(Drop)]
pub struct StaticImage {
    pub bytes: Text,
    pub pointers: Vec<StaticPointer>,
}

/// A pointer in a static object: it stands at byte `at` and points `offset` bytes past the begin of
/// the static object numbered `target`, counted from 0.
#[derive(Clone, Copy, Debug, PartialEq, Eq)]
pub struct StaticPointer {
    pub at: u64,
    pub target: u32,
    pub offset: u64,
}
