//! What the tables are made of.
use ob_base::{NoMemory, boxed, boxed_two};
use ob_tree::CType;
use ob_typed::{TExpr, TLean, TNode};
use ob_words::IntType;
use std::alloc::Global;

pub(crate) fn number(kind: IntType, z: i128) -> TExpr {
    of_type(CType::Int(kind), TNode::Num(z))
}

pub(crate) fn of_type(ty: CType, node: TNode) -> TExpr {
    TExpr { line: 1, ty, node }
}

/// The pointer to what a lean designates.
pub(crate) fn pointer(alloc: Global, lean: TLean) -> Result<TExpr, NoMemory> {
    let (lean, void) = boxed_two(alloc, lean, CType::Void)?;
    Ok(of_type(CType::Pointer(void), TNode::Lean(lean)))
}

/// So many bytes behind a static object's begin.
pub(crate) fn inside(alloc: Global, target: u32, offset: u64) -> Result<TLean, NoMemory> {
    Ok(TLean::Member(boxed(alloc, TLean::Static(target))?, offset))
}

pub(crate) fn chars(alloc: Global, count: u64) -> Result<CType, NoMemory> {
    array(alloc, CType::Int(IntType::Char), count)
}

pub(crate) fn array(alloc: Global, element: CType, count: u64) -> Result<CType, NoMemory> {
    Ok(CType::Array(boxed(alloc, element)?, count))
}
