ghost use Rattle.std.specs.Prelude.{◌≤◌};

use ob_base::Text;
use ob_words::IntType;

/// A type (C99 6.2.5): `void`, an integer type, a pointer to a type, an array of so many elements
/// of a type, or a structure, by the number of its row in [`crate::Structs`], counted from 0.
#[derive(Drop)]
pub enum CType {
    Void,
    Int(IntType),
    Pointer(Box<CType>),
    Array(Box<CType>, u64),
    Struct(u32),
}

/// A structure type: whether its members are known, and those in order. A row that isn't complete
/// has no members.
#[derive(Drop)]
pub struct StructRow {
    pub complete: bool,
    pub members: Vec<MemberRow>,
}

/// A member of a structure: its name's bytes, and its type.
#[derive(Drop)]
pub struct MemberRow {
    pub name: Text,
    pub ty: CType,
}

/// What a complete structure takes: its bytes, at most 4,194,304, their alignment, and how many numbers
/// and pointers they are (C99 6.5.3.4, 6.7.2.1).
#[derive(Clone, Copy, Debug, PartialEq, Eq)]
pub struct StructLayout {
    pub size: u64,
    pub align: u64,
    pub scalars: u64,
    ghost align_some: { 1 ≤ align },
    ghost align_few: { align ≤ 8 },
    ghost size_few: { size ≤ 4194304 },
    ghost scalars_few: { scalars ≤ size },
}

/// A row, and its layout from its completion on.
#[derive(Drop)]
pub(crate) struct KeptRow {
    pub row: StructRow,
    pub layout: Option<StructLayout>,
}
