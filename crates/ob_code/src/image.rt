use crate::instructions::Instr;
use crate::rows::Rows;
use ob_base::Text;
use ob_model::Profile;

/// A static object: its size in bytes, and its first bytes. The bytes that aren't given are 0.
#[derive(Debug, Drop)]
pub struct StaticRow {
    pub size: u64,
    pub given: Text,
}

/// A pointer that a static object holds as the program starts: the holder's number from 1, the
/// pointer's offset there, the number from 1 of the static object that it points into, and the offset
/// there.
#[derive(Clone, Copy, Debug, PartialEq, Eq)]
pub struct PointerRow {
    pub holder: u32,
    pub offset: u64,
    pub target: u32,
    pub target_offset: u64,
}

/// A variable that has bytes in its function's frame: its ordinal among the function's variables, its
/// place in bytes from the frame's base, and its size in bytes.
#[derive(Clone, Copy, Debug, PartialEq, Eq)]
pub struct LocalRow {
    pub ordinal: u32,
    pub place: u64,
    pub size: u64,
}

/// A function: the place of its first instruction, how many parameters it has, how many words its frame
/// has, how many variables it has, the bytes of stack that a call of it counts for, and those of its
/// variables that have bytes in the frame.
#[derive(Debug, Drop)]
pub struct FunctionRow {
    pub entry: u32,
    pub params: u32,
    pub words: u32,
    pub vars: u32,
    pub allowance: u64,
    pub locals: Rows<LocalRow>,
}

/// The name of a variable. `holder` is 0 for a static object, and else the number of the variable's
/// function, counted from 1. `ordinal` is the static object's number from 1, or the variable's ordinal
/// among its function's. `line` is the source line of its declaration. `word` is the frame word of a
/// variable that has no bytes of its own, and else 0. `kind` is 0 to 10 for the integer types in the order
/// of `IntType`, 11 for a pointer, and 12 for an array or structure.
#[derive(Debug, Drop)]
pub struct NameRow {
    pub holder: u32,
    pub ordinal: u32,
    pub line: u32,
    pub word: u32,
    pub kind: u32,
    pub name: Text,
}

/// A program for the flat machine. `profile` is the one that it was compiled for, which a run takes where
/// no other is asked for. `main` is the number of the function that is called first, counted from 0.
/// `names` are those of variables; no run reads them.
#[derive(Debug, Drop)]
pub struct Image {
    pub profile: Profile,
    pub statics: Rows<StaticRow>,
    pub pointers: Rows<PointerRow>,
    pub functions: Rows<FunctionRow>,
    pub main: u32,
    pub code: Rows<Instr>,
    pub names: Rows<NameRow>,
}
