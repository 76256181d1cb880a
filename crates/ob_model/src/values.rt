use ob_words::IntType;

/// A value of the language: a number of an integer type, the null pointer, or a pointer into an object
/// (C99 6.2.5). `offset` counts bytes from the object's first byte, and may lie outside the object.
#[derive(Clone, Copy, Debug, PartialEq, Eq)]
pub enum Value {
    Num(i128),
    Null,
    Ptr { object: u64, offset: i64 },
}

/// How the value of a variable shows: a number, the null pointer, or any other pointer.
#[derive(Clone, Copy, Debug, PartialEq, Eq)]
pub enum Shown {
    Num(i128),
    Null,
    Pointer,
}

/// What a load or store moves: a number of an integer type, or a pointer.
#[derive(Clone, Copy, Debug, PartialEq, Eq)]
pub enum LoadKind {
    Num(IntType),
    Ptr,
}

/// A granule of eight bytes outside an object. It holds a pointer's word, or else bytes: bit i of `set`
/// says that byte i was stored, and byte i of `word`, counted from the least, is then its value.
#[derive(Clone, Copy, Debug, PartialEq, Eq)]
pub struct Cell {
    pub pointer: bool,
    pub set: u8,
    pub word: u64,
}
