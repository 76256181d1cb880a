use ob_base::Text;

/// A variable's name and the line of the first token of the item, parameter or declaration in a block
/// that declares it.
#[derive(Drop)]
pub struct VarName {
    pub name: Text,
    pub line: u32,
}

/// A function that is known without a body (C99 7.19.7, 7.20.3, 7.20.4): `getchar`, `putchar`,
/// `malloc`, `calloc`, `free` and `exit`.
#[derive(Clone, Copy, Debug, PartialEq, Eq)]
pub enum Builtin {
    GetChar,
    PutChar,
    Malloc,
    Calloc,
    Free,
    Exit,
}
