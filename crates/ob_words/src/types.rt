/// An integer type (C99 6.2.5). `size_t` is `ULong`; `SChar` is `signed char`.
#[derive(Clone, Copy, Debug, PartialEq, Eq)]
pub enum IntType {
    Char,
    SChar,
    UChar,
    Short,
    UShort,
    Int,
    UInt,
    Long,
    ULong,
    LLong,
    ULLong,
}

/// An arithmetic operator of two operands (C99 6.5.5 to 6.5.12): `+ - * / % & | ^ << >>`.
#[derive(Clone, Copy, Debug, PartialEq, Eq)]
pub enum BinOp {
    Add,
    Sub,
    Mul,
    Div,
    Rem,
    And,
    Or,
    Xor,
    Shl,
    Shr,
}

/// A comparison (C99 6.5.8 and 6.5.9): `< > <= >= == !=`.
#[derive(Clone, Copy, Debug, PartialEq, Eq)]
pub enum Relation {
    Lt,
    Gt,
    Le,
    Ge,
    Eq,
    Ne,
}

/// The one refusal of [`binary`](crate::binary): a division or a remainder by 0.
#[derive(Clone, Copy, Debug, PartialEq, Eq)]
pub struct DivideByZero;
