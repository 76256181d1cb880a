/// The base of an integer constant (C99 6.4.4.1).
#[derive(Clone, Copy)]
pub enum Base {
    Decimal,
    Octal,
    Hexadecimal,
}

/// What the suffix of an integer constant says (C99 6.4.4.1): unsigned or not, and nothing, `l` or
/// `ll`. `Plain` is no suffix.
#[derive(Clone, Copy)]
pub enum Suffix {
    Plain,
    U,
    L,
    UL,
    LL,
    ULL,
}
