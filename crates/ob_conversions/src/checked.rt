use ob_typed::{TExpr, TPlace};

/// What an expression is: a place (C99 6.3.2.1), a null pointer constant of pointer type (6.3.2.3), or
/// another value. Where `bare`, the constant is `NULL`; else it is one that was cast to a pointer type.
#[derive(Drop)]
pub enum Checked {
    Place(TPlace),
    NullPointer { bare: bool, value: TExpr },
    Plain(TExpr),
}
