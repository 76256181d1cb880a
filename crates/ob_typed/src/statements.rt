use crate::expressions::{TExpr, TPlace};
use ob_base::Text;

/// An initialiser (C99 6.7.8): a value; the characters of a string, without the final zero; the items
/// of a list, one for each element or member from the first on; or a structure that is copied.
#[cycle(initialisers)]
#[derive(Drop)]
pub enum TInit {
    Value(TExpr),
    Chars(Text),
    List(Vec<TInit>),
    Copy(TPlace),
}

/// A statement (C99 6.8). `Init`, which initialises the automatic object numbered `local`, counted
/// from 0, is no statement of C; nor is what stands in `start`: nothing, an expression, or such
/// initialisations.
#[cycle(statements)]
#[derive(Drop)]
pub enum TStmt {
    Empty,
    Expr(TExpr),
    Block(Vec<TStmt>),
    Init {
        local: u32,
        init: TInit,
    },
    If(TExpr, Box<TStmt>, Option<Box<TStmt>>),
    While(TExpr, Box<TStmt>),
    Do(Box<TStmt>, TExpr),
    For {
        start: Vec<TStmt>,
        test: Option<TExpr>,
        next: Option<TExpr>,
        body: Box<TStmt>,
    },
    Break,
    Continue,
    Return(Option<TExpr>),
}
