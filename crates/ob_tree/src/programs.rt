use crate::expressions::{Dim, Expr, ObjDecl, Spec};
use ob_base::Text;

/// A translation unit (C99 6.9).
#[derive(Drop)]
pub struct Program {
    pub items: Vec<Item>,
}

/// An external declaration (C99 6.9), with the place of its first token, counted from 0, and that
/// token's line. `fixed` says that `static` stands first.
#[derive(Drop)]
pub struct Item {
    pub first: u32,
    pub line: u32,
    pub fixed: bool,
    pub spec: Spec,
    pub node: ItemNode,
}

/// What follows the specifier of an external declaration: a function declarator with the function's
/// body, or declarators. `at` is the place of the name's token, and `stars` counts the `*` before it.
#[derive(Drop)]
pub enum ItemNode {
    Function {
        stars: u32,
        name: Text,
        at: u32,
        params: Params,
        body: Stmt,
    },
    Decls(Vec<FileDecl>),
}

/// A declarator at file scope.
#[derive(Drop)]
pub enum FileDecl {
    Function {
        stars: u32,
        name: Text,
        at: u32,
        params: Params,
    },
    Object(ObjDecl),
}

/// What stands in the parentheses of a function declarator: nothing, `void`, or parameters.
#[derive(Drop)]
pub enum Params {
    Empty,
    Void,
    List(Vec<Param>),
}

/// A parameter (C99 6.7.5.3). `first` is the place of its first token and `line` that token's line;
/// `at` is the place of the name's token, or `first` where the parameter has no name.
#[derive(Drop)]
pub struct Param {
    pub first: u32,
    pub line: u32,
    pub spec: Spec,
    pub stars: u32,
    pub name: Option<Text>,
    pub at: u32,
    pub dims: Vec<Dim>,
}

/// A declaration in a block (C99 6.7). `fixed` says that `static` stands first.
#[derive(Drop)]
pub struct Local {
    pub first: u32,
    pub line: u32,
    pub fixed: bool,
    pub spec: Spec,
    pub names: Vec<ObjDecl>,
}

/// What stands in a block (C99 6.8.2).
#[cycle(statements)]
#[derive(Drop)]
pub enum BlockItem {
    Local(Local),
    Stmt(Stmt),
}

/// A statement (C99 6.8), with the place of its first token and that token's line.
#[cycle(statements)]
#[derive(Drop)]
pub struct Stmt {
    pub first: u32,
    pub line: u32,
    pub node: StmtNode,
}

/// What a statement is.
#[cycle(statements)]
#[derive(Drop)]
pub enum StmtNode {
    Block(Vec<BlockItem>),
    /// An expression statement, or the null statement.
    Expr(Option<Expr>),
    If(Expr, Box<Stmt>, Option<Box<Stmt>>),
    While(Expr, Box<Stmt>),
    Do(Box<Stmt>, Expr),
    For {
        start: ForStart,
        test: Option<Expr>,
        next: Option<Expr>,
        body: Box<Stmt>,
    },
    Break,
    Continue,
    Return(Option<Expr>),
}

/// What stands before the first semicolon of a `for` (C99 6.8.5.3).
#[derive(Drop)]
pub enum ForStart {
    Expr(Option<Expr>),
    Local(Local),
}
