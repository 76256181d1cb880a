ghost use Rattle.std.specs.Prelude.{◌≡◌};
ghost use Rattle.ob_declarations.specs.Shifts.{shifted as shifted_of};

use ob_base::Text;
use ob_tree::{BlockItem, Dim, Expr, FileDecl, ForStart, Init, Item, Param, Params, Spec, Stmt};

/// Where a token stands: its place, counted from 0, and its line.
#[derive(Clone, Copy, Debug, PartialEq, Eq)]
pub struct TokenMark {
    pub at: u32,
    pub line: u32,
}

/// What stands before the body of a function, and the external declarations before it.
#[derive(Drop)]
pub struct Definition {
    pub items: Vec<Item>,
    pub first: u32,
    pub line: u32,
    pub fixed: bool,
    pub spec: Spec,
    pub stars: u32,
    pub name: Text,
    pub at: u32,
    pub params: Params,
}

/// A statement or a function that waits for its last part. `first` and `line` are those of the
/// statement's first token.
#[derive(Drop)]
pub enum PendingStmt {
    Body(Box<Definition>),
    Block {
        first: u32,
        line: u32,
        items: Vec<BlockItem>,
    },
    If {
        first: u32,
        line: u32,
        test: Expr,
    },
    Else {
        first: u32,
        line: u32,
        test: Expr,
        then: Box<Stmt>,
    },
    While {
        first: u32,
        line: u32,
        test: Expr,
    },
    Do {
        first: u32,
        line: u32,
    },
    For {
        first: u32,
        line: u32,
        start: Box<ForStart>,
        test: Option<Expr>,
        next: Option<Expr>,
    },
}

/// Where a declaration stands: behind other external declarations, behind other items of a block,
/// or first in a `for`. The pending statements are those of the statements round it, the innermost last.
#[derive(Drop)]
pub enum Scope {
    FileScope(Vec<Item>),
    BlockScope {
        first: u32,
        line: u32,
        items: Vec<BlockItem>,
        pending: Vec<PendingStmt>,
    },
    ForScope {
        first: u32,
        line: u32,
        pending: Vec<PendingStmt>,
    },
}

/// A declaration that has begun; `fixed` says that `static` stands first.
#[derive(Drop)]
pub struct Heading {
    pub scope: Scope,
    pub first: u32,
    pub line: u32,
    pub fixed: bool,
}

/// A declaration whose specifier was read, with the declarators before this one.
#[derive(Drop)]
pub struct Declaration {
    pub heading: Heading,
    pub spec: Spec,
    pub names: Vec<FileDecl>,
}

/// A declarator whose name was read.
#[derive(Drop)]
pub struct Declarator {
    pub declaration: Box<Declaration>,
    pub stars: u32,
    pub name: Text,
    pub at: u32,
}

/// A function declarator, with the parameters before this one.
#[derive(Drop)]
pub struct ParamList {
    pub function: Declarator,
    pub params: Vec<Param>,
}

/// A parameter but for its brackets. `at` is the place of the name's token, or `first` where the
/// parameter has no name.
#[derive(Drop)]
pub struct ParamHead {
    pub first: u32,
    pub line: u32,
    pub spec: Box<Spec>,
    pub stars: u32,
    pub name: Option<Text>,
    pub at: u32,
}

/// What a row of brackets stands behind: the name of a declarator, or a parameter's stars and name.
#[derive(Drop)]
pub enum Head {
    Name(Declarator),
    Param(ParamList, ParamHead),
}

/// A declarator that is initialised.
#[derive(Drop)]
pub struct InitDeclarator {
    pub declarator: Declarator,
    pub dims: Vec<Dim>,
}

/// An initialiser list that has begun, with the items before this one.
#[derive(Drop)]
pub struct InitList {
    pub first: u32,
    pub items: Vec<Init>,
}

/// What a specifier is read for.
#[derive(Drop)]
pub enum SpecContext {
    Declaration(Heading),
    Param {
        listing: ParamList,
        first: u32,
        line: u32,
    },
}

/// What an expression is read for.
#[derive(Drop)]
pub enum ExprContext {
    Statement {
        first: u32,
        line: u32,
        pending: Vec<PendingStmt>,
    },
    IfTest {
        first: u32,
        line: u32,
        pending: Vec<PendingStmt>,
    },
    WhileTest {
        first: u32,
        line: u32,
        pending: Vec<PendingStmt>,
    },
    DoTest {
        first: u32,
        line: u32,
        body: Box<Stmt>,
        pending: Vec<PendingStmt>,
    },
    ForStart {
        first: u32,
        line: u32,
        pending: Vec<PendingStmt>,
    },
    ForTest {
        first: u32,
        line: u32,
        start: Box<ForStart>,
        pending: Vec<PendingStmt>,
    },
    ForNext {
        first: u32,
        line: u32,
        start: Box<ForStart>,
        test: Option<Expr>,
        pending: Vec<PendingStmt>,
    },
    Return {
        first: u32,
        line: u32,
        pending: Vec<PendingStmt>,
    },
    /// An array length, behind these brackets.
    Length {
        head: Head,
        dims: Vec<Dim>,
    },
    /// An initialiser, within these lists, the innermost last.
    Item {
        target: InitDeclarator,
        lists: Vec<InitList>,
    },
}

/// What comes next, or what was read last.
#[derive(Drop)]
pub enum State {
    /// An external declaration comes, or the end.
    Items(Vec<Item>),
    /// A specifier comes.
    Specifying(SpecContext),
    /// A declarator's stars were read.
    Declare(Box<Declaration>, u32),
    /// A row of brackets was read.
    Dims(Head, Vec<Dim>),
    /// An expression comes, or nothing.
    Optional(ExprContext),
    /// An expression comes.
    Reading(ExprContext),
    /// An initialiser comes.
    Init(InitDeclarator, Vec<InitList>),
    /// A list of initialisers was read whole.
    AfterInit(InitDeclarator, Vec<InitList>, Init),
    /// The opening parenthesis of parameters was read.
    Params(ParamList),
    /// A comma was read behind a parameter.
    NextParam(ParamList),
    /// A parameter's specifier and stars were read.
    Param {
        listing: ParamList,
        first: u32,
        line: u32,
        spec: Box<Spec>,
        stars: u32,
    },
    /// The closing parenthesis of parameters was read.
    Closed(Declarator, Params),
    /// A statement comes or, in a block, a declaration or the block's end.
    Begin(Vec<PendingStmt>),
    /// The parenthesis before a test comes.
    Opening(ExprContext),
    /// `for` was read.
    ForWord {
        first: u32,
        line: u32,
        pending: Vec<PendingStmt>,
    },
    /// `for` and its opening parenthesis were read.
    ForOpen {
        first: u32,
        line: u32,
        pending: Vec<PendingStmt>,
    },
    /// A statement was read but for its semicolon.
    Semi(Box<Stmt>, Vec<PendingStmt>),
    /// A statement was read; it may be the last part of others that have begun.
    Done(Box<Stmt>, Vec<PendingStmt>),
}

/// What one token leads to.
#[derive(Drop)]
pub enum Shift {
    Shifted(State),
    /// An expression for this begins with the token, if any does.
    NeedsExpr(ExprContext),
    /// A specifier for this begins with the token, if any does.
    NeedsSpec(SpecContext),
    /// No program goes on so.
    Rejected,
}

/// The shift to a state, or none.
pub fn shifted(state: Option<State>) -> Shift
    ensures { result ≡ shifted_of state }
{
    match state {
        Some(state) => Shift::Shifted(state),
        None => Shift::Rejected,
    }
}
