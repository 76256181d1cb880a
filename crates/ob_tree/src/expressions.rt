use crate::tokens::{Keyword, Sign};
use ob_base::Text;
use ob_words::IntType;

/// An expression (C99 6.5). `first` is the place of its first token, counted from 0, and `line` that
/// token's line. `at` is the place of its own sign, which is a binary, assignment or postfix
/// operator, `?`, `[`, `.`, `->` or the comma; for every other expression it is `first`.
#[cycle(syntax)]
#[derive(Drop)]
pub struct Expr {
    pub first: u32,
    pub at: u32,
    pub line: u32,
    pub node: ExprNode,
}

/// What an expression is. A name stands for its bytes.
#[cycle(syntax)]
#[derive(Drop)]
pub enum ExprNode {
    Name(Text),
    /// An integer constant or a character constant: a number of its type.
    Number {
        value: i128,
        ty: IntType,
    },
    /// The word `NULL`.
    Null,
    /// The word `EOF`.
    Eof,
    /// Neighbouring string literals: what each stands for.
    Str(Vec<Text>),
    /// An expression in parentheses.
    Paren(Box<Expr>),
    /// An array and a subscript (C99 6.5.2.1).
    Index(Box<Expr>, Box<Expr>),
    /// A function's name and the arguments (C99 6.5.2.2).
    Call(Text, Vec<Expr>),
    /// A structure and a member's name: `.` (C99 6.5.2.3).
    Member(Box<Expr>, Text),
    /// A pointer to a structure and a member's name: `->` (C99 6.5.2.3).
    Arrow(Box<Expr>, Text),
    /// `++` or, where `down`, `--`; behind its operand where `post`, else before it.
    Step {
        post: bool,
        down: bool,
        e: Box<Expr>,
    },
    /// One of `& * + - ~ !` before its operand (C99 6.5.3).
    Unary(Sign, Box<Expr>),
    /// `sizeof` before an expression (C99 6.5.3.4).
    SizeExpr(Box<Expr>),
    /// `sizeof` before a type name in parentheses.
    SizeType(TypeName),
    /// A type name in parentheses before its operand (C99 6.5.4).
    Cast(TypeName, Box<Expr>),
    /// A binary operator between its operands (C99 6.5.5 to 6.5.14).
    Binary(Sign, Box<Expr>, Box<Expr>),
    /// `? :` (C99 6.5.15).
    Cond(Box<Expr>, Box<Expr>, Box<Expr>),
    /// `=` or a compound assignment operator (C99 6.5.16).
    Assign(Sign, Box<Expr>, Box<Expr>),
    /// The comma operator (C99 6.5.17).
    Comma(Box<Expr>, Box<Expr>),
}

/// A type name (C99 6.7.6): a specifier, `stars` times `*`, and array brackets.
#[cycle(syntax)]
#[derive(Drop)]
pub struct TypeName {
    pub spec: Spec,
    pub stars: u32,
    pub dims: Vec<Dim>,
}

/// A type specifier (C99 6.7.2), with the place of its first token.
#[cycle(syntax)]
#[derive(Drop)]
pub struct Spec {
    pub first: u32,
    pub node: SpecNode,
}

#[cycle(syntax)]
#[derive(Drop)]
pub enum SpecNode {
    Void,
    SizeT,
    /// The words of an integer type, in order.
    Integer(Vec<Keyword>),
    /// `struct` and a tag.
    Tag(Text),
    /// `struct` with a tag or none, and member declarations (C99 6.7.2.1).
    Struct {
        tag: Option<Text>,
        members: Vec<MemberDecl>,
    },
}

/// A declaration of members, whose declarators have no initialisers.
#[cycle(syntax)]
#[derive(Drop)]
pub struct MemberDecl {
    pub spec: Spec,
    pub names: Vec<ObjDecl>,
}

/// The declarator of an object or a member (C99 6.7.5): `stars` times `*`, the name with the place
/// of its token, array brackets, and an initialiser or none.
#[cycle(syntax)]
#[derive(Drop)]
pub struct ObjDecl {
    pub stars: u32,
    pub name: Text,
    pub at: u32,
    pub dims: Vec<Dim>,
    pub init: Option<Init>,
}

/// Array brackets, with a length or without.
#[cycle(syntax)]
#[derive(Drop)]
pub struct Dim {
    pub length: Option<Expr>,
}

/// An initialiser (C99 6.7.8): an expression, or a list in braces with the place of its opening
/// brace. `comma` says that one stands before the closing brace.
#[cycle(syntax)]
#[derive(Drop)]
pub enum Init {
    Value(Expr),
    List {
        first: u32,
        items: Vec<Init>,
        comma: bool,
    },
}
