use crate::names::Builtin;
use ob_tree::CType;
use ob_words::{BinOp, IntType, Relation};

/// An expression that has a value (C99 6.5): its type, and how the value comes. `line` is that of the
/// first token of the expression whose evaluation acts, brackets and casts passed through.
#[cycle(typed)]
#[derive(Drop)]
pub struct TExpr {
    pub line: u32,
    pub ty: CType,
    pub node: TNode,
}

/// An expression that designates an object (C99 6.3.2.1): the type of what it designates, and where
/// that lies.
#[cycle(typed)]
#[derive(Drop)]
pub struct TPlace {
    pub line: u32,
    pub ty: CType,
    pub lean: TLean,
}

/// A base and a displacement in bytes from it.
#[cycle(typed)]
#[derive(Drop)]
pub enum TLean {
    /// A static object by its number, counted from 0.
    Static(u32),
    /// An automatic object of the function by its number, counted from 0.
    Local(u32),
    /// What a pointer's value points to.
    Value(Box<TExpr>),
    /// `scale` times a number further or, where `minus`, before. The number is evaluated first where
    /// `number_first`, else the base is.
    Slide {
        base: Box<TLean>,
        scale: u64,
        minus: bool,
        number_first: bool,
        by: Box<TExpr>,
    },
    /// So many bytes further, to a member.
    Member(Box<TLean>, u64),
}

/// How an expression's value comes.
#[cycle(typed)]
#[derive(Drop)]
pub enum TNode {
    /// A number of the expression's type.
    Num(i128),
    /// The null pointer (C99 6.3.2.3).
    Null,
    /// What is loaded from a place.
    Read(Box<TPlace>),
    /// The pointer to a base and a displacement.
    Lean(Box<TLean>),
    /// A number converted to a type (C99 6.3.1.3).
    Convert(IntType, Box<TExpr>),
    /// A value that is dropped (C99 6.3.2.2).
    ToVoid(Box<TExpr>),
    /// An operator on two numbers of a type, to which its result is converted; of a shift the left
    /// operand alone has this type.
    Arith(BinOp, IntType, Box<TExpr>, Box<TExpr>),
    /// Whether two numbers of one type stand in a relation: 0 or 1 (C99 6.5.8, 6.5.9).
    Compare(Relation, Box<TExpr>, Box<TExpr>),
    /// Whether two pointers stand in a relation: 0 or 1.
    PtrCompare(Relation, Box<TExpr>, Box<TExpr>),
    /// How many elements of so many bytes lie between two pointers (C99 6.5.6).
    PtrDiff(u64, Box<TExpr>, Box<TExpr>),
    /// `&&` (C99 6.5.13).
    And(Box<TExpr>, Box<TExpr>),
    /// `||` (C99 6.5.14).
    Or(Box<TExpr>, Box<TExpr>),
    /// `? :` (C99 6.5.15).
    Cond(Box<TExpr>, Box<TExpr>, Box<TExpr>),
    /// The comma operator (C99 6.5.17).
    Comma(Box<TExpr>, Box<TExpr>),
    /// `=` with a number or a pointer (C99 6.5.16.1).
    Assign(Box<TPlace>, Box<TExpr>),
    /// A compound assignment or a step of a number, computed in type `common` (C99 6.5.16.2, 6.5.2.4).
    /// The value is that before where `post`, else that after.
    Update {
        op: BinOp,
        common: IntType,
        post: bool,
        place: Box<TPlace>,
        value: Box<TExpr>,
    },
    /// A compound assignment or a step of a pointer by `scale` bytes times a number.
    PtrUpdate {
        scale: u64,
        minus: bool,
        post: bool,
        place: Box<TPlace>,
        value: Box<TExpr>,
    },
    /// The assignment of a structure to the first place from the second.
    CopyStruct(Box<TPlace>, Box<TPlace>),
    /// A call of the function of this number, counted from 0 (C99 6.5.2.2).
    Call(u32, Vec<TExpr>),
    /// A call of a built-in function.
    Builtin(Builtin, Vec<TExpr>),
}
