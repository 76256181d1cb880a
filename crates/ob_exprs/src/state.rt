use crate::measured::{Arguments, Dims, MeasuredSpec, MeasuredType, Members, Names, Operand};
use ob_base::Text;
use ob_tree::Sign;

/// Where an expression stands: the places of its first token and of its own sign, and the line of
/// the first token.
#[derive(Clone, Copy)]
pub struct ExprMark {
    pub first: u32,
    pub at: u32,
    pub line: u32,
}

/// What joins two operands.
#[derive(Clone, Copy)]
pub enum Operator {
    Comma,
    Assign(Sign),
    Binary(Sign),
}

/// A structure that has begun: the place of its first token, its tag, and the members so far.
#[derive(Drop)]
pub struct StructBody {
    pub first: u32,
    pub tag: Option<Text>,
    pub members: Members,
}

/// A line of members that has begun: its specifier, and the names so far.
#[derive(Drop)]
pub struct StructDeclaration {
    pub body: StructBody,
    pub spec: MeasuredSpec,
    pub names: Names,
}

/// What a row of brackets stands behind.
#[derive(Drop)]
pub enum Head {
    /// The stars of the type name of a cast or, where `sized`, of a `sizeof`.
    Type {
        place: ExprMark,
        sized: bool,
        spec: MeasuredSpec,
        stars: u32,
    },
    /// The stars and the name of a member.
    Member {
        line: StructDeclaration,
        stars: u32,
        name: Text,
        at: u32,
    },
}

/// A node that waits for its last part.
#[derive(Drop)]
pub enum PendingNode {
    Paren(ExprMark),
    Index(ExprMark, Operand),
    Call(ExprMark, Text, Arguments),
    Step(ExprMark, bool),
    Unary(ExprMark, Sign),
    Size(ExprMark),
    Cast(ExprMark, MeasuredType),
    Join(ExprMark, Operator, Operand),
    /// Between `?` and `:`.
    Then(ExprMark, Operand),
    /// Behind `:`.
    Else(ExprMark, Operand, Operand),
    /// In a bracket behind these.
    Length(Head, Dims),
    /// A cast or, where true, a `sizeof` that waits for the specifier of its type name.
    Type(ExprMark, bool),
    /// A structure that waits for the specifier of a line of members.
    Struct(StructBody),
}

/// What comes next, or what was read last.
#[derive(Drop)]
pub enum Mode {
    /// An operand comes.
    BeforeOperand,
    /// `(` was read, of a cast or not.
    Open(ExprMark),
    /// `sizeof` was read.
    Size(ExprMark),
    /// `sizeof` and `(` were read.
    SizeOpen(ExprMark, ExprMark),
    /// A name and `(` were read.
    Called(ExprMark, Text),
    /// An operand and `.` or, where true, `->` were read.
    Select(ExprMark, bool, Operand),
    /// A whole operand was read.
    AfterOperand(Operand),
    /// A specifier comes.
    Specifier,
    /// `struct` was read.
    StructWord(u32),
    /// `{` of a structure or `;` of its members was read.
    Members(StructBody),
    /// The stars of a member were read.
    Declare(StructDeclaration, u32),
    /// A row of brackets was read.
    Dims(Head, Dims),
    /// A whole specifier was read.
    AfterSpec(MeasuredSpec),
}
