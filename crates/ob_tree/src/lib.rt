//! The tokens of a source text and the faults that it can have, the trees of the grammar, and the
//! tokens that a tree spells (C99 6.4 to 6.9). `spell` gives the tokens of a program, and three laws
//! say that tokens are those of one program, one expression and one specifier at most. Stands on
//! `ob_base` and `ob_words`.
//!
//! Specs to be believed, since they say what the language is: `Bytes`, `Words`, `Signs`, `Constants`,
//! `Characters`, `Spaces` and `Pieces` on texts; `Trees`, `Programs`, `Spelling`, `ProgramSpelling`,
//! `Levels`, `Integers`, `Valid` and `ProgramValid` on trees; `Places`, `Paths` and their like for
//! programs on where nodes stand and how deep; `Fronts`, `ProgramFronts` and `Verdicts` on how far tokens
//! begin a tree; `Types`, `Parts` and `Sizes` on types. `ExpressionView`, `ProgramView` and `TypeView`
//! read the values of the code as such trees. The others serve proofs: `ExprStates`, `ExprMachine`,
//! `ProgramStates`, `ProgramParts`, `ProgramMachine` and `Readings` are operator-precedence
//! (shift-reduce) parsers as machines on plain data, which the parsers' private contracts cite.
//!
//! Laws for proofs of other crates stand in `proofs/`: on names in `Names`; on the machine for
//! expressions in `FirstTokens`, `IntegerWords`, `Lists`, `PlaceKeeps`, `Runs`, `SignShifts`,
//! `SpecShifts`, `Through`, `Unreduced` and `OneTree`; on the one for programs in `ProgramRuns`,
//! `ProgramInits`, `ProgramParams`, `ProgramNames`, `ProgramDeclarations`, `ProgramThrough` and
//! `OneProgram`; on the answers of both in `RightReadings`; on trees that are built from lists in
//! `Views`; on structures that get more structures and members in `KeptLayouts`.
#![tactic(auto)]

pub use constants::{Base, Suffix};
pub use expressions::{Dim, Expr, ExprNode, Init, MemberDecl, ObjDecl, Spec, SpecNode, TypeName};
pub use faults::{LexFault, LexKind, SourceFault, SyntaxFault, SyntaxKind, TypeFault, TypeKind};
pub use one_program::law_spell;
pub use one_tree::{law_expression, law_specifier};
pub use program_spelling::spell;
pub use programs::{
    BlockItem, FileDecl, ForStart, Item, ItemNode, Local, Param, Params, Program, Stmt, StmtNode,
};
pub use structs::Structs;
pub use tokens::{Keyword, Sign, Span, Token, TokenKind};
pub use types::{CType, MemberRow, StructLayout, StructRow};

mod constants;
mod expressions;
mod faults;
mod one_program;
mod one_tree;
mod program_spelling;
mod programs;
mod spelling;
mod structs;
mod tokens;
mod types;
