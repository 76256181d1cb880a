//! The typed tree of a program: what each expression, statement, object and function of it is once
//! names are resolved, conversions are written out and the types are known (C99 6.5 to 6.9).
//! Stands on `ob_base`, `ob_words` and `ob_tree`, and takes no memory.
//!
//! To be believed are, in specs/, beginning with `Typing` (a program's typed tree, or its first fault):
//! `Functions`, `Declarations`, `Initialisers`, `Statements`, `Expressions` and the rules that they name
//! (`PostfixRules`, `UnaryRules`, `BinaryRules`, `AssignRules`, `Conversions`, `Specifiers`, `Strings`);
//! `Scopes`, `TypeTests`, `Completeness`, `ConstantValues`, `AddressConstants`, `Images`, `Places`,
//! `Marks`, `Counts` and `Faults`; `TypedTree`, with `TypedView` and `ProgramView`, which read the values
//! of the code as such trees. `WellTyped`, `TypedLaws` and the examples are what the laws speak of.
//!
//! `law_well_typed` says of every program that its typed tree keeps the rules by themselves, as `WellTyped` has them.
#![tactic(auto)]

pub use expressions::{TExpr, TLean, TNode, TPlace};
pub use names::{Builtin, VarName};
pub use program::{TFunction, Typed};
pub use statements::{TInit, TStmt};
pub use statics::{StaticImage, StaticPointer, TStatic};

mod expressions;
pub mod laws;
mod names;
mod program;
mod statements;
mod statics;
