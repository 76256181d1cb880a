//! What the parser of programs holds between two tokens, and what one token does with it (C99 6.7 to
//! 6.9): the pending statements, and the declaration, declarator, parameters or initialisers that have
//! begun. It is a shift-reduce parser in which expressions and specifiers are symbols: `shift` reads a
//! token, or says what an expression or a specifier is needed for; `used` and `specified` go on behind
//! that; `finish` gives the program. Each is what the machine `ProgramMachine` of `ob_tree` does on
//! the same state as plain data; that the machine reads what the grammar spells is said in
//! `ob_parser`. Statements of any depth cost no stack. Stands on `ob_base`, `ob_words` and `ob_tree`.
//!
//! Errors come for want of memory alone, and what was given is let go.
//!
//! No spec here is to be believed: `View` and `Shifts` say what the values of the code are as states of
//! that machine, and `Statements` which tokens begin what; all three serve the contracts of this
//! crate and of `ob_parser`.
#![tactic(auto)]

pub use contexts::used;
pub use declarations::specified;
pub use discards::{discard_expr, discard_spec, discard_state};
pub use endings::finish;
pub use shifts::shift;
pub use state::{
    Declaration, Declarator, Definition, ExprContext, Head, Heading, InitDeclarator, InitList,
    ParamHead, ParamList, PendingStmt, Scope, Shift, SpecContext, State, TokenMark,
};

mod closing;
mod contexts;
mod declarations;
mod declarators;
mod discards;
mod endings;
mod initialisers;
mod nodes;
mod optional;
mod params;
mod pending;
mod shifts;
mod state;
mod statements;
