//! What the walks of the type checker stand in and add to (C99 6.2.1, 6.7, 6.9): the names in force and the
//! functions with a body, which stay the same in an expression; and the structures, the tags in force, the
//! static objects and the calls so far, which expressions and specifiers add to.
//!
//! `Env` and `Known` are these as the definition's `Env` and `Known` of `ob_typed`, where the depth of the block and
//! the structures whose member lists are open stand beside what is known, since the program changes them in
//! place. `Bodies` numbers the functions with a body. Each change is one call here, which says what it adds and
//! that all else stays. Stands on `ob_base`, `ob_tree`, `ob_typed`, `ob_scopes`, `ob_members` and `ob_conversions`.
//!
//! To be believed are `Scopes` and `Faults` of `ob_typed`; and here `KnownView`, which reads what is known as the
//! definition's, and `Walks`, which says when the program's answer is that of a walk.
#![tactic(auto)]

pub use around::Around;
pub use bodies::Bodies;
pub use env::Env;
pub use keeping::beside_part;
pub use known::{Called, Known};
pub use places::mark_of;
pub use refusals::refused;

mod around;
mod bodies;
mod env;
mod keeping;
mod known;
mod places;
mod refusals;
