//! Type specifiers and declarators (C99 6.7.2, 6.7.5, 6.7.6): the rule of each, without the walk over its parts. String
//! literals are here too, since each is a static object (6.4.5).
//!
//! Each call answers exactly as the definition of its name in `ob_typed` does, or has too little memory. `MemberList` is
//! the members of a structure so far, where a name is found without a walk over the others. Stands on
//! `ob_base`, `ob_words`, `ob_tree`, `ob_typed`, `ob_layout`, `ob_consts`, `ob_scopes`, `ob_members`,
//! `ob_conversions` and `ob_context`.
//!
//! To be believed are `Specifiers`, `Strings` and `Expressions` of `ob_typed`.
#![tactic(auto)]

pub use declarators::{declarator_type, length_rule, object_type, parameter_type, pointers};
pub use integers::int_words;
pub use members::MemberList;
pub use strings::{joined, string};
pub use structures::{close, mentioned, opened, struct_place};

mod declarators;
mod integers;
mod members;
mod strings;
mod structures;
