//! What the rules of operators stand on: tests of types, what an operand is, its value, its conversions, bases
//! with displacements, and a builder for each node of the typed tree (C99 6.2.5, 6.3, 6.5). Each call answers
//! exactly as the definition of its name in `ob_typed` does, or has too little memory; what it was given is
//! then let go. A builder's value is the node of its parts as they are.
//!
//! `Checked` is what an expression is, and `Mark` where it stands. `types` and `complete` test types, `values`
//! loads, `nulls` tells null pointer constants, `numbers` and `fitting` convert, `leans` has bases and
//! displacements, `nodes` the other builders. Stands on `ob_base`, `ob_words`, `ob_tree`, `ob_typed`,
//! `ob_layout` and `ob_consts`.
//!
//! To be believed are, of `ob_typed`, `TypeTests`, `Completeness`, `ConstantValues`, `Conversions`, `Places`, `PostfixRules`
//! (`number`), `UnaryRules` (`is_bare_null`) and `TypedView`; and here `CheckedView`, which reads an operand as the
//! definition's and says what a pointer type points to (`target`), and `Gives`, which says for the
//! crates above when an answer is that of a rule.
#![tactic(auto)]

pub use checked::Checked;
pub use keeping::beside;
pub use marks::Mark;

mod checked;
pub mod complete;
pub mod fitting;
mod keeping;
pub mod leans;
mod marks;
pub mod nodes;
pub mod nulls;
pub mod numbers;
pub mod types;
pub mod values;
