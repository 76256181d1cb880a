//! How many expressions the tree of a function has, and its weight, by which code is limited. Each call gives
//! exactly the number of the definition of its name, or answers that it doesn't fit a `u64`: it takes no memory
//! itself, and what has so many parts would need more memory than there is.
//!
//! `nodes` counts the expressions of expressions, type names, specifiers, declarators and initialisers, and
//! `functions` those of statements and functions; `scalars` counts the numbers and pointers of a type, `copies`
//! those that the structure assignments in an expression copy, and `weights` what a function weighs. Each adds to a
//! total. Stands on `ob_base`, `ob_words`, `ob_tree` and `ob_typed`.
//!
//! To be believed are `Counts` of `ob_typed`, `Sizes` of `ob_tree`, and the views of both, which read the values of
//! the code as the trees that these definitions speak of.
#![tactic(auto)]

pub use functions::nodes_of_function;
pub use weights::weight;

mod adding;
mod copies;
mod functions;
mod nodes;
mod scalars;
mod weights;
