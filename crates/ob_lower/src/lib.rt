//! Code for the flat machine from typed trees. The crate has the definition alone so far: `code_of` of specs/Programs is the image of a
//! typed program, by recursion on its tree, with one function for each construct. A piece of code is a list of instructions whose jumps
//! hold how far they go, so that it is the same wherever it stands. Numbers and pointers whose address isn't taken live in words of
//! the frame.
//!
//! The definitions stand in specs/, in the order in which they are read: `Instructions`, `Variables` and `Homes` (where variables are),
//! `Assigned`, `Numbers`, `Operands`, `Places`, `Conditions`, `Stores`, `Calls`, `Expressions`, `Initialisers`, `Statements`, `Functions`,
//! `Names` and `Programs`. `CodeExamples` has the code of small statements, written out by hand. That the code does what a program means
//! is shown for small programs in ob_lower_trials, by computing both.
//!
//! Stands on ob_typed and ob_meaning for typed trees, kinds of accesses, scalars and parts of types, on ob_tree for sizes and allowances,
//! and on ob_code for instructions and images.
#![tactic(auto)]

pub use laws::law_code;

mod laws;
