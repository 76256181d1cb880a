//! The library in C: the functions, each with its name and its tree. `law_library` says that this tree is that of the
//! function's text, and that all its places are the greatest of `u32` and all its lines 0. Stands on `ob_tree` for the
//! trees, on `ob_words` for the types of numbers and on `ob_base` for lists and boxes.
//!
//! To be believed: `Texts`, what the functions' texts are; `Nowhere`, how a tree of the library is placed; `Library`, the
//! order, the names, and of which parts the trees are made. `Nodes`, `Strings`, `Copies`, `Printing` and `Numbers` give
//! these parts, of which `law_library` says what has to be known, and `Lists` serves the contracts of private functions.
#![tactic(auto)]

pub use laws::law_library;
pub use library::LibraryFunction;

mod copies;
mod decimal;
mod functions;
mod laws;
mod library;
mod nodes;
mod numbers;
mod params;
mod printing;
mod statements;
mod strings;
mod types;
