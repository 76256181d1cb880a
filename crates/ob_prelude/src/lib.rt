//! `complete` puts the functions of the library in C that a program needs behind its items. `law_completion` says which
//! these are, that each is one of its name, and that a completed program lacks none that it calls. Stands on `ob_library`
//! for the functions and their trees, and on `ob_tree` for programs.
//!
//! To be believed: `Calls`, which functions a program calls and defines; `Completion`, which functions are appended.
#![tactic(auto)]

pub use completion::complete;
pub use laws::law_completion;

mod calls;
mod completion;
mod laws;
mod program_calls;
