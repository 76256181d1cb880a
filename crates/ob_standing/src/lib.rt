//! What a program's words stand for, from one state of memory to the next. Promises: each change that the
//! machine's definition makes to memory leaves each word standing for the value that it stood for, where a
//! pointer to an object that died is read as a dead object's pointer. The laws are over the definitions of
//! ob_code and ob_model alone, and have no code.
//!
//! To be believed: `specs/Laws`, over the definition of standing in ob_code.
#![tactic(auto)]

pub mod laws;
