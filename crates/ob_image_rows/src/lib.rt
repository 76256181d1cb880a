//! The rows of an image beside its code: static objects, the pointers in them, functions with their variables that have
//! bytes, and the names of variables. Each call gives exactly what the definitions of `ob_lower` say.
//!
//! Stands on `ob_homes` for the homes of variables, on `ob_lower`, whose `Functions`, `Names` and `Programs` are to be believed, on
//! `ob_typed` for typed trees, on `ob_layout` for the sizes of types, and on `ob_code` for the rows themselves.
//!
//! Each call answers `NoMemory` also where a number is too great for its row, or where a type has no size. That
//! no typed program within the limits has such isn't proved yet.
#![tactic(auto)]

pub use functions::{function_row, local_rows};
pub use names::name_rows;
pub use statics::{pointer_rows, static_rows};

mod adding;
mod functions;
mod lookup;
mod names;
mod sizes;
mod statics;
