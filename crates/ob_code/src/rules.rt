// The rules of an image, part by part.

pub mod code;
pub mod functions;
pub mod main_function;
pub mod names;
pub mod pointers;
pub mod statics;
