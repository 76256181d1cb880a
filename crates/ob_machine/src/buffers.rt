// The buffers between a run and its devices.

pub mod input;
pub mod output;

/// How many bytes a buffer has: a read asks for so many, and output is written in pieces of so many.
const SIZE: usize = 4096;
