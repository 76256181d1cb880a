//! The parser against tables that were worked out by hand from the grammar.

mod answers;
mod depth;
mod prefixes;
mod programs;
