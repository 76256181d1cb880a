//! The parsers against tables that were worked out by hand from the grammar, and against a slow
//! recogniser that was written from it.

mod answers;
mod depth;
mod expressions;
mod grammar;
mod lists;
