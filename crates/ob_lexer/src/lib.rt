//! The lexer: a source text to its tokens (C99 6.4), or to its first fault. The tokens are the one list
//! that spells the text by longest match, each with its place, line and column; they are few enough, and
//! each of a kind that a source can have, for the parsers to take them. A fault has the first place where
//! nothing can be taken, and whether it is unclosed, wide or stray there. A text has one of the two, and
//! only one. Takes memory for the tokens, and time linear in the text. Stands on `ob_tree` for tokens and
//! the grammar of texts, on `ob_words` for the types of constants, and on `ob_base` for byte lists.
//!
//! `Texts` is the spec to be believed: what it is that tokens spell a text, and where a text stops. `Scan`
//! is the scanner as a function of the bytes ahead, `Endings` has its table of suffixes and `Cursors`
//! counts lines and columns; these serve the proof. Laws for proofs of other crates stand in `proofs/`:
//! `Scanning` (a text has one reading at most), `SomeReading` (it has one), `SourceTokens` (its tokens are
//! few, and of kinds that a source can have) and `CursorLemmas` (how the cursor moves).
#![tactic(auto)]

pub use lexer::{law_one_reading, law_some_reading, lex};

mod bytes;
mod comments;
mod cursor;
mod includes;
mod lexer;
mod names;
mod numbers;
mod quotes;
mod scanner;
mod signs;
mod taken;
