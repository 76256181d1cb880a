//! Tests of the parser of programs, over the lexer: answers that were worked out by hand from the
//! grammar, the limit of 256 nodes on a path from both sides, and each begin of a program. Stands on
//! `ob_lexer`, `ob_parser` and `ob_tree_texts`; nothing stands on it.
#![tactic(auto)]

#[cfg(test)]
mod tests;
