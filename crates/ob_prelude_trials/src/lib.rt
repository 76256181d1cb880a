//! Tests of the library in C, over the lexer and the parser: the texts of the library give the trees that are appended,
//! and programs get those that they call. Stands on `ob_prelude`, `ob_parser` and `ob_tree_texts`; nothing stands on it.
#![tactic(auto)]

#[cfg(test)]
mod tests;
