//! Tests of the lexer on sources that stand in tables: each token of the grammar, and each fault at its
//! place. They stand in a crate of their own, so that the lexer is proved once and not again for them.
//! Stands on `ob_lexer`; nothing stands on it.
#![tactic(auto)]

#[cfg(test)]
mod tests;
