//! Tests of the parsers of expressions and specifiers, over the lexer: answers that were worked out by
//! hand from the grammar, the limit of 256 nodes on a path from both sides, and a slow recogniser of the
//! grammar's rules, with whose verdict `parse_expr` and `parse_spec` agree on some thousands of short
//! lists of tokens. Stands on `ob_lexer`, `ob_exprs` and `ob_tree_texts`; nothing stands on it.
#![tactic(auto)]

#[cfg(test)]
mod tests;
