//! Tests of `ob_scopes`: names and tags through blocks that are entered and left, step by step, and a hundred
//! thousand names at once. Stands on `ob_scopes`; nothing stands on it.
#![tactic(auto)]

#[cfg(test)]
mod tests;
