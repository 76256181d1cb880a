//! Tests of `verify` and of images: each rule at its edges, the first part and row at fault, and each
//! part's limit from both sides. Stands on `ob_code`; nothing stands on it.
#![tactic(auto)]

#[cfg(test)]
mod tests;
