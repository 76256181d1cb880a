//! A test of what trees spell, on a tree that is made by hand. Trees of each construct are made from
//! texts, and spell the texts' tokens, in `ob_trials`. Stands on `ob_tree`; nothing stands on it.
#![tactic(auto)]

#[cfg(test)]
mod tests;
