//! Trials of objects' lifetimes: calls on a small heap with answers worked out by hand, under both profiles.
//! Stands on ob_lifetimes, ob_access, ob_model and ob_base; nothing stands on it.
#![tactic(auto)]

#[cfg(test)]
mod tests;
