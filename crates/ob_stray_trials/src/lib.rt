//! Tests of the bounded list of granules outside of objects: against a plain list, on calls drawn at random
//! and on rows worked out by hand. Stands on `ob_stray`; nothing stands on it.
#![tactic(auto)]

#[cfg(test)]
mod plain;
#[cfg(test)]
mod tests;
