//! Trials of the object table: it is compared with a sorted vector, which is slow and plain, on some
//! thousands of calls. The vector is proved to the table's clauses, and has no root. Stands on
//! ob_objects, ob_model and ob_base; nothing stands on it.
#![tactic(auto)]

pub use sorted::SortedTable;

mod search;
mod sorted;
#[cfg(test)]
mod tests;
