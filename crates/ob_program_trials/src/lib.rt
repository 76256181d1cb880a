//! Tests of the whole program over devices in memory: what each command writes and ends with, and what
//! devices that fail come to. Stands on `ob_program` and `ob_base`; nothing stands on it.
#![tactic(auto)]

#[cfg(test)]
mod tests;
