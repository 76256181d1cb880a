//! Tests of the machine over devices in memory: that its calls find memory, how devices that fail end a
//! run, that output goes out before a read, and which calls of its devices a run makes. Stands on
//! `ob_machine` and what that stands on; nothing stands on it.
#![tactic(auto)]

#[cfg(test)]
mod strays;
#[cfg(test)]
mod tests;
