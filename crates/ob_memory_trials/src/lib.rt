//! Tests of checked memory, by small programs of the machine that are written as text: accesses at the edges
//! of static, local and heap objects in both modes, pointers out of bounds, granules with pointers, the
//! bounded list, and `free` under both profiles. Each row tells how the run ends, what its words hold then,
//! and which stray accesses were told. Stands on `ob_machine` and what that stands on; nothing stands on it.
#![tactic(auto)]

#[cfg(test)]
mod assembler;
#[cfg(test)]
mod outcome;
#[cfg(test)]
mod tests;
