//! Tests of `ob_consts`: the values of constant expressions, divisions by zero in parts that are evaluated
//! and in others; addresses at the ends of their object and one past them; images of numbers of each type,
//! strings, lists in lists and pointers; what is no constant; parts of the greatest size; large initialisers.
//! Stands on `ob_consts`; nothing stands on it.
#![tactic(auto)]

#[cfg(test)]
mod tests;
