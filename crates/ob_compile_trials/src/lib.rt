//! Tests of the compiler's first half, by small programs: tables of programs with the place and the kind of their first fault of types,
//! worked out by hand from C99 and the rules of the language; every pair of operands of each operator; programs with a
//! second fault; and nesting up to the greatest depth. Stands on `ob_compile`, `ob_lexer` and what these stand on; nothing
//! stands on it.
#![tactic(auto)]

#[cfg(test)]
mod answer;
#[cfg(test)]
mod tests;
