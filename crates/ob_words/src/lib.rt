//! The integer types of the language and exact arithmetic on their numbers: widths and signs,
//! promotion and common type, conversion, the operators and comparisons, words of 64 bits,
//! little-endian fields, and the room that an object takes.
//!
//! Each definition is on whole numbers. A conversion gives the one number of the type that is
//! congruent modulo 2 ^ width; each operator is computed exactly and converted. The crate stands
//! on std alone and takes no memory.
//!
//! All definitions under `specs/` are to be believed: the types (`Types`), conversion (`Conversion`),
//! operators (`Operators`), words (`Words`) and fields (`Fields`). The functions of `laws` state what
//! follows from them. Proofs of crates above also cite three modules of lemmas, which are laws of this
//! crate: `proofs.Conversions` on conversion, `proofs.Congruence` on congruent numbers, `proofs.Writes`
//! on fields.
#![tactic(auto)]

pub use conversion::{convert, number, word};
pub use fields::{get_le, put_le};
pub use operators::{binary, compare};
pub use ranks::{common, promote, signed, width};
pub use room::block;
pub use types::{BinOp, DivideByZero, IntType, Relation};

mod conversion;
mod fields;
pub mod laws;
mod operators;
mod ranks;
mod room;
#[cfg(test)]
mod tables;
#[cfg(test)]
mod tests;
mod types;
