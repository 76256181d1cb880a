//! Edge values of each type, made by gcc 12 with `-fwrapv` on x86-64.

pub mod places;
pub mod ranges;
pub mod shifts;
pub mod sums;
