//! The values of integer constant expressions (C99 6.6), and what a static object holds at the start (6.7.8):
//! exactly those of the definitions, or a refusal exactly where an expression is no constant. An image is
//! put together in one walk over the items of its initialiser, as deep as these stand one in another; a
//! value is judged without memory. Stands on `ob_base`, `ob_words`, `ob_tree`, `ob_typed` and `ob_layout`, whose
//! definitions are to be believed (`ConstantValues`, `AddressConstants` and `Images` of `ob_typed`), and here
//! `Refusal`, `ConstantItems` and `ImageAnswers`; `Placing` and `Shown` serve the proof. Tests stand in
//! `ob_consts_trials`.
#![tactic(auto)]

pub use addresses::{is_static_value, is_value_beside};
pub use constants::{NotConstant, constant};
pub use images::{ConstFault, initial_image, static_image, trimmed};

mod addresses;
mod constants;
mod images;
pub mod laws;
mod parts;
mod pieces;
mod places;
