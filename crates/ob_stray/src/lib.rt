//! The bounded list of granules outside of objects, most recently used first (boundless memory blocks:
//! Rinard and others, ACSAC 2004). `StrayStore` is exactly the list of ob_model with its bound: a load or
//! store at a listed granule brings it to the front, a store at another goes first, and the last entry
//! leaves where the list was full. A listed granule is never refused memory; after an answer `NoMemory`
//! the list is as it was.
//!
//! It stands on ob_model for the list, on the kit's `lru` for its order, and on ob_base for `NoMemory`.
//! Beside the list stands the set of its granules in order of objects, a `BTreeSet` of std.
//!
//! What a call costs, where a search in the set takes the logarithm of the list's length: `load` costs one
//! look-up by hash, and `store` at a listed granule two. `store` at another costs two look-ups, and an
//! insertion into the list and the set; in a full list also a removal from both. `forget` costs one search
//! in the set, and for each entry of the object one more, and a removal from both, however many entries
//! other objects have. `clear` takes out one entry after the other. `new` takes no memory in proportion to
//! the bound, `store` takes it at a new granule, and `load`, `forget` and `clear` take none.
//!
//! To be believed: specs/Store. specs/Kept says how a store is kept, and serves the proof alone.
#![tactic(auto)]

pub use store::{Dropped, StrayStore};

mod indexed;
mod store;
