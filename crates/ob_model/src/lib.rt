//! What the meaning of a program and the machine that runs it share: values, cells of memory, stray
//! accesses, freed objects, out-of-bounds descriptors, settings, endings, and what shows of a run. Its
//! definitions say which accesses stray and what becomes of them, which pointers free an object and whether
//! it stays known, where the heap places an allocation, which slot and word a pointer out of bounds gets,
//! how pointers are moved and compared, what a granule of eight bytes gives and takes, how the bounded list
//! of stray cells moves, and when two runs agree. Stands on ob_words, and takes no memory.
//!
//! All of specs/ but Laws is to be believed. Its laws that other crates' proofs cite are those of the
//! contracts in src/laws.rt, and the lemmas of proofs/Astray (which accesses stray) and proofs/ReadBack
//! (written bytes are read back).
#![tactic(auto)]

pub use accesses::{granule_of, inside, size_of_kind};
pub use endings::Ending;
pub use laws::{
    law_agreement, law_bounded_list, law_cells, law_descriptors, law_first_fit, law_freeing,
    law_granules, law_heap_blocks, law_known, law_pointers, law_recency, law_settings, law_status,
    law_strays,
};
pub use objects::{Entry, Sort};
pub use settings::{Mode, Profile, RunSettings};
pub use strays::{Act, StrayEvent};
pub use values::{Cell, LoadKind, Shown, Value};

mod accesses;
mod endings;
mod laws;
mod objects;
mod settings;
mod strays;
#[cfg(test)]
mod tests;
mod values;
