//! What a typed program means (C99 6.5 and 6.8, with this project's choices where C99 leaves them open or
//! undefined), on objects that have no addresses: a pointer is an object and an offset, and a store reaches
//! its pointer's own object alone. Accesses that go astray are told; by the run's rule they vanish, or they
//! reach granules outside of their object, of which a bounded list keeps the most recently used ones or all
//! are kept. A heap object that is freed dies under the first profile; under the second it stays known, and
//! each access through its pointer goes astray.
//!
//! The crate has definitions and laws, and no code that runs. The definitions stand in specs/, in the order
//! in which they are read: `Values`, `Memory`, `World`, `Accesses`, `Pointers`, `Heap`, `Setup`, `Scalars`,
//! `Expressions`, `Initialisers`, `Statements`, `Calls`, `Runs`, and `Shown` for what shows of a run at its
//! end. These have to be believed, with what they cite of the crates below. The other specs state the laws
//! and the example programs, and each law is the contract of a function that does nothing: what a store
//! leaves, what a stray access does, what a death or a `free` takes, how a run may end, how a bounded run
//! stands to an unlimited one, and the runs of small programs. Nothing in specs/ serves the proofs alone.
//!
//! Stands on ob_words and ob_model for numbers, cells, the lives of objects, the heap's places and the bounded
//! list, and on ob_tree and ob_typed for types, sizes and typed trees. Its proofs cite the lemmas of ob_words
//! on conversions and fields, those of ob_model on stray accesses and cells, and that of ob_typed on typed trees.
#![tactic(auto)]

pub use laws::{
    law_assignments, law_control, law_deaths, law_depth, law_drops, law_endings, law_ends,
    law_first_drop, law_freed_runs, law_frees, law_heap, law_line, law_lives, law_loads,
    law_no_place, law_outside, law_overruns, law_pointers, law_rules, law_scalars, law_shown,
    law_stores, law_strays, law_values,
};

mod laws;
