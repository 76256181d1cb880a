//! Runs of the code of small programs beside the meaning of these programs, by computing both definitions. The crate has laws alone.
#![tactic(auto)]

pub use laws::{
    law_assignments, law_control, law_directed, law_ends, law_outside, law_overruns, law_pointers,
    law_rules, law_stopped, law_waiting,
};

mod laws;
