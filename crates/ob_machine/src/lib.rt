//! The machine that runs images. `Machine::run` is exactly the run that the definition of the flat machine
//! gives for the image, in both modes and under both profiles: its ending, its output, the stray accesses
//! that are told and their order, the place in the cycle of manufactured values, its memory and the number of
//! its instructions. Input and output go through buffers of 4,096 bytes, and what was written goes out before
//! the machine waits for input. In oblivious mode the machine takes no memory after `load`; in boundless mode
//! it does only at a store outside of its object. `shown` gives what a named variable holds. The laws say
//! where a run's instructions stand and when a run is spent.
//!
//! Stands on `ob_space` for memory and on `ob_pointers` for why a pointer isn't moved, on `ob_maker` for made
//! values, on `ob_watch` and `ob_telling` for watchers and what they are told, on `ob_code` for images and the
//! definition, on `ob_model` for endings, on `ob_base` for devices, and on `ob_words` for arithmetic.
//!
//! To be believed, over the definition of the machine in `ob_code`: specs/Machines (an image that is loaded,
//! what a run of it gives, and what shows), Devices and Progress, which the laws in Laws speak of. Buffers,
//! Hearing, Exchanges, Executions, Effects, Finished and Wiring serve the proof.
#![tactic(auto)]

pub use laws::{law_places, law_spent};
pub use machine::Machine;

mod act;
mod arithmetic;
mod buffers;
mod calls;
mod execution;
mod heap;
mod laws;
mod machine;
mod memory;
mod pointers;
mod ports;
mod runs;
mod shown;
mod steps;
