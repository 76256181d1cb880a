//! What the program reaches outside itself for, as traits that contracts can speak of: a source of
//! bytes, a sink for bytes, a folder of files. Each has a count of faults that never falls, and
//! answers that it failed only in a call in which the count rose, or for a file that a folder with
//! known files doesn't have. So a caller that is generic over a device can't report a fault that
//! wasn't there.
//!
//! Beside the traits stand devices in memory, whose failing calls are chosen by a list, and the
//! adapters over the reader, writer and files of std, which tell nothing of content, and count each
//! fault exactly once. Every layer above shares `NoMemory` and the byte list `Text`. Stands on std
//! alone.
//!
//! `boxed` and its kin, `push_on`, `with_last`, `listed` and `let_go` put values into boxes and
//! lists, and let them go. Each is generic, so its own exits let go of a type that isn't known
//! there: a caller hands its trees to them, and has one `?` at which it owns none. That is for the
//! prover's sake: an exit at which a value of a large enum is still owned is checked for each of its
//! variants.
//!
//! To be believed, since the contracts of the traits and of what uses them speak in their words:
//! `specs/Faults`, `Folder`, `Sink` and `Devices`, which has what a device tells before and after
//! some calls as one record; and `specs/Names`, what a name of the language is, for the crates that
//! read names and those that hold them. `specs/Memory` is about the devices in memory, which tests use. The
//! crate's laws, which proofs of other crates may cite, are those of `proofs/Appending`: pieces that
//! a sink took one after another are one piece, to its bytes and to its tally.
#![tactic(auto)]

pub use faults::Failed;
pub use folder::{FileAnswer, Folder};
pub use mem_folder::MemFolder;
pub use mem_sink::MemSink;
pub use mem_source::MemSource;
pub use names::is_name;
pub use owned::{
    boxed, boxed_three, boxed_two, boxed_with, let_go, listed, push_on, push_with, with_last,
};
pub use sink::{Sink, write_all};
pub use source::Source;
pub use std_folder::StdFolder;
pub use std_sink::StdSink;
pub use std_source::StdSource;
pub use text::{NoMemory, Text};

mod faults;
mod folder;
mod mem_folder;
mod mem_sink;
mod mem_source;
mod names;
mod owned;
mod schedule;
mod sink;
mod source;
mod std_folder;
mod std_sink;
mod std_source;
#[cfg(test)]
mod tests;
mod text;
