//! What the commands of the program do, and what is told of them: the parts of `top` that need no compiler.
//! `exec` and `migrate` do what their pages say, `deliver` tells the error sink and gives the status,
//! `job_of` reads the words.
//!
//! The contract of `top` stands here too, over what a compiler promises of sources (`Language`): one clause,
//! `Top`, by a page for each command (`Run`, `Exec`, `Check`, `Migrate`) over what they have in common (`Parts`) and
//! what a job comes to (`Answers`). These are to be believed, with `Causes`, the table of answers and their
//! causes, and `Laws`, whose proofs for each language are this crate's laws, `proofs/Rows`, `proofs/Caused`,
//! `proofs/Determined` and `proofs/Checked`. `Delivery` serves the proof.
//!
//! Stands on `ob_settings` for the words, on `ob_report` for texts, on `ob_image`, `ob_code` and `ob_machine`
//! for images and their runs, on `ob_maker` and `ob_watch` for what is handed in, and on what
//! these stand on.
#![tactic(auto)]

pub use answer::Answer;
pub use came::Came;
pub use files::load;
pub use images::{exec, migrate};
pub use laws::law_migrated;
pub use running::run_image;
pub use status::Status;
pub use telling::deliver;
pub use words::job_of;
pub use writing::written;

mod answer;
mod came;
mod files;
mod images;
mod laws;
mod line;
mod running;
mod status;
mod telling;
mod words;
mod writing;
