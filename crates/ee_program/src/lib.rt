//! What the program `ee` does, apart from its `main`: its jobs over files and standard streams, on
//! any runtime. `files` replaces the file of an image, and `explain` says beside a refusal what is
//! wrong and what to type.
//!
//! # What a contract sees
//!
//! What the system gives and takes no contract can say. `specs/Files/Saving.antt` has what an error
//! of the system is to a saving, `specs/Explain/Explaining.antt` the causes in a line's bytes.
//!
//! # What is proved
//!
//! That nothing goes wrong by itself and each call ends; that a new file gets its text whole, and
//! how it is compared with the old one; and that a cause is told exactly where it applies
//! (`unended`, `with_return`, `spaced`, `upper_case`).
//!
//! # What is only tested
//!
//! That a file has its old text or its new one, whatever fails and whoever else runs.
//!
//! # Read first
//!
//! `asking.rt`, `running.rt`, and the head of `files/saving.rt`.
#![tactic(auto)]

mod asking;
mod documents;
pub mod explain;
pub mod files;
mod running;

pub use asking::{Terminals, run, run_for};
pub use files::FileLocks;
pub use running::{bad_command_line, out_of_memory};
