//! The files of the program `ee`: how the file of an image or a dump is replaced, so that an
//! image's old text or its new one stands, whatever fails on the way and whoever else runs.
//!
//! `save` replaces an image's file, if it still is what was read, by the steps that the head of
//! `saving.rt` tells. A runtime says by `FileLocks` how a file is locked. No contract can say what
//! the system gives and takes: beyond how a file is compared with a text, that a new file gets its
//! text whole, what an error of the system is to a saving (`save_fault_of_kind`), and what is told
//! of a file that isn't replaced, it is proved here that nothing goes wrong by itself and that each
//! call ends.

mod locks;
mod saving;

pub use locks::FileLocks;
pub use saving::{SaveFault, save};
