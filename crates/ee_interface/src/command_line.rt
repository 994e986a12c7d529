//! What the program `ee` hears: the words that ask for a job, and whole inputs and outputs.
//!
//! `specs/CommandLine/Job.antt` says what words ask for which job, `Operands.antt` which of them is
//! wrong where they ask for none. `read_whole` and `write_whole` say what of an input and an output
//! went through them.

mod files;
mod form;
mod help;
mod jobs;
mod operands;
mod words;

pub use files::{MOST_BYTES, MOST_READS, ReadFault, Stopped, read_whole, write_whole};
pub use form::Form;
pub use help::{HELP, VERSION};
pub use jobs::Job;
pub use operands::{
    Operand, WordFault, WordsCause, least_number, most_number, why_no_job, why_no_line,
};
pub use words::job;
