//! The texts of the program `ee`: scripts and their answers (`script`), the words of its command
//! line (`command_line`), and its faults, each with a line and an exit status.
//!
//! # What a contract sees
//!
//! `specs/Script`: which lines spell which commands, and what a run answers. `specs/CommandLine`:
//! which words ask for which job, and what is wrong in others. `specs/Fault.antt`: each fault's line
//! and status.
//!
//! # What is proved
//!
//! `fault_line`, `status_of` and the conversions to `Fault` are the table of faults. `read_command`
//! reads exactly the lines that spell a command (`found`, `only`, `none`). A script is answered
//! line by line, in whatever pieces it comes, by a run of what serves it, or what is met first is
//! named: a bad line, or a read that failed (`answered`, `fault`, `bad`). `laws`: each text is the
//! script of one list of commands or has one first bad line. `job` reads exactly the rows of the
//! table of commands (`found`, `only`), and `why_no_job` and `why_no_line` name the first word of
//! others that isn't what it is to be. `read_whole` gives all that a reader had left, and
//! `write_whole` says how long a front went out (`whole`, `all`, `front`, `short`).
//!
//! # What is only tested
//!
//! The help's words, which no clause sees: a test finds each row of the table in them.
//!
//! # Read first
//!
//! `specs/Script/Run.antt`, `specs/CommandLine/Job.antt`, `specs/Fault.antt`.
#![tactic(auto)]

mod beside;
pub mod command_line;
mod fault;
mod replay_fault;
pub mod script;

pub use fault::{Fault, File, fault_line, status_of};
pub use replay_fault::ReplayFault;
