//! A script and its report: the commands and how their lines are spelled, the answers and how they
//! are written, and the session that answers a script as it comes.
//!
//! A script is the lines of its commands and nothing else; a text that is no script has a first bad
//! line. A session is fed the script in any pieces, keeps at most the bytes of one unfinished line,
//! and has each command answered by something that serves: what that may answer, and what it is
//! afterwards, is its own relation, and a session adds nothing to it.

mod answer;
mod command;
pub mod laws;
mod parse;
mod session;
mod whole;

pub use answer::{Answer, push_answer};
pub use command::Command;
pub use parse::{next_command, read_command};
pub use session::{LONGEST_LINE, ScriptFault, Serve, Session, StreamFault};
pub use whole::{answer_reader, answer_script};
