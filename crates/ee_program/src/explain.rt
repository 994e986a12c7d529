//! What is said beside the line of a refusal, to who asks for it: the text that is wrong, what is
//! wanted there, and what to type next; and the help of one command.
//!
//! `specs/Explain/Explaining.antt` has the causes in a line's bytes, `ee_interface` those in words
//! and fields. What the layer above may use: `why_bad_line`, and what writes the lines.

mod causes;
mod lines;
mod meanings;
mod paths;
mod remedies;
mod telling;

pub use causes::{LineCause, why_bad_line};
pub use lines::{
    help_asked, push_dump_length, push_entry, push_help, push_line_cause, push_meaning,
    push_no_line, push_remedy, push_unknown_name, push_words, push_words_cause,
};
pub use paths::path_of;
pub use telling::{fault_told, line_asked};
