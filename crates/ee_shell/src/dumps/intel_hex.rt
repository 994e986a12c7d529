//! Intel HEX texts: the bytes that a text says of a part of memory, and a text that says given
//! bytes.
//!
//! A line is a record: a colon, and pairs of hex digits that spell the number of its data bytes, a
//! 16-bit address, a type, the data, and a byte that makes the sum a multiple of 256. Data stands
//! at its address above the upper address that the last record of type 02 or 04 told; what a text
//! says outside the part is passed over, and a place that it doesn't name reads as 255. `IsHexOf`
//! of `specs/Dumps/intel_hex/Text.antt` states all of that once, for both ends of a line and both
//! cases of a digit; `hex_text` of `specs/Dumps/intel_hex/Written.antt` is the one text that is
//! written, `sparse_text` the one without erased words. `laws` says that it reads back, and that each text has one reading or one first bad
//! line.
//!
//! # What is proved
//!
//! What `read_hex` reads is what the text says of the part, each place by the one byte that is said
//! of it, or 255 (`read`); a text that says something is read, want of memory aside, and every
//! other has one first bad line, which is named (`only`, `fault`, `names`). `write_hex` and
//! `write_sparse_hex` give the one text of their bytes. `laws`: a text that is written reads back, and each text has one reading
//! or one first bad line.
mod fault;
pub mod laws;
mod reading;
mod record;
mod writing;

pub use fault::HexFault;
pub use reading::read_hex;
pub use writing::{write_hex, write_sparse_hex};
