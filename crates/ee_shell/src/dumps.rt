//! Dumps: the words of a device as the bytes that a programmer reads from a part and writes to it.
//!
//! A dump has the words of both sets, page after page, and nothing else of the device. A part with
//! error correction keeps each word as itself, in eight bytes with the least first, or as a coded
//! word, and one without beside its complement, in 16 (`Form`). An erased word is bytes of 255 alone;
//! no word holds the number that these spell, so that a dump says which words are erased. A torn
//! word has no bytes, so that a device with one has no dump (`specs/Dumps/Dump.antt`); but numbers
//! that make no word are read as a torn one (`specs/Dumps/Pair.antt`, `Code.antt`). Some words tell
//! that another shape wrote them (`specs/Dumps/Places.antt`), and marks that it is a dump of another
//! form (`specs/Dumps/Kind.antt`). `laws` says that a device is told by its size, its dump and its
//! wear, that all bytes of the right length are a dump of words, and that a device has a dump or a
//! first torn word, or a number with no code. `intel_hex` reads such bytes out of a text and writes them as one.

mod fault;
pub mod intel_hex;
mod kind;
pub mod laws;
mod places;
mod reading;
mod word;
mod writing;

pub use ee_interface::command_line::Form;
pub use fault::{DumpFault, WriteFault};
pub use intel_hex::{HexFault, read_hex, write_hex, write_sparse_hex};
pub use kind::{Marking, other_kind};
pub use places::{first_misplaced, first_uncoded};
pub use reading::read_dump;
pub use writing::write_dump;
