//! The commands of `ee` between images and real parts, over bytes.
//!
//! `import` makes an image of what a programmer read from a part, and `export` gives what it writes
//! to one, as bytes (`specs/Part/Moving.antt`) or as Intel HEX (`specs/Part/Hex.antt`), of a part
//! with error correction, as it is or coded, or of one without (`Form`). They open no store: words that spell nothing
//! stay what they are. `specs/Part/Faults.antt` has why each gives nothing, and
//! `specs/Part/Inspecting.antt` what is told of an image that came back from the field.

mod document;
mod dump;
mod hex_files;
mod image;
mod inspecting;
pub mod laws;

pub use crate::dumps::Form;
pub use document::inspect_json;
pub use dump::{export_image, import_image};
pub use hex_files::{export_hex, import_hex};
pub use inspecting::inspect_text;
