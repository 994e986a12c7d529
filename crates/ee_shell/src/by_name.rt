//! The commands of `ee` that take a text of settings: one setting of an image by its name, all of
//! them, those of a later firmware, values for many at once, whether an image has these, and the
//! header that firmware is built with.
//!
//! `specs/ByName/Settings.antt` says what a text of settings spells, what is read of it in an image
//! and what is set there; `specs/ByName/Records.antt` what a record reads as;
//! `specs/ByName/Listing.antt` and `specs/ByName/SecondSchema.antt` what is told of all settings and
//! what a later schema tidies; `specs/ByName/Unsetting.antt` what is forgotten by name;
//! `specs/ByName/Applying.antt` which values are set by a text of values, and what is left then;
//! `specs/ByName/Verifying.antt` what is told where an image has others; `specs/ByName/Header.antt`
//! is the header in C and in Rust, word for word. Each says the first fault for which nothing is
//! given.

mod applying;
mod constants;
mod header;
mod language;
pub mod laws;
mod listing;
mod opening;
mod recorded;
mod second_schema;
mod settings;
mod unsetting;
mod verifying;

pub use applying::apply_values;
pub use header::header_text;
pub use language::Language;
pub use listing::list_text;
pub use second_schema::{stale_text, tidy_image};
pub use settings::{get_setting, set_setting};
pub use unsetting::unset_setting;
pub use verifying::{Verified, verify_values};
