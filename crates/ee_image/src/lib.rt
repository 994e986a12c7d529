//! Images as text: a device in one text, and a text that is one device's.
//!
//! The first line says the size, and each page has a line with its wear and its words. Power, cuts
//! and fuse are not in the text.
//!
//! # What a contract sees
//!
//! The text is a function of the device (`specs/Text.antt`). A text that is no device's has one
//! first fault (`specs/Fault.antt`).
//!
//! # What is proved
//!
//! `read_image` gives the device whose text it is, on, with no cuts and no fuse, or names the one
//! fault, want of memory aside (`found`, `at_rest`, `only`, `fault`, `names`). `write_image`
//! appends the text of any device, or leaves its buffer as it was (`ok`, `err`). `laws`: a text is
//! a device's or has a fault, never both and never two; devices are told apart by their texts, but
//! for power and cuts.
//!
//! # What is only tested
//!
//! Images of the greatest size.
//!
//! # Read first
//!
//! `specs/Text.antt`.
#![tactic(auto)]

mod fault;
pub mod laws;
mod reading;
mod word;
mod writing;

pub use fault::ImageFault;
pub use reading::read_image;
pub use writing::write_image;
