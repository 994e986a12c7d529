//! What the commands on images share: the store that is opened of an image's text, the text that is
//! left of a device, and the report machine, which answers a script.
//!
//! # What a contract sees
//!
//! `specs/Opening.antt` says what is opened and what is left, `specs/FileFaults.antt` why nothing
//! is, `specs/Machine.antt` what a command is answered and leaves, `specs/Trace.antt` which changes
//! a script makes and when its moves are the fewest.
//!
//! # What is proved
//!
//! `opened` and `left` of these calls say it of each image, and each fault has its cause.
//!
//! # What is only tested
//!
//! Nothing.
//!
//! # Read first
//!
//! `specs/Machine.antt`.
#![tactic(auto)]

mod opening;

pub use opening::{ImageAndText, new_store, open_image, text_left, text_of};
