//! Numbers, fields and lines: what every text of `ee` is made of.
//!
//! A line is its bytes and a line feed, its fields stand one space apart, a number is decimal with
//! no sign and no zero in front. Nothing here allocates but `push_number` and `push_number_behind`.
//!
//! # What a contract sees
//!
//! Bytes: std's `decimal n` for a number, `joined_fields` for a row of fields, `line_of` for a
//! line.
//!
//! # What is proved
//!
//! What is read is spelled so, and what is spelled so is read (`found`, `only`, and their like, of
//! `number`, `number_up_to`, `Fields::of`, `next_field`, `next_line`). `push_number` writes it, or
//! leaves its buffer as it was (`ok`, `err`). `laws`: numbers, rows and texts are told apart by
//! their bytes.
//!
//! # What is only tested
//!
//! Nothing.
//!
//! # Read first
//!
//! `specs/`; `proofs/Public.antt` passes on the lemmas that other crates cite.
#![tactic(auto)]

mod cuts;
mod fields;
mod front_digits;
pub mod laws;
mod lines;
mod numbers;

pub use fields::{Fields, next_field};
pub use lines::next_line;
pub use numbers::{leading_number, number, number_up_to, push_number, push_number_behind};
