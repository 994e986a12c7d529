//! The store: a map of addresses to values in any flash device, with power cuts in the contract of
//! each call.
//!
//! # What a contract sees
//!
//! A store's state is a function of its device (`specs/State.antt`). Each call is one relation over
//! the device before and after, by cases on the answer (`specs/Calls.antt`, `specs/Changes.antt`).
//! How a store comes to be: `specs/Openings.antt`, `Starts.antt`, `Rescues.antt`. Which steps a
//! call takes, in order: `specs/StepLists.antt`. How an image is drawn: `specs/Picture.antt`.
//!
//! # What is proved
//!
//! `Variables` is its contract (`Reads`, `Writes`, `WritesAll`, `Forgets`, `Clears`, `Cleans`), and
//! `Store` keeps it on every device that keeps `Flash`, over every look-up. A change is appended or
//! moved with exactly this map, fill, generation, pending and wear, or refused exactly under its
//! cause with nothing changed; values written at once are all there or none is. `Store::load` gives
//! each entry of a list what a read of its address gives, and `Store::read_span` likewise of
//! addresses that follow one another. After a cut the state is the old one or the new one, and the
//! device is what a front of the call's steps and one cut step leave (`IsCutChange`,
//! `IsCutTransfer`, `IsCutClear`, `IsCutClean`). The image stays legal, always.
//! `open`, `start`, `format` and `rescue` say word for word what they leave, after a cut too
//! (`opened`, `started`, `formatted`, `rescued`, `failed`). `laws`: over any run without cuts the
//! map is the changes in their order and wear rises by the pages of a set a transfer; starts end
//! with an empty store, however often they are cut (`starts_end`); one word that went bad costs its
//! own value and no more, under premises (`one_word_costs_no_more`).
//!
//! # What is only tested
//!
//! Nothing here. docs/PROMISES.md says what users are promised of it.
//!
//! # Read first
//!
//! `specs/State.antt`, `specs/Calls.antt`, `specs/StepLists.antt`.
#![tactic(auto)]

mod change;
mod changing;
mod cleaning;
mod copying;
mod first_start;
mod formatting;
#[doc(hidden)]
pub mod inner;
mod known;
pub mod laws;
mod live_cursor;
mod lookup;
mod marking;
mod moving;
mod opening;
mod puts;
mod rescuing;
mod store;
mod variables;
mod writing;

pub use change::Put;
pub use cleaning::count_pending;
pub use ee_pages::{LiveBatch, Wanted, bad_words};
pub use first_start::start;
pub use lookup::{Lookup, NoMemory, Slots};
pub use opening::{OpenFault, format, open};
pub use rescuing::{RescueFault, Rescued, rescue, rescue_uncounted};
pub use store::Store;
pub use variables::{ClearFault, ForgetFault, Off, Variables, WriteAllFault, WriteFault, Written};
