//! The flash device as a value, and what a step may do to it.
//!
//! A device has two sets of pages of words, a wear for each page, a count of power cuts, and power
//! that is on or off. A step programs one word or erases one page.
//!
//! # What a contract sees
//!
//! A `Device` (`specs/Device.antt`). `Flash` is the only way to one; `MemFlash` is one in memory,
//! with a fuse that cuts a step as it is told.
//!
//! # What is proved
//!
//! `Flash` is the model as a contract: at `Ok` the step is done (`done`); at `Cut` power was cut in
//! this step, with its words torn in any way, or was off and nothing changed (`cut`). `MemFlash`
//! keeps it, and says exactly what its fuse does (`exact`, `passes`). `blank`, `from_cells` and
//! `of_cells` give the device that they name, each refusal under its cause (`fault`). `laws`: a
//! step changes one page at most; a call is cut once at most; where a fuse is known, the steps of a
//! call decide what it leaves (`fuse_decides`); whoever programs a word for each change wears some
//! page so often (`programs_need_erases`, `some_page_wears`).
//!
//! # What is only tested
//!
//! Nothing: that a part keeps the model is the premise of all.
//!
//! # Read first
//!
//! `specs/Device.antt`, `specs/Step.antt`, then `specs/Taking.antt`: a call is a list of steps.
#![tactic(auto)]

mod cells;
mod device;
mod fuse;
pub mod laws;
mod memory;
mod shape;
mod word;

pub use cells::Cells;
pub use device::{Cut, Flash};
pub use fuse::{Fuse, Tear};
pub use memory::{CellFault, MemFlash, WrongLength};
pub use shape::{HEADER_WORDS, Shape};
pub use word::Word;
