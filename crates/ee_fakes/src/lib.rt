//! What tests need beside the product. Only tests stand on it, so the product holds no unsafe code.
//!
//! - `Refusing`: an allocator that refuses one request for memory.
//! - `FailingReader`, `FailingWriter`: streams that give or take a few bytes a call and fail at
//!   one.
//! - `ListFlash`, `ListNor`: flashes whose steps are done or cut as a list says, each word or each
//!   bit of a cut step by itself; they count words read or steps.
//! - `LastValue`: what serves a script with the value that was written last.
//! - `images`: the texts that several tests read.
#![tactic(auto)]

mod fate;
pub mod images;
mod list;
mod numbers;
mod reader;
mod refusing;
mod serving;
mod writer;

pub use fate::{Fate, Left};
pub use list::ListFlash;
pub use numbers::{ListNor, NumberFate};
pub use reader::FailingReader;
pub use refusing::Refusing;
pub use serving::LastValue;
pub use writer::{FailingWriter, Stop};
