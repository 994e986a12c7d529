//! Certificates that a trace of changes takes at least so many transfers, and a checker whose yes
//! is a theorem. It stands on no store, no planner and no flash.
//!
//! A schedule says where a store makes its transfers; its cost is how many. A certificate cuts the
//! trace into stretches, each with more changes than slots are free where it begins, so that each
//! forces a transfer.
//!
//! # What a contract sees
//!
//! `specs/Live.antt`, `Schedule.antt` and `Certificate.antt` over lists of changes; `Fault.antt`
//! the causes of a refusal; `Text.antt` the text.
//!
//! # What is proved
//!
//! `check` answers `Ok(k)` exactly for a certificate of k stretches, want of memory aside, and then
//! every schedule costs k at least, whoever wrote it (`accepted`, `bound`, `accepts`, `refused`,
//! `names`). That is a lower bound, and not that k is the fewest. `read_certificate` and
//! `write_certificate` are exact both ways. `laws`: a schedule that costs no more ends with no more
//! room; a trace that keeps within the slots has one tight certificate, which the store that
//! transfers exactly when each slot is used meets.
//!
//! # What is only tested
//!
//! Nothing.
//!
//! # Read first
//!
//! docs/GUIDE.md on what a certificate says, then `specs/Schedule.antt`.
#![tactic(auto)]

mod certificate;
mod change;
mod checking;
pub mod laws;
mod live_set;
mod live_table;
mod reading;
mod start;
mod walk;
mod writing;

pub use certificate::{Certificate, Stretch};
pub use change::Change;
pub use checking::{CheckFault, check};
pub use live_set::LiveSet;
pub use reading::{TextFault, read_certificate};
pub use start::Start;
pub use writing::write_certificate;
