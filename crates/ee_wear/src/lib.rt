//! The wear ledger: how often each page of a device was erased, and what came since an earlier one.
//!
//! # What a contract sees
//!
//! A ledger is the list of its counts by rising page (`specs/Counts.antt`); `specs/Since.antt` says
//! what the difference of two is, and why there may be none.
//!
//! # What is proved
//!
//! `Ledger::of` gives the wear of each page of any device (`wear`, `total`). `since` gives the
//! differences page by page exactly where the pages are as many and none has less wear than before,
//! else it names the cause, with the lowest page that fell (`value`, `none_fell`, `fault`).
//! `total`, `least` and `greatest` are exact. `laws`: differences add up to that of the totals; no
//! step makes a wear fall, a program wears nothing, an erase that starts wears one, cut or not.
//!
//! # What is only tested
//!
//! Nothing.
//!
//! # Read first
//!
//! `specs/Counts.antt`.
#![tactic(auto)]

pub mod laws;
mod ledger;
mod since;

pub use ledger::Ledger;
pub use since::SinceFault;
