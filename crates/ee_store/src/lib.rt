//! The store for those who build on it: what `ee_core`, `ee_index` and `ee_nor` have, under one
//! name, and `power_cuts`, which drives a store by a list of events. `ee_core` and `ee_index` are
//! crates apart for the prover's sake.
//!
//! # What a contract sees
//!
//! `Variables` (`ee_core`), and of `drive` a list of events and their answers
//! (`specs/PowerCuts/Events.antt`, `Outcome.antt`, `Deciding.antt`).
//!
//! # What is proved
//!
//! Of the calls what the heads of their crates say. `drive` puts any list of events to a store,
//! openings, starts and power cuts among them: each is answered by the clause of its call, and from
//! any legal image, and from a part on which no value was ever stored, no change that was answered
//! is lost, whatever is cut and however often; of values written at once that met a cut all are
//! there, or none (`driven`, `no_answered_change_is_lost`, `none_is_lost_from_none`,
//! `a_kept_change_stays`). Where the fuse of the device is known before and behind them, as that of
//! one in memory is, the answers, what is kept and the device are functions of the device before
//! and of the events (`by_fuse`). Where memory for the answers is refused, the device is as it was
//! (`refused`).
//!
//! # What is only tested
//!
//! Nothing.
//!
//! # Read first
//!
//! `specs/PowerCuts/Outcome.antt`.
#![tactic(auto)]

pub mod laws;
pub mod power_cuts;

pub use ee_core::{
    ClearFault, ForgetFault, LiveBatch, Off, OpenFault, Put, RescueFault, Rescued, Store,
    Variables, WriteAllFault, WriteFault, Written, bad_words, count_pending, format, open, rescue,
    rescue_uncounted, start,
};
pub use ee_index::{Entry, IndexedFault, IndexedStore, LentIndex, OpenIndexed, open_indexed};
pub use ee_nor::{LowPair, Nor, Pairs};
pub use power_cuts::{Answer, Driven, Event, drive};
