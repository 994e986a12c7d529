//! Plans: how few transfers a trace takes, at which changes, how much room they leave, and how
//! often any schedule erases on a device.
//!
//! `planner` is the store that transfers exactly when each slot is used, without a flash. Its
//! `Rounds` answers the same of a trace that is made many times over, without writing it out.
//!
//! # What a contract sees
//!
//! Traces, certificates and schedules of `ee_check`; `specs/Start.antt` is what a store gives a
//! trace to start from.
//!
//! # What is proved
//!
//! `plan` gives the tight certificate of any trace that keeps within the slots, with its positions,
//! size and room, or names the first change that doesn't fit, want of memory aside (`planned`,
//! `refused`, `fits`, `names`). Some schedule reaches it, the checker accepts it, and wherever the
//! trace is broken off no schedule betters it (`reached`, `certificate`, `best`). `demand` of
//! `Rounds` is the length of the tight certificate of the whole long trace. `start_of` gives a
//! store's slots, fill and live addresses, of any `Variables`. `laws`: where no schedule makes
//! fewer than K transfers, each erases the first page of one set K / 2 times
//! (`fewest_transfers_wear`), so the store's most worn page wears as little, or once more
//! (`fewest_moves_last`, `fewest_moves_last_as_long`).
//!
//! # What is only tested
//!
//! Nothing.
//!
//! # Read first
//!
//! `specs/Planner/Plan.antt`, then `laws`.
#![tactic(auto)]

pub mod laws;
pub mod planner;
mod starting;

pub use planner::{Demand, Plan, PlanFault, Rounds, RoundsFault, plan};
pub use starting::start_of;
