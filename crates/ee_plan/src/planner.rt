//! The plan of a trace: how few transfers it takes, at which changes, and how much room they leave.
//!
//! The planner is the store that transfers exactly when each slot is used, without a flash: it
//! keeps the live addresses and how many slots are used, and notes a stretch of the tight
//! certificate where it would transfer. A change is one insertion or removal, and in a long trace
//! one look at a table.
//!
//! `Rounds` answers the same of a trace that is made many times over, on a set that starts empty:
//! the length of its tight certificate, for any number of slots, without writing the trace out.

mod counting;
mod counts;
mod demand;
mod late_store;
mod planned;
mod planning;
mod rounds;
mod walking;

pub use demand::{Demand, RoundsFault};
pub use planned::{Plan, PlanFault};
pub use planning::plan;
pub use rounds::Rounds;
