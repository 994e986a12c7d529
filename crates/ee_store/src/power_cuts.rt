//! A bench for a store: `drive` puts any list of events to it, openings and power cuts among them,
//! for a test bench, a simulator or a fuzzer.
//!
//! `specs/PowerCuts/Events.antt` says what each event is answered and leaves, and
//! `specs/PowerCuts/Outcome.antt` what becomes of a list of them: from any legal image no change
//! that was answered is lost, whatever is cut and however often.

mod driving;
mod event;
pub mod laws;

pub use driving::drive;
pub use event::{Answer, Driven, Event};
