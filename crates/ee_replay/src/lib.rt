//! The commands that answer a script, a crate apart for the prover's sake: `replay` on the image
//! that a text spells, `replay_reader` from a stream, `try_script` on a formatted image,
//! `replay_indexed` on a store with an index. `replay` makes an index while it runs, where that
//! pays (`desk.rt`).
//!
//! # What a contract sees
//!
//! The report machine (`specs/Machine.antt` of `ee_image_store`): the report is that of a run of
//! it, and the new image has the state that the run came to (`specs/Replaying.antt`,
//! `specs/Report.antt`).
//!
//! # What is proved
//!
//! The new image and the report are a function of the image and the script, cuts included
//! (`leaves` of `replayed` and `tried`; `specs/Lines.antt`). The answers are a run of the machine
//! from the store that the text spells to the one whose text the new image is, by the clause of
//! each call; whatever is cut, an answered change is kept and each read is the map at its point
//! (`kept`). Where no line is answered `cut`, the moves are the fewest, and the certificate says so
//! (`uncut`). Or the first cause is named that applies, and none is passed over (`fault`, `names`,
//! `bad`). `laws`: a change that was answered is in the new image, unless a later line changes its
//! address; a fuse cuts once at most; texts decide what is left (`one_outcome`, `one_try`).
//!
//! # What is only tested
//!
//! That the store of `replay_indexed` keeps an index.
//!
//! # Read first
//!
//! `specs/Lines.antt`, `specs/Replaying.antt`, `specs/Report.antt`.
#![tactic(auto)]

mod desk;
mod either_lookup;
pub mod laws;
mod noting;
mod replaying;
mod reporting;
mod serving;

pub use replaying::{Replayed, replay, replay_indexed, replay_reader, try_script};
