//! What an image means: page states, the live set, its slots and the map that they hold.
//!
//! # What a contract sees
//!
//! `specs/Page.antt` says what a page's header and words say, `specs/Sets.antt` which set is live,
//! `specs/Meaning.antt` which map its slots hold, `specs/Legal.antt` which images a store can work
//! on, `specs/Layout.antt` what a scan finds, `specs/Rescue.antt` what is rescued of any image.
//!
//! # What is proved
//!
//! `scan` gives the live set, its generation, fill and last used page exactly on a legal image,
//! else the first fault that applies (`layout`, `fault`, `legal`). `state_of`, `is_blank`,
//! `slot_word`, `latest`, `next_live`, `live_count`, `torn_slots` are their definitions;
//! `next_batch` gives the next live addresses with their values (`live`, `proper`), `load` the
//! value of each address of a list, `read_span` of addresses that follow one another. `mark` takes
//! no step where its word is written, and else programs that word alone (`present`, `on`, `done`,
//! `cut`). `rescued_side`, `named_generation` and `bad_words` are their definitions, of any device.
//! `laws`: each outcome of a step, whole or cut, in the set that is not live keeps the live one and
//! its meaning, unless the step can commit; what whole steps make of a set; what one bad word costs.
//!
//! # What is only tested
//!
//! Nothing.
//!
//! # Read first
//!
//! `specs/Page.antt`, `specs/Sets.antt`, `specs/Meaning.antt`.
#![tactic(auto)]

mod batch;
mod batch_items;
mod find;
mod judging;
pub mod laws;
mod loading;
mod marking;
mod number;
mod read;
mod rescue;
mod runs;
mod side;
mod span;
mod state;
mod table;

pub use batch::{LiveBatch, next_batch};
pub use batch_items::{BATCH, Batch};
pub use find::{Layout, ScanFault, scan};
pub use judging::{RescuedSet, is_bad_word, rescued_set};
pub use loading::{Wanted, load};
pub use marking::mark;
pub use read::{latest, live_count, next_live, slot_value, slot_word, torn_slots};
pub use rescue::{bad_words, named_generation, rescued_side};
pub use side::{Side, first_page};
pub use span::{SPAN, Span, read_span};
pub use state::{Mark, State, blank_to, is_blank, state_of};
