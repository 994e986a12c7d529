//! For `ee_replay` alone: the index of a live set, by which it changes the look-up of a store that
//! is open, and what is counted to tell when an index pays.

pub use crate::costs::Costs;
pub use crate::looking::{count_live, look_count};
pub use crate::slot_index::index_of;
