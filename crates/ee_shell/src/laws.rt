//! What holds of every script at a desk, and of every part for which sizes were told. Each function
//! does nothing: its contract is the law.

pub use ee_commands::laws::{
    each_size_is_made_as_told, each_size_moves_as_told, each_size_wears_as_told,
};
pub use ee_replay::laws::{an_answered_change_stays, cuts_are_armed, one_outcome, one_try};
