//! What holds of every run of calls, of the images that they leave, and of every list of events.
//! Each function does nothing: its contract is the law.

pub use crate::power_cuts::laws::{
    a_kept_change_stays, no_answered_change_is_lost, none_is_lost_from_none,
};
pub use ee_core::laws::{
    clean_runs_erase_sets, each_page_wears_every_second_transfer, each_transfer_erases_a_set,
    held_through_cuts, lists_are_there, moved_words_are_live, no_page_wears_more,
    no_page_wears_much_more, no_transfer_erases_more, one_word_costs_no_more, pictures_tell_images,
    runs_go_on, starts_end, states_after_append, states_after_clean, states_after_format,
    states_after_opening, states_after_transfer, the_store_is_a_map, waiting_word_costs_no_more,
};
pub use ee_nor::laws::{
    erase_makes_no_number, pairs_are_formed, parts_are_a_program, torn_is_told,
};
