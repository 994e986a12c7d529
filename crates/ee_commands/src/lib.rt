//! The commands on images that answer no script and take no settings: `format`, `clean`, `states`,
//! `wear`, `plan`, `check`, `size`, `rescue`, `forget-all`. They are a crate apart for the prover's
//! sake.
//!
//! # What a contract sees
//!
//! `specs/Planning.antt`, `Wear.antt`, `Images.antt`, `Rescuing.antt`, `Forgetting.antt` and
//! `Sizing.antt` say what each gives, and the first fault for which it gives nothing.
//!
//! # What is proved
//!
//! Each command gives exactly that text or image, or the first fault that applies, and none is
//! passed over (`fault`, `names`). `plan_script` prints the tight certificate (`planned`);
//! `check_script` says `proved K` exactly of a certificate with K stretches (`proved`); what
//! `format_image`, `clean_image`, `rescue_image` and `forget_all` leave is said word for word.
//! `size_parts` tells for each size of a set the fewest transfers and the erases that follow
//! (`sized`), and `laws` join that to the store: so often it moves and no oftener it erases
//! (`each_size_wears_as_told`, `each_size_moves_as_told`, `each_size_is_made_as_told`).
//!
//! # What is only tested
//!
//! Nothing.
//!
//! # Read first
//!
//! `specs/Images.antt`; of `size` `specs/ToldSizes.antt`.
#![tactic(auto)]

mod forgetting;
mod images;
mod json;
pub mod laws;
mod planning;
mod rescuing;
mod sizing;
mod wear;

pub use forgetting::forget_all;
pub use images::{clean_image, format_image, states_text};
pub use json::{SizesDocument, plan_json, push_array, sizes_json, states_json, wear_json};
pub use planning::{check_script, plan_script};
pub use rescuing::rescue_image;
pub use sizing::{PartSizes, size_parts};
pub use wear::wear_text;
