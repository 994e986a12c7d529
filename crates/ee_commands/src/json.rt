//! The documents of `--json`, each beside the command whose text it is.
//!
//! `specs/Json.antt` has their form, `specs/Documents.antt` what each tells.

mod sizes;
mod states;
mod stretches;
mod wear;
mod writing;

pub use sizes::{SizesDocument, sizes_json};
pub use states::states_json;
pub use stretches::plan_json;
pub use wear::wear_json;
pub use writing::push_array;
