//! The commands of `ee` over bytes: what they give, and the first fault for which they give
//! nothing. The program opens files and prints; it decides nothing.
//!
//! Here are those that take settings (`by_name`), those between images and real parts (`part`, over
//! `dumps`), and the import of ST's X-CUBE-EEPROM (`xcube`). Those that answer a script are
//! `ee_replay`'s, all others `ee_commands`', passed on under this name.
//!
//! # What a contract sees
//!
//! Bytes before and after, by the definitions that `specs/ByName`, `specs/Part` and `specs/Dumps`
//! have.
//!
//! # What is proved
//!
//! `get_setting`, `set_setting`, `unset_setting`, `list_text`, `stale_text` and `tidy_image` give
//! what `ee_settings` defines, of the image that a text spells (`got`, `set`, `unset`, `list`,
//! `stale`, `tidied`); `apply_values` stores each value by a write that was served, or gives no
//! image (`applied`); `verify_values` tells each value that is not stored (`verified`), and what
//! was applied is verified (`laws`); `header_text` is the text of its definition (`header`).
//! `import_image` gives the device that a dump makes, `export_image` the dump of a device, as bytes
//! or as Intel HEX (`imported`, `exported`); what one gave the other takes, with no wear, where no
//! word is torn and none tells another shape or form (`laws`). `inspect_text` tells what the image shows, and doubts an address exactly
//! where a torn slot may have spoken of it last (`inspected`). Of each command the first fault that
//! applies is told, and none is passed over (`fault`, `names`).
//! `import_xcube` gives a store with exactly the values of a dump of ST's library (`imported`).
//!
//! # What is only tested
//!
//! Which texts are TOML; that the header compiles.
//!
//! # Read first
//!
//! docs/FORMATS.md, then the definition that it names.
#![tactic(auto)]

pub mod by_name;
pub mod dumps;
pub mod laws;
pub mod part;
pub mod xcube;

pub use by_name::{
    Language, Verified, apply_values, get_setting, header_text, list_text, set_setting, stale_text,
    tidy_image, unset_setting, verify_values,
};
pub use ee_commands::{
    PartSizes, check_script, clean_image, forget_all, format_image, plan_script, rescue_image,
    size_parts, states_text, wear_text,
};
pub use ee_image_store::ImageAndText;
pub use ee_interface::command_line::{
    Job, MOST_BYTES, MOST_READS, ReadFault, Stopped, job, read_whole, write_whole,
};
pub use ee_interface::{Fault, File, ReplayFault, fault_line, status_of};
pub use ee_replay::{Replayed, replay, replay_indexed, replay_reader, try_script};
pub use part::{
    Form, export_hex, export_image, import_hex, import_image, inspect_json, inspect_text,
};
pub use xcube::import_xcube;
