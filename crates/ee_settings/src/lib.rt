//! Settings by name: a schema gives names, ranges and defaults to the values of a store, and names
//! to its records.
//!
//! # What a contract sees
//!
//! `specs/Setting.antt` says what settings are and what they read as, `specs/File.antt` what a
//! table of settings says and each fault of it, `specs/Calls.antt` what reading and setting leave,
//! `specs/Stale.antt`, `specs/Tidying.antt` and `specs/Listing.antt` what becomes of stored values
//! under a later schema.
//!
//! # What is proved
//!
//! `Schema::from_table` takes exactly the tables that the rules allow, or names the first entry
//! with a fault, by rising name, and its first fault. `get` gives the stored value if it is in
//! range, else the default. `set` is a write of the name's address; an unknown name or a value out
//! of range changes nothing. `stale` and `stale_values` give exactly the entries whose stored value
//! is out of range; `tidy` forgets the addresses that have a value and are no setting's and no
//! record's, by rising address, and cut or refused a front of them; `list` tells each address by its setting
//! (`listed`). `laws`: what was set is read, every other name reads as before, also across a move,
//! and after a cut as before or as set; tidying changes no reading.
//!
//! # What is only tested
//!
//! Which texts are TOML: that is the crate `toml`'s.
//!
//! # Read first
//!
//! `specs/Setting.antt`.
#![tactic(auto)]

mod entry;
mod fault;
pub mod laws;
mod listing;
mod numbers;
mod reading;
mod record_fields;
mod record_setting;
mod remaining;
mod schema;
mod setting;
mod settings;
mod stale;
mod tidying;

pub use fault::{GetFault, ListFault, SchemaFault, SetFault, StaleFault, TidyFault};
pub use listing::{Held, Listed};
pub use numbers::Numbers;
pub use reading::Reading;
pub use record_setting::{RecordKind, RecordRoom, RecordSetting};
pub use schema::Schema;
pub use setting::Setting;
pub use stale::Stale;
