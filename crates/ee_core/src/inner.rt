//! The parts of a call, for `ee_index` alone, whose look-up makes each change by them; those of a
//! store, for `ee_index` and `ee_replay`, which change the look-up, and arm the device in memory
//! that a store keeps; and openings in place, for `ee_replay` and the C library.
ghost use Rattle.std.specs.Prelude.{◌≡◌};
ghost use Rattle.ee_core.specs.Known.{Knows};

pub use crate::change::Change;
pub use crate::changing::move_changes;
pub use crate::cleaning::clean;
pub use crate::copying::Cursor;
pub use crate::first_start::start_on;
pub use crate::formatting::write_format;
pub use crate::known::Known;
pub use crate::live_cursor::LiveCursor;
use crate::lookup::Lookup;
pub use crate::marking::finish;
pub use crate::opening::open_on;
pub use crate::puts::{first_twice, values_put};
pub use crate::store::GREATEST_GENERATION;
use crate::store::Store;
pub use crate::writing::append_change;
use ee_flash::Flash;

/// The device of a store, as it is, and what is known of it.
pub fn parts_of<F: Flash + Drop, L: Lookup + Drop>(store: Store<F, L>) -> (F, Known<L>)
    ensures device { F.device result.0 ≡ store }
    ensures known { Knows L.fits store result.1 }
{
    (store.flash, store.known)
}

/// The store of this device, of which this is known.
pub fn store_of<F: Flash + Drop, L: Lookup + Drop>(flash: F, known: Known<L>) -> Store<F, L>
    requires { Knows L.fits (F.device flash) known }
    ensures { result ≡ F.device flash }
{
    Store { flash, known }
}
