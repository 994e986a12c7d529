//! A change of the map, and the word that spells it; a value that is put with others.
ghost use Rattle.std.specs.Prelude.{◌≡◌, ◌<◌};
ghost use Rattle.ee_flash.specs.Device.{all_ones};
ghost use Rattle.ee_flash.specs.Numbers.{IsStoreNumber};
ghost use Rattle.ee_pages.specs.Meaning.{SpellsChange};
ghost use Rattle.ee_core.specs.CallSteps.{map_change, number_written};

use ee_codec::{Address, element_word, forget_word};

/// A value that an address gets. It is laid out as in C, so that a list of C's can be one of these.
///
/// Source: ours.
#[derive(Clone, Copy, Debug, PartialEq, Eq)]
#[repr(C)]
pub struct Put {
    /// The address.
    pub address: Address,
    /// Its value from here on.
    pub value: u32,
}

/// A change of the map.
#[derive(Clone, Copy, Debug, PartialEq, Eq)]
pub enum Change {
    /// The address has the value from here on.
    Put { address: Address, value: u32 },
    /// The address has no value from here on. The value is the one forgotten.
    Forget { address: Address, value: u32 },
}

impl Change {
    /// The number of the word that spells it, below `u64::MAX`.
    pub(crate) fn word(self) -> u64
        ensures number { result ≡ number_written self }
        ensures spells { SpellsChange result (map_change self) }
        ensures below_all_ones { result < all_ones }
        ensures of_a_store { IsStoreNumber result }
    {
        match self {
            Change::Put { address, value } => element_word(address, value),
            Change::Forget { address, value } => forget_word(address, value),
        }
    }
}
