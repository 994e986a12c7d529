//! What an index is kept in: a list of addresses with their slots, by rising address.
ghost use Rattle.std.specs.Prelude.{◌≡◌, ◌<◌, ◌≤◌, ◌+◌, ℕ, IfErr, IfOk, IfSome, None, OnErr, OnOk, length};
ghost use Rattle.ee_pages.specs.Meaning.{Forget as MapForget, Put as MapPut, map_after};
ghost use Rattle.ee_index.specs.Entries.{AreInOrder, StandsAt, WouldStandAt};
ghost use Rattle.ee_index.specs.Index.{numbered_slots, slot_for};

use crate::entries::Entry;
use ee_codec::Address;
use ee_core::{NoMemory, Put};

/// A list of addresses with their slots, counted from 0, by rising address. Each kind of memory
/// has one of its own.
pub(crate) trait Listing {
    ghost use Rattle.std.specs.Prelude.{List, Option, ℕ};

    /// The addresses with their slots.
    ghost list: { Self → List (ℕ × ℕ) };

    /// How many addresses it has room for. `None` if it grows, and memory may be refused for any.
    ghost room: { Self → Option ℕ };

    /// The addresses with their slots, by rising address.
    fn entries(&self) -> &[Entry]
        ensures entries { result.now ≡ list self.now }
        ensures ordered { AreInOrder (list self.now) };

    /// The place of an address, counted from 0. An `Err` has the place where it would stand.
    fn find(&self, address: Address) -> Result<usize, usize>
        ensures found { IfOk result (StandsAt (list self.now) address) }
        ensures absent { IfErr result (WouldStandAt (list self.now) address) };

    /// Gives an address the slot of this number. An `Err`, which only a new address meets, leaves
    /// the list as it was. Where its room is known, that is full then.
    fn insert(&mut self, address: Address, number: usize) -> Result<(), NoMemory>
        requires small { number < 65536 }
        ensures entered { OnOk result ((named : ℕ) → slot_for (list self.new) named
            ≡ map_after (MapPut address number) (slot_for (list self.old)) named) }
        ensures absent { OnErr result (slot_for (list self.old) address ≡ None) }
        ensures full { OnErr result (IfSome (room self.new)
            (λ room. room ≤ length (list self.new))) }
        ensures ordered { AreInOrder (list self.old) }
        ensures err { OnErr result (list self.new ≡ list self.old) }
        ensures same_room { room self.new ≡ room self.old };

    /// Takes an address from it.
    fn remove(&mut self, address: Address)
        ensures left { (named : ℕ) → slot_for (list self.new) named
            ≡ map_after (MapForget address) (slot_for (list self.old)) named }
        ensures fewer { length (list self.new) ≤ length (list self.old) }
        ensures same_room { room self.new ≡ room self.old };

    /// Gives its addresses, which are those that are live behind a transfer, the slots in which the
    /// transfer put them: the values that it put stand first, in their order, and behind them the
    /// others, by rising address. It takes no memory and doesn't look at the flash.
    fn renumber(&mut self, puts: &[Put])
        requires { length puts.now + length (list self.old) < 65536 }
        ensures numbered { list self.new ≡ numbered_slots puts.now (length puts.now)
            (list self.old) }
        ensures ordered { AreInOrder (list self.old) }
        ensures same_room { room self.new ≡ room self.old };
}
