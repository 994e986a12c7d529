//! The entries of an index: addresses with the slots in which they stand, by rising address.
ghost use Rattle.std.specs.Prelude.{◌≡◌, ◌<◌, ◌≤◌, ◌+◌, IfErr, IfOk, IfSome, MatchOption, false, length, true};
ghost use Rattle.ee_index.specs.Entries.{AreAbove, AreInOrder, StandsAt, WouldStandAt};
ghost use Rattle.ee_index.specs.Index.{IsNumberedNext, listed_place, numbered_slots, slot_for};
ghost use Rattle.ee_core.specs.Puts.{is_put};

use ee_codec::Address;
use ee_core::Put;

/// An address with the number of its slot, in four bytes. A set has at most 32512 slots.
///
/// Source: ours.
pub type Entry = (Address, u16);

/// The place of the entry of an address, counted from 0. An `Err` has the place
/// where one would stand.
pub(crate) fn search(entries: &[Entry], address: Address) -> Result<usize, usize>
    requires { AreInOrder entries.now }
    ensures found { IfOk result (StandsAt entries.now address) }
    ensures absent { IfErr result (WouldStandAt entries.now address) }
{
    entries.binary_search_by_key(&address, |entry| entry.0)
}

/// Gives entries the slots in which a transfer puts their addresses: the values that it puts stand
/// first, in their order, and behind them the others, by rising address.
pub(crate) fn renumber(entries: &mut [Entry], puts: &[Put])
    requires { length puts.now + length entries.old < 65536 }
    ensures { entries.new ≡ numbered_slots puts.now (length puts.now) entries.old }
{
    let mut number = puts.len();
    'entries: for place in 0..entries.len() {
        let address = entries[place].0;
        let (slot, next) = next_number(number, puts, address);
        entries[place] = (address, slot as u16);
        number = next;
    }
}

/// The slot of the next address, and the number that the next other one gets: an address that is
/// put has its place in the list, and each other takes a number.
fn next_number(number: usize, puts: &[Put], address: Address) -> (usize, usize)
    requires few { length puts.now ≤ number }
    requires small { number < 65536 }
    ensures numbered { IsNumberedNext puts.now number address result.0 result.1 }
    ensures small { result.0 ≤ number }
{
    match place_in(puts, address) {
        Some(place) => (place, number),
        None => (number, number + 1),
    }
}

/// The place of an address in a list, counted from 0.
fn place_in(puts: &[Put], address: Address) -> Option<usize>
    ensures listed { MatchOption result (is_put puts.now address ≡ false)
        (λ place. (is_put puts.now address ≡ true) × (place ≡ listed_place puts.now address)) }
    ensures within { IfSome result (λ place. place < length puts.now) }
{
    'entries: for place in 0..puts.len() {
        if puts[place].address == address {
            return Some(place);
        }
    }
    None
}
