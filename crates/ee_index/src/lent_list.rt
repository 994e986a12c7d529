//! A list in memory that the caller lends, which has room for so many addresses.
ghost use Rattle.std.specs.Prelude.{◌≡◌, ◌<◌, ◌≤◌, ◌+◌, ◌-◌, [], insert, length, remove, take};
ghost use Rattle.ee_index.specs.Lent.{lent_entries, lent_room};

use crate::entries::{Entry, renumber, search};
use crate::listing::Listing;
use ee_codec::Address;
use ee_core::{NoMemory, Put};
use std::marker::Model;

/// Addresses with their slots, counted from 0, by rising address. They stand first in the room.
#[derive(Drop)]
pub(crate) struct LentList<'a> {
    room: &'a mut [Entry],
    count: usize,
}

impl<'a> Model for LentList<'a> {
    ghost use Rattle.std.specs.Prelude.{◌≤◌, length, take};
    ghost use Rattle.ee_index.specs.Entries.{AreInOrder};
    ghost use Rattle.ee_index.specs.Lent.{Lent};

    ghost Value = { Lent };

    ghost view = { λ list. record { memory = list.room.now; count = list.count } };

    ghost invariant = { λ list. (list.count ≤ length list.room.now)
        × AreInOrder (take list.count list.room.now) };
}

impl<'a> LentList<'a> {
    /// With no address.
    pub(crate) fn new(room: &'a mut [Entry]) -> LentList<'a>
        ensures none { lent_entries result ≡ [] }
        ensures as_many { lent_room result ≡ length room.old }
    {
        LentList { room, count: 0 }
    }

    /// How many addresses there is room for.
    pub(crate) fn capacity(&self) -> usize
        ensures { result ≡ lent_room self.now }
    {
        self.room.len()
    }

    /// Takes all addresses from it.
    pub(crate) fn clear(&mut self)
        ensures none { lent_entries self.new ≡ [] }
        ensures same_room { lent_room self.new ≡ lent_room self.old }
    {
        self.count = 0;
    }
}

impl<'a> Listing for LentList<'a> {
    ghost use Rattle.std.specs.Prelude.{Some};
    ghost use Rattle.ee_index.specs.Lent.{lent_entries, lent_room};

    ghost list = { λ list. lent_entries list };

    ghost room = { λ list. Some (lent_room list) };

    fn entries(&self) -> &[Entry] {
        &self.room[..self.count]
    }

    fn find(&self, address: Address) -> Result<usize, usize> {
        search(self.entries(), address)
    }

    fn insert(&mut self, address: Address, number: usize) -> Result<(), NoMemory> {
        let entry = (address, number as u16);
        match self.find(address) {
            Ok(place) => {
                self.room[place] = entry;
                Ok(())
            }
            Err(place) => {
                if self.count == self.room.len() {
                    return Err(NoMemory);
                }
                let room = &mut *self.room;
                put_in(room, self.count, place, entry);
                self.count += 1;
                Ok(())
            }
        }
    }

    fn remove(&mut self, address: Address) {
        if let Ok(place) = self.find(address) {
            let room = &mut *self.room;
            take_out(room, self.count, place);
            self.count -= 1;
        }
    }

    fn renumber(&mut self, puts: &[Put]) {
        renumber(&mut self.room[..self.count], puts);
    }
}

/// Puts an entry in at a place among so many, behind which there is room.
fn put_in(room: &mut [Entry], count: usize, place: usize, entry: Entry)
    requires within { place ≤ count }
    requires room { count < length room.old }
    ensures len { length room.new ≡ length room.old }
    ensures entries { take (count + 1) room.new ≡ insert (take count room.old) place entry }
{
    room.copy_within(place..count, place + 1);
    room[place] = entry;
}

/// Takes the entry at a place out of so many.
fn take_out(room: &mut [Entry], count: usize, place: usize)
    requires within { place < count }
    requires room { count ≤ length room.old }
    ensures len { length room.new ≡ length room.old }
    ensures entries { take (count - 1) room.new ≡ remove (take count room.old) place }
{
    room.copy_within(place + 1..count, place);
}
