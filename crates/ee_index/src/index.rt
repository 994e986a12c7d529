//! The index that grows: its list is in memory of an allocator.
ghost use Rattle.std.specs.Prelude.{◌≡◌, [], nat_lt};
ghost use Rattle.std.specs.List.{filter};
ghost use Rattle.ee_index.specs.Entries.{AreInOrder};

use crate::entries::{Entry, renumber};
use crate::guessing::find;
use crate::listing::Listing;
use ee_codec::Address;
use ee_core::{NoMemory, Put};
use std::alloc::Allocator;
use std::marker::Model;

/// The slot, counted from 0, in which each live address stands, by rising address.
#[derive(Drop)]
pub(crate) struct Index<A: Allocator> {
    entries: Vec<Entry, A>,
}

impl<A: Allocator> Model for Index<A> {
    ghost use Rattle.std.specs.Prelude.{ℕ, List};
    ghost use Rattle.ee_index.specs.Entries.{AreInOrder};

    ghost Value = { List (ℕ × ℕ) };

    ghost view = { λ index. index.entries.items };

    ghost invariant = { λ index. AreInOrder index.entries.items };
}

impl<A: Allocator> Index<A> {
    /// Of these entries, by rising address.
    pub(crate) fn of(entries: Vec<Entry, A>) -> Index<A>
        requires { AreInOrder entries.items }
        ensures { result ≡ entries.items }
    {
        Index { entries }
    }

    /// Takes all addresses from it.
    pub(crate) fn clear(&mut self)
        ensures { self.new ≡ [] }
    {
        self.entries.clear();
    }

    /// Takes each address from it whose number is none of so many used slots.
    pub(crate) fn retain_used(&mut self, fill: usize)
        ensures used { self.new ≡ filter (λ entry. nat_lt entry.1 fill) self.old }
        ensures ordered { AreInOrder self.old }
    {
        self.entries.retain(|entry| usize::from(entry.1) < fill);
    }

    /// Gives back memory where it has more than twice what its entries take.
    pub(crate) fn shrink(&mut self)
        ensures { self.new ≡ self.old }
    {
        let most = self.entries.len().saturating_mul(2);
        self.entries.shrink_to(most);
    }
}

impl<A: Allocator> Listing for Index<A> {
    ghost use Rattle.std.specs.Prelude.{None};

    ghost list = { λ index. index };

    ghost room = { λ index. None };

    fn entries(&self) -> &[Entry] {
        &self.entries
    }

    fn find(&self, address: Address) -> Result<usize, usize> {
        find(&self.entries, address)
    }

    fn insert(&mut self, address: Address, number: usize) -> Result<(), NoMemory> {
        let entry = (address, number as u16);
        match find(&self.entries, address) {
            Ok(place) => {
                self.entries[place] = entry;
                Ok(())
            }
            Err(place) => {
                let Ok(()) = self.entries.insert(place, entry) else {
                    return Err(NoMemory);
                };
                Ok(())
            }
        }
    }

    fn remove(&mut self, address: Address) {
        match find(&self.entries, address) {
            Ok(place) => {
                self.entries.remove(place);
            }
            Err(_) => {}
        }
    }

    fn renumber(&mut self, puts: &[Put]) {
        renumber(&mut self.entries, puts);
    }
}
