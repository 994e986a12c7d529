//! What is left of a map while two maps are gone over together.
ghost use Rattle.std.specs.Prelude.{◌≡◌};
ghost use Rattle.std.specs.List.Sorted.{IsStrictlySortedBy};
ghost use Rattle.std.specs.Map.{keys_of};
ghost use Rattle.std.specs.Ordering.{nat_cmp};
ghost use Rattle.ee_settings.specs.Listing.{behind_at, first_address, first_at, left_of, lower_of};

use ee_codec::Address;
use std::alloc::Allocator;
use std::collections::BTreeMap;
use std::collections::btree_map::Iter;
use std::marker::Model;

/// The entries of a map that are left to go over, by rising address. The first of them is at hand,
/// so that it can be compared to that of another map before it is taken.
#[derive(Drop)]
pub(crate) struct Remaining<'a, T: Copy> {
    first: Option<(Address, T)>,
    behind: Iter<'a, Address, T>,
}

impl<'a, T: Copy> Model for Remaining<'a, T> {
    ghost use Rattle.std.specs.Prelude.{List, ℕ};
    ghost use Rattle.ee_settings.specs.Listing.{left_of};

    ghost Value = { List (ℕ × T) };

    ghost view = { λ left. left_of left.first left.behind };
}

impl<'a, T: Copy> Remaining<'a, T> {
    /// All entries of a map.
    pub(crate) fn new<A: Allocator>(map: &'a BTreeMap<Address, T, A>) -> Remaining<'a, T>
        ensures all { result ≡ map.now.entries }
        ensures ordered { IsStrictlySortedBy nat_cmp (keys_of map.now.entries) }
    {
        let mut behind = map.iter();
        let first = next_of(&mut behind);
        Remaining { first, behind }
    }

    /// The address of the first.
    pub(crate) fn address(&self) -> Option<Address>
        ensures { result ≡ first_address self.now }
    {
        let (address, _) = self.first?;
        Some(address)
    }

    /// Takes the first out, if it is this address's, and gives what it has.
    pub(crate) fn take(&mut self, address: Address) -> Option<T>
        ensures found { result ≡ first_at address self.old }
        ensures left { self.new ≡ behind_at address self.old }
    {
        if let Some((first, value)) = self.first {
            if first == address {
                self.first = next_of(&mut self.behind);
                return Some(value);
            }
        }
        None
    }
}

/// The next entry.
fn next_of<T: Copy>(entries: &mut Iter<'_, Address, T>) -> Option<(Address, T)>
    ensures { left_of result entries.new ≡ entries.old }
{
    let (address, value) = entries.next()?;
    Some((*address, *value))
}

/// The lower of two addresses, or the one that there is.
pub(crate) fn lower(one: Option<Address>, other: Option<Address>) -> Option<Address>
    ensures { result ≡ lower_of one other }
{
    match (one, other) {
        (Some(first), Some(second)) if first.get() <= second.get() => one,
        (Some(_), None) => one,
        _ => other,
    }
}
