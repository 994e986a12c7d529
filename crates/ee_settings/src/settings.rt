//! Settings and records in their order, with a set of their addresses, which tells whether one is
//! taken.
ghost use Rattle.std.specs.Prelude.{◌≡◌, ◌+◌, ◌<◌, ◌≤◌, ◌==◌, ◌&&◌, ◌||◌, ℕ, [], ◌∷◌, ◌++◌, IfOk, IsFalse, IsTrue, OnOk, false, length, nat_le, true};
ghost use Rattle.std.specs.BTreeSet.{contains};
ghost use Rattle.std.specs.Ordering.{nat_cmp};
ghost use Rattle.ee_codec.specs.Words.{IsAddress};
ghost use Rattle.ee_settings.specs.Setting.{Kept, Number, is_named, with_item};

use crate::record_setting::{RecordSetting, last_address};
use crate::setting::Setting;
use ee_codec::Address;
use std::alloc::{AllocError, Allocator};
use std::collections::BTreeSet;
use std::marker::Model;

/// Settings and records in their order. Whether one has an address is found with no look at each.
#[derive(Drop)]
pub(crate) struct Settings<A: Allocator> {
    items: Vec<Setting<A>, A>,
    records: Vec<RecordSetting<A>, A>,
    addresses: BTreeSet<Address, A>,
}

impl<A: Allocator> Model for Settings<A> {
    ghost use Rattle.std.specs.Prelude.{◌≡◌, ℕ};
    ghost use Rattle.std.specs.BTreeSet.{contains};
    ghost use Rattle.std.specs.Ordering.{nat_cmp};
    ghost use Rattle.ee_settings.specs.Setting.{Schema, is_named};

    ghost Value = { Schema };

    ghost view = { λ s. record { settings = s.items.items; records = s.records.items } };

    ghost invariant = { λ s. (address : ℕ) → contains nat_cmp s.addresses address
        ≡ is_named record { settings = s.items.items; records = s.records.items } address };
}

impl<A: Allocator> Settings<A> {
    /// No settings.
    pub(crate) fn new(alloc: A) -> Settings<A>
    where
        A: Copy,
        ensures { result ≡ record { settings = []; records = [] } }
    {
        Settings {
            items: Vec::new(alloc),
            records: Vec::new(alloc),
            addresses: BTreeSet::new(alloc),
        }
    }

    /// With one setting more.
    pub(crate) fn with(self, setting: Setting<A>) -> Result<Settings<A>, AllocError>
    where
        A: Copy,
        ensures { IfOk result (λ more. more ≡ with_item self (Number setting)) }
    {
        let Settings {
            mut items,
            records,
            mut addresses,
        } = self;
        addresses.insert(setting.numbers().address)?;
        items.push(setting)?;
        Ok(Settings {
            items,
            records,
            addresses,
        })
    }

    /// With one record more.
    pub(crate) fn with_record(self, one: RecordSetting<A>) -> Result<Settings<A>, AllocError>
    where
        A: Copy,
        ensures { IfOk result (λ more. more ≡ with_item self (Kept one)) }
    {
        let Settings {
            items,
            mut records,
            mut addresses,
        } = self;
        let room = one.room();
        let last = last_address(room.base, room.size) as u16;
        insert_span(&mut addresses, room.base.get(), last)?;
        records.push(one)?;
        Ok(Settings {
            items,
            records,
            addresses,
        })
    }

    /// Whether a setting or a record has the address.
    pub(crate) fn has(&self, address: Address) -> bool
        ensures { result ≡ is_named self.now address }
    {
        self.addresses.contains(&address)
    }

    /// Whether a setting or a record has one of the addresses from the first to the last.
    pub(crate) fn has_any(&self, first: u16, last: u16) -> bool
        requires first { 0 < first }
        requires last { last < 65535 }
        ensures yes { IsTrue result → (address : ℕ) × (first ≤ address) × (address ≤ last)
            × (is_named self.now address ≡ true) }
        ensures no { IsFalse result → (address : ℕ) → first ≤ address → address ≤ last
            → is_named self.now address ≡ false }
    {
        let mut number = first;
        'each: while number <= last {
            if self.has_number(number) {
                return true;
            }
            number += 1;
        }
        false
    }

    /// Whether a setting or a record has the address of this number.
    fn has_number(&self, number: u16) -> bool
        requires { IsAddress number }
        ensures { result ≡ is_named self.now number }
    {
        match Address::new(number) {
            Some(address) => self.has(address),
            None => unreachable!("the number is an address"),
        }
    }

    /// How many entries they are.
    pub(crate) fn entries(&self) -> usize
        ensures { result ≡ length self.now.settings + length self.now.records }
    {
        self.items.len() + self.records.len()
    }

    /// How many settings they are.
    pub(crate) fn len(&self) -> usize
        ensures { result ≡ length self.now.settings }
    {
        self.items.len()
    }

    /// The settings, one after another.
    pub(crate) fn as_slice(&self) -> &[Setting<A>]
        ensures { result.now ≡ self.now.settings }
    {
        self.items.as_slice()
    }

    /// The records, one after another.
    pub(crate) fn records(&self) -> &[RecordSetting<A>]
        ensures { result.now ≡ self.now.records }
    {
        self.records.as_slice()
    }
}

/// Inserts the address of this number.
fn insert_number<A: Allocator + Copy>(
    addresses: &mut BTreeSet<Address, A>,
    number: u16,
) -> Result<(), AllocError>
    requires { IsAddress number }
    ensures { OnOk result ((address : ℕ) → contains nat_cmp addresses.new address
        ≡ (number == address || contains nat_cmp addresses.old address)) }
{
    match Address::new(number) {
        Some(address) => {
            addresses.insert(address)?;
            Ok(())
        }
        None => unreachable!("the number is an address"),
    }
}

/// Inserts the addresses from the first to the last.
fn insert_span<A: Allocator + Copy>(
    addresses: &mut BTreeSet<Address, A>,
    first: u16,
    last: u16,
) -> Result<(), AllocError>
    requires first { 0 < first }
    requires span { first ≤ last }
    requires last { last < 65535 }
    ensures { OnOk result ((address : ℕ) → contains nat_cmp addresses.new address
        ≡ ((nat_le first address && nat_le address last)
        || contains nat_cmp addresses.old address)) }
{
    let mut number = first;
    'each: while number <= last {
        insert_number(addresses, number)?;
        number += 1;
    }
    Ok(())
}
