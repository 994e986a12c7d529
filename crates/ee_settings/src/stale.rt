//! The settings that read as their defaults though a value is stored.
ghost use Rattle.std.specs.Prelude.{◌≡◌, ◌++◌, IfOk, IfErr, OnOk, map};
ghost use Rattle.std.specs.BTreeMap.{get};
ghost use Rattle.std.specs.Ordering.{nat_cmp};
ghost use Rattle.ee_flash.specs.Device.{IsOn};
ghost use Rattle.ee_core.specs.State.{state_of};
ghost use Rattle.ee_settings.specs.Stale.{IsStaleFault, stale_at, stale_in, with_found};

use crate::fault::StaleFault;
use crate::numbers::Numbers;
use crate::reading::Reading;
use crate::schema::Schema;
use ee_codec::Address;
use ee_core::Variables;
use ee_pages::Batch;
use std::alloc::{AllocError, Allocator};
use std::collections::BTreeMap;

/// A setting whose stored value isn't in its range.
///
/// Source: ours.
#[derive(Clone, Copy, Debug, PartialEq, Eq)]
pub struct Stale {
    /// The number of its entry, by rising name, from 1.
    pub entry: u64,
    /// The value that its address has.
    pub value: u32,
}

impl<A: Allocator> Schema<A> {
    /// The entries whose stored value isn't in their range, rising: what reads as its default
    /// though a value is stored. Entries are counted by rising name, from 1.
    ///
    /// # Errors
    ///
    /// The first `StaleFault` that applies.
    ///
    /// Source: ours.
    pub fn stale<B: Allocator + Copy, V: Variables>(
        &self,
        alloc: B,
        store: &V,
    ) -> Result<Vec<u64, B>, StaleFault>
        ensures on { IfOk result (λ _. IsOn (V.device store.now)) }
        ensures stale { IfOk result (λ entries. entries.items
            ≡ map (λ stale. stale.entry) (stale_in (state_of (V.device store.now)).map self.now.settings)) }
        ensures fault { IfErr result (IsStaleFault (V.device store.now)) }
    {
        let values = self.stale_values(alloc, store)?;
        match entry_numbers(alloc, values.as_slice()) {
            Ok(entries) => Ok(entries),
            Err(_) => Err(StaleFault::Memory),
        }
    }

    /// The same entries, each with its stored value.
    ///
    /// # Errors
    ///
    /// The first `StaleFault` that applies.
    ///
    /// Source: ours.
    pub fn stale_values<B: Allocator + Copy, V: Variables>(
        &self,
        alloc: B,
        store: &V,
    ) -> Result<Vec<Stale, B>, StaleFault>
        ensures on { IfOk result (λ _. IsOn (V.device store.now)) }
        ensures stale { IfOk result (λ stale. stale.items
            ≡ stale_in (state_of (V.device store.now)).map self.now.settings) }
        ensures fault { IfErr result (IsStaleFault (V.device store.now)) }
    {
        if !store.is_on() {
            return Err(StaleFault::Off);
        }
        let stored = match stored_values(alloc, store) {
            Ok(stored) => stored,
            Err(_) => return Err(StaleFault::Memory),
        };
        let mut stale = Vec::new(alloc);
        for (index, setting) in self.settings().as_slice().iter().enumerate() {
            let numbers = setting.numbers();
            let value = stored.get(&numbers.address).copied();
            match push_stale(&mut stale, index as u64 + 1, numbers, value) {
                Ok(()) => {}
                Err(_) => return Err(StaleFault::Memory),
            }
        }
        Ok(stale)
    }
}

/// The numbers of the entries of these.
fn entry_numbers<A: Allocator + Copy>(alloc: A, values: &[Stale]) -> Result<Vec<u64, A>, AllocError>
    ensures { IfOk result (λ entries. entries.items ≡ map (λ stale. stale.entry) values.now) }
{
    let mut entries = Vec::new(alloc);
    for stale in values {
        entries.push(stale.entry)?;
    }
    Ok(entries)
}

/// Puts an entry behind others, if its stored value isn't in its range.
fn push_stale<A: Allocator>(
    stale: &mut Vec<Stale, A>,
    entry: u64,
    numbers: Numbers,
    stored: Option<u32>,
) -> Result<(), AllocError>
    ensures { OnOk result (stale.new.items ≡ stale.old.items ++ stale_at entry numbers stored) }
{
    let Some(value) = stored else {
        return Ok(());
    };
    if let Reading::Default(_) = numbers.reading(stored) {
        stale.push(Stale { entry, value })?;
    }
    Ok(())
}

/// The values of all addresses that have one. It looks through the slots once for each batch, and
/// not once for each address.
pub(crate) fn stored_values<A: Allocator + Copy, V: Variables>(
    alloc: A,
    store: &V,
) -> Result<BTreeMap<Address, u32, A>, AllocError>
    requires { IsOn (V.device store.now) }
    ensures { IfOk result (λ stored.
        get nat_cmp stored ≡ (state_of (V.device store.now)).map) }
{
    let mut stored = BTreeMap::new(alloc);
    let mut after = None;
    'stored: loop {
        let batch = store.next_batch(after);
        insert_each(&mut stored, &batch.found)?;
        let Some(through) = batch.through else {
            return Ok(stored);
        };
        after = Some(through);
    }
}

/// Inserts these addresses with their values.
fn insert_each<A: Allocator + Copy>(
    stored: &mut BTreeMap<Address, u32, A>,
    found: &Batch,
) -> Result<(), AllocError>
    ensures { OnOk result
        (get nat_cmp stored.new ≡ with_found found.now.items (get nat_cmp stored.old)) }
{
    let mut place = 0;
    'each: while let Some((address, value)) = found.get(place) {
        stored.insert(address, value)?;
        place += 1;
    }
    Ok(())
}
