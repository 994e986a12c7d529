//! What a store holds, told by the settings: the two are gone over together, by rising address.
ghost use Rattle.std.specs.Prelude.{◌≡◌, ◌++◌, List, IfOk, IfErr, OnOk};
ghost use Rattle.std.specs.BTreeMap.{get};
ghost use Rattle.std.specs.Ordering.{nat_cmp};
ghost use Rattle.ee_flash.specs.Device.{IsOn};
ghost use Rattle.ee_core.specs.State.{state_of};
ghost use Rattle.ee_settings.specs.Listing.{IsListFault, listed_in, listed_of, named_in};
ghost use Rattle.ee_settings.specs.Setting.{Setting as AnySetting};

use crate::fault::ListFault;
use crate::numbers::Numbers;
use crate::reading::Reading;
use crate::remaining::{Remaining, lower};
use crate::schema::Schema;
use crate::setting::Setting;
use crate::stale::stored_values;
use ee_codec::Address;
use ee_core::Variables;
use std::alloc::{AllocError, Allocator};
use std::collections::BTreeMap;

/// What an address holds, by the setting that has it, if one does.
///
/// Source: ours.
#[derive(Clone, Copy, Debug, PartialEq, Eq)]
pub enum Held {
    /// A value, which the setting may have.
    Value(u32),
    /// A value that isn't in the setting's range.
    Stale(u32),
    /// None, so the setting reads as this default.
    Default(u32),
}

/// An address that has a value or a setting.
///
/// Source: ours.
#[derive(Clone, Copy, Debug, PartialEq, Eq)]
pub struct Listed {
    /// The address.
    pub address: Address,
    /// The number of its setting's entry, by rising name, from 1. `None`: no setting has the
    /// address.
    pub entry: Option<u64>,
    /// What it holds.
    pub held: Held,
}

impl<A: Allocator> Schema<A> {
    /// The addresses that have a value or a setting, by rising address, each with what it holds.
    ///
    /// # Errors
    ///
    /// The first `ListFault` that applies.
    ///
    /// Source: ours.
    pub fn list<B: Allocator + Copy, V: Variables>(
        &self,
        alloc: B,
        store: &V,
    ) -> Result<Vec<Listed, B>, ListFault>
        ensures on { IfOk result (λ _. IsOn (V.device store.now)) }
        ensures listed { IfOk result (λ listed. listed.items
            ≡ listed_in self.now.settings (state_of (V.device store.now)).map) }
        ensures fault { IfErr result (IsListFault (V.device store.now)) }
    {
        if !store.is_on() {
            return Err(ListFault::Off);
        }
        match list_on(alloc, store, self.settings().as_slice()) {
            Ok(listed) => Ok(listed),
            Err(_) => Err(ListFault::Memory),
        }
    }
}

/// The addresses that have a value in the store or one of these settings. It doesn't look at the
/// others, which may be most of all 65534: both maps are gone over together, by rising address.
fn list_on<A: Allocator, B: Allocator + Copy, V: Variables>(
    alloc: B,
    store: &V,
    settings: &[Setting<A>],
) -> Result<Vec<Listed, B>, AllocError>
    requires { IsOn (V.device store.now) }
    ensures { IfOk result (λ listed. listed.items
        ≡ listed_in settings.now (state_of (V.device store.now)).map) }
{
    let stored = stored_values(alloc, store)?;
    let named = named_addresses(alloc, settings)?;
    list_both(alloc, &named, &stored)
}

/// What two maps say, address by address.
fn list_both<B: Allocator>(
    alloc: B,
    named: &BTreeMap<Address, (u64, Numbers), B>,
    stored: &BTreeMap<Address, u32, B>,
) -> Result<Vec<Listed, B>, AllocError>
    ensures { IfOk result (λ listed. (settings : List AnySetting)
        → get nat_cmp named.now ≡ named_in settings
        → listed.items ≡ listed_in settings (get nat_cmp stored.now)) }
{
    let mut values = Remaining::new(stored);
    let mut names = Remaining::new(named);
    let mut listed = Vec::new(alloc);
    'listed: while let Some(address) = lower(names.address(), values.address()) {
        // No address is 0, below the first of which a list says something.
        prove!(address.get() > 0);
        let name = names.take(address);
        let value = values.take(address);
        push_listed(&mut listed, address, name, value)?;
    }
    Ok(listed)
}

/// The addresses of these settings, each with the number of its entry and its numbers.
fn named_addresses<A: Allocator, B: Allocator + Copy>(
    alloc: B,
    settings: &[Setting<A>],
) -> Result<BTreeMap<Address, (u64, Numbers), B>, AllocError>
    ensures { IfOk result (λ named. get nat_cmp named ≡ named_in settings.now) }
{
    let mut named = BTreeMap::new(alloc);
    for index in (0..settings.len()).rev() {
        let numbers = settings[index].numbers();
        named.insert(numbers.address, (index as u64 + 1, numbers))?;
    }
    Ok(named)
}

/// Puts what there is to say of an address behind others.
fn push_listed<A: Allocator>(
    listed: &mut Vec<Listed, A>,
    address: Address,
    named: Option<(u64, Numbers)>,
    value: Option<u32>,
) -> Result<(), AllocError>
    ensures { OnOk result (listed.new.items ≡ listed.old.items ++ listed_of address named value) }
{
    let (entry, held) = match named {
        Some((entry, numbers)) => {
            let held = match value {
                Some(value) => numbers.held(value),
                None => Held::Default(numbers.default),
            };
            (Some(entry), held)
        }
        None => match value {
            Some(value) => (None, Held::Value(value)),
            None => return Ok(()),
        },
    };
    listed.push(Listed {
        address,
        entry,
        held,
    })?;
    Ok(())
}
