//! The schema: settings by name, as a table spells them, each of which is read and set in a store.
ghost use Rattle.std.specs.Prelude.{◌≡◌};
ghost use Rattle.toml.specs.View.{table_view};
ghost use Rattle.ee_settings.specs.Calls.{Gets, Sets};
ghost use Rattle.ee_settings.specs.File.{GivesSchema, HaveRisingKeys, entries_of};

use crate::entry::read_entries;
use crate::fault::{GetFault, SchemaFault, SetFault};
use crate::numbers::Numbers;
use crate::reading::Reading;
use crate::record_setting::RecordSetting;
use crate::setting::Setting;
use crate::settings::Settings;
use ee_core::{Variables, Written};
use std::alloc::{Allocator, Global};
use std::marker::Model;
use toml::Table;

/// The settings and records of a program, by name.
///
/// Source: ours.
#[derive(Drop)]
pub struct Schema<A: Allocator = Global> {
    settings: Settings<A>,
}

impl<A: Allocator> Model for Schema<A> {
    ghost use Rattle.ee_settings.specs.Setting.{IsSchema, Schema};

    ghost Value = { Schema };

    ghost view = { λ s. s.settings };

    ghost invariant = { λ s. IsSchema s.settings.settings };
}

impl<A: Allocator> Schema<A> {
    ghost use Rattle.std.specs.Prelude.{◌≡◌, [], IfSome, IfNone, length};
    ghost use Rattle.ee_settings.specs.Stale.{IsNameOf, entry_of};
    ghost use Rattle.ee_settings.specs.Calls.{IsNumbersOf, IsUnknown};

    /// The schema with no settings.
    ///
    /// Source: ours.
    pub fn empty(alloc: A) -> Schema<A>
    where
        A: Copy,
        ensures { result ≡ record { settings = []; records = [] } }
    {
        Schema {
            settings: Settings::new(alloc),
        }
    }

    /// The schema that a table spells. Each entry of the table is a setting or a record: its key is
    /// the name, its value a table of the whole numbers `address`, `min`, `max` and `default`, or
    /// of `address`, of `bytes` or `text` and of a `default` in quotes. A table with no entries is
    /// a schema with no settings. The names of a table rise, so it has one first fault.
    ///
    /// # Errors
    ///
    /// The first entry with a fault, by rising name, with the first `SchemaFault` that applies to
    /// it; `SchemaFault::Memory` can come in place of any answer.
    ///
    /// Source: ours.
    pub fn from_table(alloc: A, table: &Table) -> Result<Schema<A>, SchemaFault>
    where
        A: Copy,
        ensures gives { GivesSchema (table_view table.now) result }
        ensures rises { HaveRisingKeys (entries_of (table_view table.now)) }
    {
        let settings = read_entries(alloc, table)?;
        Ok(Schema { settings })
    }

    /// What the setting of a name reads as in a store: the value that its address has, if that is
    /// in its range, and its default otherwise.
    ///
    /// # Errors
    ///
    /// The first `GetFault` that applies.
    ///
    /// Source: ours.
    pub fn get<V: Variables>(&self, store: &V, name: &str) -> Result<Reading, GetFault>
        ensures { Gets self.now.settings (V.device store.now) name.now result }
    {
        let Some(numbers) = self.find(name) else {
            return Err(GetFault::UnknownName);
        };
        match store.read(numbers.address) {
            Ok(stored) => Ok(numbers.reading(stored)),
            Err(_) => Err(GetFault::Off),
        }
    }

    /// Writes a value for the setting of a name, at its address in a store. `laws`
    /// says what is read then.
    ///
    /// # Errors
    ///
    /// The first `SetFault` that applies. All but a cut leave the store's device as it was.
    ///
    /// Source: ours.
    pub fn set<V: Variables>(
        &self,
        store: &mut V,
        name: &str,
        value: u32,
    ) -> Result<Written, SetFault>
        ensures { Sets self.now.settings (V.device store.old) name.now value result (V.device store.new) }
    {
        let Some(numbers) = self.find(name) else {
            return Err(SetFault::UnknownName);
        };
        let Numbers {
            address,
            min,
            max,
            ..
        } = numbers;
        if value < min || max < value {
            return Err(SetFault::OutOfRange { min, max });
        }
        store.write(address, value).map_err(SetFault::Store)
    }

    /// How many entries there are.
    ///
    /// Source: ours.
    pub fn entries(&self) -> u64
        ensures { result ≡ length self.now.settings }
    {
        self.settings.len() as u64
    }

    /// The name of an entry, by rising name, counted from 1; `None` for any other number.
    ///
    /// Source: ours.
    pub fn name(&self, entry: u64) -> Option<&str>
        ensures found { IfSome result (λ name. IsNameOf self.now.settings entry name.now) }
        ensures none { IfNone result (entry_of self.now.settings entry ≡ None) }
    {
        if entry == 0 {
            return None;
        }
        let setting = self.settings.as_slice().get(entry as usize - 1)?;
        Some(setting.name())
    }

    /// The settings, by rising name.
    ///
    /// Source: ours.
    pub fn as_slice(&self) -> &[Setting<A>]
        ensures { result.now ≡ self.now.settings }
    {
        self.settings.as_slice()
    }

    /// The records, by rising name.
    ///
    /// Source: ours.
    pub fn records(&self) -> &[RecordSetting<A>]
        ensures { result.now ≡ self.now.records }
    {
        self.settings.records()
    }

    /// The settings and records.
    pub(crate) fn settings(&self) -> &Settings<A>
        ensures { result.now ≡ self.now }
    {
        &self.settings
    }

    /// The numbers of the setting of this name, if there is one.
    ///
    /// Source: ours.
    pub fn find(&self, name: &str) -> Option<Numbers>
        ensures found { IfSome result (IsNumbersOf self.now.settings name.now) }
        ensures none { IfNone result (IsUnknown self.now.settings name.now) }
    {
        for setting in self.settings.as_slice() {
            if setting.name() == name {
                return Some(setting.numbers());
            }
        }
        None
    }
}
