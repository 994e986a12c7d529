//! The entries of a table of settings, read by rising name up to the first one with a fault.
ghost use Rattle.std.specs.Prelude.{◌≡◌, ◌+◌, Err, IfErr, IfNone, IfOk, IfSome, Ok, length};
ghost use Rattle.toml.specs.View.{table_view, view};
ghost use Rattle.ee_settings.specs.File.{GivesItem, HaveRisingKeys, IsRecordTableOf, IsSchemaFault, IsSchemaOf, RecordFields as AnyFields, entries_of};
ghost use Rattle.ee_settings.specs.Setting.{HaveRisingNames, Item, Kept, Number, with_item};

use crate::fault::SchemaFault;
use crate::numbers::{checked, read_fields};
use crate::record_fields::{checked_room, read_record_fields};
use crate::record_setting::{RecordSetting, last_address};
use crate::setting::{Setting, is_proper_name};
use crate::settings::Settings;
use std::alloc::Allocator;
use toml::{Table, Value};

/// The settings and records that a table spells, by rising name.
pub(crate) fn read_entries<A: Allocator + Copy>(
    alloc: A,
    table: &Table,
) -> Result<Settings<A>, SchemaFault>
    ensures ok { IfOk result (IsSchemaOf (entries_of (table_view table.now))) }
    ensures names { IfOk result (λ schema. HaveRisingNames schema.settings) }
    ensures err { IfErr result (IsSchemaFault (entries_of (table_view table.now))) }
    // So it has one first fault.
    ensures rises { HaveRisingKeys (entries_of (table_view table.now)) }
{
    let mut settings = Settings::new(alloc);
    for (name, value) in table.iter() {
        settings = with_entry(alloc, settings, name.as_str(), value)?;
    }
    Ok(settings)
}

/// The settings and records of the entries so far, and that of the next one.
fn with_entry<A: Allocator + Copy>(
    alloc: A,
    settings: Settings<A>,
    name: &str,
    value: &Value,
) -> Result<Settings<A>, SchemaFault>
    ensures ok { IfOk result (λ more. (item : Item) × (more ≡ with_item settings item)
        × GivesItem settings (length settings.settings + length settings.records + 1)
        (name.now, view value.now) (Ok item)) }
    ensures err { IfErr result (λ fault. GivesItem settings
        (length settings.settings + length settings.records + 1)
        (name.now, view value.now) (Err fault)) }
{
    let number = settings.entries() as u64 + 1;
    match read_record(alloc, &settings, number, name, value)? {
        Some(one) => match settings.with_record(one) {
            Ok(more) => Ok(more),
            Err(_) => Err(SchemaFault::Memory),
        },
        None => {
            let setting = read_entry(alloc, &settings, number, name, value)?;
            match settings.with(setting) {
                Ok(more) => Ok(more),
                Err(_) => Err(SchemaFault::Memory),
            }
        }
    }
}

/// The setting of one entry of a table that is no record's. `number` is the entry's, counted from
/// 1, and `earlier` are the settings and records of those before it.
fn read_entry<A: Allocator + Copy>(
    alloc: A,
    earlier: &Settings<A>,
    number: u64,
    name: &str,
    value: &Value,
) -> Result<Setting<A>, SchemaFault>
    requires { (fields : AnyFields) → ¬ IsRecordTableOf (view value.now) fields }
    ensures ok { IfOk result (λ setting.
        GivesItem earlier.now number (name.now, view value.now) (Ok (Number setting))) }
    ensures err { IfErr result (λ fault.
        GivesItem earlier.now number (name.now, view value.now) (Err fault)) }
{
    if !is_proper_name(name) {
        return Err(SchemaFault::BadName(number));
    }
    let Some(fields) = read_fields(value) else {
        return Err(SchemaFault::BadField(number));
    };
    let Some(numbers) = checked(fields) else {
        return Err(SchemaFault::BadRange(number));
    };
    if earlier.has(numbers.address) {
        return Err(SchemaFault::SameAddress(number));
    }
    let name = match String::from_str(alloc, name) {
        Ok(name) => name,
        Err(_) => return Err(SchemaFault::Memory),
    };
    Ok(Setting::new(name, numbers))
}

/// The record of one entry of a table, or `None` if the entry is no record's.
fn read_record<A: Allocator + Copy>(
    alloc: A,
    earlier: &Settings<A>,
    number: u64,
    name: &str,
    value: &Value,
) -> Result<Option<RecordSetting<A>>, SchemaFault>
    ensures one { IfOk result (λ found. IfSome found (λ one.
        GivesItem earlier.now number (name.now, view value.now) (Ok (Kept one)))) }
    ensures none { IfOk result (λ found. IfNone found
        ((fields : AnyFields) → ¬ IsRecordTableOf (view value.now) fields)) }
    ensures err { IfErr result (λ fault.
        GivesItem earlier.now number (name.now, view value.now) (Err fault)) }
{
    let Some(fields) = read_record_fields(value) else {
        return Ok(None);
    };
    if !is_proper_name(name) {
        return Err(SchemaFault::BadName(number));
    }
    let spelled = fields.default;
    let Some(room) = checked_room(fields.address, fields.kind, fields.size, spelled) else {
        return Err(SchemaFault::BadRange(number));
    };
    if earlier.has_any(room.base.get(), last_address(room.base, room.size) as u16) {
        return Err(SchemaFault::SameAddress(number));
    }
    let name = match String::from_str(alloc, name) {
        Ok(name) => name,
        Err(_) => return Err(SchemaFault::Memory),
    };
    let default = match String::from_str(alloc, spelled) {
        Ok(default) => default,
        Err(_) => return Err(SchemaFault::Memory),
    };
    Ok(Some(RecordSetting::new(name, room, default)))
}
