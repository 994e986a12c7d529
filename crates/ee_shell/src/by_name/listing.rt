//! The command that tells what an image holds.
ghost use Rattle.std.specs.Prelude.{◌≡◌, ◌++◌, ◌<◌, ℕ, List, Some, None, IfOk, IfErr, OnOk};
ghost use Rattle.std.specs.Option.{option_map};
ghost use Rattle.ee_flash.specs.Device.{IsOn};
ghost use Rattle.ee_core.specs.State.{state_of};
ghost use Rattle.ee_settings.specs.Setting.{has_record_at, is_of};
ghost use Rattle.ee_shell.specs.ByName.Listing.{AreLines, AreRecordLines, IsList, IsListTextFault, held_words, listed_line, listed_lines, name_words, told_record, setting_line, words_behind};
ghost use Rattle.ee_image_store.specs.Opening.{StaysOn};
ghost use Rattle.ee_interface.specs.Causes.{NamesEach};

use super::opening::open_with_settings;
use super::recorded::{Origin, Recorded, read_recorded};
use ee_codec::Address;
use ee_core::Store;
use ee_flash::MemFlash;
use ee_image_store::open_image;
use ee_interface::Fault;
use ee_settings::{Held, ListFault, Listed, RecordSetting, Schema};
use ee_text::{push_number, push_number_behind};
use std::alloc::{AllocError, Allocator, Global};

/// What the image that a text spells holds, as there is to print: a line for each address that has
/// a value, `A V`, by rising address. Where there is a text of settings, the line of an address
/// that a setting has ends with the setting's name: `A V NAME`, or `A V stale NAME` where the value
/// isn't in its range; and a setting without a value has a line `A default D NAME`. The addresses
/// of records have none of these: behind them stands a line for each record, by rising name, with
/// its first address, `A B NAME`, `A default B NAME` or `A hurt NAME`. `heap` is for the tree of that
/// text alone: `toml` takes no other allocator.
///
/// Source: ours.
///
/// # Errors
///
/// The first that applies: the image is no device's, or not legal; the text of the settings is no
/// TOML, or no schema. `Memory` can come in place of any answer.
pub fn list_text<A: Allocator + Copy>(
    alloc: A,
    heap: Global,
    image: &[u8],
    settings: Option<&[u8]>,
) -> Result<Vec<u8, A>, Fault>
    ensures list { IfOk result (λ text.
        IsList image.now (option_map (λ text. text.now) settings.entry) text.items) }
    ensures fault { IfErr result
        (IsListTextFault image.now (option_map (λ text. text.now) settings.entry)) }
    // No cause is passed over.
    ensures names { NamesEach Fault.Memory
        (IsListTextFault image.now (option_map (λ text. text.now) settings.entry)) result }
{
    match settings {
        None => list_values(alloc, image),
        Some(settings) => list_settings(alloc, heap, image, settings),
    }
}

/// The lines of what an image holds, with no settings.
fn list_values<A: Allocator + Copy>(alloc: A, image: &[u8]) -> Result<Vec<u8, A>, Fault>
    ensures list { IfOk result (λ text. IsList image.now None text.items) }
    ensures fault { IfErr result (IsListTextFault image.now None) }
    ensures names { NamesEach Fault.Memory (IsListTextFault image.now None) result }
{
    let store = open_image(alloc, image)?;
    let schema = Schema::empty(alloc);
    lines_on(alloc, &store, &schema)
}

/// The lines of what an image holds, with the settings that a text spells.
fn list_settings<A: Allocator + Copy>(
    alloc: A,
    heap: Global,
    image: &[u8],
    settings: &[u8],
) -> Result<Vec<u8, A>, Fault>
    ensures list { IfOk result (λ text. IsList image.now (Some settings.now) text.items) }
    ensures fault { IfErr result (IsListTextFault image.now (Some settings.now)) }
    ensures names { NamesEach Fault.Memory (IsListTextFault image.now (Some settings.now)) result }
{
    let opened = open_with_settings(alloc, heap, image, settings)?;
    lines_on(alloc, &opened.store, &opened.schema)
}

/// The lines of what a store whose power stays on holds, by a schema.
fn lines_on<A: Allocator + Copy>(
    alloc: A,
    store: &Store<MemFlash<A>>,
    schema: &Schema<A>,
) -> Result<Vec<u8, A>, Fault>
    requires { StaysOn store.now }
    ensures lines { IfOk result (λ text.
        AreLines schema.now (state_of store.now).map text.items) }
    ensures fault { IfErr result (λ fault. fault ≡ Fault.Memory) }
{
    let listed = match schema.list(alloc, store) {
        Ok(listed) => listed,
        Err(ListFault::Memory) => return Err(Fault::Memory),
        Err(ListFault::Off) => unreachable!("power stays on"),
    };
    let mut text = Vec::new(alloc);
    push_lines(&mut text, schema, listed.as_slice())?;
    push_records(alloc, &mut text, store, schema.records())?;
    Ok(text)
}

/// Writes the lines of listed addresses that no record has. After an error there may be a part of
/// them.
fn push_lines<A: Allocator>(
    out: &mut Vec<u8, A>,
    schema: &Schema<A>,
    listed: &[Listed],
) -> Result<(), AllocError>
    ensures { OnOk result (out.new.items ≡ out.old.items ++ listed_lines schema.now listed.now) }
{
    for one in listed {
        push_unrecorded(out, schema, *one)?;
    }
    Ok(())
}

/// Writes the line of a listed address, if no record has it. After an error there may be a part of
/// it.
fn push_unrecorded<A: Allocator>(
    out: &mut Vec<u8, A>,
    schema: &Schema<A>,
    listed: Listed,
) -> Result<(), AllocError>
    ensures { OnOk result (out.new.items ≡ out.old.items ++ setting_line schema.now listed) }
{
    if has_record_at(schema.records(), listed.address) {
        return Ok(());
    }
    push_listed(out, schema, listed)
}

/// Whether a record has the address.
fn has_record_at<A: Allocator>(records: &[RecordSetting<A>], address: Address) -> bool
    ensures { result ≡ has_record_at records.now address }
{
    for one in records {
        if is_of(one, address) {
            return true;
        }
    }
    false
}

/// Whether the record has the address.
fn is_of<A: Allocator>(one: &RecordSetting<A>, address: Address) -> bool
    ensures { result ≡ is_of one.now.form address }
{
    let room = one.room();
    let first = u32::from(room.base.get());
    let number = u32::from(address.get());
    first <= number && number <= first + 2 * ((room.size + 3) / 4 + 1)
}

/// Writes the lines of records, as they read in a store that is on. After an error there may be a
/// part of them.
fn push_records<A: Allocator + Copy>(
    alloc: A,
    out: &mut Vec<u8, A>,
    store: &Store<MemFlash<A>>,
    records: &[RecordSetting<A>],
) -> Result<(), AllocError>
    requires { IsOn store.now }
    ensures { OnOk result ((lines : List ℕ)
        × AreRecordLines (state_of store.now).map records.now lines
        × (out.new.items ≡ out.old.items ++ lines)) }
{
    for one in records {
        let recorded = read_recorded(alloc, store, one)?;
        push_recorded(out, one, &recorded)?;
    }
    Ok(())
}

/// Writes the line of a record. After an error there may be a part of it.
fn push_recorded<A: Allocator>(
    out: &mut Vec<u8, A>,
    one: &RecordSetting<A>,
    recorded: &Recorded<A>,
) -> Result<(), AllocError>
    ensures { OnOk result (out.new.items
        ≡ out.old.items ++ told_record one.now recorded.now.origin recorded.now.spelled.items) }
{
    push_number(out, u64::from(one.room().base.get()))?;
    let (before, spelled) = match recorded.origin {
        Origin::Stored => (b" ".as_slice(), recorded.spelled.as_slice()),
        Origin::Default => (b" default ".as_slice(), recorded.spelled.as_slice()),
        Origin::Hurt => (b" hurt".as_slice(), b"".as_slice()),
    };
    out.extend_from_slice(before)?;
    out.extend_from_slice(spelled)?;
    out.extend_from_slice(b" ")?;
    out.extend_from_slice(one.name().as_bytes())?;
    out.extend_from_slice(b"\n")
}

/// Writes the line of a listed address. After an error there may be a part of it.
fn push_listed<A: Allocator>(
    out: &mut Vec<u8, A>,
    schema: &Schema<A>,
    listed: Listed,
) -> Result<(), AllocError>
    ensures { OnOk result (out.new.items ≡ out.old.items ++ listed_line schema.now.settings listed) }
{
    let Listed {
        address,
        entry,
        held,
    } = listed;
    push_number(out, u64::from(address.get()))?;
    push_held(out, held)?;
    push_name(out, schema, entry)?;
    out.extend_from_slice(b"\n")
}

/// Writes the name of an entry, if there is one, behind a space. After an error there
/// may be a part of that.
fn push_name<A: Allocator>(
    out: &mut Vec<u8, A>,
    schema: &Schema<A>,
    entry: Option<u64>,
) -> Result<(), AllocError>
    ensures { OnOk result
        (out.new.items ≡ out.old.items ++ words_behind (name_words schema.now.settings entry)) }
{
    let Some(entry) = entry else {
        return Ok(());
    };
    out.extend_from_slice(b" ")?;
    let Some(name) = schema.name(entry) else {
        return Ok(());
    };
    out.extend_from_slice(name.as_bytes())
}

/// Writes what an address holds, behind its number. After an error there may be a part of that.
pub(crate) fn push_held<A: Allocator>(out: &mut Vec<u8, A>, held: Held) -> Result<(), AllocError>
    ensures { OnOk result (out.new.items ≡ out.old.items ++ words_behind (held_words held)) }
{
    let (before, value, after) = match held {
        Held::Value(value) => (b" ".as_slice(), value, b"".as_slice()),
        Held::Stale(value) => (b" ".as_slice(), value, b" stale".as_slice()),
        Held::Default(value) => (b" default ".as_slice(), value, b"".as_slice()),
    };
    push_number_behind(out, before, u64::from(value))?;
    out.extend_from_slice(after)
}
