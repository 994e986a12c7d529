//! The commands that read and set a setting by its name.
ghost use Rattle.std.specs.Prelude.{◌≡◌, ◌⊎◌, ◌++◌, IfOk, IfErr, OnOk};
ghost use Rattle.ee_text.specs.Line.{line_of};
ghost use Rattle.ee_core.specs.State.{state_of};
ghost use Rattle.ee_settings.specs.Calls.{IsUnknown};
ghost use Rattle.ee_shell.specs.ByName.Records.{IsRecordReading};
ghost use Rattle.ee_shell.specs.ByName.Settings.{IsGetFault, IsGot, IsReadingLine, IsSettingLine, IsSettingRefused, IsSet, IsSetFault, IsUnknownTo, IsWritten, LeavesSet, reading_text};
ghost use Rattle.ee_image_store.specs.Opening.{StaysOn};
ghost use Rattle.ee_interface.specs.Causes.{NamesEach};

use super::opening::open_with_settings;
use super::recorded::{Origin, Recorded, find_record, read_recorded};
use ee_core::{Store, WriteFault};
use ee_flash::MemFlash;
use ee_image_store::{ImageAndText, text_left};
use ee_interface::Fault;
use ee_settings::{GetFault, Reading, RecordSetting, Schema, SetFault};
use ee_text::push_number;
use std::alloc::{AllocError, Allocator, Global};

/// What the setting or the record of a name reads as in the image that a text spells, as there is to
/// print: `V stored`, where the setting's address has the value V and V is in its range, or
/// `V default`; `B stored`, where the record has the bytes B, `B default` with its default where
/// there is none, or `B hurt` where what there is doesn't fit its check. `settings` is the text of the settings. `heap` is for the tree of that text alone: `toml`
/// takes no other allocator.
///
/// Source: ours.
///
/// # Errors
///
/// The first that applies: the image is no device's, or not legal; the text of the settings is no
/// TOML, or no schema; no setting and no record has the name. `Memory` can come in place of any
/// answer.
pub fn get_setting<A: Allocator + Copy>(
    alloc: A,
    heap: Global,
    image: &[u8],
    settings: &[u8],
    name: &str,
) -> Result<Vec<u8, A>, Fault>
    ensures got { IfOk result (λ text. IsGot image.now settings.now name.now text.items) }
    ensures fault { IfErr result (IsGetFault image.now settings.now name.now) }
    // No cause is passed over.
    ensures names { NamesEach Fault.Memory (IsGetFault image.now settings.now name.now) result }
{
    let opened = open_with_settings(alloc, heap, image, settings)?;
    reading_on(alloc, &opened.store, &opened.schema, name)
}

/// Writes a value for the setting of a name, into the image that a text spells, and gives the text
/// of the image that this leaves, and what there is to print: `set`. `settings` is the text of the
/// settings. `heap` is for the tree of that text alone: `toml` takes no other allocator.
///
/// Source: ours.
///
/// # Errors
///
/// The first that applies: the image is no device's, or not legal; the text of the settings is no
/// TOML, or no schema; a record has the name; no setting has it; the value is not in its range; the
/// store is full, or spent. `Memory` can come in place of any answer.
pub fn set_setting<A: Allocator + Copy>(
    alloc: A,
    heap: Global,
    image: &[u8],
    settings: &[u8],
    name: &str,
    value: u32,
) -> Result<ImageAndText<A>, Fault>
    ensures set { IfOk result (λ given.
        IsSet image.now settings.now name.now value given.image.items given.text.items) }
    ensures fault { IfErr result (IsSetFault image.now settings.now name.now value) }
    // No cause is passed over.
    ensures names { NamesEach Fault.Memory (IsSetFault image.now settings.now name.now value) result }
{
    let opened = open_with_settings(alloc, heap, image, settings)?;
    match find_record(opened.schema.records(), name) {
        Some(_) => Err(Fault::RecordName),
        None => set_left(alloc, opened.store, &opened.schema, name, value),
    }
}

/// The line of what the setting or the record of a name reads as in a store whose power stays on.
fn reading_on<A: Allocator + Copy>(
    alloc: A,
    store: &Store<MemFlash<A>>,
    schema: &Schema<A>,
    name: &str,
) -> Result<Vec<u8, A>, Fault>
    requires { StaysOn store.now }
    ensures got { IfOk result (λ text.
        IsReadingLine schema.now (state_of store.now) name.now text.items) }
    ensures fault { IfErr result (λ fault.
        (IsUnknownTo schema.now name.now × (fault ≡ Fault.UnknownName)) ⊎ (fault ≡ Fault.Memory)) }
{
    match find_record(schema.records(), name) {
        Some(one) => record_line_on(alloc, store, one),
        None => setting_line_on(alloc, store, schema, name),
    }
}

/// The line of what a record reads as in a store whose power stays on.
fn record_line_on<A: Allocator + Copy>(
    alloc: A,
    store: &Store<MemFlash<A>>,
    one: &RecordSetting<A>,
) -> Result<Vec<u8, A>, Fault>
    requires { StaysOn store.now }
    ensures got { IfOk result (λ text.
        IsRecordReading one.now (state_of store.now).map text.items) }
    ensures fault { IfErr result (λ fault. fault ≡ Fault.Memory) }
{
    let Recorded {
        spelled: mut text,
        origin,
    } = read_recorded(alloc, store, one)?;
    let word = match origin {
        Origin::Stored => b" stored\n".as_slice(),
        Origin::Default => b" default\n".as_slice(),
        Origin::Hurt => b" hurt\n".as_slice(),
    };
    text.extend_from_slice(word)?;
    Ok(text)
}

/// The line of what the setting of a name reads as in a store whose power stays on.
fn setting_line_on<A: Allocator + Copy>(
    alloc: A,
    store: &Store<MemFlash<A>>,
    schema: &Schema<A>,
    name: &str,
) -> Result<Vec<u8, A>, Fault>
    requires { StaysOn store.now }
    ensures got { IfOk result (λ text.
        IsSettingLine schema.now.settings (state_of store.now) name.now text.items) }
    ensures fault { IfErr result (λ fault.
        (IsUnknown schema.now.settings name.now × (fault ≡ Fault.UnknownName)) ⊎ (fault ≡ Fault.Memory)) }
{
    let reading = match schema.get(store, name) {
        Ok(reading) => reading,
        Err(GetFault::UnknownName) => return Err(Fault::UnknownName),
        Err(GetFault::Off) => unreachable!("power stays on"),
    };
    let mut text = Vec::new(alloc);
    push_reading(&mut text, reading)?;
    Ok(text)
}

/// Writes a value for the setting of a name in a store whose power stays on, and
/// gives what this leaves.
fn set_left<A: Allocator + Copy>(
    alloc: A,
    mut store: Store<MemFlash<A>>,
    schema: &Schema<A>,
    name: &str,
    value: u32,
) -> Result<ImageAndText<A>, Fault>
    requires { StaysOn store }
    ensures set { IfOk result (λ given.
        LeavesSet schema.now.settings store name.now value given.image.items given.text.items) }
    ensures fault { IfErr result
        (IsSettingRefused schema.now.settings store.size (state_of store) name.now value) }
{
    set_on(&mut store, schema, name, value)?;
    let image = text_left(alloc, store)?;
    let text = Vec::from_slice(alloc, b"set\n")?;
    Ok(ImageAndText { image, text })
}

/// Writes a value for the setting of a name.
fn set_on<A: Allocator>(
    store: &mut Store<MemFlash<A>>,
    schema: &Schema<A>,
    name: &str,
    value: u32,
) -> Result<(), Fault>
    requires { StaysOn store.old }
    ensures written { OnOk result
        (IsWritten schema.now.settings store.old name.now value store.new) }
    ensures fault { let old = store.old in
        IfErr result (IsSettingRefused schema.now.settings old.size (state_of old) name.now value) }
{
    match schema.set(store, name, value) {
        Ok(_) => Ok(()),
        Err(SetFault::UnknownName) => Err(Fault::UnknownName),
        Err(SetFault::OutOfRange { min, max }) => Err(Fault::OutOfRange { min, max }),
        Err(SetFault::Store(WriteFault::Full)) => Err(Fault::Full),
        Err(SetFault::Store(WriteFault::Spent)) => Err(Fault::Spent),
        Err(SetFault::Store(WriteFault::Memory)) => Err(Fault::Memory),
        Err(SetFault::Store(WriteFault::Off | WriteFault::Cut)) => unreachable!("power stays on"),
    }
}

/// Writes the line of a reading. After an error there may be a part of it.
fn push_reading<A: Allocator>(out: &mut Vec<u8, A>, reading: Reading) -> Result<(), AllocError>
    ensures { OnOk result (out.new.items ≡ out.old.items ++ line_of (reading_text reading)) }
{
    let (value, origin) = match reading {
        Reading::Stored(value) => (value, b" stored\n".as_slice()),
        Reading::Default(value) => (value, b" default\n".as_slice()),
    };
    push_number(out, value as u64)?;
    out.extend_from_slice(origin)
}
