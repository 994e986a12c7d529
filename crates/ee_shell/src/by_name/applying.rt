//! The command that sets many values at once.
ghost use Rattle.std.specs.Prelude.{◌≡◌, ◌≢◌, ◌⊎◌, ◌≤◌, pos, ℕ, Some, Ok, IfOk, IfErr, IfSome, IfNone, length};
ghost use Rattle.std.specs.Bool.{OnFalse, OnTrue};
ghost use Rattle.toml.specs.View.{table_view, view};
ghost use Rattle.ee_core.specs.Calls.{Writes};
ghost use Rattle.ee_core.specs.State.{state_of};
ghost use Rattle.ee_settings.specs.File.{entries_of};
ghost use Rattle.ee_image_store.specs.Opening.{StaysOn};
ghost use Rattle.ee_shell.specs.ByName.Applying.{Applies, IsApplied, IsApplyFault, IsEntryRefusal, IsWriteRefusalAt, LeavesApplied, StopsAtEntry, TakesEntry, applied_text};
ghost use Rattle.ee_shell.specs.ByName.Verifying.{IsEntryFault, IsWanted};
ghost use Rattle.ee_interface.specs.Causes.{NamesEach};

use super::opening::{open_with_settings, read_table};
use ee_codec::Address;
use ee_core::{Store, Variables, WriteFault, Written};
use ee_flash::MemFlash;
use ee_image_store::{ImageAndText, text_left};
use ee_interface::Fault;
use ee_settings::{Numbers, Schema};
use std::alloc::{AllocError, Allocator, Global};
use toml::{Table, Value};

/// Writes the values that a text spells for the settings that it names, into the image that a
/// text spells, and gives the text of the image that this leaves, and what there is to print:
/// `applied N of M`, N of M entries written. An entry is a setting's name and a whole number;
/// they come by rising name, in the order of bytes. What is stored already is not written again.
/// `settings` is the text of the settings. `heap` is for the trees of the texts alone: `toml`
/// takes no other allocator.
///
/// Source: ours.
///
/// # Errors
///
/// The first that applies: the image is no device's, or not legal; the text of the settings is no
/// TOML, or no schema; the text of the values is no TOML; or an entry, counted from 1, is no whole
/// number, no setting has its name, it is not in the setting's range, or the store is full, or
/// spent. `Memory` can come in place of any answer.
pub fn apply_values<A: Allocator + Copy>(
    alloc: A,
    heap: Global,
    image: &[u8],
    settings: &[u8],
    values: &[u8],
) -> Result<ImageAndText<A>, Fault>
    ensures applied { IfOk result (λ given.
        IsApplied image.now settings.now values.now given.image.items given.text.items) }
    ensures fault { IfErr result (IsApplyFault image.now settings.now values.now) }
    // No cause is passed over.
    ensures names { NamesEach Fault.Memory (IsApplyFault image.now settings.now values.now) result }
{
    let opened = open_with_settings(alloc, heap, image, settings)?;
    let table = read_table(heap, values, Fault::ValuesText)?;
    apply_left(alloc, opened.store, &opened.schema, &table)
}

/// Takes the entries of a table by a store whose power stays on, and gives what this leaves.
fn apply_left<A: Allocator + Copy>(
    alloc: A,
    mut store: Store<MemFlash<A>>,
    schema: &Schema<A>,
    table: &Table,
) -> Result<ImageAndText<A>, Fault>
    requires { StaysOn store }
    ensures applied { IfOk result (λ given. LeavesApplied schema.now.settings
        (entries_of (table_view table.now)) store given.image.items given.text.items) }
    ensures stopped { IfErr result (λ fault. StopsAtEntry schema.now.settings
        (entries_of (table_view table.now))
        store fault ⊎ (fault ≡ Fault.Memory)) }
{
    let counts = take_entries(&mut store, schema, table)?;
    let image = text_left(alloc, store)?;
    let text = applied_line(alloc, counts)?;
    Ok(ImageAndText { image, text })
}

/// How many entries there are, and how many of them were written.
#[derive(Clone, Copy)]
struct Counts {
    written: u64,
    entries: u64,
}

/// Takes the entries of a table, by rising name. After an error those before it were taken.
fn take_entries<A: Allocator>(
    store: &mut Store<MemFlash<A>>,
    schema: &Schema<A>,
    table: &Table,
) -> Result<Counts, Fault>
    requires { StaysOn store.old }
    ensures applied { IfOk result (λ counts. Applies schema.now.settings (entries_of (table_view table.now))
        store.old counts.written store.new) }
    ensures entries { IfOk result (λ counts.
        counts.entries ≡ length (entries_of (table_view table.now))) }
    ensures stopped { IfErr result (λ fault. StopsAtEntry schema.now.settings
        (entries_of (table_view table.now))
        store.old fault ⊎ (fault ≡ Fault.Memory)) }
{
    let entries = table.len() as u64;
    let mut number = 0;
    let mut written = 0;
    for (name, value) in table.iter() {
        number += 1;
        written += take_entry(store, schema, number, name.as_str(), value)?;
    }
    Ok(Counts { written, entries })
}

/// Takes an entry, and gives by how many writes: 1, or 0 where its value is stored already. `entry`
/// is its number, counted from 1.
fn take_entry<A: Allocator>(
    store: &mut Store<MemFlash<A>>,
    schema: &Schema<A>,
    entry: u64,
    name: &str,
    value: &Value,
) -> Result<u64, Fault>
    requires { StaysOn store.old }
    ensures taken { IfOk result (λ count. TakesEntry schema.now.settings store.old
        (name.now, view value.now) count store.new) }
    ensures refused { let old = store.old in IfErr result (λ fault.
        IsEntryRefusal schema.now.settings old.size (state_of old) entry (name.now, view value.now) fault
        ⊎ (fault ≡ Fault.Memory)) }
{
    let Wanted { numbers, value } = wanted_of(schema, entry, name, value)?;
    let address = numbers.address;
    if has_value(store, address, value) {
        return Ok(0);
    }
    write_on(store, address, value, entry)?;
    Ok(1)
}

/// What an entry asks for: a value in the range of the setting with these numbers.
#[derive(Clone, Copy)]
pub(crate) struct Wanted {
    pub(crate) numbers: Numbers,
    pub(crate) value: u32,
}

/// What an entry asks for. `entry` is its number, counted from 1.
///
/// # Errors
///
/// The first that applies: it is no whole number, no setting has its name, or it is not in the
/// setting's range.
pub(crate) fn wanted_of<A: Allocator>(
    schema: &Schema<A>,
    entry: u64,
    name: &str,
    value: &Value,
) -> Result<Wanted, Fault>
    ensures wanted { IfOk result (λ wanted.
        IsWanted schema.now.settings (name.now, view value.now) wanted.numbers wanted.value) }
    ensures fault { IfErr result (IsEntryFault schema.now.settings entry (name.now, view value.now)) }
{
    let value = match value.as_integer() {
        Some(value) => value,
        None => return Err(Fault::BadValue(entry)),
    };
    let numbers = match schema.find(name) {
        Some(numbers) => numbers,
        None => return Err(Fault::UnknownValue(entry)),
    };
    let Numbers { min, max, .. } = numbers;
    match in_range(min, max, value) {
        Some(value) => Ok(Wanted { numbers, value }),
        None => Err(Fault::ValueOutOfRange { entry, min, max }),
    }
}

/// The number, if it is in the range.
fn in_range(min: u32, max: u32, number: i64) -> Option<u32>
    ensures found { IfSome result (λ value. (number ≡ pos value) × (min ≤ value) × (value ≤ max)) }
    ensures none { IfNone result ((value : ℕ) → min ≤ value → value ≤ max → number ≢ pos value) }
{
    let value = u32::try_from(number).ok()?;
    if value < min || max < value {
        return None;
    }
    Some(value)
}

/// Whether the address has this value.
fn has_value<A: Allocator>(store: &Store<MemFlash<A>>, address: Address, value: u32) -> bool
    requires { StaysOn store.now }
    ensures stored { OnTrue result ((state_of store.now).map address ≡ Some value) }
    ensures another { OnFalse result ((state_of store.now).map address ≢ Some value) }
{
    value_at(store, address) == Some(value)
}

/// The value of an address, if it has one.
pub(crate) fn value_at<A: Allocator>(store: &Store<MemFlash<A>>, address: Address) -> Option<u32>
    requires { StaysOn store.now }
    ensures { result ≡ (state_of store.now).map address }
{
    match store.read(address) {
        Ok(stored) => stored,
        Err(_) => unreachable!("power stays on"),
    }
}

/// Writes a value at an address for the entry of this number.
fn write_on<A: Allocator>(
    store: &mut Store<MemFlash<A>>,
    address: Address,
    value: u32,
    number: u64,
) -> Result<Written, Fault>
    requires { StaysOn store.old }
    ensures written { IfOk result (λ answer.
        Writes store.old address value (Ok answer) store.new) }
    ensures refused { let old = store.old in IfErr result (λ fault.
        IsWriteRefusalAt old.size (state_of old) number address fault ⊎ (fault ≡ Fault.Memory)) }
{
    match store.write(address, value) {
        Ok(answer) => Ok(answer),
        Err(WriteFault::Full) => Err(Fault::FullAt(number)),
        Err(WriteFault::Spent) => Err(Fault::SpentAt(number)),
        Err(WriteFault::Memory) => Err(Fault::Memory),
        Err(WriteFault::Off | WriteFault::Cut) => unreachable!("power stays on"),
    }
}

/// The line that says how many of the entries were written.
fn applied_line<A: Allocator + Copy>(alloc: A, counts: Counts) -> Result<Vec<u8, A>, AllocError>
    ensures { IfOk result (λ line. line.items ≡ applied_text counts.written counts.entries) }
{
    let Counts { written, entries } = counts;
    let line = format!(in alloc; "applied {written} of {entries}\n")?;
    Ok(line.into_bytes())
}
