//! The command that looks whether an image has the values of a text.
ghost use Rattle.std.specs.Prelude.{◌≡◌, ◌⊎◌, ◌++◌, List, ℕ, IfOk, IfErr, OnOk, length, true};
ghost use Rattle.toml.specs.View.{table_view, view};
ghost use Rattle.ee_core.specs.State.{state_of};
ghost use Rattle.ee_settings.specs.File.{entries_of};
ghost use Rattle.ee_image_store.specs.Opening.{StaysOn};
ghost use Rattle.ee_shell.specs.ByName.Verifying.{AreCompared, IsEntryFault, IsFirstEntryFault, IsCompared, IsVerified, IsVerifyFault, difference_line, held_of as held_in, verified_text};
ghost use Rattle.ee_interface.specs.Causes.{NamesEach};

use super::applying::{Wanted, value_at, wanted_of};
use super::listing::push_held;
use super::opening::{open_with_settings, read_table};
use ee_core::Store;
use ee_flash::MemFlash;
use ee_interface::Fault;
use ee_settings::{Held, Numbers, Schema};
use ee_text::push_number_behind;
use std::alloc::{AllocError, Allocator, Global};
use toml::{Table, Value};

/// What is told of an image beside a text of values.
///
/// Source: ours.
#[derive(Debug, Drop)]
pub struct Verified<A: Allocator = Global> {
    /// A line for each setting that has not its value; where each has it, one that says so.
    pub text: Vec<u8, A>,
    /// Whether each setting has its value.
    pub all_stored: bool,
}

/// Looks whether the settings that a text of values names have these values in the image that a
/// text spells. There is to print: for each that has another one, by rising name, a line such as
/// `volume 3 wanted 7`, `volume 12 stale wanted 7` where what is stored is not in the setting's
/// range, or `volume default 5 wanted 7` where nothing is stored; and where all of them are stored,
/// `verified M`, M entries. `settings` is the text of the settings. `heap` is for the trees of the
/// texts alone: `toml` takes no other allocator.
///
/// Source: ours.
///
/// # Errors
///
/// The first that applies: the image is no device's, or not legal; the text of the settings is no
/// TOML, or no schema; the text of the values is no TOML; or an entry, counted from 1, is no whole
/// number, no setting has its name, or it is not in the setting's range. `Memory` can come in place
/// of any answer.
pub fn verify_values<A: Allocator + Copy>(
    alloc: A,
    heap: Global,
    image: &[u8],
    settings: &[u8],
    values: &[u8],
) -> Result<Verified<A>, Fault>
    ensures verified { IfOk result (λ given.
        IsVerified image.now settings.now values.now given.text.items given.all_stored) }
    ensures fault { IfErr result (IsVerifyFault image.now settings.now values.now) }
    // No cause is passed over.
    ensures names { NamesEach Fault.Memory (IsVerifyFault image.now settings.now values.now) result }
{
    let opened = open_with_settings(alloc, heap, image, settings)?;
    let table = read_table(heap, values, Fault::ValuesText)?;
    verify_on(alloc, &opened.store, &opened.schema, &table)
}

/// What is told of a store whose power stays on, beside the entries of a table.
fn verify_on<A: Allocator + Copy>(
    alloc: A,
    store: &Store<MemFlash<A>>,
    schema: &Schema<A>,
    table: &Table,
) -> Result<Verified<A>, Fault>
    requires { StaysOn store.now }
    ensures verified { IfOk result (λ given. (lines : List ℕ)
        × AreCompared schema.now.settings store.now (entries_of (table_view table.now)) given.all_stored lines
        × (given.text.items ≡ lines
        ++ verified_text given.all_stored (length (entries_of (table_view table.now))))) }
    ensures fault { IfErr result (λ fault. IsFirstEntryFault schema.now.settings
        (entries_of (table_view table.now)) 0 fault ⊎ (fault ≡ Fault.Memory)) }
{
    let Verified {
        mut text,
        all_stored,
    } = tell_entries(alloc, store, schema, table)?;
    if all_stored {
        push_verified(&mut text, table.len() as u64)?;
    }
    Ok(Verified { text, all_stored })
}

/// Writes that so many values are stored. After an error there may be a part of it.
fn push_verified<A: Allocator>(out: &mut Vec<u8, A>, entries: u64) -> Result<(), AllocError>
    ensures { OnOk result (out.new.items ≡ out.old.items ++ verified_text true entries) }
{
    push_number_behind(out, b"verified ", entries)?;
    out.extend_from_slice(b"\n")
}

/// The lines of the entries of a table that a store has not, and whether it has all of them.
fn tell_entries<A: Allocator + Copy>(
    alloc: A,
    store: &Store<MemFlash<A>>,
    schema: &Schema<A>,
    table: &Table,
) -> Result<Verified<A>, Fault>
    requires { StaysOn store.now }
    ensures told { IfOk result (λ told. AreCompared schema.now.settings store.now
        (entries_of (table_view table.now)) told.all_stored told.text.items) }
    ensures fault { IfErr result (λ fault. IsFirstEntryFault schema.now.settings
        (entries_of (table_view table.now)) 0 fault ⊎ (fault ≡ Fault.Memory)) }
{
    let mut text = Vec::new(alloc);
    let mut all_stored = true;
    let mut number = 0;
    for (name, value) in table.iter() {
        number += 1;
        let same = tell_entry(&mut text, store, schema, number, name.as_str(), value)?;
        all_stored = all_stored && same;
    }
    Ok(Verified { text, all_stored })
}

/// Writes the line of an entry that a store has not, and gives whether the store has it. `entry` is
/// its number, counted from 1. After an error there may be a part of the line.
fn tell_entry<A: Allocator>(
    out: &mut Vec<u8, A>,
    store: &Store<MemFlash<A>>,
    schema: &Schema<A>,
    entry: u64,
    name: &str,
    value: &Value,
) -> Result<bool, Fault>
    requires { StaysOn store.now }
    ensures told { IfOk result (λ same. (here : List ℕ)
        × IsCompared schema.now.settings store.now (name.now, view value.now) same here
        × (out.new.items ≡ out.old.items ++ here)) }
    ensures fault { IfErr result (λ fault.
        IsEntryFault schema.now.settings entry (name.now, view value.now) fault ⊎ (fault ≡ Fault.Memory)) }
{
    let Wanted { numbers, value } = wanted_of(schema, entry, name, value)?;
    let stored = value_at(store, numbers.address);
    if stored == Some(value) {
        return Ok(true);
    }
    push_difference(out, name, held_of(numbers, stored), value)?;
    Ok(false)
}

/// What the address of a setting with these numbers holds, by what is stored there.
fn held_of(numbers: Numbers, stored: Option<u32>) -> Held
    ensures { result ≡ held_in numbers stored }
{
    let Numbers {
        min,
        max,
        default,
        ..
    } = numbers;
    match stored {
        None => Held::Default(default),
        Some(value) if min <= value && value <= max => Held::Value(value),
        Some(value) => Held::Stale(value),
    }
}

/// Writes the line of a setting that has another value. After an error there may be a part of it.
fn push_difference<A: Allocator>(
    out: &mut Vec<u8, A>,
    name: &str,
    held: Held,
    wanted: u32,
) -> Result<(), AllocError>
    ensures { OnOk result
        (out.new.items ≡ out.old.items ++ difference_line name.now held wanted) }
{
    out.extend_from_slice(name.as_bytes())?;
    push_held(out, held)?;
    push_number_behind(out, b" wanted ", u64::from(wanted))?;
    out.extend_from_slice(b"\n")
}
