//! The command that forgets the value of a setting.
ghost use Rattle.std.specs.Prelude.{◌≡◌, IfOk, IfErr, OnOk};
ghost use Rattle.ee_core.specs.State.{state_of};
ghost use Rattle.ee_image_store.specs.Opening.{StaysOn};
ghost use Rattle.ee_shell.specs.ByName.Unsetting.{IsForgotten, IsUnset, IsUnsetFault, IsUnsettingRefused, LeavesUnset};
ghost use Rattle.ee_interface.specs.Causes.{NamesEach};

use super::opening::open_with_settings;
use super::recorded::find_record;
use ee_core::{ForgetFault, Store, Variables};
use ee_flash::MemFlash;
use ee_image_store::{ImageAndText, text_left};
use ee_interface::Fault;
use ee_settings::Schema;
use std::alloc::{Allocator, Global};

/// Forgets the value of the setting of a name, in the image that a text spells, and gives the text
/// of the image that this leaves, and what there is to print: `unset`. The setting reads as its
/// default then. `settings` is the text of the settings. `heap` is for the tree of that text alone:
/// `toml` takes no other allocator.
///
/// Source: ours.
///
/// # Errors
///
/// The first that applies: the image is no device's, or not legal; the text of the settings is no
/// TOML, or no schema; a record has the name; no setting has it; its address has no value; the
/// store is spent. `Memory` can come in place of any answer.
pub fn unset_setting<A: Allocator + Copy>(
    alloc: A,
    heap: Global,
    image: &[u8],
    settings: &[u8],
    name: &str,
) -> Result<ImageAndText<A>, Fault>
    ensures unset { IfOk result (λ given.
        IsUnset image.now settings.now name.now given.image.items given.text.items) }
    ensures fault { IfErr result (IsUnsetFault image.now settings.now name.now) }
    // No cause is passed over.
    ensures names { NamesEach Fault.Memory (IsUnsetFault image.now settings.now name.now) result }
{
    let opened = open_with_settings(alloc, heap, image, settings)?;
    match find_record(opened.schema.records(), name) {
        Some(_) => Err(Fault::RecordName),
        None => unset_left(alloc, opened.store, &opened.schema, name),
    }
}

/// Forgets the value of the setting of a name in a store whose power stays on, and gives what this
/// leaves.
fn unset_left<A: Allocator + Copy>(
    alloc: A,
    mut store: Store<MemFlash<A>>,
    schema: &Schema<A>,
    name: &str,
) -> Result<ImageAndText<A>, Fault>
    requires { StaysOn store }
    ensures unset { IfOk result (λ given.
        LeavesUnset schema.now.settings store name.now given.image.items given.text.items) }
    ensures fault { IfErr result
        (IsUnsettingRefused schema.now.settings store.size (state_of store) name.now) }
{
    unset_on(&mut store, schema, name)?;
    let image = text_left(alloc, store)?;
    let text = Vec::from_slice(alloc, b"unset\n")?;
    Ok(ImageAndText { image, text })
}

/// Forgets the value of the setting of a name.
fn unset_on<A: Allocator>(
    store: &mut Store<MemFlash<A>>,
    schema: &Schema<A>,
    name: &str,
) -> Result<(), Fault>
    requires { StaysOn store.old }
    ensures forgotten { OnOk result (IsForgotten schema.now.settings store.old name.now store.new) }
    ensures fault { let old = store.old in
        IfErr result (IsUnsettingRefused schema.now.settings old.size (state_of old) name.now) }
{
    let Some(numbers) = schema.find(name) else {
        return Err(Fault::UnknownName);
    };
    match store.forget(numbers.address) {
        Ok(_) => Ok(()),
        Err(ForgetFault::Absent) => Err(Fault::Absent),
        Err(ForgetFault::Spent) => Err(Fault::Spent),
        Err(ForgetFault::Off | ForgetFault::Cut) => unreachable!("power stays on"),
    }
}
