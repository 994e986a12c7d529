//! The commands that look at an image with the settings of a later firmware.
ghost use Rattle.std.specs.Prelude.{◌≡◌, ◌⊎◌, ◌<◌, ◌≤◌, ◌+◌, ◌++◌, IfOk, IfErr, OnOk, length};
ghost use Rattle.std.specs.List.{All};
ghost use Rattle.ee_core.specs.State.{state_of};
ghost use Rattle.ee_settings.specs.Stale.{stale_in};
ghost use Rattle.ee_settings.specs.Tidying.{IsSpentAmong, unnamed_in};
ghost use Rattle.ee_settings.specs.declared.stale.Stale.{Stale};
ghost use Rattle.ee_shell.specs.ByName.Settings.{IsOpenWithSettingsFault};
ghost use Rattle.ee_shell.specs.ByName.SecondSchema.{AreStaleLines, IsTidied, IsTidiedImage, IsTidyImageFault, LeavesTidied, stale_line, stale_lines, tidied_text};
ghost use Rattle.ee_image_store.specs.Opening.{StaysOn};
ghost use Rattle.ee_interface.specs.Causes.{NamesEach};

use super::opening::open_with_settings;
use ee_core::Store;
use ee_flash::MemFlash;
use ee_image_store::{ImageAndText, text_left};
use ee_interface::Fault;
use ee_settings::{Schema, Stale, StaleFault, TidyFault};
use ee_text::push_number_behind;
use std::alloc::{AllocError, Allocator, Global};

/// The settings whose stored value in the image that a text spells isn't in their range, as
/// there is to print: a line `NAME V` for each, by rising name, where V is the stored value.
/// `settings` is the text of the settings. `heap` is for the tree of that text alone: `toml`
/// takes no other allocator.
///
/// Source: ours.
///
/// # Errors
///
/// The first that applies: the image is no device's, or not legal; the text of the settings is no
/// TOML, or no schema. `Memory` can come in place of any answer.
pub fn stale_text<A: Allocator + Copy>(
    alloc: A,
    heap: Global,
    image: &[u8],
    settings: &[u8],
) -> Result<Vec<u8, A>, Fault>
    ensures stale { IfOk result (λ text. AreStaleLines image.now settings.now text.items) }
    ensures fault { IfErr result (IsOpenWithSettingsFault image.now settings.now) }
    // No cause is passed over.
    ensures names { NamesEach Fault.Memory (IsOpenWithSettingsFault image.now settings.now) result }
{
    let opened = open_with_settings(alloc, heap, image, settings)?;
    stale_lines_on(alloc, &opened.store, &opened.schema)
}

/// Forgets each address that has a value in the image that a text spells and that no setting has,
/// and gives the text of the image that this leaves, and what there is to print: `tidied N`, N the
/// number of addresses forgotten. `settings` is the text of the settings. `heap` is for the tree of
/// that text alone: `toml` takes no other allocator.
///
/// Source: ours.
///
/// # Errors
///
/// The first that applies: the image is no device's, or not legal; the text of the settings is no
/// TOML, or no schema; the store is spent. `Memory` can come in place of any answer.
pub fn tidy_image<A: Allocator + Copy>(
    alloc: A,
    heap: Global,
    image: &[u8],
    settings: &[u8],
) -> Result<ImageAndText<A>, Fault>
    ensures tidied { IfOk result (λ given.
        IsTidiedImage image.now settings.now given.image.items given.text.items) }
    ensures fault { IfErr result (IsTidyImageFault image.now settings.now) }
    // No cause is passed over.
    ensures names { NamesEach Fault.Memory (IsTidyImageFault image.now settings.now) result }
{
    let opened = open_with_settings(alloc, heap, image, settings)?;
    tidy_left(alloc, opened.store, &opened.schema)
}

/// The lines of the stale entries of a store whose power stays on.
fn stale_lines_on<A: Allocator + Copy>(
    alloc: A,
    store: &Store<MemFlash<A>>,
    schema: &Schema<A>,
) -> Result<Vec<u8, A>, Fault>
    requires { StaysOn store.now }
    ensures lines { IfOk result (λ text. text.items
        ≡ stale_lines schema.now.settings (stale_in (state_of store.now).map schema.now.settings)) }
    ensures fault { IfErr result (λ fault. fault ≡ Fault.Memory) }
{
    let stale = stale_on(alloc, store, schema)?;
    let mut text = Vec::new(alloc);
    push_stale(&mut text, schema, stale.as_slice())?;
    Ok(text)
}

/// The stale entries of a store whose power stays on.
fn stale_on<A: Allocator + Copy>(
    alloc: A,
    store: &Store<MemFlash<A>>,
    schema: &Schema<A>,
) -> Result<Vec<Stale, A>, AllocError>
    requires { StaysOn store.now }
    ensures { IfOk result (λ stale. stale.items
        ≡ stale_in (state_of store.now).map schema.now.settings) }
{
    match schema.stale_values(alloc, store) {
        Ok(stale) => Ok(stale),
        Err(StaleFault::Memory) => Err(AllocError),
        Err(StaleFault::Off) => unreachable!("power stays on"),
    }
}

/// Tidies a store whose power stays on, and gives what this leaves.
fn tidy_left<A: Allocator + Copy>(
    alloc: A,
    mut store: Store<MemFlash<A>>,
    schema: &Schema<A>,
) -> Result<ImageAndText<A>, Fault>
    requires { StaysOn store }
    ensures tidied { IfOk result (λ given.
        LeavesTidied schema.now store given.image.items given.text.items) }
    ensures fault { IfErr result (λ fault.
        (IsSpentAmong store.size (unnamed_in schema.now (state_of store).map) (state_of store)
        × (fault ≡ Fault.Spent)) ⊎ (fault ≡ Fault.Memory)) }
{
    let count = tidy_on(&mut store, schema)?;
    let image = text_left(alloc, store)?;
    let text = tidied_line(alloc, count)?;
    Ok(ImageAndText { image, text })
}

/// Tidies a store whose power stays on.
fn tidy_on<A: Allocator>(store: &mut Store<MemFlash<A>>, schema: &Schema<A>) -> Result<u64, Fault>
    requires { StaysOn store.old }
    ensures tidied { IfOk result (λ count.
        IsTidied schema.now store.old count store.new) }
    ensures told { IfErr result (λ fault. fault ≡ Fault.Spent) }
    ensures spent { let old = store.old in IfErr result (λ _.
        IsSpentAmong old.size (unnamed_in schema.now (state_of old).map) (state_of old)) }
{
    match schema.tidy(store) {
        Ok(count) => Ok(count),
        Err(TidyFault::Spent) => Err(Fault::Spent),
        Err(TidyFault::Off) => unreachable!("power stays on"),
        Err(TidyFault::Cut) => unreachable!("power is never cut"),
    }
}

/// Writes the lines of stale entries. After an error there may be a part of them.
fn push_stale<A: Allocator>(
    out: &mut Vec<u8, A>,
    schema: &Schema<A>,
    stale: &[Stale],
) -> Result<(), AllocError>
    requires { All (λ (one : Stale). (1 ≤ one.entry) × (one.entry < 1 + length schema.now.settings)) stale.now }
    ensures { OnOk result (out.new.items ≡ out.old.items ++ stale_lines schema.now.settings stale.now) }
{
    for one in stale {
        push_line(out, schema, *one)?;
    }
    Ok(())
}

/// Writes the line of a stale entry. After an error there may be a part of it.
fn push_line<A: Allocator>(
    out: &mut Vec<u8, A>,
    schema: &Schema<A>,
    stale: Stale,
) -> Result<(), AllocError>
    requires some { 1 ≤ stale.entry }
    requires within { stale.entry < 1 + length schema.now.settings }
    ensures { OnOk result (out.new.items ≡ out.old.items ++ stale_line schema.now.settings stale) }
{
    let Some(name) = schema.name(stale.entry) else {
        unreachable!("a stale entry is an entry");
    };
    out.extend_from_slice(name.as_bytes())?;
    push_number_behind(out, b" ", stale.value as u64)?;
    out.extend_from_slice(b"\n")
}

/// The line that says how many addresses were forgotten.
fn tidied_line<A: Allocator + Copy>(alloc: A, count: u64) -> Result<Vec<u8, A>, AllocError>
    ensures { IfOk result (λ line. line.items ≡ tidied_text count) }
{
    let mut line = Vec::new(alloc);
    push_number_behind(&mut line, b"tidied ", count)?;
    line.extend_from_slice(b"\n")?;
    Ok(line)
}
