//! What the commands open: the store of an image, and the settings that a text spells.
ghost use Rattle.std.specs.Prelude.{◌≡◌, ◌⊎◌, IfOk, IfErr};
ghost use Rattle.toml.specs.View.{table_view};
ghost use Rattle.ee_image_store.specs.Opening.{HasStore, IsOpened};
ghost use Rattle.ee_shell.specs.ByName.Applying.{HasSettings};
ghost use Rattle.ee_shell.specs.ByName.Settings.{HasNoTree, HasTree, IsOpenWithSettingsFault, IsSettingsFault, SpellsSchema, SpellsSettings, fault_of_schema};
ghost use Rattle.ee_interface.specs.Causes.{NamesEach};

use ee_core::Store;
use ee_flash::MemFlash;
use ee_image_store::open_image;
use ee_interface::Fault;
use ee_settings::{Schema, SchemaFault};
use std::alloc::{Allocator, Global};
use toml::Table;

/// The store of an image, and the settings by whose names a command works on it.
#[derive(Drop)]
pub(crate) struct StoreAndSchema<A: Allocator + Copy> {
    /// The store of the image.
    pub(crate) store: Store<MemFlash<A>>,
    /// The settings.
    pub(crate) schema: Schema<A>,
}

/// The store of the image that a text spells, and the settings that another one spells. `heap` is
/// for the tree of that text alone: `toml` takes no other allocator.
///
/// Source: ours.
///
/// # Errors
///
/// The first that applies: the image is no device's, or not legal; the text of the settings is no
/// TOML, or no schema. `Memory` can come in place of any answer.
pub(crate) fn open_with_settings<A: Allocator + Copy>(
    alloc: A,
    heap: Global,
    image: &[u8],
    settings: &[u8],
) -> Result<StoreAndSchema<A>, Fault>
    ensures opened { IfOk result (λ opened. IsOpened image.now opened.store) }
    ensures spelled { IfOk result (λ opened.
        SpellsSettings settings.now opened.schema.settings) }
    ensures whole { IfOk result (λ opened. SpellsSchema settings.now opened.schema) }
    ensures fault { IfErr result (IsOpenWithSettingsFault image.now settings.now) }
    ensures names { NamesEach Fault.Memory (IsOpenWithSettingsFault image.now settings.now) result }
    ensures only { HasStore image.now → HasSettings settings.now
        → IfErr result (λ fault. fault ≡ Fault.Memory) }
{
    let store = open_image(alloc, image)?;
    let schema = read_schema(alloc, heap, settings)?;
    Ok(StoreAndSchema { store, schema })
}

/// The settings that a text spells. `heap` is for the tree of that text alone: `toml` takes
/// no other allocator.
///
/// Source: ours.
///
/// # Errors
///
/// The text is no TOML, or no schema. `Memory` can come in place of any answer.
pub(crate) fn read_schema<A: Allocator + Copy>(
    alloc: A,
    heap: Global,
    text: &[u8],
) -> Result<Schema<A>, Fault>
    ensures spelled { IfOk result (λ schema. SpellsSettings text.now schema.settings) }
    ensures whole { IfOk result (SpellsSchema text.now) }
    ensures fault { IfErr result (IsSettingsFault text.now) }
    ensures names { NamesEach Fault.Memory (IsSettingsFault text.now) result }
    ensures only { HasSettings text.now → IfErr result (λ fault. fault ≡ Fault.Memory) }
{
    let table = read_table(heap, text, Fault::SettingsText)?;
    match Schema::from_table(alloc, &table) {
        Ok(schema) => Ok(schema),
        Err(fault) => Err(fault_of(fault)),
    }
}

/// The tree of a text; `bad` is the fault of a text that is no TOML.
pub(crate) fn read_table(heap: Global, text: &[u8], bad: Fault) -> Result<Table, Fault>
    ensures read { IfOk result (λ table. HasTree text.now (table_view table)) }
    ensures fault { IfErr result (λ fault.
        ((fault ≡ bad) × HasNoTree text.now) ⊎ (fault ≡ Fault.Memory)) }
{
    match toml::table_from_slice(heap, text) {
        Ok(table) => Ok(table),
        Err(error) => {
            if error.is_memory() {
                return Err(Fault::Memory);
            }
            Err(bad)
        }
    }
}

/// The fault of a table that is no schema.
fn fault_of(fault: SchemaFault) -> Fault
    ensures { result ≡ fault_of_schema fault }
{
    match fault {
        SchemaFault::BadName(entry) => Fault::BadName(entry),
        SchemaFault::BadField(entry) => Fault::BadField(entry),
        SchemaFault::BadRange(entry) => Fault::BadRange(entry),
        SchemaFault::SameAddress(entry) => Fault::SameAddress(entry),
        SchemaFault::Memory => Fault::Memory,
    }
}
