//! The command that prints the settings as constants of a program.
ghost use Rattle.std.specs.Prelude.{◌≡◌, IfOk, IfErr, string_bytes};
ghost use Rattle.ee_shell.specs.ByName.Settings.{IsSettingsFault};
ghost use Rattle.ee_shell.specs.ByName.Header.{IsHeader, header};
ghost use Rattle.ee_interface.specs.Causes.{NamesEach};

use crate::by_name::constants::{push_c_header, push_rust_header};
use crate::by_name::language::Language;
use crate::by_name::opening::read_schema;
use ee_interface::Fault;
use ee_settings::{RecordSetting, Setting};
use std::alloc::{AllocError, Allocator, Global};

/// The settings and records that a text spells as constants of a program, as there is to print: for
/// each setting its address, its least and its greatest value and its default, by rising name, then
/// for each record its address and its room in words and in bytes, and then a list of all settings.
/// `heap` is for the tree of that text alone: `toml` takes no other allocator.
///
/// Source: ours.
///
/// # Errors
///
/// The text of the settings is no TOML, or no schema. `Memory` can come in place of any answer.
pub fn header_text<A: Allocator + Copy>(
    alloc: A,
    heap: Global,
    settings: &[u8],
    language: Language,
) -> Result<Vec<u8, A>, Fault>
    ensures header { IfOk result (λ text. IsHeader settings.now language text.items) }
    ensures fault { IfErr result (IsSettingsFault settings.now) }
    // No cause is passed over.
    ensures names { NamesEach Fault.Memory (IsSettingsFault settings.now) result }
{
    let schema = read_schema(alloc, heap, settings)?;
    let text = header_of(alloc, schema.as_slice(), schema.records(), language)?;
    Ok(text.into_bytes())
}

/// The header of these settings and records.
fn header_of<A: Allocator + Copy>(
    alloc: A,
    settings: &[Setting<A>],
    records: &[RecordSetting<A>],
    language: Language,
) -> Result<String<A>, AllocError>
    ensures { IfOk result (λ text. string_bytes text ≡ header language settings.now records.now) }
{
    let mut out = String::new(alloc);
    match language {
        Language::C => push_c_header(alloc, &mut out, settings, records)?,
        Language::Rust => push_rust_header(alloc, &mut out, settings, records)?,
    }
    Ok(out)
}
