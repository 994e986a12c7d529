//! The settings and records as constants of a program, in C or in Rust.
ghost use Rattle.std.specs.Prelude.{◌≡◌, ◌++◌, OnOk, string_bytes};
ghost use Rattle.std.specs.List.{flat_map};
ghost use Rattle.ee_shell.specs.ByName.Header.{c_header, constant_in, constants_in, record_constants_in, row_in, rust_header, rust_list};

use crate::by_name::language::Language;
use ee_settings::{Numbers, RecordRoom, RecordSetting, Setting};
use std::alloc::{AllocError, Allocator};

/// Writes the header of these settings and records in C. After an error there may be a part of it.
pub(crate) fn push_c_header<A: Allocator + Copy>(
    alloc: A,
    out: &mut String<A>,
    settings: &[Setting<A>],
    records: &[RecordSetting<A>],
) -> Result<(), AllocError>
    ensures { OnOk result (string_bytes out.new
        ≡ string_bytes out.old ++ c_header settings.now records.now) }
{
    out.push_str(
        "/* Made by `ee header` from a file of settings. */\n\
         #ifndef EE_SETTINGS_H\n\
         #define EE_SETTINGS_H\n",
    )?;
    push_each_constant(alloc, out, settings, records, Language::C)?;
    out.push_str("\n#define EE_SETTINGS(SETTING)")?;
    push_rows(alloc, out, settings, Language::C)?;
    out.push_str("\n\n#endif\n")
}

/// Writes the header of these settings and records in Rust. After an error there may be a part of
/// it.
pub(crate) fn push_rust_header<A: Allocator + Copy>(
    alloc: A,
    out: &mut String<A>,
    settings: &[Setting<A>],
    records: &[RecordSetting<A>],
) -> Result<(), AllocError>
    ensures { OnOk result (string_bytes out.new
        ≡ string_bytes out.old ++ rust_header settings.now records.now) }
{
    out.push_str("// Made by `ee header --rust` from a file of settings.\n")?;
    push_each_constant(alloc, out, settings, records, Language::Rust)?;
    push_rust_list_head(out, settings.len() as u64)?;
    push_rows(alloc, out, settings, Language::Rust)?;
    out.push_str("];\n")
}

/// Writes the constants of each setting and of each record. After an error there may be a part of
/// them.
fn push_each_constant<A: Allocator + Copy>(
    alloc: A,
    out: &mut String<A>,
    settings: &[Setting<A>],
    records: &[RecordSetting<A>],
    language: Language,
) -> Result<(), AllocError>
    ensures { OnOk result (string_bytes out.new ≡ string_bytes out.old
        ++ (flat_map (constants_in language) settings.now
        ++ flat_map (record_constants_in language) records.now)) }
{
    push_settings(alloc, out, settings, language)?;
    push_records(alloc, out, records, language)
}

/// Writes the constants of each setting. After an error there may be a part of them.
fn push_settings<A: Allocator + Copy>(
    alloc: A,
    out: &mut String<A>,
    settings: &[Setting<A>],
    language: Language,
) -> Result<(), AllocError>
    ensures { OnOk result (string_bytes out.new
        ≡ string_bytes out.old ++ flat_map (constants_in language) settings.now) }
{
    for setting in settings {
        push_constants(alloc, out, setting, language)?;
    }
    Ok(())
}

/// Writes the constants of a setting. After an error there may be a part of them.
fn push_constants<A: Allocator + Copy>(
    alloc: A,
    out: &mut String<A>,
    setting: &Setting<A>,
    language: Language,
) -> Result<(), AllocError>
    ensures { OnOk result
        (string_bytes out.new ≡ string_bytes out.old ++ constants_in language setting.now) }
{
    let capitals = setting.name().to_ascii_uppercase(alloc)?;
    let name = capitals.as_str();
    let numbers = setting.numbers();
    let address = u32::from(numbers.address.get());
    out.push_str("\n")?;
    push_constant(out, name, "ADDRESS", "u16", address, language)?;
    push_constant(out, name, "MIN", "u32", numbers.min, language)?;
    push_constant(out, name, "MAX", "u32", numbers.max, language)?;
    push_constant(out, name, "DEFAULT", "u32", numbers.default, language)
}

/// Writes the constants of each record. After an error there may be a part of them.
fn push_records<A: Allocator + Copy>(
    alloc: A,
    out: &mut String<A>,
    records: &[RecordSetting<A>],
    language: Language,
) -> Result<(), AllocError>
    ensures { OnOk result (string_bytes out.new
        ≡ string_bytes out.old ++ flat_map (record_constants_in language) records.now) }
{
    for one in records {
        push_record_constants(alloc, out, one, language)?;
    }
    Ok(())
}

/// Writes the constants of a record. After an error there may be a part of them.
fn push_record_constants<A: Allocator + Copy>(
    alloc: A,
    out: &mut String<A>,
    one: &RecordSetting<A>,
    language: Language,
) -> Result<(), AllocError>
    ensures { OnOk result
        (string_bytes out.new ≡ string_bytes out.old ++ record_constants_in language one.now) }
{
    let capitals = one.name().to_ascii_uppercase(alloc)?;
    let name = capitals.as_str();
    let RecordRoom { base, size, .. } = one.room();
    let address = u32::from(base.get());
    out.push_str("\n")?;
    push_constant(out, name, "ADDRESS", "u16", address, language)?;
    push_constant(out, name, "WORDS", "u16", (size + 3) / 4, language)?;
    push_constant(out, name, "BYTES", "usize", size, language)
}

/// Writes a constant; `rust_type` is its type in Rust. After an error there may be a part of it.
fn push_constant<A: Allocator>(
    out: &mut String<A>,
    name: &str,
    kind: &str,
    rust_type: &str,
    number: u32,
    language: Language,
) -> Result<(), AllocError>
    ensures { OnOk result (string_bytes out.new
        ≡ string_bytes out.old ++ constant_in language name.now kind.now rust_type.now number) }
{
    match language {
        Language::C => writeln!(out, "#define EE_{name}_{kind} {number}u"),
        Language::Rust => writeln!(out, "pub const {name}_{kind}: {rust_type} = {number};"),
    }
}

/// Writes how a list of so many rows begins in Rust. After an error there may be a part of it.
fn push_rust_list_head<A: Allocator>(out: &mut String<A>, count: u64) -> Result<(), AllocError>
    ensures { OnOk result (string_bytes out.new ≡ string_bytes out.old ++ rust_list count) }
{
    out.push_str("\n// Name, address, min, max, default.\n")?;
    writeln!(
        out,
        "pub const SETTINGS: [(&str, u16, u32, u32, u32); {count}] = ["
    )
}

/// Writes the rows of the list. After an error there may be a part of them.
fn push_rows<A: Allocator + Copy>(
    alloc: A,
    out: &mut String<A>,
    settings: &[Setting<A>],
    language: Language,
) -> Result<(), AllocError>
    ensures { OnOk result
        (string_bytes out.new ≡ string_bytes out.old ++ flat_map (row_in language) settings.now) }
{
    for setting in settings {
        push_row(alloc, out, setting, language)?;
    }
    Ok(())
}

/// Writes a row of the list. After an error there may be a part of it.
fn push_row<A: Allocator + Copy>(
    alloc: A,
    out: &mut String<A>,
    setting: &Setting<A>,
    language: Language,
) -> Result<(), AllocError>
    ensures { OnOk result
        (string_bytes out.new ≡ string_bytes out.old ++ row_in language setting.now) }
{
    let capitals = setting.name().to_ascii_uppercase(alloc)?;
    let name = capitals.as_str();
    let Numbers {
        address,
        min,
        max,
        default,
    } = setting.numbers();
    let address = address.get();
    match language {
        Language::C => {
            write!(
                out,
                " \\\n    SETTING({name}, {address}u, {min}u, {max}u, {default}u)"
            )
        }
        Language::Rust => { writeln!(out, "    (\"{name}\", {address}, {min}, {max}, {default}),") }
    }
}
