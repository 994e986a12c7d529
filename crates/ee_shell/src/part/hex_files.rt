//! Images from Intel HEX, and Intel HEX from images.
ghost use Rattle.std.specs.Prelude.{◌≡◌, ◌↔◌, ◌+◌, ◌^◌, ◌≤◌, IfErr, IfOk, IsTrue, length};
ghost use Rattle.ee_shell.specs.Part.Hex.{PartFits, IsHexExportFault, IsHexExported, IsHexImportFault, IsHexImported, dump_text, fault_of_hex};
ghost use Rattle.ee_interface.specs.Causes.{NamesEach};

use crate::dumps::{Form, HexFault, read_hex, write_hex, write_sparse_hex};
use crate::part::dump::{dump_of, import_image};
use crate::part::image::read_part;
use ee_flash::{Flash, Shape};
use ee_interface::{Fault, File};
use std::alloc::{AllocError, Allocator};

/// The text of the image of a part of this shape, whose first word stands at the address `base`,
/// from what an Intel HEX text says of it: what `import_image` gives of its bytes, with an erased
/// byte where the text says none.
///
/// Source: ours.
///
/// # Errors
///
/// The first that applies: `Base`, where `base + 16 × pages × words`, or with twice as many of
/// pairs, is past `2^32`; `BadLine` of the dump, the first line of the text that is bad; all
/// others as in `import_image`. `Memory` can come in place of any answer but `Base`.
pub fn import_hex<A: Allocator + Copy>(
    alloc: A,
    shape: Shape,
    form: Form,
    base: u32,
    hex: &[u8],
) -> Result<Vec<u8, A>, Fault>
    ensures imported { IfOk result (λ image. IsHexImported form shape base hex.now image.items) }
    ensures fault { IfErr result (IsHexImportFault form shape base hex.now) }
    // No cause is passed over.
    ensures names { NamesEach Fault.Memory (IsHexImportFault form shape base hex.now) result }
{
    if !fits(base, form, shape) {
        return Err(Fault::Base);
    }
    let dump = match read_hex(alloc, hex, base, form.dump_length(shape)) {
        Ok(dump) => dump,
        Err(fault) => return Err(hex_fault(fault)),
    };
    import_image(alloc, shape, form, &dump)
}

/// The Intel HEX text of the part that an image's text spells, with its first word at
/// the address `base`: with `fill` of all words, else of those that aren't erased.
///
/// Source: ours.
///
/// # Errors
///
/// The first that applies: the image is no device's; `Base`, where `base + 16 × pages × words`, or
/// with twice as many of pairs, is past `2^32`; `TornWord` or `Uncoded`, as in `export_image`.
/// `Memory` can come in place of any answer.
pub fn export_hex<A: Allocator + Copy>(
    alloc: A,
    fill: bool,
    form: Form,
    image: &[u8],
    base: u32,
) -> Result<Vec<u8, A>, Fault>
    ensures exported { IfOk result (λ hex. IsHexExported fill form image.now base hex.items) }
    ensures fault { IfErr result (IsHexExportFault form image.now base) }
    // No cause is passed over.
    ensures names { NamesEach Fault.Memory (IsHexExportFault form image.now base) result }
{
    let flash = read_part(alloc, image)?;
    if !fits(base, form, flash.shape()) {
        return Err(Fault::Base);
    }
    let dump = dump_of(alloc, form, &flash)?;
    Ok(text_of_dump(alloc, fill, form, base, &dump)?)
}

/// The text of a dump from an address on, with its erased words or without.
fn text_of_dump<A: Allocator + Copy>(
    alloc: A,
    fill: bool,
    form: Form,
    base: u32,
    dump: &[u8],
) -> Result<Vec<u8, A>, AllocError>
    requires { base + length dump.now ≤ 2 ^ 32 }
    ensures { IfOk result (λ text. text.items ≡ dump_text fill form base dump.now) }
{
    if fill {
        write_hex(alloc, base, dump)
    } else {
        write_sparse_hex(alloc, base, form.word_length(), dump)
    }
}

/// Whether each byte of a part of this shape has an address of 32 bits, where its
/// first has this one.
fn fits(base: u32, form: Form, shape: Shape) -> bool
    ensures { IsTrue result ↔ PartFits form base shape }
{
    u64::from(base) + form.dump_length(shape) as u64 <= 1 << 32
}

/// The fault of a text that says no bytes.
fn hex_fault(fault: HexFault) -> Fault
    ensures { result ≡ fault_of_hex fault }
{
    match fault {
        HexFault::BadLine(line) => Fault::BadLine {
            file: File::Dump,
            line,
        },
        HexFault::Memory => Fault::Memory,
    }
}
