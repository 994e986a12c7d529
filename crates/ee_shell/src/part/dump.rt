//! Images from dumps, and dumps from images.
ghost use Rattle.std.specs.Prelude.{◌≡◌, IfErr, IfOk};
ghost use Rattle.ee_flash.specs.Memory.{device_of};
ghost use Rattle.ee_shell.specs.Dumps.Dump.{IsDump};
ghost use Rattle.ee_shell.specs.Part.Faults.{IsDeviceFault, IsExportFault, IsImportFault, fault_of_dump, fault_of_marking, fault_of_write};
ghost use Rattle.ee_shell.specs.Part.Moving.{IsExported, IsImported};
ghost use Rattle.ee_interface.specs.Causes.{NamesEach};

use crate::dumps::{
    DumpFault, Form, Marking, WriteFault, first_misplaced, other_kind, read_dump, write_dump,
};
use crate::part::image::read_part;
use ee_flash::{MemFlash, Shape};
use ee_image_store::text_of;
use ee_interface::Fault;
use std::alloc::Allocator;

/// The text of the image of a part of this shape whose words a dump has: those of both sets, page
/// after page, each in eight bytes with the least first, and an erased word as eight bytes of
/// 255; or, of pairs, with those of its complement behind; or, of coded words, its coded word. What
/// is none of these is a torn word. No page of it has wear.
///
/// Source: ours.
///
/// # Errors
///
/// The first that applies: `DumpLength`, where the dump has not `16 × pages × words` bytes, or
/// twice as many for pairs; `DumpOfWords`, `DumpOfPairs` or `DumpOfCoded`, where the mark of a set
/// tells another form than this or, of coded words, another shape; `LowPair`, the first two numbers
/// that sum to less than `u64::MAX`; `Misplaced`, the first word that tells another shape. `Memory`
/// can come in place of the last two and of an image.
pub fn import_image<A: Allocator + Copy>(
    alloc: A,
    shape: Shape,
    form: Form,
    dump: &[u8],
) -> Result<Vec<u8, A>, Fault>
    ensures imported { IfOk result (λ image. IsImported form shape dump.now image.items) }
    ensures fault { IfErr result (IsImportFault form shape dump.now) }
    // No cause is passed over.
    ensures names { NamesEach Fault.Memory (IsImportFault form shape dump.now) result }
{
    if dump.len() != form.dump_length(shape) {
        return Err(Fault::DumpLength);
    }
    if let Some(marking) = other_kind(form, shape, dump) {
        return Err(kind_fault(marking));
    }
    let flash = match read_dump(alloc, shape, form, dump) {
        Ok(flash) => flash,
        Err(fault) => return Err(import_fault(fault)),
    };
    if let Some((page, at)) = first_misplaced(&flash) {
        return Err(Fault::Misplaced { page, at });
    }
    Ok(text_of(alloc, &flash)?)
}

/// The dump of the part that an image's text spells, in the form that `import_image` reads.
///
/// Source: ours.
///
/// # Errors
///
/// The first that applies: the image is no device's; `TornWord`, its first torn word, which no
/// bytes stand for; `Uncoded`, for coded words the first number that has none. `Memory` can come in
/// place of any answer.
pub fn export_image<A: Allocator + Copy>(
    alloc: A,
    form: Form,
    image: &[u8],
) -> Result<Vec<u8, A>, Fault>
    ensures exported { IfOk result (λ dump. IsExported form image.now dump.items) }
    ensures fault { IfErr result (IsExportFault form image.now) }
    // No cause is passed over.
    ensures names { NamesEach Fault.Memory (IsExportFault form image.now) result }
{
    let flash = read_part(alloc, image)?;
    dump_of(alloc, form, &flash)
}

/// The dump of a device.
pub(crate) fn dump_of<A: Allocator + Copy>(
    alloc: A,
    form: Form,
    flash: &MemFlash<A>,
) -> Result<Vec<u8, A>, Fault>
    ensures written { IfOk result (λ dump. IsDump form (device_of flash.now) dump.items) }
    ensures fault { IfErr result (IsDeviceFault form (device_of flash.now)) }
{
    match write_dump(alloc, form, flash) {
        Ok(dump) => Ok(dump),
        Err(fault) => Err(export_fault(fault)),
    }
}

/// The fault of a dump of another kind.
fn kind_fault(marking: Marking) -> Fault
    ensures { result ≡ fault_of_marking marking }
{
    match marking {
        Marking::Words => Fault::DumpOfWords,
        Marking::Pairs => Fault::DumpOfPairs,
        Marking::Coded { pages, words } => Fault::DumpOfCoded { pages, words },
    }
}

/// The fault of bytes that are no dump.
fn import_fault(fault: DumpFault) -> Fault
    ensures { result ≡ fault_of_dump fault }
{
    match fault {
        DumpFault::Length => Fault::DumpLength,
        DumpFault::LowPair { page, at } => Fault::LowPair { page, at },
        DumpFault::Memory => Fault::Memory,
    }
}

/// The fault of a device without a dump.
fn export_fault(fault: WriteFault) -> Fault
    ensures { result ≡ fault_of_write fault }
{
    match fault {
        WriteFault::TornWord { page, at } => Fault::TornWord { page, at },
        WriteFault::Uncoded { page, at } => Fault::Uncoded { page, at },
        WriteFault::Memory => Fault::Memory,
    }
}
