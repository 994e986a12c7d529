//! The document of `--json inspect`.
ghost use Rattle.std.specs.Prelude.{◌≡◌, ◌++◌, Ok, Err, IfOk, IfErr, OnOk};
ghost use Rattle.ee_pages.specs.Layout.{IsLayout};
ghost use Rattle.ee_image_store.specs.FileFaults.{IsReadingFault};
ghost use Rattle.ee_shell.specs.Part.Document.{AreFindingsIn, IsInspectedDocument, found_document, live_document, parts_members, slots_members};
ghost use Rattle.ee_interface.specs.Causes.{NamesEach};

use super::inspecting::{
    Telling, Usage, last_spoken, push_doubts, push_scan_words, push_torn, usage_of,
};
use crate::part::image::read_part;
use ee_commands::push_array;
use ee_flash::Flash;
use ee_interface::Fault;
use ee_pages::{Layout, ScanFault, scan};
use ee_text::push_number_behind;
use std::alloc::{AllocError, Allocator};

/// What the image that a text spells shows, as a document: the same as `inspect_text`, with the
/// torn words in the array `torn_words`, and the addresses in doubt in `in_doubt`.
///
/// Source: ours.
///
/// # Errors
///
/// The image is no device's; `Memory` can come in place of any answer.
pub fn inspect_json<A: Allocator + Copy>(alloc: A, image: &[u8]) -> Result<Vec<u8, A>, Fault>
    ensures inspected { IfOk result (λ text. IsInspectedDocument image.now text.items) }
    ensures fault { IfErr result (IsReadingFault image.now) }
    // No cause is passed over.
    ensures names { NamesEach Fault.Memory (IsReadingFault image.now) result }
{
    let flash = read_part(alloc, image)?;
    Ok(document_of(alloc, &flash)?)
}

/// The document of a device.
fn document_of<A: Allocator + Copy, F: Flash>(alloc: A, flash: &F) -> Result<Vec<u8, A>, AllocError>
    ensures { IfOk result (λ text. AreFindingsIn (F.device flash.now) text.items) }
{
    match scan(flash) {
        Ok(layout) => document_of_live(alloc, flash, &layout),
        Err(fault) => document_of_fault(alloc, flash, fault),
    }
}

/// The document of a device with a live set.
fn document_of_live<A: Allocator + Copy, F: Flash>(
    alloc: A,
    flash: &F,
    layout: &Layout,
) -> Result<Vec<u8, A>, AllocError>
    requires { IsLayout (F.device flash.now) layout.now }
    ensures { IfOk result (λ text. text.items ≡ found_document (F.device flash.now) (Ok layout.now)) }
{
    let spoken = last_spoken(alloc, flash, layout)?;
    let mut torn = Vec::new(alloc);
    push_torn(flash, Some(layout.side), Telling::Items, &mut torn)?;
    let mut doubts = Vec::new(alloc);
    push_doubts(
        flash,
        layout,
        spoken.as_slice(),
        Telling::Items,
        &mut doubts,
    )?;
    let usage = usage_of(flash, layout, spoken.as_slice());
    document_by(alloc, usage, &torn, &doubts)
}

/// The document of a live set that is used so, with these items in its arrays.
fn document_by<A: Allocator + Copy>(
    alloc: A,
    usage: Usage,
    torn: &[u8],
    doubts: &[u8],
) -> Result<Vec<u8, A>, AllocError>
    ensures { IfOk result (λ text. text.items ≡ live_document usage torn.now doubts.now) }
{
    let mut text = Vec::new(alloc);
    text.extend_from_slice(b"{\"scan\":\"ok\"")?;
    push_slots(usage, &mut text)?;
    push_parts(usage, &mut text)?;
    text.extend_from_slice(b",\"torn_words\":")?;
    push_array(&mut text, torn)?;
    text.extend_from_slice(b",\"in_doubt\":")?;
    push_array(&mut text, doubts)?;
    text.extend_from_slice(b"}\n")?;
    Ok(text)
}

/// Writes which set it is, and its slots. After an error there may be a part of it.
fn push_slots<A: Allocator>(usage: Usage, out: &mut Vec<u8, A>) -> Result<(), AllocError>
    ensures { OnOk result (out.new.items ≡ out.old.items ++ slots_members usage) }
{
    push_number_behind(out, b",\"set\":", usage.set)?;
    push_number_behind(out, b",\"generation\":", usage.generation as u64)?;
    push_number_behind(out, b",\"fill\":", usage.fill as u64)?;
    push_number_behind(out, b",\"room\":", usage.room as u64)
}

/// Writes what its slots are used for. After an error there may be a part of it.
fn push_parts<A: Allocator>(usage: Usage, out: &mut Vec<u8, A>) -> Result<(), AllocError>
    ensures { OnOk result (out.new.items ≡ out.old.items ++ parts_members usage) }
{
    push_number_behind(out, b",\"live\":", usage.live as u64)?;
    push_number_behind(out, b",\"pending\":", usage.pending as u64)?;
    push_number_behind(out, b",\"superseded\":", usage.superseded as u64)?;
    push_number_behind(out, b",\"torn\":", usage.torn as u64)
}

/// The document of a device without a live set.
fn document_of_fault<A: Allocator + Copy, F: Flash>(
    alloc: A,
    flash: &F,
    fault: ScanFault,
) -> Result<Vec<u8, A>, AllocError>
    ensures { IfOk result (λ text. text.items ≡ found_document (F.device flash.now) (Err fault)) }
{
    let mut torn = Vec::new(alloc);
    push_torn(flash, None, Telling::Items, &mut torn)?;
    let mut text = Vec::new(alloc);
    text.extend_from_slice(b"{\"scan\":\"")?;
    push_scan_words(fault, &mut text)?;
    text.extend_from_slice(b"\",\"torn_words\":")?;
    push_array(&mut text, &torn)?;
    text.extend_from_slice(b"}\n")?;
    Ok(text)
}
