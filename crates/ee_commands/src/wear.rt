//! How often each page of an image was erased.
ghost use Rattle.std.specs.Prelude.{◌≡◌, ◌++◌, Some, IfOk, IfErr, OnOk};
ghost use Rattle.std.specs.Option.{option_map};
ghost use Rattle.ee_text.specs.Line.{line_of};
ghost use Rattle.ee_image_store.specs.FileFaults.{IsFileFault};
ghost use Rattle.ee_commands.specs.Wear.{AreWearCounts, AreWearCountsOf, IsWear, IsWearFault, count_lines, count_text, ledger_text, total_text};
ghost use Rattle.ee_interface.specs.Causes.{NamesEach};

use ee_image::read_image;
use ee_interface::{Fault, File};
use ee_text::push_number;
use ee_wear::Ledger;
use std::alloc::{AllocError, Allocator};

/// How often each page of the image that a text spells was erased, a line for each page by rising
/// page: `page I wear N`; and then `total T least A greatest B`. Where there is a text of the image
/// before, the wear that came since. The images may be such that no store can work on.
///
/// Source: ours.
///
/// # Errors
///
/// The first that applies: the image is no device's; the one before is none; `OtherShape`, the two
/// have not as many pages; `Backwards`, the lowest page that has less wear than before. `Memory`
/// can come in place of any answer.
pub fn wear_text<A: Allocator + Copy>(
    alloc: A,
    image: &[u8],
    before: Option<&[u8]>,
) -> Result<Vec<u8, A>, Fault>
    ensures wear { IfOk result (λ text.
        IsWear image.now (option_map (λ before. before.now) before.entry) text.items) }
    ensures fault { IfErr result
        (IsWearFault image.now (option_map (λ before. before.now) before.entry)) }
    // No cause is passed over.
    ensures names { NamesEach Fault.Memory
        (IsWearFault image.now (option_map (λ before. before.now) before.entry)) result }
{
    let ledger = ledger_told(alloc, image, before)?;
    Ok(text_of_ledger(alloc, &ledger)?)
}

/// The counts that are told of the image that a text spells: its wear, or the wear that came since
/// the one before.
pub(crate) fn ledger_told<A: Allocator + Copy>(
    alloc: A,
    image: &[u8],
    before: Option<&[u8]>,
) -> Result<Ledger<A>, Fault>
    ensures counts { IfOk result
        (AreWearCounts image.now (option_map (λ before. before.now) before.entry)) }
    ensures fault { IfErr result
        (IsWearFault image.now (option_map (λ before. before.now) before.entry)) }
    ensures memory { IfOk result (λ _. IsWearFault image.now
        (option_map (λ before. before.now) before.entry) Fault.Memory) }
    // No cause is passed over.
    ensures names { NamesEach Fault.Memory
        (IsWearFault image.now (option_map (λ before. before.now) before.entry)) result }
{
    match before {
        None => read_ledger(alloc, File::Image, image),
        Some(before) => wear_since(alloc, image, before),
    }
}

/// The wear that came between the image before and this one.
fn wear_since<A: Allocator + Copy>(
    alloc: A,
    image: &[u8],
    before: &[u8],
) -> Result<Ledger<A>, Fault>
    ensures counts { IfOk result (AreWearCounts image.now (Some before.now)) }
    ensures fault { IfErr result (IsWearFault image.now (Some before.now)) }
{
    let ledger = read_ledger(alloc, File::Image, image)?;
    let old = read_ledger(alloc, File::Before, before)?;
    let since = ledger.since(alloc, &old)?;
    Ok(since)
}

/// The ledger of the image that the text of a file spells.
fn read_ledger<A: Allocator + Copy>(alloc: A, file: File, image: &[u8]) -> Result<Ledger<A>, Fault>
    ensures counts { IfOk result (AreWearCountsOf image.now) }
    ensures fault { IfErr result (IsFileFault file image.now) }
{
    let flash = match read_image(alloc, image) {
        Ok(flash) => flash,
        Err(fault) => return Err(Fault::image(file, fault)),
    };
    Ok(Ledger::of(alloc, &flash)?)
}

/// A ledger's counts as text.
fn text_of_ledger<A: Allocator + Copy>(
    alloc: A,
    ledger: &Ledger<A>,
) -> Result<Vec<u8, A>, AllocError>
    ensures { IfOk result (λ text. text.items ≡ ledger_text ledger.now) }
{
    let mut text = Vec::new(alloc);
    push_counts(ledger, &mut text)?;
    push_total(alloc, ledger, &mut text)?;
    Ok(text)
}

/// Writes the lines of the pages. After an error there may be a part of them.
fn push_counts<A: Allocator>(ledger: &Ledger<A>, out: &mut Vec<u8, A>) -> Result<(), AllocError>
    ensures { OnOk result (out.new.items ≡ out.old.items ++ count_lines 0 ledger.now) }
{
    'pages: for page in 0..ledger.pages() {
        push_count(out, page, ledger.wear(page))?;
    }
    Ok(())
}

/// Writes the line of a page. After an error there may be a part of it.
fn push_count<A: Allocator>(out: &mut Vec<u8, A>, page: usize, count: u64) -> Result<(), AllocError>
    ensures { OnOk result (out.new.items ≡ out.old.items ++ line_of (count_text page count)) }
{
    out.extend_from_slice(b"page ")?;
    push_number(out, page as u64)?;
    out.extend_from_slice(b" wear ")?;
    push_number(out, count)?;
    out.extend_from_slice(b"\n")
}

/// Writes the last line, of all pages together.
fn push_total<A: Allocator + Copy>(
    alloc: A,
    ledger: &Ledger<A>,
    out: &mut Vec<u8, A>,
) -> Result<(), AllocError>
    ensures { OnOk result (out.new.items ≡ out.old.items ++ line_of (total_text ledger.now)) }
{
    let total = ledger.total();
    let least = ledger.least();
    let greatest = ledger.greatest();
    let line = format!(in alloc; "total {total} least {least} greatest {greatest}\n")?;
    out.extend_from_slice(line.as_bytes())
}
