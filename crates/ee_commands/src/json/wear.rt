//! The document of `wear`.
ghost use Rattle.std.specs.Prelude.{◌≡◌, ◌++◌, ◌∷◌, IfErr, IfOk, OnOk};
ghost use Rattle.std.specs.Option.{option_map};
ghost use Rattle.ee_commands.specs.Documents.{IsWearDocument};
ghost use Rattle.ee_commands.specs.Json.{count_items, count_object, item, sums_text, wear_document};
ghost use Rattle.ee_commands.specs.Wear.{IsWearFault};
ghost use Rattle.ee_interface.specs.Causes.{NamesEach};

use super::writing::push_array;
use crate::wear::ledger_told;
use ee_interface::Fault;
use ee_text::push_number_behind;
use ee_wear::Ledger;
use std::alloc::{AllocError, Allocator};

/// How often each page of the image that a text spells was erased, as a document:
/// `{"pages":[..],"total":T,"least":A,"greatest":B}`, with `{"page":I,"wear":N}` for each page by
/// rising page. Where there is a text of the image before, the wear that came since. The images may
/// be such that no store can work on.
///
/// Source: ours.
///
/// # Errors
///
/// As of `wear_text`.
pub fn wear_json<A: Allocator + Copy>(
    alloc: A,
    image: &[u8],
    before: Option<&[u8]>,
) -> Result<Vec<u8, A>, Fault>
    ensures wear { IfOk result (λ text.
        IsWearDocument image.now (option_map (λ before. before.now) before.entry) text.items) }
    ensures fault { IfErr result
        (IsWearFault image.now (option_map (λ before. before.now) before.entry)) }
    // No cause is passed over.
    ensures names { NamesEach Fault.Memory
        (IsWearFault image.now (option_map (λ before. before.now) before.entry)) result }
{
    let ledger = ledger_told(alloc, image, before)?;
    Ok(document_of(alloc, &ledger)?)
}

/// The document of a ledger.
fn document_of<A: Allocator + Copy>(alloc: A, ledger: &Ledger<A>) -> Result<Vec<u8, A>, AllocError>
    ensures { IfOk result (λ text. text.items ≡ wear_document ledger.now) }
{
    let mut pages = Vec::new(alloc);
    push_counts(ledger, &mut pages)?;
    let mut text = Vec::new(alloc);
    text.extend_from_slice(b"{\"pages\":")?;
    push_array(&mut text, &pages)?;
    push_sums(alloc, ledger, &mut text)?;
    Ok(text)
}

/// Writes the objects of the pages, each behind a comma. After an error there may be a part of
/// them.
fn push_counts<A: Allocator>(ledger: &Ledger<A>, out: &mut Vec<u8, A>) -> Result<(), AllocError>
    ensures { OnOk result
        (out.new.items ≡ out.old.items ++ count_items 0 ledger.now) }
{
    'pages: for page in 0..ledger.pages() {
        push_count(out, page, ledger.wear(page))?;
    }
    Ok(())
}

/// Writes the object of a page behind a comma. After an error there may be a part of it.
fn push_count<A: Allocator>(out: &mut Vec<u8, A>, page: usize, count: u64) -> Result<(), AllocError>
    ensures { OnOk result (out.new.items ≡ out.old.items ++ item (count_object page count)) }
{
    push_number_behind(out, b",{\"page\":", page as u64)?;
    push_number_behind(out, b",\"wear\":", count)?;
    out.extend_from_slice(b"}")
}

/// Writes what stands behind the pages: all together, the least and the greatest. After an error
/// there may be a part of it.
fn push_sums<A: Allocator + Copy>(
    alloc: A,
    ledger: &Ledger<A>,
    out: &mut Vec<u8, A>,
) -> Result<(), AllocError>
    ensures { OnOk result (out.new.items ≡ out.old.items ++ sums_text ledger.now) }
{
    let sum = ledger.total();
    let fewest = ledger.least();
    let most = ledger.greatest();
    let sums = format!(in alloc; ",\"total\":{sum},\"least\":{fewest},\"greatest\":{most}")?;
    out.extend_from_slice(sums.as_bytes())?;
    out.extend_from_slice(b"}\n")
}
