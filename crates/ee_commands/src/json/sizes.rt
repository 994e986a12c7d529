//! The document of `size`.
ghost use Rattle.std.specs.Prelude.{◌≡◌, ◌≤◌, ◌++◌, ◌∷◌, IfErr, IfOk, OnOk, length};
ghost use Rattle.ee_flash.specs.Size.{size_of, slot_count};
ghost use Rattle.ee_commands.specs.Documents.{IsSizesDocument};
ghost use Rattle.ee_commands.specs.Json.{fitting_object, item, not_fitting_object, number_or_null, size_items, size_numbers, size_object, sizes_document};
ghost use Rattle.ee_commands.specs.Sizing.{IsSizingFault, erases_for, fewest_enough, least_for};
ghost use Rattle.ee_interface.specs.Causes.{NamesEach};

use super::writing::push_array;
use crate::sizing::{
    Needs, erases_of, fewest_of, is_some_enough, least_of, limit_of, needs_of, push_verdict,
    slots_of,
};
use ee_interface::Fault;
use ee_plan::Demand;
use ee_text::{push_number, push_number_behind};
use std::alloc::{AllocError, Allocator, Global};

/// What is told of the sizes of a part, as a document.
///
/// Source: ours.
#[derive(Debug, Drop)]
pub struct SizesDocument<A: Allocator = Global> {
    /// The document.
    pub text: Vec<u8, A>,
    /// Whether one of them is enough.
    pub some_enough: bool,
}

/// How large a part must be for a script that is made `runs` times, as a document:
/// `{"sizes":[..],"fewest":P}`, P `null` where no size is enough. For each number of pages
/// `{"pages":P,"slots":C,"transfers":K,"erases":E,"least":L,"limit":M,"verdict":"VERDICT"}`, or
/// `{"pages":P,"slots":C,"not_fitting":I}`: the numbers and the words of `size_parts`.
///
/// Source: ours.
///
/// # Errors
///
/// As of `size_parts`.
pub fn sizes_json<A: Allocator + Copy>(
    alloc: A,
    words: u16,
    script: &[u8],
    cycles: u32,
    runs: u32,
) -> Result<SizesDocument<A>, Fault>
    ensures sized { IfOk result (λ sizes.
        IsSizesDocument words script.now cycles runs sizes.text.items sizes.some_enough) }
    ensures fault { IfErr result (IsSizingFault script.now) }
    // No cause is passed over.
    ensures names { NamesEach Fault.Memory (IsSizingFault script.now) result }
{
    let needs = needs_of(alloc, words, script, runs)?;
    let text = document_of(alloc, &needs, words, cycles)?;
    let some_enough = is_some_enough(needs.demands.as_slice(), cycles);
    Ok(SizesDocument { text, some_enough })
}

/// The document of what the changes of all rounds demand.
fn document_of<A: Allocator + Copy>(
    alloc: A,
    needs: &Needs<A>,
    words: u16,
    cycles: u32,
) -> Result<Vec<u8, A>, AllocError>
    requires { length needs.now.demands.items ≡ 64 }
    ensures { IfOk result (λ text. text.items
        ≡ sizes_document words cycles needs.now.changes needs.now.demands.items) }
{
    let demands = needs.demands.as_slice();
    let sizes = objects_of(alloc, demands, words, cycles, needs.changes)?;
    let mut text = Vec::new(alloc);
    text.extend_from_slice(b"{\"sizes\":")?;
    push_array(&mut text, &sizes)?;
    text.extend_from_slice(b",\"fewest\":")?;
    push_or_null(&mut text, fewest_of(demands, cycles))?;
    text.extend_from_slice(b"}\n")?;
    Ok(text)
}

/// The objects of the sizes, from one page on, each behind a comma.
fn objects_of<A: Allocator + Copy>(
    alloc: A,
    demands: &[Demand],
    words: u16,
    cycles: u32,
    changes: u64,
) -> Result<Vec<u8, A>, AllocError>
    requires { length demands.now ≡ 64 }
    ensures { IfOk result (λ text. text.items
        ≡ size_items words cycles changes 1 demands.now) }
{
    let mut text = Vec::new(alloc);
    let mut pages = 0;
    for demand in demands {
        pages += 1;
        push_size(&mut text, *demand, pages, words, cycles, changes)?;
    }
    Ok(text)
}

/// Writes a number, or `null`. After an error there may be a part of it.
fn push_or_null<A: Allocator>(out: &mut Vec<u8, A>, number: Option<u32>) -> Result<(), AllocError>
    ensures { OnOk result (out.new.items ≡ out.old.items ++ number_or_null number) }
{
    match number {
        None => out.extend_from_slice(b"null"),
        Some(number) => push_number(out, number as u64),
    }
}

/// Writes the object of a size behind a comma. After an error there may be a part of it.
fn push_size<A: Allocator>(
    out: &mut Vec<u8, A>,
    demand: Demand,
    pages: u32,
    words: u16,
    cycles: u32,
    changes: u64,
) -> Result<(), AllocError>
    requires { pages ≤ 64 }
    ensures { OnOk result (out.new.items
        ≡ out.old.items ++ item (size_object words cycles changes pages demand)) }
{
    let slots = slots_of(pages, words);
    match demand {
        Demand::Transfers(transfers) => {
            let limit = limit_of(pages, words, changes);
            push_fitting(out, pages, slots, transfers, limit, cycles)
        }
        Demand::NotFitting(change) => push_not_fitting(out, pages, slots, change),
    }
}

/// Writes the object of a size whose sets the changes fit, behind a comma. After an error there may
/// be a part of it.
fn push_fitting<A: Allocator>(
    out: &mut Vec<u8, A>,
    pages: u32,
    slots: u32,
    transfers: u64,
    limit: u64,
    cycles: u32,
) -> Result<(), AllocError>
    ensures { OnOk result (out.new.items
        ≡ out.old.items ++ item (fitting_object cycles pages slots transfers limit)) }
{
    push_numbers(out, pages as u64, slots as u64, transfers, limit)?;
    out.extend_from_slice(b",\"verdict\":\"")?;
    push_verdict(out, transfers, limit, cycles)?;
    out.extend_from_slice(b"\"}")?;
    Ok(())
}

/// Writes the numbers of a size. After an error there may be a part of them.
fn push_numbers<A: Allocator>(
    out: &mut Vec<u8, A>,
    pages: u64,
    slots: u64,
    transfers: u64,
    limit: u64,
) -> Result<(), AllocError>
    ensures { OnOk result (out.new.items ≡ out.old.items
        ++ size_numbers pages slots transfers (erases_for transfers) (least_for transfers) limit) }
{
    push_number_behind(out, b",{\"pages\":", pages)?;
    push_number_behind(out, b",\"slots\":", slots)?;
    push_number_behind(out, b",\"transfers\":", transfers)?;
    push_number_behind(out, b",\"erases\":", erases_of(transfers))?;
    push_number_behind(out, b",\"least\":", least_of(transfers))?;
    push_number_behind(out, b",\"limit\":", limit)?;
    Ok(())
}

/// Writes the object of a size whose sets they don't fit, behind a comma. After an error there may
/// be a part of it.
fn push_not_fitting<A: Allocator>(
    out: &mut Vec<u8, A>,
    pages: u32,
    slots: u32,
    change: u64,
) -> Result<(), AllocError>
    ensures { OnOk result (out.new.items ≡ out.old.items ++ item (not_fitting_object pages slots change)) }
{
    push_number_behind(out, b",{\"pages\":", pages as u64)?;
    push_number_behind(out, b",\"slots\":", slots as u64)?;
    push_number_behind(out, b",\"not_fitting\":", change)?;
    out.extend_from_slice(b"}")
}
