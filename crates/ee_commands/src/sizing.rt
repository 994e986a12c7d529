//! How large a part must be for a script that is made many times over.
ghost use Rattle.std.specs.Prelude.{◌≡◌, ◌+◌, ◌≤◌, ◌++◌, IfErr, IfOk, OnOk, length};
ghost use Rattle.std.specs.List.{list_any};
ghost use Rattle.ee_flash.specs.Size.{size_of, slot_count};
ghost use Rattle.ee_text.specs.Line.{line_of};
ghost use Rattle.ee_plan.specs.Planner.Rounds.{repeated_trace};
ghost use Rattle.ee_commands.specs.Sizing.{AreDemands, AreNeeds, EachWears, IsSized, IsSizingFault, erases_for, fewest_enough, fewest_text, fitting_text, is_enough, least_for, limit_for, not_fitting_text, numbers_text, size_lines, sizing_text, verdict};
ghost use Rattle.ee_interface.specs.Causes.{NamesEach};

use super::planning::read_trace;
use ee_check::Change;
use ee_flash::HEADER_WORDS;
use ee_interface::Fault;
use ee_plan::{Demand, Rounds, RoundsFault};
use ee_text::push_number_behind;
use std::alloc::{AllocError, Allocator, Global};

/// The most pages of a set.
const MOST_PAGES: u32 = 64;

/// How often a store that was just formatted transfers until its generations are used up.
const MOST_TRANSFERS: u64 = 4294967293;

/// What is told of the sizes of a part.
///
/// Source: ours.
#[derive(Debug, Drop)]
pub struct PartSizes<A: Allocator = Global> {
    /// A line for each number of pages that a set can have, from 1 to 64, and one that names the
    /// fewest that are enough, where some are.
    pub text: Vec<u8, A>,
    /// Whether one of them is enough.
    pub some_enough: bool,
}

/// How large a part must be for a script that is made `runs` times, one after another, on a fresh
/// image of so many words a page, where each page bears `cycles` erases. For each number of pages P
/// that a set can have, 1 to 64, a line `pages P slots C transfers K erases E least L limit M
/// enough`: K is the fewest transfers of any store, E how often a page is erased at the most, L how
/// often some page is by any store that transfers, at the least, and M by any that programs a word
/// for each change. `enough` says that E is `cycles` or less; in its place stands `spent`, where
/// the generations don't suffice, `worn for any`, where M is above `cycles`, `worn for all`, where
/// L is, and else `worn`. Or the line is `pages P slots C not fitting I`, I the first change that
/// doesn't fit, counted through all rounds. Lines that read or clean count nothing. Behind them
/// stands `fewest pages P`, where P is enough and no fewer are. Memory is taken for two rounds,
/// whatever `runs` is.
///
/// Source: ours.
///
/// # Errors
///
/// The script has a bad line, as is here a line that cuts power or turns it on. `Memory` can come
/// in place of any answer, and does where the changes of all rounds are 2^63 or more.
pub fn size_parts<A: Allocator + Copy>(
    alloc: A,
    words: u16,
    script: &[u8],
    cycles: u32,
    runs: u32,
) -> Result<PartSizes<A>, Fault>
    ensures sized { IfOk result (λ sizes.
        IsSized words script.now cycles runs sizes.text.items sizes.some_enough) }
    ensures fault { IfErr result (IsSizingFault script.now) }
    // No cause is passed over.
    ensures names { NamesEach Fault.Memory (IsSizingFault script.now) result }
{
    let needs = needs_of(alloc, words, script, runs)?;
    let demands = needs.demands.as_slice();
    let mut text = text_of_sizes(alloc, demands, words, cycles, needs.changes)?;
    push_fewest(&mut text, fewest_of(demands, cycles))?;
    let some_enough = is_some_enough(demands, cycles);
    Ok(PartSizes { text, some_enough })
}

/// What a script that is made many times over demands.
#[derive(Drop)]
pub(crate) struct Needs<A: Allocator = Global> {
    /// The changes of all rounds.
    pub(crate) changes: u64,
    /// What they demand of sets of 1 to 64 pages.
    pub(crate) demands: Vec<Demand, A>,
}

/// What a script that is made `runs` times demands of sets of so many words a page.
pub(crate) fn needs_of<A: Allocator + Copy>(
    alloc: A,
    words: u16,
    script: &[u8],
    runs: u32,
) -> Result<Needs<A>, Fault>
    ensures needs { IfOk result
        (λ needs. AreNeeds words script.now runs needs.changes needs.demands.items) }
    ensures fault { IfErr result (IsSizingFault script.now) }
    ensures memory { IsSizingFault script.now Fault.Memory }
    // No cause is passed over.
    ensures names { NamesEach Fault.Memory (IsSizingFault script.now) result }
{
    let trace = read_trace(alloc, script)?;
    let rounds = rounds_of(alloc, trace, runs)?;
    let demands = demands_of(alloc, &rounds, words)?;
    Ok(Needs {
        changes: rounds.changes(),
        demands,
    })
}

/// The trace, so many times.
fn rounds_of<A: Allocator + Copy>(
    alloc: A,
    trace: Vec<Change, A>,
    runs: u32,
) -> Result<Rounds<A>, AllocError>
    ensures { IfOk result (λ rounds. rounds ≡ repeated_trace runs trace.items) }
{
    match Rounds::new(alloc, trace, runs as u64) {
        Ok(rounds) => Ok(rounds),
        // a script of 2^31 changes and more, which is longer than what is read of any file
        Err(RoundsFault::TooMany | RoundsFault::Memory) => Err(AllocError),
    }
}

/// What the rounds demand of sets of 1 to 64 pages.
fn demands_of<A: Allocator + Copy>(
    alloc: A,
    rounds: &Rounds<A>,
    words: u16,
) -> Result<Vec<Demand, A>, AllocError>
    ensures demands { IfOk result (λ demands. AreDemands words rounds.now 1 demands.items) }
    ensures wears { IfOk result (λ demands. EachWears words rounds.now 1 demands.items) }
    ensures each { IfOk result (λ demands. length demands.items ≡ 64) }
{
    let mut demands = Vec::new(alloc);
    for pages in 1..MOST_PAGES + 1 {
        demands.push(rounds.demand(slots_of(pages, words)))?;
    }
    Ok(demands)
}

/// The slots of a set.
pub(crate) fn slots_of(pages: u32, words: u16) -> u32
    requires { pages ≤ 64 }
    ensures { result ≡ slot_count (size_of pages words) }
{
    pages * (words as u32).saturating_sub(HEADER_WORDS as u32)
}

/// The lines of the sizes, from one page on.
fn text_of_sizes<A: Allocator + Copy>(
    alloc: A,
    demands: &[Demand],
    words: u16,
    cycles: u32,
    changes: u64,
) -> Result<Vec<u8, A>, AllocError>
    requires { length demands.now ≡ 64 }
    ensures { IfOk result (λ text. text.items ≡ size_lines words cycles changes 1 demands.now) }
{
    let mut text = Vec::new(alloc);
    let mut pages = 0;
    for demand in demands {
        pages += 1;
        push_size(&mut text, *demand, pages, words, cycles, changes)?;
    }
    Ok(text)
}

/// The fewest pages that are enough, where some are.
pub(crate) fn fewest_of(demands: &[Demand], cycles: u32) -> Option<u32>
    requires { length demands.now ≡ 64 }
    ensures { result ≡ fewest_enough cycles 1 demands.now }
{
    let mut pages = 1;
    for demand in demands {
        if is_enough_for(*demand, cycles) {
            return Some(pages);
        }
        pages += 1;
    }
    None
}

/// Writes the line of the fewest pages that are enough, where some are. After an error there may be
/// a part of it.
fn push_fewest<A: Allocator>(out: &mut Vec<u8, A>, fewest: Option<u32>) -> Result<(), AllocError>
    ensures { OnOk result (out.new.items ≡ out.old.items ++ fewest_text fewest) }
{
    let Some(pages) = fewest else {
        return Ok(());
    };
    push_number_behind(out, b"fewest pages ", pages as u64)?;
    out.extend_from_slice(b"\n")
}

/// Writes the line of a size. After an error there may be a part of it.
fn push_size<A: Allocator>(
    out: &mut Vec<u8, A>,
    demand: Demand,
    pages: u32,
    words: u16,
    cycles: u32,
    changes: u64,
) -> Result<(), AllocError>
    requires { pages ≤ 64 }
    ensures { OnOk result (out.new.items
        ≡ out.old.items ++ line_of (sizing_text words cycles changes pages demand)) }
{
    let slots = slots_of(pages, words);
    match demand {
        Demand::Transfers(transfers) => {
            let limit = limit_of(pages, words, changes);
            push_fitting(out, pages, slots, transfers, limit, cycles)
        }
        Demand::NotFitting(change) => push_not_fitting(out, pages, slots, change),
    }
}

/// Writes the line of a size whose sets the changes fit. After an error there may be a part of it.
fn push_fitting<A: Allocator>(
    out: &mut Vec<u8, A>,
    pages: u32,
    slots: u32,
    transfers: u64,
    limit: u64,
    cycles: u32,
) -> Result<(), AllocError>
    ensures { OnOk result (out.new.items
        ≡ out.old.items ++ line_of (fitting_text cycles pages slots transfers limit)) }
{
    push_numbers(out, pages as u64, slots as u64, transfers, limit)?;
    out.extend_from_slice(b" ")?;
    push_verdict(out, transfers, limit, cycles)?;
    out.extend_from_slice(b"\n")
}

/// Writes the numbers of a size. After an error there may be a part of them.
fn push_numbers<A: Allocator>(
    out: &mut Vec<u8, A>,
    pages: u64,
    slots: u64,
    transfers: u64,
    limit: u64,
) -> Result<(), AllocError>
    ensures { OnOk result (out.new.items ≡ out.old.items
        ++ numbers_text pages slots transfers (erases_for transfers) (least_for transfers) limit) }
{
    push_number_behind(out, b"pages ", pages)?;
    push_number_behind(out, b" slots ", slots)?;
    push_number_behind(out, b" transfers ", transfers)?;
    push_number_behind(out, b" erases ", erases_of(transfers))?;
    push_number_behind(out, b" least ", least_of(transfers))?;
    push_number_behind(out, b" limit ", limit)?;
    Ok(())
}

/// Writes whether a size is enough, or why it isn't. After an error there may be a part of it.
pub(crate) fn push_verdict<A: Allocator>(
    out: &mut Vec<u8, A>,
    transfers: u64,
    limit: u64,
    cycles: u32,
) -> Result<(), AllocError>
    ensures { OnOk result (out.new.items ≡ out.old.items ++ verdict cycles transfers limit) }
{
    if transfers > MOST_TRANSFERS {
        out.extend_from_slice(b"spent")
    } else if erases_of(transfers) <= cycles as u64 {
        out.extend_from_slice(b"enough")
    } else if limit > cycles as u64 {
        out.extend_from_slice(b"worn for any")
    } else if least_of(transfers) > cycles as u64 {
        out.extend_from_slice(b"worn for all")
    } else {
        out.extend_from_slice(b"worn")
    }
}

/// Writes the line of a size whose sets they don't fit. After an error there may be a part of it.
fn push_not_fitting<A: Allocator>(
    out: &mut Vec<u8, A>,
    pages: u32,
    slots: u32,
    change: u64,
) -> Result<(), AllocError>
    ensures { OnOk result
        (out.new.items ≡ out.old.items ++ line_of (not_fitting_text pages slots change)) }
{
    push_number_behind(out, b"pages ", pages as u64)?;
    push_number_behind(out, b" slots ", slots as u64)?;
    push_number_behind(out, b" not fitting ", change)?;
    out.extend_from_slice(b"\n")
}

/// How often a page is erased at the most.
pub(crate) fn erases_of(transfers: u64) -> u64
    ensures { result ≡ erases_for transfers }
{
    transfers - transfers / 2
}

/// How often some page is erased at the least, by any store that transfers.
pub(crate) fn least_of(transfers: u64) -> u64
    ensures { result ≡ least_for transfers }
{
    transfers / 2
}

/// How often some page is erased at the least, by any store that programs a word for each change.
pub(crate) fn limit_of(pages: u32, words: u16, changes: u64) -> u64
    requires { pages ≤ 64 }
    ensures { result ≡ limit_for pages words changes }
{
    let both_sets = 2 * pages as u64 * words as u64;
    if both_sets == 0 {
        return 0;
    }
    changes.saturating_sub(1) / both_sets
}

/// Whether some demand is met within the cycles.
pub(crate) fn is_some_enough(demands: &[Demand], cycles: u32) -> bool
    ensures { result ≡ list_any (is_enough cycles) demands.now }
{
    demands.iter().any(|demand| is_enough_for(*demand, cycles))
}

/// Whether no page is erased more often than so many times.
fn is_enough_for(demand: Demand, cycles: u32) -> bool
    ensures { result ≡ is_enough cycles demand }
{
    match demand {
        Demand::Transfers(transfers) => {
            transfers <= MOST_TRANSFERS && erases_of(transfers) <= cycles as u64
        }
        Demand::NotFitting(_) => false,
    }
}
