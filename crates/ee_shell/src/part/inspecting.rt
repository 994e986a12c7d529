//! The command that tells what an image shows.
ghost use Rattle.std.specs.Prelude.{◌≡◌, ◌<◌, ◌++◌, ◌==◌, ℕ, false, if◌then◌else◌, codes, length, slice_index_or, Ok, Err, Some, None, IfOk, IfErr, IfSome, OnOk, MatchOption};
ghost use Rattle.ee_text.specs.Line.{line_of};
ghost use Rattle.ee_flash.specs.Size.{page_count};
ghost use Rattle.ee_codec.specs.Words.{IsAddress};
ghost use Rattle.ee_pages.specs.Layout.{IsLayout};
ghost use Rattle.ee_pages.specs.Meaning.{live_in, meaning};
ghost use Rattle.ee_pages.specs.Page.{is_torn as torn};
ghost use Rattle.ee_image_store.specs.FileFaults.{IsReadingFault};
ghost use Rattle.ee_image_store.specs.Told.{each_below};
ghost use Rattle.ee_commands.specs.Json.{item};
ghost use Rattle.ee_shell.specs.Part.Inspecting.{AreFindings, AreSpoken, IsInspected, all_doubts, all_torn, doubt_told, found_lines, gives_to, is_before, live_slots, parts_text, place_line, place_name, place_object, scan_words, set_number, set_text, slots_text, speaks_of, torn_told, up_to_last, usage_in};
ghost use Rattle.ee_interface.specs.Causes.{NamesEach};

use crate::part::image::read_part;
use ee_codec::{Slot, read_slot};
use ee_core::count_pending;
use ee_flash::{Flash, HEADER_WORDS, Word};
use ee_interface::Fault;
use ee_pages::{Layout, ScanFault, Side, first_page, scan, slot_word, torn_slots};
use ee_text::push_number_behind;
use std::alloc::{AllocError, Allocator};

/// What the image that a text spells shows, also where no store can work on it. First `scan ok`, or
/// `scan` and why the image has no live set. With a live set there follows `set S generation G fill
/// F room R live N pending Q superseded U torn T`: which set it is, 0 or 1, its generation, its
/// used and its free slots, how many addresses have a value, how many pages wait to be erased, how
/// many used slots hold what is no longer so, and how many are torn. Then a line for each torn
/// word, by page and place, `torn PAGE AT` and `slot` or `header`, where it is such a word of the
/// live set, or `other`. Last, by rising address, `doubt A` for each address that the live set
/// speaks of for the last time before a torn slot: its latest change may be lost.
///
/// Source: ours.
///
/// # Errors
///
/// The image is no device's; `Memory` can come in place of any answer.
pub fn inspect_text<A: Allocator + Copy>(alloc: A, image: &[u8]) -> Result<Vec<u8, A>, Fault>
    ensures inspected { IfOk result (λ text. IsInspected image.now text.items) }
    ensures fault { IfErr result (IsReadingFault image.now) }
    // No cause is passed over.
    ensures names { NamesEach Fault.Memory (IsReadingFault image.now) result }
{
    let flash = read_part(alloc, image)?;
    Ok(findings(alloc, &flash)?)
}

/// What there is to say of a device.
fn findings<A: Allocator + Copy, F: Flash>(alloc: A, flash: &F) -> Result<Vec<u8, A>, AllocError>
    ensures { IfOk result (λ text. AreFindings (F.device flash.now) text.items) }
{
    let mut text = Vec::new(alloc);
    match scan(flash) {
        Ok(layout) => push_live(alloc, flash, &layout, &mut text)?,
        Err(fault) => push_fault(flash, fault, &mut text)?,
    }
    Ok(text)
}

/// Writes what there is to say of a device with a live set. After an error there may be a part of
/// it.
fn push_live<A: Allocator + Copy, F: Flash>(
    alloc: A,
    flash: &F,
    layout: &Layout,
    out: &mut Vec<u8, A>,
) -> Result<(), AllocError>
    requires { IsLayout (F.device flash.now) layout.now }
    ensures { OnOk result
        (out.new.items ≡ out.old.items ++ found_lines (F.device flash.now) (Ok layout.now)) }
{
    let spoken = last_spoken(alloc, flash, layout)?;
    out.extend_from_slice(b"scan ok\n")?;
    push_set(usage_of(flash, layout, spoken.as_slice()), out)?;
    push_torn(flash, Some(layout.side), Telling::Lines, out)?;
    push_doubts(flash, layout, spoken.as_slice(), Telling::Lines, out)
}

/// Writes what there is to say of a device without one. After an error there may be a part of it.
fn push_fault<A: Allocator, F: Flash>(
    flash: &F,
    fault: ScanFault,
    out: &mut Vec<u8, A>,
) -> Result<(), AllocError>
    ensures { OnOk result
        (out.new.items ≡ out.old.items ++ found_lines (F.device flash.now) (Err fault)) }
{
    push_scan_fault(fault, out)?;
    push_torn(flash, None, Telling::Lines, out)
}

/// Writes the line of a scan that finds no live set. After an error there may be a part of it.
fn push_scan_fault<A: Allocator>(fault: ScanFault, out: &mut Vec<u8, A>) -> Result<(), AllocError>
    ensures { OnOk result
        (out.new.items ≡ out.old.items ++ line_of (codes "scan " ++ scan_words fault)) }
{
    out.extend_from_slice(b"scan ")?;
    push_scan_words(fault, out)?;
    out.extend_from_slice(b"\n")
}

/// Writes why there is no live set. After an error there may be a part of it.
pub(crate) fn push_scan_words<A: Allocator>(
    fault: ScanFault,
    out: &mut Vec<u8, A>,
) -> Result<(), AllocError>
    ensures { OnOk result (out.new.items ≡ out.old.items ++ scan_words fault) }
{
    match fault {
        ScanFault::Unformatted => out.extend_from_slice(b"unformatted"),
        ScanFault::NoLiveSet => out.extend_from_slice(b"no live set"),
        ScanFault::TwoLive => out.extend_from_slice(b"two live sets"),
        ScanFault::Foreign { page, at } => {
            push_number_behind(out, b"foreign word ", page as u64)?;
            push_number_behind(out, b" ", at as u64)
        }
    }
}

/// How the live set is used.
#[derive(Clone, Copy)]
pub(crate) struct Usage {
    /// Which of the two sets it is, 0 or 1.
    pub(crate) set: u64,
    /// Its generation.
    pub(crate) generation: u32,
    /// How many of its slots are used.
    pub(crate) fill: usize,
    /// How many are free.
    pub(crate) room: usize,
    /// How many addresses have a value.
    pub(crate) live: usize,
    /// How many pages of the other set wait to be erased.
    pub(crate) pending: usize,
    /// How many used slots neither give an address its value nor are torn.
    pub(crate) superseded: usize,
    /// How many slots are torn.
    pub(crate) torn: usize,
}

/// How torn words and addresses in doubt are told.
#[derive(Clone, Copy)]
pub(crate) enum Telling {
    /// Each in a line of a text.
    Lines,
    /// Each as an item of a document's array.
    Items,
}

/// How the live set is used, by the last slot that speaks of each address.
pub(crate) fn usage_of<F: Flash>(flash: &F, layout: &Layout, spoken: &[usize]) -> Usage
    requires layout { IsLayout (F.device flash.now) layout.now }
    requires spoken { AreSpoken (live_slots (F.device flash.now) layout.now) spoken.now }
    ensures { result ≡ usage_in (F.device flash.now) layout.now }
{
    let fill = layout.fill;
    let live = count_live(flash, layout, spoken);
    let torn = torn_slots(flash, layout);
    Usage {
        set: number_of(layout.side),
        generation: layout.generation,
        fill,
        room: flash.shape().slots() - fill,
        live,
        pending: count_pending(flash, layout.side.other()),
        superseded: fill - live - torn,
        torn,
    }
}

/// How many addresses have a value, by the last slot that speaks of each.
fn count_live<F: Flash>(flash: &F, layout: &Layout, spoken: &[usize]) -> usize
    requires layout { IsLayout (F.device flash.now) layout.now }
    requires spoken { AreSpoken (live_slots (F.device flash.now) layout.now) spoken.now }
    ensures { result ≡ live_in (meaning (live_slots (F.device flash.now) layout.now)) }
{
    // A look for each used slot, of which there may be far fewer than addresses.
    let mut count = 0;
    'slots: for slot in 0..layout.fill {
        let address = valued_address(slot_word(flash, layout, slot));
        if is_last_of(address, slot + 1, spoken) {
            count += 1;
        }
    }
    count
}

/// Whether there is an address, and the last slot that speaks of it is the last of so many.
fn is_last_of(address: Option<usize>, count: usize, spoken: &[usize]) -> bool
    requires long { length spoken.now ≡ 65535 }
    requires proper { IfSome address (λ named. IsAddress named) }
    ensures { MatchOption address
        (result ≡ false)
        (λ named. result ≡ (slice_index_or spoken.now named 0 == count)) }
{
    match address {
        Some(named) => spoken[named] == count,
        None => false,
    }
}

/// The address to which a slot gives a value.
fn valued_address(word: Word) -> Option<usize>
    ensures proper { IfSome result (λ named. IsAddress named) }
    ensures gives { MatchOption result
        ((address : ℕ) → gives_to address word ≡ false)
        (λ named. (address : ℕ) → gives_to address word ≡ (named == address)) }
{
    let Slot::Element { address, .. } = read_slot(word) else {
        return None;
    };
    Some(usize::from(address.get()))
}

/// Which of the two sets it is.
fn number_of(side: Side) -> u64
    ensures { result ≡ set_number side }
{
    match side {
        Side::First => 0,
        Side::Second => 1,
    }
}

/// Writes the line of the live set. After an error there may be a part of it.
fn push_set<A: Allocator>(usage: Usage, out: &mut Vec<u8, A>) -> Result<(), AllocError>
    ensures { OnOk result (out.new.items ≡ out.old.items ++ line_of (set_text usage)) }
{
    push_slots(usage, out)?;
    out.extend_from_slice(b" ")?;
    push_parts(usage, out)?;
    out.extend_from_slice(b"\n")?;
    Ok(())
}

/// Writes which set it is, and its slots. After an error there may be a part of it.
fn push_slots<A: Allocator>(usage: Usage, out: &mut Vec<u8, A>) -> Result<(), AllocError>
    ensures { OnOk result (out.new.items ≡ out.old.items ++ slots_text usage) }
{
    push_number_behind(out, b"set ", usage.set)?;
    push_number_behind(out, b" generation ", usage.generation as u64)?;
    push_number_behind(out, b" fill ", usage.fill as u64)?;
    push_number_behind(out, b" room ", usage.room as u64)
}

/// Writes what its slots are used for. After an error there may be a part of it.
fn push_parts<A: Allocator>(usage: Usage, out: &mut Vec<u8, A>) -> Result<(), AllocError>
    ensures { OnOk result (out.new.items ≡ out.old.items ++ parts_text usage) }
{
    push_number_behind(out, b"live ", usage.live as u64)?;
    push_number_behind(out, b" pending ", usage.pending as u64)?;
    push_number_behind(out, b" superseded ", usage.superseded as u64)?;
    push_number_behind(out, b" torn ", usage.torn as u64)
}

/// Tells the torn words. After an error there may be a part of that.
pub(crate) fn push_torn<A: Allocator, F: Flash>(
    flash: &F,
    live: Option<Side>,
    telling: Telling,
    out: &mut Vec<u8, A>,
) -> Result<(), AllocError>
    ensures { OnOk result
        (out.new.items ≡ out.old.items ++ all_torn telling (F.device flash.now) live) }
{
    'pages: for page in 0..2 * flash.shape().pages() {
        push_torn_in(flash, live, page, telling, out)?;
    }
    Ok(())
}

/// Tells the torn words of a page. After an error there may be a part of that.
fn push_torn_in<A: Allocator, F: Flash>(
    flash: &F,
    live: Option<Side>,
    page: usize,
    telling: Telling,
    out: &mut Vec<u8, A>,
) -> Result<(), AllocError>
    requires { page < page_count (F.device flash.now).size }
    ensures { let device = F.device flash.now in OnOk result (out.new.items
        ≡ out.old.items ++ each_below device.size.words (torn_told telling device live page)) }
{
    'places: for at in 0..flash.shape().words() {
        push_if_torn(flash, live, page, at, telling, out)?;
    }
    Ok(())
}

/// Tells a word, if it is torn. After an error there may be a part of that.
fn push_if_torn<A: Allocator, F: Flash>(
    flash: &F,
    live: Option<Side>,
    page: usize,
    at: usize,
    telling: Telling,
    out: &mut Vec<u8, A>,
) -> Result<(), AllocError>
    requires page_in_range { page < page_count (F.device flash.now).size }
    requires place_in_range { at < (F.device flash.now).size.words }
    ensures { OnOk result
        (out.new.items ≡ out.old.items ++ torn_told telling (F.device flash.now) live page at) }
{
    if !matches!(flash.word(page, at), Word::Torn) {
        return Ok(());
    }
    let name = name_of(flash, live, page, at);
    match telling {
        Telling::Lines => push_place_line(page, at, name, out),
        Telling::Items => push_place_item(page, at, name, out),
    }
}

/// Writes the line of a torn word. After an error there may be a part of it.
fn push_place_line<A: Allocator>(
    page: usize,
    at: usize,
    name: &[u8],
    out: &mut Vec<u8, A>,
) -> Result<(), AllocError>
    ensures { OnOk result (out.new.items ≡ out.old.items ++ place_line page at name.now) }
{
    push_number_behind(out, b"torn ", page as u64)?;
    push_number_behind(out, b" ", at as u64)?;
    out.extend_from_slice(b" ")?;
    out.extend_from_slice(name)?;
    out.extend_from_slice(b"\n")
}

/// Writes the object of a torn word behind a comma. After an error there may be a part of it.
fn push_place_item<A: Allocator>(
    page: usize,
    at: usize,
    name: &[u8],
    out: &mut Vec<u8, A>,
) -> Result<(), AllocError>
    ensures { OnOk result (out.new.items ≡ out.old.items ++ item (place_object page at name.now)) }
{
    push_number_behind(out, b",{\"page\":", page as u64)?;
    push_number_behind(out, b",\"at\":", at as u64)?;
    out.extend_from_slice(b",\"place\":\"")?;
    out.extend_from_slice(name)?;
    out.extend_from_slice(b"\"}")
}

/// What a word is to the live set, if there is one.
fn name_of<F: Flash>(flash: &F, live: Option<Side>, page: usize, at: usize) -> &'static [u8]
    requires { page < page_count (F.device flash.now).size }
    ensures { result.now ≡ place_name (F.device flash.now).size live page at }
{
    let Some(side) = live else {
        return b"other";
    };
    let first = first_page(flash, side);
    if page < first || page >= first + flash.shape().pages() {
        return b"other";
    }
    if at < HEADER_WORDS {
        b"header"
    } else {
        b"slot"
    }
}

/// Tells the addresses that are in doubt, by the last slot that speaks of each. After an error there
/// may be a part of that.
pub(crate) fn push_doubts<A: Allocator, F: Flash>(
    flash: &F,
    layout: &Layout,
    spoken: &[usize],
    telling: Telling,
    out: &mut Vec<u8, A>,
) -> Result<(), AllocError>
    requires layout { IsLayout (F.device flash.now) layout.now }
    requires spoken { AreSpoken (live_slots (F.device flash.now) layout.now) spoken.now }
    ensures { OnOk result (out.new.items
        ≡ out.old.items ++ all_doubts telling (live_slots (F.device flash.now) layout.now)) }
{
    push_doubted(spoken, last_torn(flash, layout), telling, out)
}

/// How many slots there are up to the last torn one, and with it.
fn last_torn<F: Flash>(flash: &F, layout: &Layout) -> usize
    requires { IsLayout (F.device flash.now) layout.now }
    ensures { result ≡ up_to_last torn (live_slots (F.device flash.now) layout.now) }
{
    // The slots behind the fill are erased.
    let mut last = 0;
    'slots: for slot in 0..layout.fill {
        if matches!(slot_word(flash, layout, slot), Word::Torn) {
            last = slot + 1;
        }
    }
    last
}

/// For each number below 65535, how many slots there are up to the last one that speaks of it as an
/// address, and with that one.
pub(crate) fn last_spoken<A: Allocator, F: Flash>(
    alloc: A,
    flash: &F,
    layout: &Layout,
) -> Result<Vec<usize, A>, AllocError>
    requires { IsLayout (F.device flash.now) layout.now }
    ensures { let slots = live_slots (F.device flash.now) layout.now in
        IfOk result (λ spoken. AreSpoken slots spoken.items) }
{
    // The slots behind the fill are erased.
    let mut spoken = zeroes(alloc, 65535)?;
    'slots: for slot in 0..layout.fill {
        note_address(&mut spoken, slot_word(flash, layout, slot), slot + 1);
    }
    Ok(spoken)
}

/// Notes what a slot speaks of, which is the last of so many.
fn note_address<A: Allocator>(spoken: &mut Vec<usize, A>, word: Word, count: usize)
    requires { length spoken.old.items ≡ 65535 }
    ensures long { length spoken.new.items ≡ 65535 }
    ensures each { (address : ℕ) → address < 65535 → slice_index_or spoken.new.items address 0
        ≡ (if speaks_of address word then count else slice_index_or spoken.old.items address 0) }
{
    let Some(address) = address_of(word) else {
        return;
    };
    spoken[address] = count;
}

/// So many times 0.
fn zeroes<A: Allocator>(alloc: A, count: usize) -> Result<Vec<usize, A>, AllocError>
    ensures long { IfOk result (λ zeroes. length zeroes.items ≡ count) }
    ensures each { IfOk result (λ zeroes. (k : ℕ) → slice_index_or zeroes.items k 0 ≡ 0) }
{
    let zeroes = vec![in alloc; 0; count]?;
    Ok(zeroes)
}

/// The address of which a slot says something.
fn address_of(word: Word) -> Option<usize>
    ensures within { IfSome result (λ named. named < 65535) }
    ensures speaks { MatchOption result
        ((address : ℕ) → speaks_of address word ≡ false)
        (λ named. (address : ℕ) → speaks_of address word ≡ (named == address)) }
{
    match read_slot(word) {
        Slot::Element { address, .. } | Slot::Forgotten { address, .. } => {
            Some(usize::from(address.get()))
        }
        _ => None,
    }
}

/// Tells the addresses that are in doubt, by the last slot that speaks of each, and the last torn
/// one. After an error there may be a part of that.
fn push_doubted<A: Allocator>(
    spoken: &[usize],
    torn: usize,
    telling: Telling,
    out: &mut Vec<u8, A>,
) -> Result<(), AllocError>
    ensures { OnOk result (out.new.items ≡ out.old.items ++ each_below (length spoken.now)
        (λ address. doubt_told telling (is_before (slice_index_or spoken.now address 0) torn)
        address)) }
{
    // Nothing stands before a torn slot that is not there.
    if torn == 0 {
        return Ok(());
    }
    'addresses: for address in 0..spoken.len() {
        push_if_doubted(address, spoken[address], torn, telling, out)?;
    }
    Ok(())
}

/// Tells an address, if it is in doubt. After an error there may be a part of that.
fn push_if_doubted<A: Allocator>(
    address: usize,
    spoken: usize,
    torn: usize,
    telling: Telling,
    out: &mut Vec<u8, A>,
) -> Result<(), AllocError>
    ensures { OnOk result (out.new.items
        ≡ out.old.items ++ doubt_told telling (is_before spoken torn) address) }
{
    if spoken == 0 || spoken >= torn {
        return Ok(());
    }
    match telling {
        Telling::Lines => {
            push_number_behind(out, b"doubt ", address as u64)?;
            out.extend_from_slice(b"\n")
        }
        Telling::Items => push_number_behind(out, b",", address as u64),
    }
}
