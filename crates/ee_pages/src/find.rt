//! The scan: where the live set of a legal image is and how far it is used, or why
//! an image isn't legal.
ghost use Rattle.std.specs.Bool.{MatchBool};
ghost use Rattle.std.specs.Prelude.{◌≡◌, ◌≢◌, ◌<◌, ◌≤◌, ◌↔◌, ℕ, ◌+◌, ◌*◌, ◌-◌, IfErr, IfNone, IfOk, IfSome, IsTrue, None, OnOk, Some, false, is_ok, length, nat_eq, slice_index_or, true, List};
ghost use Rattle.ee_codec.specs.Reading.{slot_of};
ghost use Rattle.ee_codec.specs.Words.{IsGeneration};
ghost use Rattle.ee_flash.specs.Device.{word_at};
ghost use Rattle.ee_flash.specs.Runs.{AreReadings};
ghost use Rattle.ee_flash.specs.Size.{header_words, page_count};
ghost use Rattle.ee_pages.specs.Layout.{IsFirstForeign, IsForeignIn, IsLayout, IsScanFault, IsUnformatted, IsUsedTo, front_to};
ghost use Rattle.ee_pages.specs.Legal.{IsLegal, fits as may_stand, holds_slot, is_allowed_at, is_element, place_of as place};
ghost use Rattle.ee_pages.specs.Page.{is_written as written};
ghost use Rattle.ee_pages.specs.Sets.{front, live_of, page_of_slot, set_of, slots_of, word_of};

use crate::number::is_slot;
use crate::runs::{RUN, UNREAD, run_from};
use crate::side::{Side, committed, first_page, set_word};
use crate::state::{blank_to, is_blank, is_torn};
use crate::table::fits_header;
use ee_flash::{Flash, HEADER_WORDS, Word};

/// Where the live set of a legal image is and how far it is used.
///
/// Source: ours.
#[derive(Clone, Copy, Debug, PartialEq, Eq)]
pub struct Layout {
    /// The live set.
    pub side: Side,
    /// Its generation, 1 to 4294967294.
    pub generation: u32,
    /// How many of its slots are written, torn ones too: 0 to the capacity.
    pub fill: usize,
    /// Its last used page, by its number in the device; its first page if no slot is used.
    pub current: usize,
}

/// Why an image is not legal.
///
/// Source: ours.
#[derive(Clone, Copy, Debug, PartialEq, Eq)]
pub enum ScanFault {
    /// Every word of the device is erased.
    Unformatted,
    /// No set is committed.
    NoLiveSet,
    /// Both sets are committed, with equal generations.
    TwoLive,
    /// The first word of the live set, by page and then place, that may not stand there. The page
    /// is its number in the device.
    Foreign { page: usize, at: usize },
}

/// Finds the live set of a legal image. It reads each word of the live set at most twice, and
/// behind each torn slot once more the words that stood in one run with it, up to 15.
///
/// Source: one of two sets takes the writes, AN4894; the rest is ours.
///
/// # Errors
///
/// The first `ScanFault` that applies, exactly where the image is not legal.
pub fn scan<F: Flash>(flash: &F) -> Result<Layout, ScanFault>
    ensures layout { IfOk result (IsLayout (F.device flash.now)) }
    ensures fault { IfErr result (IsScanFault (F.device flash.now)) }
    ensures legal { IsTrue (is_ok result) ↔ IsLegal (F.device flash.now) }
{
    if is_unformatted(flash) {
        return Err(ScanFault::Unformatted);
    }
    let (side, generation) = live_set(flash)?;
    let start = first_page(flash, side);
    match front_of(flash, side, generation) {
        Err((page, at)) => Err(ScanFault::Foreign {
            page: start + page,
            at,
        }),
        Ok((fill, page)) => Ok(Layout {
            side,
            generation,
            fill,
            current: start + page,
        }),
    }
}

/// Whether every word of the device is erased.
fn is_unformatted<F: Flash>(flash: &F) -> bool
    ensures { MatchBool result
        (IsUnformatted (F.device flash.now)) (¬ IsUnformatted (F.device flash.now)) }
{
    for page in 0..2 * flash.shape().pages() {
        if !is_blank(flash, page) {
            return false;
        }
    }
    true
}

/// The live set and its generation.
fn live_set<F: Flash>(flash: &F) -> Result<(Side, u32), ScanFault>
    requires { ¬ IsUnformatted (F.device flash.now) }
    ensures live { IfOk result (λ live. live_of (F.device flash.now) ≡ Some live) }
    ensures proper { IfOk result (λ live. IsGeneration live.1) }
    ensures fault { IfErr result (IsScanFault (F.device flash.now)) }
    ensures none { IfErr result (λ fault. live_of (F.device flash.now) ≡ None) }
{
    match (
        committed(flash, Side::First),
        committed(flash, Side::Second),
    ) {
        (None, None) => Err(ScanFault::NoLiveSet),
        (Some(first), None) => Ok((Side::First, first)),
        (None, Some(second)) => Ok((Side::Second, second)),
        (Some(first), Some(second)) => {
            if first == second {
                Err(ScanFault::TwoLive)
            } else if second < first {
                Ok((Side::First, first))
            } else {
                Ok((Side::Second, second))
            }
        }
    }
}

/// How many slots of a live set are used, and the page of the last of them, the first page where
/// none is; or the first word, by page and then place, that may not stand there. Pages are counted
/// from the set's first.
fn front_of<F: Flash>(
    flash: &F,
    side: Side,
    generation: u32,
) -> Result<(usize, usize), (usize, usize)>
    requires { IsGeneration generation }
    ensures front { IfOk result
        (λ used. used.0 ≡ front (slots_of (set_of side (F.device flash.now)))) }
    ensures page { IfOk result
        (λ used. used.1 ≡ page_of_slot (F.device flash.now).size (used.0 - 1)) }
    ensures within { IfOk result (λ used. used.1 < (F.device flash.now).size.pages) }
    ensures allowed { let device = F.device flash.now in OnOk result
        ((page at : ℕ) → page < device.size.pages → at < device.size.words
        → is_allowed_at device.size generation (set_of side device) page at ≡ true) }
    ensures found { let device = F.device flash.now in IfErr result
        (λ place. IsFirstForeign device.size generation (set_of side device) place.0 place.1) }
{
    let shape = flash.shape();
    let slots = shape.words() - HEADER_WORDS;
    let mut used = 0;
    let mut last = 0;
    for page in 0..shape.pages() {
        match used_of_page(flash, side, generation, page, used == page * slots) {
            Err(at) => return Err((page, at)),
            Ok(here) => {
                if here > 0 {
                    last = page;
                }
                used += here;
            }
        }
    }
    Ok((used, last))
}

/// How many slots of a page of a live set are used, none where not all before them are; or the
/// first word of the page that may not stand there.
fn used_of_page<F: Flash>(
    flash: &F,
    side: Side,
    generation: u32,
    page: usize,
    full: bool,
) -> Result<usize, usize>
    requires generation { IsGeneration generation }
    requires page_in_range { page < (F.device flash.now).size.pages }
    requires full { let device = F.device flash.now in full
        ≡ nat_eq (front_to device side page) (page * (device.size.words - header_words)) }
    ensures used { let device = F.device flash.now in IfOk result
        (λ used. front_to device side page + used ≡ front_to device side (page + 1)) }
    ensures allowed { let device =
        F.device flash.now in OnOk result ((j : ℕ) → j < device.size.words
        → is_allowed_at device.size generation (set_of side device) page j ≡ true) }
    ensures foreign { let device = F.device flash.now in IfErr result
        (IsForeignIn device.size generation (set_of side device) page) }
{
    let from = unused_from(flash, side, generation, page, full)?;
    // From there on all have to be erased, the next slot first of all.
    let written = blank_to(flash, first_page(flash, side) + page, from);
    if written < flash.shape().words() {
        return Err(written);
    }
    Ok(from.saturating_sub(HEADER_WORDS))
}

/// The place in a page of a live set from which on all has to be erased: behind its used slots, or
/// its first word where not all slots before it are used. Or the first word of its header that
/// doesn't fit its place.
fn unused_from<F: Flash>(
    flash: &F,
    side: Side,
    generation: u32,
    page: usize,
    full: bool,
) -> Result<usize, usize>
    requires generation { IsGeneration generation }
    requires page_in_range { page < (F.device flash.now).size.pages }
    ensures used { IfOk result (λ from. full ≡ true
        → IsUsedTo (F.device flash.now) generation side page from) }
    ensures none { IfOk result (λ from. full ≡ false → from ≡ 0) }
    ensures within { IfOk result (λ from. from ≤ (F.device flash.now).size.words) }
    ensures full { IfErr result (λ at. full ≡ true) }
    ensures header { IfErr result (λ at. at < header_words) }
    ensures foreign { IfErr result (λ at. may_stand generation (place page at)
        (word_of (set_of side (F.device flash.now)) page at) ≡ false) }
    ensures before { IfErr result (λ at. (j : ℕ) → j < at → may_stand generation (place page j)
        (word_of (set_of side (F.device flash.now)) page j) ≡ true) }
{
    if !full {
        return Ok(0);
    }
    match foreign_in_header(flash, side, generation, page) {
        Some(at) => Err(at),
        None => Ok(used_to(flash, first_page(flash, side) + page)),
    }
}

/// The first word of the header of a page of a live set that doesn't fit its place.
fn foreign_in_header<F: Flash>(flash: &F, side: Side, generation: u32, page: usize) -> Option<usize>
    requires generation { IsGeneration generation }
    requires page_in_range { page < (F.device flash.now).size.pages }
    ensures within { IfSome result (λ at. at < header_words) }
    ensures foreign { IfSome result (λ at. may_stand generation (place page at)
        (word_of (set_of side (F.device flash.now)) page at) ≡ false) }
    ensures before { IfSome result (λ at. (j : ℕ) → j < at → may_stand generation (place page j)
        (word_of (set_of side (F.device flash.now)) page j) ≡ true) }
    ensures none { IfNone result ((j : ℕ) → j < header_words → may_stand generation (place page j)
        (word_of (set_of side (F.device flash.now)) page j) ≡ true) }
{
    for at in first_told(page)..HEADER_WORDS {
        if !fits_header(generation, at, set_word(flash, side, page, at)) {
            return Some(at);
        }
    }
    None
}

/// The place from which on the words of a header have to fit: those that commit the
/// set are told apart.
fn first_told(page: usize) -> usize
    ensures first { page ≡ 0 → result ≡ 2 }
    ensures further { page ≢ 0 → result ≡ 0 }
{
    if page == 0 { 2 } else { 0 }
}

/// The place of a page's first slot that is neither torn nor has an element or a forgetting;
/// as many as the page has words where each is or has. It stays out of the opening, whose
/// stack is deep without it.
#[inline(never)]
fn used_to<F: Flash>(flash: &F, page: usize) -> usize
    requires { page < page_count (F.device flash.now).size }
    ensures from { header_words ≤ result }
    ensures within { result ≤ (F.device flash.now).size.words }
    ensures before { (j : ℕ) → header_words ≤ j → j < result
        → holds_slot (word_at (F.device flash.now) page j) ≡ true }
    ensures end { result < (F.device flash.now).size.words
        → holds_slot (word_at (F.device flash.now) page result) ≡ false }
{
    let words = flash.shape().words();
    let mut room = [UNREAD; RUN];
    let mut at = HEADER_WORDS;
    'runs: while at < words {
        let run = run_from(flash, page, at, words, &mut room);
        let slots = slots_in(flash, run);
        let all = slots == run.len();
        at += slots;
        if !all {
            if !is_torn(flash.word(page, at)) {
                return at;
            }
            at += 1;
        }
    }
    words
}

/// How many words of these readings, from the first on, each are torn or have an element or a
/// forgetting. The next has neither, and may be torn.
fn slots_in<F: Flash>(flash: &F, readings: &[u64]) -> usize
    ensures within { result ≤ length readings.now }
    ensures before { (words : List Word) → AreReadings (F.reads flash.now) words readings.now
        → (k : ℕ) → k < result → holds_slot (slice_index_or words k Word.Erased) ≡ true }
    ensures end { (words : List Word) → AreReadings (F.reads flash.now) words readings.now
        → result < length readings.now
        → is_element (slot_of (slice_index_or words result Word.Erased)) ≡ false }
{
    for (place, reading) in readings.iter().enumerate() {
        if !is_slot(flash.in_clear(*reading)) {
            return place;
        }
    }
    readings.len()
}
