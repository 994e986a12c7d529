//! The two sets of a device, and the places of their pages, words and slots.
ghost use Rattle.std.specs.Prelude.{◌≡◌, ◌<◌, ◌+◌, ◌-◌, ◌*◌, ℕ, IfSome, slice_index_or};
ghost use Rattle.ee_codec.specs.Words.{IsGeneration};
ghost use Rattle.ee_flash.specs.Size.{header_words, slot_count};
ghost use Rattle.ee_pages.specs.Meaning.{says};
ghost use Rattle.ee_pages.specs.Sets.{committed_generation as commits, first_page as first, other as other_of, set_of, slots_of, word_of};

use ee_codec::{MARK, read_receive};
use ee_flash::{Flash, HEADER_WORDS, Word};

/// How many words commit a set: the first ones of its first page.
const COMMITTING: usize = 2;

/// One of the two sets of pages.
///
/// Source: two sets, AN4894.
#[derive(Clone, Copy, Debug, PartialEq, Eq)]
pub enum Side {
    /// The pages from 0 on.
    First,
    /// The pages behind those.
    Second,
}

impl Side {
    /// The other of the two sets.
    pub fn other(self) -> Side
        ensures { result ≡ other_of self }
    {
        match self {
            Side::First => Side::Second,
            Side::Second => Side::First,
        }
    }
}

/// The number, in the device, of a set's first page.
///
/// Source: ours.
pub fn first_page<F: Flash>(flash: &F, side: Side) -> usize
    ensures { result ≡ first (F.device flash.now).size side }
{
    match side {
        Side::First => 0,
        Side::Second => flash.shape().pages(),
    }
}

/// The word at a place of a page of a set.
pub(crate) fn set_word<F: Flash>(flash: &F, side: Side, page: usize, at: usize) -> Word
    requires page_in_range { page < (F.device flash.now).size.pages }
    requires place_in_range { at < (F.device flash.now).size.words }
    ensures { result ≡ word_of (set_of side (F.device flash.now)) page at }
{
    flash.word(first_page(flash, side) + page, at)
}

/// The slot of this number of a page of a set, both counted from 0.
pub(crate) fn page_slot<F: Flash>(flash: &F, side: Side, page: usize, slot: usize) -> Word
    requires page_in_range { page < (F.device flash.now).size.pages }
    requires slot_in_range { slot < (F.device flash.now).size.words - header_words }
    ensures { let slots = slots_of (set_of side (F.device flash.now)) in
        result
        ≡ slice_index_or slots (page * ((F.device flash.now).size.words - header_words) + slot)
        Word.Erased }
{
    set_word(flash, side, page, HEADER_WORDS + slot)
}

/// The slot of this number of a set, counted from 0.
pub(crate) fn set_slot<F: Flash>(flash: &F, side: Side, slot: usize) -> Word
    requires { slot < slot_count (F.device flash.now).size }
    ensures { result ≡ slice_index_or (slots_of (set_of side (F.device flash.now))) slot Word.Erased }
{
    let slots = flash.shape().words() - HEADER_WORDS;
    page_slot(flash, side, slot / slots, slot % slots)
}

/// The number of the slot of this number of a page of a set, both counted from 0: it says
/// what the slot says.
fn page_number<F: Flash>(flash: &F, side: Side, page: usize, slot: usize) -> u64
    requires page_in_range { page < (F.device flash.now).size.pages }
    requires slot_in_range { slot < (F.device flash.now).size.words - header_words }
    ensures { let slots = slots_of (set_of side (F.device flash.now)) in
        let place = page * ((F.device flash.now).size.words - header_words) + slot in
        (address : ℕ)
        → says (slice_index_or slots place Word.Erased) address ≡ says (Word.Held result) address }
{
    let mut room = [0; 1];
    let run = flash.run(
        first_page(flash, side) + page,
        HEADER_WORDS + slot,
        &mut room,
    );
    flash.number(run[0])
}

/// The number of the slot of this number of a set, counted from 0: it says what the slot says.
pub(crate) fn set_number<F: Flash>(flash: &F, side: Side, slot: usize) -> u64
    requires { slot < slot_count (F.device flash.now).size }
    ensures { let slots = slots_of (set_of side (F.device flash.now)) in
        (address : ℕ)
        → says (slice_index_or slots slot Word.Erased) address ≡ says (Word.Held result) address }
{
    let slots = flash.shape().words() - HEADER_WORDS;
    page_number(flash, side, slot / slots, slot % slots)
}

/// The generation with which a set is committed.
pub(crate) fn committed<F: Flash>(flash: &F, side: Side) -> Option<u32>
    ensures generation { result ≡ commits (set_of side (F.device flash.now)) }
    ensures proper { IfSome result IsGeneration }
{
    let mut room = [1; COMMITTING];
    let run = flash.run(first_page(flash, side), 0, &mut room[..COMMITTING]);
    // The number of a torn word is 0, of an erased one all ones: no mark and no receive word.
    if flash.number(run[1]) == MARK {
        read_receive(Word::Held(flash.number(run[0])))
    } else {
        None
    }
}
