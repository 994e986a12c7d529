//! Words that stand where no store of the shape has them, or that no store writes.
ghost use Rattle.std.specs.Prelude.{◌≡◌, ◌<◌, ◌==◌, ◌||◌, ◌/◌, ◌^◌, ℕ, IfNone, IfSome};
ghost use Rattle.ee_flash.specs.Numbers.{header_half};
ghost use Rattle.ee_flash.specs.Size.{page_count};
ghost use Rattle.ee_nor.specs.Coded.Coded.{is_slot_number};
ghost use Rattle.ee_shell.specs.Dumps.Places.{HasAllCodes, HasNoneIn, IsFirstMisplaced, IsFirstSought, IsFirstUncoded, IsInShape, IsSoughtIn, is_misplaced, is_sought, is_uncoded};

use ee_codec::{MarkRead, Slot, read_mark, read_slot};
use ee_flash::{Flash, HEADER_WORDS, Word};

/// The high half of each word of a header.
const RECEIVE: u32 = 0xAAAA_AAAA;

/// What is looked for among the words of a device.
#[derive(Clone, Copy)]
pub enum Sought {
    /// A word that no store of the shape has at its place.
    Misplaced,
    /// A number that no store writes.
    Uncoded,
}

/// The first word, by its page, counted from 0 over both sets, and its place there, that tells that
/// another shape wrote it: an element or a forgetting in a header, or a mark in a slot. A receive
/// word that was cut can read as an element too: one with each one of `0xAAAA_AAAA` tells nothing.
///
/// Source: ours.
pub fn first_misplaced<F: Flash>(flash: &F) -> Option<(usize, usize)>
    ensures found { IfSome result (λ place. IsFirstMisplaced (F.device flash.now) place.0 place.1) }
    ensures none { IfNone result (IsInShape (F.device flash.now)) }
{
    first_sought(Sought::Misplaced, flash)
}

/// The first held word, by its page, counted from 0 over both sets, and its place there, whose
/// number is none of a store: it has no coded word.
///
/// Source: ours.
pub fn first_uncoded<F: Flash>(flash: &F) -> Option<(usize, usize)>
    ensures found { IfSome result (λ place. IsFirstUncoded (F.device flash.now) place.0 place.1) }
    ensures none { IfNone result (HasAllCodes (F.device flash.now)) }
{
    first_sought(Sought::Uncoded, flash)
}

/// The first such word, by its page and its place.
fn first_sought<F: Flash>(sought: Sought, flash: &F) -> Option<(usize, usize)>
    ensures found { IfSome result (λ place.
        IsFirstSought sought (F.device flash.now) place.0 place.1) }
    ensures none { IfNone result ((page : ℕ) → HasNoneIn sought (F.device flash.now) page) }
{
    for page in 0..2 * flash.shape().pages() {
        if let Some(at) = sought_in(sought, flash, page) {
            return Some((page, at));
        }
    }
    None
}

/// The place of the first such word of a page.
fn sought_in<F: Flash>(sought: Sought, flash: &F, page: usize) -> Option<usize>
    requires { page < page_count (F.device flash.now).size }
    ensures found { IfSome result (λ at. IsSoughtIn sought (F.device flash.now) page at) }
    ensures none { IfNone result (HasNoneIn sought (F.device flash.now) page) }
{
    for at in 0..flash.shape().words() {
        if is_it(sought, at, flash.word(page, at)) {
            return Some(at);
        }
    }
    None
}

/// Whether a word at this place is one.
fn is_it(sought: Sought, at: usize, word: Word) -> bool
    ensures { result ≡ is_sought sought at word }
{
    match sought {
        Sought::Misplaced => tells_another_shape(at, word),
        Sought::Uncoded => has_no_code(word),
    }
}

/// Whether a word can't be one of a store at this place.
fn tells_another_shape(at: usize, word: Word) -> bool
    ensures { result ≡ is_misplaced at word }
{
    if at == 0 {
        return match read_slot(word) {
            Slot::Element { value, .. } | Slot::Forgotten { value, .. } => {
                value & RECEIVE != RECEIVE
            }
            _ => false,
        };
    }
    if at < HEADER_WORDS {
        return matches!(
            read_slot(word),
            Slot::Element { .. } | Slot::Forgotten { .. }
        );
    }
    matches!(read_mark(word), MarkRead::Present)
}

/// Whether a word holds a number that is neither a slot's nor a header's.
fn has_no_code(word: Word) -> bool
    ensures { result ≡ is_uncoded word }
{
    match word {
        Word::Held(number) => !is_store_number(number),
        Word::Erased | Word::Torn => false,
    }
}

/// Whether a number is a slot's or a header's.
fn is_store_number(number: u64) -> bool
    ensures { result ≡ (is_slot_number number || number / 2 ^ 32 == header_half) }
{
    let low = number & 0xffff_ffff;
    low < 0x2_0000 && low & 0xffff > 0 || number >> 32 == u64::from(RECEIVE)
}
