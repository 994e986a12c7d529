//! What a page's header says: the last word of it that is written names the state.
ghost use Rattle.std.specs.Prelude.{◌≡◌, ◌<◌, ◌≤◌, ◌≢◌, ℕ, false, length, slice_index, true};
ghost use Rattle.ee_flash.specs.Device.{all_ones, page_at, word_at};
ghost use Rattle.ee_flash.specs.Size.{page_count};
ghost use Rattle.ee_pages.specs.Page.{is_blank as blank, is_torn as torn, is_written as written, state_of_words};

use crate::runs::{RUN, UNREAD, run_from};
use ee_flash::{Flash, Word};

/// What a page's header says of it. A torn mark counts as present.
///
/// Source: ours, as is the order.
#[derive(Clone, Copy, Debug, PartialEq, Eq)]
pub enum State {
    /// Empty, or left by a cut erase.
    Erased,
    /// Takes elements in a transfer.
    Receive,
    /// Takes new elements.
    Active,
    /// Full.
    Valid,
    /// Its elements were transferred, and it may be erased.
    Erasing,
}

/// A word of a page's header that can be programmed.
///
/// Source: ours.
#[derive(Clone, Copy, Debug, PartialEq, Eq)]
pub enum Mark {
    /// The set has this generation, 1 to 4294967294, and takes elements.
    Receive(u32),
    /// The page takes new elements.
    Active,
    /// The page is full.
    Valid,
    /// The page's elements were transferred.
    Erasing,
}

/// The state of a page, which the last written word of its header names. Pages are numbered from 0,
/// those of the first set first.
///
/// Source: ours.
pub fn state_of<F: Flash>(flash: &F, page: usize) -> State
    requires { page < page_count (F.device flash.now).size }
    ensures { result ≡ state_of_words (page_at (F.device flash.now) page) }
{
    if is_written(flash.word(page, 3)) {
        State::Erasing
    } else if is_written(flash.word(page, 2)) {
        State::Valid
    } else if is_written(flash.word(page, 1)) {
        State::Active
    } else if is_written(flash.word(page, 0)) {
        State::Receive
    } else {
        State::Erased
    }
}

/// Whether every word of a page is erased. Pages are numbered as for `state_of`.
///
/// Source: ours.
pub fn is_blank<F: Flash>(flash: &F, page: usize) -> bool
    requires { page < page_count (F.device flash.now).size }
    ensures { result ≡ blank (page_at (F.device flash.now) page) }
{
    blank_to(flash, page, 0) == flash.shape().words()
}

/// The place, from one on, of a page's first word that is written; as many as it has
/// words where none is. Pages are numbered as for `state_of`.
///
/// Source: ours.
pub fn blank_to<F: Flash>(flash: &F, page: usize, from: usize) -> usize
    requires page_in_range { page < page_count (F.device flash.now).size }
    requires place_in_range { from ≤ (F.device flash.now).size.words }
    ensures from { from ≤ result }
    ensures within { result ≤ (F.device flash.now).size.words }
    ensures before { (j : ℕ) → from ≤ j → j < result
        → written (word_at (F.device flash.now) page j) ≡ false }
    ensures end { result < (F.device flash.now).size.words
        → written (word_at (F.device flash.now) page result) ≡ true }
{
    let words = flash.shape().words();
    let mut room = [UNREAD; RUN];
    let mut at = from;
    // The first run has one word, since that is written in most pages that aren't blank.
    let mut end = from + 1;
    'runs: while at < words {
        let run = run_from(flash, page, at, end, &mut room);
        // Asked first, since most runs are, and it is a shorter loop than one that counts.
        if !is_erased(run) {
            return at + erased_in(run);
        }
        at += run.len();
        end = words;
    }
    words
}

/// Whether all readings are all ones.
fn is_erased(readings: &[u64]) -> bool
    ensures yes { result ≡ true → (k : ℕ) → k < length readings.now
        → slice_index readings.now k ≡ all_ones }
    ensures no { result ≡ false → ¬ ((k : ℕ) → k < length readings.now
        → slice_index readings.now k ≡ all_ones) }
{
    let mut all = u64::MAX;
    for reading in readings {
        all &= *reading;
    }
    all == u64::MAX
}

/// How many readings, from the first on, are all ones.
fn erased_in(readings: &[u64]) -> usize
    ensures within { result ≤ length readings.now }
    ensures before { (k : ℕ) → k < result → slice_index readings.now k ≡ all_ones }
    ensures end { result < length readings.now → slice_index readings.now result ≢ all_ones }
{
    for (place, reading) in readings.iter().enumerate() {
        if *reading != u64::MAX {
            return place;
        }
    }
    readings.len()
}

/// Whether something was programmed into the word, whole or torn.
pub(crate) fn is_written(word: Word) -> bool
    ensures { result ≡ written word }
{
    !matches!(word, Word::Erased)
}

/// Whether a program of the word, or an erase of its page, was cut.
pub(crate) fn is_torn(word: Word) -> bool
    ensures { result ≡ torn word }
{
    matches!(word, Word::Torn)
}
