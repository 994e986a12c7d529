//! The flash device as the layers above know it: words are programmed, pages erased, and power is
//! cut.
ghost use Rattle.std.specs.Prelude.{◌<◌, ◌≤◌, ◌+◌, ◌≡◌, ◌⊎◌, ℕ, OnErr, OnOk, length, true};
ghost use Rattle.ee_flash.specs.Device.{Device, IsBelowAllOnes, IsFormed, IsOn, all_ones, wear_at, word_at};
ghost use Rattle.ee_flash.specs.Numbers.{IsStoreNumber};
ghost use Rattle.ee_flash.specs.Runs.{AreReadings, IsInClear, IsShownBy, number_of, words_from};
ghost use Rattle.ee_flash.specs.Size.{page_count};
ghost use Rattle.ee_flash.specs.Step.{Erase, IsCutIn, IsUntouched, Program, with_page_erased, with_word_programmed};

use crate::{Shape, Word};

/// Power failed during a step, or was off before it.
///
/// Source: ours.
#[derive(Clone, Copy, Debug, PartialEq, Eq)]
pub struct Cut;

/// A flash device: words that are programmed one at a time, and erased a page at a time.
///
/// Pages are numbered from 0, those of the first set first, and so are the words of a page. Both
/// are in range, as a condition of each call.
///
/// Source: programming by 64-bit words, erasing by pages and words that read as unreadable, AN4894;
/// the rest, and what a cut may leave, is ours.
pub trait Flash {
    ghost use Rattle.ee_flash.specs.declared.word.Word.{Word};

    /// The device as a value.
    ghost device: { Self → Device };

    /// As what a word may read in a run.
    ghost reads: { Self → Word → ℕ → Type 0 };

    /// The pages of each set and the words of each page.
    fn shape(&self) -> Shape
        ensures { result ≡ (device self.now).size };

    /// How often a page was erased, saturating at `u64::MAX`.
    fn wear(&self, page: usize) -> u64
        requires { page < page_count (device self.now).size }
        ensures { result ≡ wear_at (device self.now) page };

    /// Whether power is on.
    fn is_on(&self) -> bool
        ensures { result ≡ (device self.now).on };

    /// What a word holds, whether power is on or off.
    fn word(&self, page: usize, at: usize) -> Word
        requires page_in_range { page < page_count (device self.now).size }
        requires place_in_range { at < (device self.now).size.words }
        ensures value { result ≡ word_at (device self.now) page at }
        ensures below_all_ones { IsBelowAllOnes result };

    /// Readings of the words from a place on, as many as there is room for, whether power is on or
    /// off. They stand in the room, or where the device has them. An erased word alone reads as
    /// `u64::MAX`, and a slot's number as one that ends in the same 16 bits.
    fn run<'a>(&'a self, page: usize, at: usize, room: &'a mut [u64]) -> &'a [u64]
        requires page_in_range { page < page_count (device self.now).size }
        requires places_in_range { at + length room.old ≤ (device self.now).size.words }
        ensures { let words = words_from (device self.now) page at (length room.old) in
            AreReadings (reads self.now) words result.now };

    /// The number of the word that reads so: `u64::MAX` of an erased word, 0 of a torn one. `word`
    /// tells a torn word from one that holds 0.
    fn number(&self, reading: u64) -> u64
        ensures { (word : Word) → reads self.now word reading → result ≡ number_of word };

    /// What stands in a reading with no check. Of a word that holds a slot's number it is that
    /// number; where it is one that ends in less than 65535, the word holds it or is torn.
    fn in_clear(&self, reading: u64) -> u64
        ensures { (word : Word) → reads self.now word reading → IsInClear word result };

    /// Programs an erased word with a number below `u64::MAX`, one of those that a store writes.
    ///
    /// # Errors
    ///
    /// `Cut`, only with the device off afterwards: power failed in this step, or was off before it
    /// and nothing changed.
    fn program(&mut self, page: usize, at: usize, value: u64) -> Result<(), Cut>
        requires page_in_range { page < page_count (device self.old).size }
        requires place_in_range { at < (device self.old).size.words }
        requires erased { word_at (device self.old) page at ≡ Word.Erased }
        requires below_all_ones { value < all_ones }
        requires of_a_store { IsStoreNumber value }
        ensures on { OnOk result (IsOn (device self.old)) }
        ensures done { OnOk result (device self.new ≡ with_word_programmed page at value (device self.old)) }
        ensures cut { OnErr result
            (IsCutIn (Program page at value) (device self.old) (device self.new)
            ⊎ IsUntouched (device self.old) (device self.new)) };

    /// Erases a page. An erase that starts adds 1 to the page's wear, also when it is cut.
    ///
    /// # Errors
    ///
    /// `Cut`, only with the device off afterwards: power failed in this step, or was off before it
    /// and nothing changed.
    fn erase(&mut self, page: usize) -> Result<(), Cut>
        requires { page < page_count (device self.old).size }
        ensures on { OnOk result (IsOn (device self.old)) }
        ensures done { OnOk result (device self.new ≡ with_page_erased page (device self.old)) }
        ensures cut { OnErr result
            (IsCutIn (Erase page) (device self.old) (device self.new)
            ⊎ IsUntouched (device self.old) (device self.new)) };

    /// How often power was cut in a step that had begun, saturating at `u64::MAX`.
    fn cuts(&self) -> u64
        ensures { result ≡ (device self.now).cuts };

    /// How many cuts may still come, `None` for any number. A step is cut only while this is not
    /// `Some(0)`, and a cut lowers a number by one.
    fn cuts_left(&self) -> Option<u64>
        ensures { result ≡ (device self.now).cuts_left };

    /// Turns power on. Nothing else changes.
    fn power_on(&mut self)
        ensures { device self.new ≡ record (device self.old) { on = true } };

    /// Every device is formed as its size says.
    ghost formed: { (flash : Self) → IsFormed (device flash) };

    /// What each reading shows as it is.
    ghost shown: { (flash : Self) (word : Word) (reading : ℕ) → reads flash word reading
        → IsShownBy word reading };
}
