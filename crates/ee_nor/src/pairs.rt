//! A device of words on a flash of numbers.
ghost use Rattle.std.specs.Prelude.{◌<◌, ◌≡◌, ◌⊎◌, ℕ, IfErr, IfOk, OnErr, OnOk, false, true};
ghost use Rattle.ee_flash.specs.Device.{all_ones};
ghost use Rattle.ee_nor.specs.Nor.{number_at};
ghost use Rattle.ee_nor.specs.Pairs.{IsLowFault, IsSafe, NoLowPair, complement, pair_word};
ghost use Rattle.ee_nor.specs.Wiping.{IsWipeCut, with_all_wiped};

use crate::low_pair::{LowPair, first_low};
use crate::nor::Nor;
use crate::runs::{fill_run, is_whole};
use crate::wiping::wipe;
use ee_flash::{Cut, Flash, Shape, Word};

/// A device of words on a flash of numbers: each word is two of them, a value beside its
/// complement.
///
/// Source: ours.
#[derive(Drop)]
pub struct Pairs<N: Nor + Drop> {
    nor: N,
    ghost safe: { IsSafe (N.nor nor) },
}

impl<N: Nor + Drop> Pairs<N> {
    /// The device of words of a flash that a store wrote, or that is blank. It reads each number
    /// once, whether power is on or off, and changes nothing. Of a flash that clears first it reads
    /// none: there a cut erase leaves any numbers.
    ///
    /// # Errors
    ///
    /// `LowPair`, with the flash as it was: it doesn't clear first, and this is the first
    /// word whose two numbers sum to less than `u64::MAX`. The flash held something else;
    /// `wipe` makes it blank.
    pub fn of(nor: N) -> Result<Pairs<N>, (N, LowPair)>
        ensures same { IfOk result (λ pairs. N.nor pairs.nor ≡ N.nor nor) }
        ensures looked { OnOk result
            ((N.nor nor).clears_first ≡ false → NoLowPair (N.nor nor)) }
        ensures fault { IfErr result (λ refused. IsLowFault (N.nor nor) refused.1) }
        ensures untouched { IfErr result (λ refused. N.nor refused.0 ≡ N.nor nor) }
    {
        if nor.clears_first() {
            return Ok(Pairs { nor });
        }
        match first_low(&nor) {
            None => Ok(Pairs { nor }),
            Some(low) => Err((nor, low)),
        }
    }

    /// The device of words of a flash that may hold anything: each page that isn't blank is erased,
    /// by rising page. The flash is on, as a condition.
    ///
    /// # Errors
    ///
    /// `Cut`, with the flash, which is off: power failed in an erase. The pages
    /// before it are blank.
    pub fn wipe(mut nor: N) -> Result<Pairs<N>, (N, Cut)>
        requires { (N.nor nor).on ≡ true }
        ensures wiped { IfOk result (λ pairs. N.nor pairs.nor ≡ with_all_wiped (N.nor nor)) }
        ensures blank { IfOk result
            (λ pairs. (page at : ℕ) → number_at (N.nor pairs.nor) page at ≡ all_ones) }
        ensures cut { IfErr result (λ refused. IsWipeCut (N.nor nor) (N.nor refused.0)) }
    {
        match wipe(&mut nor) {
            Ok(()) => Ok(Pairs { nor }),
            Err(cut) => Err((nor, cut)),
        }
    }

    /// The device of words of a flash that clears first, or of which it is known that no word's
    /// numbers sum to less than `u64::MAX`, since it was looked at before and only such devices
    /// wrote to it. Where power is cut in no step, it is of any flash, as of one that `of` refuses
    /// and that is rescued: such a word is torn. Nothing is read.
    pub fn known(nor: N) -> Pairs<N>
        requires safe { IsSafe (N.nor nor) }
        ensures same { N.nor result.nor ≡ N.nor nor }
    {
        Pairs { nor }
    }

    /// The flash, as it is.
    pub fn into_nor(self) -> N
        ensures same { N.nor result ≡ N.nor self.nor }
        ensures safe { IsSafe (N.nor result) }
    {
        self.nor
    }
}

/// The word that two numbers are: erased where both are `u64::MAX`, held where the second is the
/// complement of the first, which is below `u64::MAX`; else torn.
///
/// Source: ours.
#[tactic(auto, using(crate::proofs::Halves::whole_erased, crate::proofs::Halves::whole_held))]
pub fn word_of(number: u64, check: u64) -> Word
    ensures { result ≡ pair_word number check }
{
    if !is_whole(number, check) {
        return Word::Torn;
    }
    if number == u64::MAX {
        return Word::Erased;
    }
    Word::Held(number)
}

/// The number that has a one where this one has a zero.
///
/// Source: ours.
pub fn complement_of(number: u64) -> u64
    ensures { result ≡ complement number }
{
    u64::MAX - number
}

impl<N: Nor + Drop> Flash for Pairs<N> {
    ghost use Rattle.ee_flash.specs.Device.{IsOn, word_at};
    ghost use Rattle.ee_flash.specs.Size.{page_count};
    ghost use Rattle.ee_flash.specs.Step.{IsCutIn, IsUntouched, Program, with_word_programmed};
    ghost use Rattle.ee_nor.specs.Pairs.{paired_device};
    ghost use Rattle.ee_nor.specs.Formed.{pairs_are_formed};
    ghost use Rattle.ee_flash.specs.OwnReadings.{own_shown};
    ghost use Rattle.ee_flash.specs.Runs.{IsOwnReading};

    ghost device = { λ pairs. paired_device (N.nor pairs.nor) };

    ghost reads = { λ pairs. IsOwnReading };

    ghost shown = { λ pairs. own_shown };

    ghost formed = { λ pairs. pairs_are_formed (N.nor pairs.nor) (N.formed pairs.nor) };

    fn shape(&self) -> Shape {
        self.nor.shape()
    }

    fn wear(&self, page: usize) -> u64 {
        self.nor.wear(page)
    }

    fn is_on(&self) -> bool {
        self.nor.is_on()
    }

    fn word(&self, page: usize, at: usize) -> Word {
        word_of(self.nor.read(page, 2 * at), self.nor.read(page, 2 * at + 1))
    }

    fn run<'a>(&'a self, page: usize, at: usize, room: &'a mut [u64]) -> &'a [u64] {
        fill_run(&self.nor, page, at, room);
        room
    }

    fn number(&self, reading: u64) -> u64 {
        reading
    }

    fn in_clear(&self, reading: u64) -> u64 {
        reading
    }

    /// Programs an erased word with any number below `u64::MAX`.
    // The complement of 0 is what an erased place reads as.
    fn program(&mut self, page: usize, at: usize, value: u64) -> Result<(), Cut>
        requires page_in_range { page < page_count (paired_device (N.nor self.old.nor)).size }
        requires place_in_range { at < (paired_device (N.nor self.old.nor)).size.words }
        requires erased { word_at (paired_device (N.nor self.old.nor)) page at ≡ Word.Erased }
        requires below_all_ones { value < all_ones }
        ensures on { OnOk result (IsOn (paired_device (N.nor self.old.nor))) }
        ensures done { OnOk result (paired_device (N.nor self.new.nor)
            ≡ with_word_programmed page at value (paired_device (N.nor self.old.nor))) }
        ensures cut { OnErr result
            (IsCutIn (Program page at value) (paired_device (N.nor self.old.nor))
            (paired_device (N.nor self.new.nor))
            ⊎ IsUntouched (paired_device (N.nor self.old.nor)) (paired_device (N.nor self.new.nor))) }
    {
        self.nor.program(page, 2 * at, value)?;
        let check = complement_of(value);
        if check == u64::MAX {
            return Ok(());
        }
        self.nor.program(page, 2 * at + 1, check)
    }

    fn erase(&mut self, page: usize) -> Result<(), Cut> {
        self.nor.erase(page)
    }

    fn cuts(&self) -> u64 {
        self.nor.cuts()
    }

    fn cuts_left(&self) -> Option<u64> {
        self.nor.cuts_left()
    }

    fn power_on(&mut self) {
        self.nor.power_on();
    }
}
