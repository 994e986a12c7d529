//! A flash of numbers with error correction as a driver gives it.
ghost use Rattle.std.specs.Prelude.{◌<◌, ◌≡◌, ◌⊎◌, OnErr, OnOk, Some, slice_index, true};
ghost use Rattle.ee_flash.specs.Device.{all_ones};
ghost use Rattle.ee_flash.specs.Size.{page_count};
ghost use Rattle.ee_nor.specs.Coded.EccNor.{EccDevice, EraseEcc, IsEccCutIn, IsEccFormed, IsEccUntouched, ProgramEcc, ecc_at, whole_number, with_ecc_erased, with_ecc_number};

use ee_flash::{Cut, Shape};

/// A flash of numbers of 64 bits: they are programmed one at a time, and erased a page at a time.
/// Its cells go from one to zero while a number is programmed, and from zero to one while a page is
/// erased. A number reads as its cells, or, by a correction, with one bit turned, or can't be read.
/// A flash without error correction is one whose numbers all read as their cells.
///
/// A page has as many numbers as its shape has words. Pages are numbered from 0, those of the first
/// set first, and so are the numbers of a page. Both are in range, as a condition of each call.
///
/// Source: ours.
pub trait EccNor {
    /// The device as a value.
    ghost ecc: { Self → EccDevice };

    /// The pages of each set and the numbers of each page.
    fn shape(&self) -> Shape
        ensures { result ≡ (ecc self.now).size };

    /// How often a page was erased, saturating at `u64::MAX`.
    fn wear(&self, page: usize) -> u64
        requires { page < page_count (ecc self.now).size }
        ensures { result ≡ slice_index (ecc self.now).wear page };

    /// Whether power is on.
    fn is_on(&self) -> bool
        ensures { result ≡ (ecc self.now).on };

    /// A number, whether power is on or off. `None` where it can't be read, or reads as `u64::MAX`
    /// by a correction alone.
    fn read(&self, page: usize, at: usize) -> Option<u64>
        requires page_in_range { page < page_count (ecc self.now).size }
        requires place_in_range { at < (ecc self.now).size.words }
        ensures { result ≡ (ecc_at (ecc self.now) page at).reading };

    /// Programs a number, below `u64::MAX`, in a place that reads `u64::MAX`.
    ///
    /// # Errors
    ///
    /// `Cut`, only with the device off afterwards: power failed in this step, and the cells of the
    /// place have every one of the number asked for; or power was off before it, and nothing
    /// changed.
    fn program(&mut self, page: usize, at: usize, number: u64) -> Result<(), Cut>
        requires page_in_range { page < page_count (ecc self.old).size }
        requires place_in_range { at < (ecc self.old).size.words }
        requires erased { (ecc_at (ecc self.old) page at).reading ≡ Some all_ones }
        requires below_all_ones { number < all_ones }
        ensures on { OnOk result ((ecc self.old).on ≡ true) }
        ensures done { OnOk result
            (ecc self.new ≡ with_ecc_number page at (whole_number number) (ecc self.old)) }
        ensures cut { OnErr result
            (IsEccCutIn (ProgramEcc page at number) (ecc self.old) (ecc self.new)
            ⊎ IsEccUntouched (ecc self.old) (ecc self.new)) };

    /// Erases a page: all its numbers are `u64::MAX`. An erase that starts adds 1 to the page's
    /// wear, also when it is cut.
    ///
    /// # Errors
    ///
    /// `Cut`, only with the device off afterwards: power failed in this step, or was off before it
    /// and nothing changed. A step that was cut left the cells of each number with every one that
    /// they had. It made none whole that a cut had left: what reads as a number whose ones were all
    /// there before read so before, unless it reads as erased.
    fn erase(&mut self, page: usize) -> Result<(), Cut>
        requires { page < page_count (ecc self.old).size }
        ensures on { OnOk result ((ecc self.old).on ≡ true) }
        ensures done { OnOk result (ecc self.new ≡ with_ecc_erased page (ecc self.old)) }
        ensures cut { OnErr result
            (IsEccCutIn (EraseEcc page) (ecc self.old) (ecc self.new)
            ⊎ IsEccUntouched (ecc self.old) (ecc self.new)) };

    /// How often power was cut in a step that had begun, saturating at `u64::MAX`.
    fn cuts(&self) -> u64
        ensures { result ≡ (ecc self.now).cuts };

    /// How many cuts may still come, `None` for any number. A step is cut only while this is not
    /// `Some(0)`, and a cut lowers a number by one.
    fn cuts_left(&self) -> Option<u64>
        ensures { result ≡ (ecc self.now).cuts_left };

    /// Turns power on. Nothing else changes.
    fn power_on(&mut self)
        ensures { ecc self.new ≡ record (ecc self.old) { on = true } };

    /// Every device is formed as its size says.
    ghost formed: { (flash : Self) → IsEccFormed (ecc flash) };
}
