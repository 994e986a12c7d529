//! A flash of plain numbers as a driver gives it: numbers are programmed, pages
//! erased, and power is cut.
ghost use Rattle.std.specs.Prelude.{◌<◌, ◌≤◌, ◌+◌, ◌≡◌, ◌⊎◌, IfSome, OnErr, OnOk, drop, slice_index, take, true};
ghost use Rattle.ee_flash.specs.Device.{all_ones};
ghost use Rattle.ee_flash.specs.Size.{page_count};
ghost use Rattle.ee_nor.specs.Nor.{EraseNumbers, IsNorCutIn, IsNorFormed, IsNorUntouched, NorDevice, ProgramNumber, number_at, number_count, numbers_at, with_number, with_numbers_erased};

use ee_flash::{Cut, Shape};

/// A flash of plain numbers: they are programmed one at a time, and erased a page at a time. Its
/// cells go from one to zero while a number is programmed. While a page is erased they go from zero
/// to one, and on some flashes all to zero first.
///
/// Its shape counts words, each of which takes two numbers: a page has twice as many numbers as
/// words. Pages are numbered from 0, those of the first set first, and so are the numbers of a
/// page. Both are in range, as a condition of each call.
///
/// Source: ours.
pub trait Nor {
    /// The device as a value.
    ghost nor: { Self → NorDevice };

    /// The pages of each set and the words of each page, of two numbers each.
    fn shape(&self) -> Shape
        ensures { result ≡ (nor self.now).size };

    /// Whether an erase first clears the cells of its page.
    fn clears_first(&self) -> bool
        ensures { result ≡ (nor self.now).clears_first };

    /// How often a page was erased, saturating at `u64::MAX`.
    fn wear(&self, page: usize) -> u64
        requires { page < page_count (nor self.now).size }
        ensures { result ≡ slice_index (nor self.now).wear page };

    /// Whether power is on.
    fn is_on(&self) -> bool
        ensures { result ≡ (nor self.now).on };

    /// A number, whether power is on or off.
    fn read(&self, page: usize, at: usize) -> u64
        requires page_in_range { page < page_count (nor self.now).size }
        requires place_in_range { at < number_count (nor self.now).size }
        ensures { result ≡ number_at (nor self.now) page at };

    /// So many numbers from a place of a page on, where the flash has them in memory, whether power
    /// is on or off. `None` where it hasn't: then `read` gives each.
    fn window(&self, page: usize, at: usize, count: usize) -> Option<&[u64]>
        requires page_in_range { page < page_count (nor self.now).size }
        requires places_in_range { at + count ≤ number_count (nor self.now).size }
        ensures { IfSome result (λ numbers.
            numbers.now ≡ take count (drop at (numbers_at (nor self.now) page))) };

    /// Programs a number, below `u64::MAX`, in a place that reads `u64::MAX`.
    ///
    /// # Errors
    ///
    /// `Cut`, only with the device off afterwards: power failed in this step, and the place
    /// has a number that has every bit of the one asked for; or power was off before it,
    /// and nothing changed.
    fn program(&mut self, page: usize, at: usize, number: u64) -> Result<(), Cut>
        requires page_in_range { page < page_count (nor self.old).size }
        requires place_in_range { at < number_count (nor self.old).size }
        requires erased { number_at (nor self.old) page at ≡ all_ones }
        requires below_all_ones { number < all_ones }
        ensures on { OnOk result ((nor self.old).on ≡ true) }
        ensures done { OnOk result (nor self.new ≡ with_number page at number (nor self.old)) }
        ensures cut { OnErr result
            (IsNorCutIn (ProgramNumber page at number) (nor self.old) (nor self.new)
            ⊎ IsNorUntouched (nor self.old) (nor self.new)) };

    /// Erases a page: all its numbers are `u64::MAX`. An erase that starts adds 1 to the page's
    /// wear, also when it is cut.
    ///
    /// # Errors
    ///
    /// `Cut`, only with the device off afterwards: power failed in this step, or was off before it
    /// and nothing changed. A step that was cut left each number of the page with every bit that it
    /// had. Where the flash clears first, it made no two numbers of a word each other's complement.
    fn erase(&mut self, page: usize) -> Result<(), Cut>
        requires { page < page_count (nor self.old).size }
        ensures on { OnOk result ((nor self.old).on ≡ true) }
        ensures done { OnOk result (nor self.new ≡ with_numbers_erased page (nor self.old)) }
        ensures cut { OnErr result
            (IsNorCutIn (EraseNumbers page) (nor self.old) (nor self.new)
            ⊎ IsNorUntouched (nor self.old) (nor self.new)) };

    /// How often power was cut in a step that had begun, saturating at `u64::MAX`.
    fn cuts(&self) -> u64
        ensures { result ≡ (nor self.now).cuts };

    /// How many cuts may still come, `None` for any number. A step is cut only while this is not
    /// `Some(0)`, and a cut lowers a number by one.
    fn cuts_left(&self) -> Option<u64>
        ensures { result ≡ (nor self.now).cuts_left };

    /// Turns power on. Nothing else changes.
    fn power_on(&mut self)
        ensures { nor self.new ≡ record (nor self.old) { on = true } };

    /// Every device is formed as its size says.
    ghost formed: { (flash : Self) → IsNorFormed (nor flash) };
}
