//! The flash device in memory: its words, the wears of its pages, and a fuse that may cut a step.
ghost use Rattle.std.specs.Prelude.{true, ◌<◌, ◌≤◌, ◌*◌, ◌≡◌, ◌⊎◌, ◌+◌, ◌↔◌, IfErr, IfOk, IsTrue, OnErr, OnOk, is_ok, length, replicate, vec_len};
ghost use Rattle.std.specs.List.{All};
ghost use Rattle.ee_flash.specs.Device.{IsBelowAllOnes, all_ones, page_at};
ghost use Rattle.ee_flash.specs.Kept.{words_of};
ghost use Rattle.ee_flash.specs.Size.{IsWithinLimits, page_count};

use crate::cells::{Kept, first_all_ones};
use crate::{Cells, Cut, Flash, Fuse, Shape, Tear, Word};
use std::alloc::{AllocError, Allocator, Global};

/// Why words and wears are no device: they are not as many as the shape says.
///
/// Source: ours.
#[derive(Clone, Copy, Debug, PartialEq, Eq)]
pub struct WrongLength;

/// Why words that may hold any number, and wears, are no device.
///
/// Source: ours.
#[derive(Clone, Copy, Debug, PartialEq, Eq)]
pub enum CellFault {
    /// The words or the wears are not as many as the shape says.
    WrongLength,
    /// The word at this index, counted from 0 and the first of its kind, is held at `u64::MAX`.
    AllOnes(usize),
}

/// A flash device in memory, with a fuse that may cut a step.
///
/// Source: ours.
#[derive(Drop)]
pub struct MemFlash<A: Allocator = Global> {
    shape: Shape,
    /// The words of the first page, then those of the second, and so on.
    cells: Kept<A>,
    wear: Vec<u64, A>,
    cuts: u64,
    on: bool,
    steps: u64,
    fuse: Option<Fuse>,
    ghost within_limits: { IsWithinLimits shape },
    ghost cells_length: { length (words_of cells) ≡ page_count shape * shape.words },
    ghost below_all_ones: { All IsBelowAllOnes (words_of cells) },
    ghost wear_length: { vec_len wear ≡ page_count shape },
    ghost wear_fits: { All (λ count. count ≤ all_ones) wear.items },
    ghost cuts_fit: { cuts ≤ all_ones },
}

impl<A: Allocator + Copy> MemFlash<A> {
    ghost use Rattle.ee_flash.specs.Memory.{memory_of, unused_memory};
    ghost use Rattle.ee_flash.specs.Device.{blank_device};

    /// A device that is on, with every word erased, no wear, no cuts, no steps and no fuse.
    ///
    /// # Errors
    ///
    /// `AllocError`: memory was refused.
    pub fn blank(alloc: A, shape: Shape) -> Result<Self, AllocError>
        ensures { IfOk result (λ flash. memory_of flash ≡ unused_memory (blank_device shape)) }
    {
        let pages = 2 * shape.pages();
        let cells = Cells::erased(alloc, pages * shape.words())?;
        let wear = vec![in alloc; 0; pages]?;
        Ok(Self::unused(shape, Kept::Cells(cells), wear))
    }
}

impl<A: Allocator> MemFlash<A> {
    ghost use Rattle.ee_flash.specs.Memory.{with_fuse, with_step_begun, device_of, memory_of, unused_memory, with_device};
    ghost use Rattle.ee_flash.specs.Cells.{HasLengths, IsCellFault, device_from};
    ghost use Rattle.ee_flash.specs.Device.{IsOff, IsOn};
    ghost use Rattle.ee_flash.specs.Step.{IsPartlyErased, with_page, with_word, with_page_worn};
    ghost use Rattle.ee_flash.specs.Fuse.{left_page, next_tear};

    /// The device of these words, page after page, and these wears of its pages. It is on, with no
    /// cuts, no steps and no fuse. It takes no memory.
    ///
    /// # Errors
    ///
    /// The first that applies, and both vectors are dropped: `WrongLength`, where the words or the
    /// wears are not those of two sets of pages; `AllOnes`, where a word is held at `u64::MAX`.
    pub fn from_cells(
        shape: Shape,
        words: Vec<Word, A>,
        wear: Vec<u64, A>,
    ) -> Result<Self, CellFault>
        ensures device { IfOk result
            (λ flash. memory_of flash ≡ unused_memory (device_from shape words.items wear.items)) }
        ensures lengths { OnOk result (HasLengths shape words.items wear.items) }
        ensures below_all_ones { OnOk result (All IsBelowAllOnes words.items) }
        ensures fault { IfErr result (IsCellFault shape words.items wear.items) }
    {
        if !are_as_many(shape, words.len(), wear.len()) {
            return Err(CellFault::WrongLength);
        }
        if let Some(at) = first_all_ones(&words) {
            return Err(CellFault::AllOnes(at));
        }
        Ok(Self::unused(shape, Kept::Words(words), wear))
    }

    /// The device of these words and wears, as `from_cells` has it, where the words stand as
    /// numbers and flags: its runs take no room.
    ///
    /// # Errors
    ///
    /// `WrongLength`, where the words or the wears are not those of two sets of
    /// pages. Both are dropped.
    pub fn of_cells(shape: Shape, cells: Cells<A>, wear: Vec<u64, A>) -> Result<Self, WrongLength>
        ensures device { IfOk result
            (λ flash. memory_of flash ≡ unused_memory (device_from shape cells wear.items)) }
        ensures lengths { OnOk result (HasLengths shape cells wear.items) }
        ensures below_all_ones { OnOk result (All IsBelowAllOnes cells) }
        ensures fault { OnErr result (¬ HasLengths shape cells wear.items) }
    {
        if !are_as_many(shape, cells.len(), wear.len()) {
            return Err(WrongLength);
        }
        Ok(Self::unused(shape, Kept::Cells(cells), wear))
    }

    /// The device of these words and wears, which are those of two sets of pages.
    fn unused(shape: Shape, cells: Kept<A>, wear: Vec<u64, A>) -> Self
        requires lengths { HasLengths shape (words_of cells) wear.items }
        requires below_all_ones { All IsBelowAllOnes (words_of cells) }
        ensures { memory_of result
            ≡ unused_memory (device_from shape (words_of cells) wear.items) }
    {
        MemFlash {
            shape,
            cells,
            wear,
            cuts: 0,
            on: true,
            steps: 0,
            fuse: None,
        }
    }

    /// Sets the fuse: `after` further steps pass and the next one is cut. A new fuse replaces an
    /// old one.
    pub fn arm(&mut self, fuse: Fuse)
        ensures { memory_of self.new
            ≡ with_device (with_fuse fuse (device_of self.old)) (memory_of self.old) }
    {
        self.fuse = Some(fuse);
    }

    /// How many steps began while the device was on, saturating at `u64::MAX`.
    pub fn steps(&self) -> u64
        ensures { result ≡ (memory_of self.now).steps }
    {
        self.steps
    }

    /// How a step begins: it is counted, and cut if the fuse says so. While power is off nothing
    /// changes.
    fn begin(&mut self) -> Result<Option<Tear>, Cut>
        ensures off { OnErr result (IsOff (device_of self.old)) }
        ensures untouched { OnErr result (memory_of self.new ≡ memory_of self.old) }
        ensures on { OnOk result (IsOn (device_of self.old)) }
        ensures tear { IfOk result (λ tear. tear ≡ next_tear self.old.fuse) }
        ensures begun { OnOk result (memory_of self.new ≡ with_step_begun (memory_of self.old)) }
    {
        if !self.on {
            return Err(Cut);
        }
        self.steps = self.steps.saturating_add(1);
        let Some(fuse) = self.fuse else {
            return Ok(None);
        };
        if fuse.after > 0 {
            self.fuse = Some(Fuse {
                after: fuse.after - 1,
                tear: fuse.tear,
            });
            return Ok(None);
        }
        self.fuse = None;
        self.cuts = self.cuts.saturating_add(1);
        self.on = false;
        Ok(Some(fuse.tear))
    }

    /// The place of a page's first word among the cells.
    fn page_start(&self, page: usize) -> usize
        requires { page < page_count self.now.shape }
        ensures value { result ≡ page * self.now.shape.words }
        ensures within { result + self.now.shape.words ≤ length (words_of self.now.cells) }
        ensures few { result + self.now.shape.words ≤ 65536 }
    {
        page * self.shape.words()
    }

    /// Puts a word in a place, whatever was there.
    fn set_word(&mut self, page: usize, at: usize, word: Word)
        requires page_in_range { page < page_count self.old.shape }
        requires place_in_range { at < self.old.shape.words }
        requires below_all_ones { IsBelowAllOnes word }
        ensures { memory_of self.new
            ≡ with_device (with_word page at word (device_of self.old)) (memory_of self.old) }
    {
        let start = self.page_start(page);
        self.cells.set(start + at, word);
    }

    /// Counts an erase of a page.
    fn wear_out(&mut self, page: usize)
        requires { page < page_count self.old.shape }
        ensures { memory_of self.new
            ≡ with_device (with_page_worn page (device_of self.old)) (memory_of self.old) }
    {
        self.wear[page] = self.wear[page].saturating_add(1);
    }

    /// Leaves a page as an erase with this tear does, a whole one where it is `Done`.
    fn tear_page(&mut self, page: usize, tear: Tear)
        requires { page < page_count self.old.shape }
        ensures left { let left = left_page tear (page_at (device_of self.old) page) in
            memory_of self.new
            ≡ with_device (with_page page left (device_of self.old)) (memory_of self.old) }
        ensures whole { let erased_words = replicate self.old.shape.words Word.Erased in
            tear ≡ Tear.Done → memory_of self.new
            ≡ with_device (with_page page erased_words (device_of self.old)) (memory_of self.old) }
        ensures partly { IsPartlyErased
            (page_at (device_of self.old) page) (page_at (device_of self.new) page) }
        ensures own_page { let left = page_at (device_of self.new) page in
            (device_of self.new).image ≡ (with_page page left (device_of self.old)).image }
    {
        let start = self.page_start(page);
        self.cells.tear(start, start + self.shape.words(), tear);
    }
}

/// Whether there are as many words and wears as a device of this shape has.
fn are_as_many(shape: Shape, words: usize, wears: usize) -> bool
    ensures { IsTrue result
        ↔ ((words ≡ page_count shape * shape.words) × (wears ≡ page_count shape)) }
{
    let pages = 2 * shape.pages();
    words == pages * shape.words() && wears == pages
}

impl<A: Allocator> Flash for MemFlash<A> {
    ghost use Rattle.ee_flash.specs.Memory.{Passes, after_step, device_of, memory_of, with_device};
    ghost use Rattle.ee_flash.specs.Device.{IsOn, word_at};
    ghost use Rattle.ee_flash.specs.Step.{Erase, IsCutIn, IsUntouched, Program, with_page_erased, with_word_programmed};
    ghost use Rattle.ee_flash.specs.Formed.{IsFormed-pages_of};
    ghost use Rattle.ee_flash.specs.OwnReadings.{own_shown};
    ghost use Rattle.ee_flash.specs.Runs.{IsOwnReading};
    ghost use Rattle.std.proofs.Common.{sym, ◌∙◌};

    ghost device = { device_of };

    ghost reads = { λ flash. IsOwnReading };

    ghost shown = { λ flash. own_shown };

    ghost formed = { λ flash. IsFormed-pages_of
        flash.shape (words_of flash.cells) flash.wear.items flash.cuts flash.fuse flash.on
        flash.within_limits flash.cells_length flash.below_all_ones
        (sym flash.wear.ok.0 ∙ flash.wear_length) flash.wear_fits flash.cuts_fit };

    fn shape(&self) -> Shape {
        self.shape
    }

    fn wear(&self, page: usize) -> u64 {
        self.wear[page]
    }

    fn is_on(&self) -> bool {
        self.on
    }

    fn word(&self, page: usize, at: usize) -> Word {
        self.cells.word(self.page_start(page) + at)
    }

    fn run<'a>(&'a self, page: usize, at: usize, room: &'a mut [u64]) -> &'a [u64] {
        self.cells.run(self.page_start(page) + at, room)
    }

    fn number(&self, reading: u64) -> u64 {
        reading
    }

    fn in_clear(&self, reading: u64) -> u64 {
        reading
    }

    /// Programs an erased word, as any device does; what a cut leaves is what the fuse says.
    fn program(&mut self, page: usize, at: usize, value: u64) -> Result<(), Cut>
        requires page_in_range { page < page_count (device_of self.old).size }
        requires place_in_range { at < (device_of self.old).size.words }
        requires erased { word_at (device_of self.old) page at ≡ Word.Erased }
        requires below_all_ones { value < all_ones }
        ensures on { OnOk result (IsOn (device_of self.old)) }
        ensures done { OnOk result
            (device_of self.new ≡ with_word_programmed page at value (device_of self.old)) }
        ensures cut { OnErr result
            (IsCutIn (Program page at value) (device_of self.old) (device_of self.new)
            ⊎ IsUntouched (device_of self.old) (device_of self.new)) }

        ensures exact { memory_of self.new
            ≡ after_step (Program page at value) (memory_of self.old) }
        ensures passes { IsTrue (is_ok result) ↔ Passes (memory_of self.old) }
    {
        let tear = self.begin()?;
        self.set_word(page, at, tear.unwrap_or(Tear::Done).programmed(value));
        match tear {
            None => Ok(()),
            Some(_) => Err(Cut),
        }
    }

    /// Erases a page, as any device does; what a cut leaves is what the fuse says.
    fn erase(&mut self, page: usize) -> Result<(), Cut>
        requires { page < page_count (device_of self.old).size }
        ensures on { OnOk result (IsOn (device_of self.old)) }
        ensures done { OnOk result (device_of self.new ≡ with_page_erased page (device_of self.old)) }
        ensures cut { OnErr result
            (IsCutIn (Erase page) (device_of self.old) (device_of self.new)
            ⊎ IsUntouched (device_of self.old) (device_of self.new)) }

        ensures exact { memory_of self.new ≡ after_step (Erase page) (memory_of self.old) }
        ensures passes { IsTrue (is_ok result) ↔ Passes (memory_of self.old) }
    {
        let tear = self.begin()?;
        self.wear_out(page);
        match tear {
            None => {
                self.tear_page(page, Tear::Done);
                Ok(())
            }
            Some(tear) => {
                self.tear_page(page, tear);
                Err(Cut)
            }
        }
    }

    fn cuts(&self) -> u64 {
        self.cuts
    }

    fn cuts_left(&self) -> Option<u64> {
        match self.fuse {
            None => Some(0),
            Some(_) => Some(1),
        }
    }

    /// Turns power on. The fuse stays.
    fn power_on(&mut self)
        ensures { memory_of self.new
            ≡ with_device (record (device_of self.old) { on = true }) (memory_of self.old) }
    {
        self.on = true;
    }
}
