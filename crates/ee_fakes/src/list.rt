//! A flash device whose steps are done or cut as a list says.
ghost use Rattle.std.specs.Prelude.{◌≡◌, ◌+◌, ◌*◌, ◌<◌, ◌≤◌, ◌⊎◌, ◌↔◌, drop, IfOk, OnErr, OnOk, IsOk, vec_len, None};
ghost use Rattle.std.specs.List.{All};
ghost use Rattle.ee_flash.specs.Device.{IsBelowAllOnes, IsOff, IsOn, all_ones, page_at, word_at};
ghost use Rattle.ee_flash.specs.Size.{IsWithinLimits, page_count};

use crate::fate::erase_words;
use crate::{Fate, Left};
use ee_flash::{Cut, Flash, Shape, Word};
use std::alloc::{AllocError, Allocator, Global};
use std::cell::Cell;

/// A flash device in memory whose steps are done or cut as a list says, each word of a
/// cut step by itself.
///
/// Any number of cuts may come. Once the list has ended, every step is done. It counts how many
/// words of it are read.
#[derive(Drop)]
pub struct ListFlash<'a, A: Allocator = Global> {
    shape: Shape,
    // The words of the first page, then those of the second, and so on.
    cells: Vec<Word, A>,
    wear: Vec<u64, A>,
    cuts: u64,
    on: bool,
    fates: &'a [Fate<'a>],
    reads: Cell<u64>,
    ghost within_limits: { IsWithinLimits shape },
    ghost cells_length: { vec_len cells ≡ page_count shape * shape.words },
    ghost below_all_ones: { All IsBelowAllOnes cells.items },
    ghost wear_length: { vec_len wear ≡ page_count shape },
    ghost wear_fits: { All (λ count. count ≤ all_ones) wear.items },
    ghost cuts_fit: { cuts ≤ all_ones },
}

impl<'a, A: Allocator + Copy> ListFlash<'a, A> {
    ghost use Rattle.ee_fakes.specs.Listed.{state_of_list};
    ghost use Rattle.ee_flash.specs.Device.{blank_device};

    /// A device that is on, with every word erased, no wear and no cuts, whose steps meet these
    /// fates.
    ///
    /// # Errors
    ///
    /// `AllocError`: memory was refused.
    pub fn blank(alloc: A, shape: Shape, fates: &'a [Fate<'a>]) -> Result<Self, AllocError>
        ensures { IfOk result
            (λ flash. state_of_list flash
            ≡ record {
              device = record (blank_device shape) { cuts_left = None; fuse = None };
              fates = fates.now;
            }) }
    {
        let pages = 2 * shape.pages();
        let cells = vec![in alloc; Word::Erased; pages * shape.words()]?;
        let wear = vec![in alloc; 0; pages]?;
        Ok(ListFlash {
            shape,
            cells,
            wear,
            cuts: 0,
            on: true,
            fates,
            reads: Cell::new(0),
        })
    }
}

impl<'a, A: Allocator> ListFlash<'a, A> {
    ghost use Rattle.ee_fakes.specs.Listed.{device_of_list, state_of_list};
    ghost use Rattle.ee_fakes.specs.Fate.{page_of_fates, next_fate, device_after_fate, with_power_gone};
    ghost use Rattle.ee_flash.specs.Step.{Erase, with_page_erased, Program, with_page, with_word, with_page_worn};

    /// Puts these fates in the place of those to come.
    pub fn set_fates(&mut self, fates: &'a [Fate<'a>])
        ensures { state_of_list self.new ≡ record (state_of_list self.old) { fates = fates.now } }
    {
        self.fates = fates;
    }

    /// How many words were read so far.
    pub fn reads(&self) -> u64 {
        self.reads.get()
    }

    fn count_read(&self) {
        self.reads.set(self.reads.get().saturating_add(1));
    }

    // The place of a page's first word among the cells.
    fn page_start(&self, page: usize) -> usize
        requires { page < page_count self.now.shape }
        ensures value { result ≡ page * self.now.shape.words }
        ensures within { result + self.now.shape.words ≤ vec_len self.now.cells }
    {
        page * self.shape.words()
    }

    fn set_word(&mut self, page: usize, at: usize, word: Word)
        requires page_in_range { page < page_count self.old.shape }
        requires place_in_range { at < self.old.shape.words }
        requires below_all_ones { IsBelowAllOnes word }
        ensures { state_of_list self.new
            ≡ record (state_of_list self.old)
            { device = with_word page at word (device_of_list self.old) } }
    {
        let start = self.page_start(page);
        self.cells[start + at] = word;
    }

    fn wear_out(&mut self, page: usize)
        requires { page < page_count self.old.shape }
        ensures { state_of_list self.new
            ≡ record (state_of_list self.old)
            { device = with_page_worn page (device_of_list self.old) } }
    {
        self.wear[page] = self.wear[page].saturating_add(1);
    }

    fn erase_page(&mut self, page: usize, list: &[Left], rest: Left)
        requires { page < page_count self.old.shape }
        ensures { state_of_list self.new ≡ record (state_of_list self.old) {
          device =
              with_page page
              (page_of_fates list.now rest (page_at (device_of_list self.old) page))
              (device_of_list self.old);
        } }
    {
        let start = self.page_start(page);
        let end = start + self.shape.words();
        erase_words(&mut self.cells[start..end], list, rest);
    }

    // How a step begins: it takes the first fate. With the power off nothing changes.
    fn begin(&mut self) -> Result<Fate<'a>, Cut>
        ensures off { OnErr result
            (IsOff (device_of_list self.old) × (state_of_list self.new ≡ state_of_list self.old)) }
        ensures on { OnOk result (IsOn (device_of_list self.old)) }
        ensures fate { IfOk result (λ fate. fate ≡ next_fate (state_of_list self.old).fates) }
        ensures begun { OnOk result
            (state_of_list self.new
            ≡ record (state_of_list self.old)
            { fates = drop 1 (state_of_list self.old).fates }) }
    {
        if !self.on {
            return Err(Cut);
        }
        let Some(fate) = self.fates.first() else {
            return Ok(Fate::Done);
        };
        self.fates = &self.fates[1..];
        Ok(*fate)
    }

    fn cut_power(&mut self)
        ensures { state_of_list self.new
            ≡ record (state_of_list self.old)
            { device = with_power_gone (device_of_list self.old) } }
    {
        self.cuts = self.cuts.saturating_add(1);
        self.on = false;
    }

    // A program that is cut.
    fn cut_program(&mut self, page: usize, at: usize, value: u64, list: &[Left])
        requires page_in_range { page < page_count self.old.shape }
        requires place_in_range { at < self.old.shape.words }
        requires below_all_ones { value < all_ones }
        ensures { state_of_list self.new ≡ record (state_of_list self.old) {
          device =
              device_after_fate (Program page at value) (Fate.Cut list.entry)
              (device_of_list self.old);
        } }
    {
        let left = list.first().copied().unwrap_or(Left::Before);
        self.set_word(page, at, left.of(Word::Erased, Word::Held(value)));
        self.cut_power();
    }

    // An erase that is cut.
    fn cut_erase(&mut self, page: usize, list: &[Left])
        requires { page < page_count self.old.shape }
        ensures { state_of_list self.new ≡ record (state_of_list self.old) {
          device =
              device_after_fate (Erase page) (Fate.Cut list.entry) (device_of_list self.old);
        } }
    {
        self.erase_page(page, list, Left::Before);
        self.wear_out(page);
        self.cut_power();
    }

    // An erase that is done.
    fn whole_erase(&mut self, page: usize)
        requires { page < page_count self.old.shape }
        ensures { state_of_list self.new ≡ record (state_of_list self.old)
            { device = with_page_erased page (device_of_list self.old) } }
    {
        self.erase_page(page, &[], Left::After);
        self.wear_out(page);
    }
}

impl<A: Allocator> Flash for ListFlash<'_, A> {
    ghost use Rattle.ee_fakes.specs.Listed.{after_listed_step, IsNextDone, device_of_list, state_of_list};
    ghost use Rattle.ee_flash.specs.Step.{Erase, with_page_erased, IsCutIn, IsUntouched, Program, with_word_programmed};
    ghost use Rattle.ee_fakes.specs.Formed.{IsFormed-listed};
    ghost use Rattle.ee_flash.specs.OwnReadings.{own_shown};
    ghost use Rattle.ee_flash.specs.Runs.{IsOwnReading};
    ghost use Rattle.std.proofs.Common.{sym, ◌∙◌};

    ghost device = { device_of_list };

    ghost reads = { λ flash. IsOwnReading };

    ghost shown = { λ flash. own_shown };

    ghost formed = { λ flash.
        IsFormed-listed flash.shape flash.cells.items flash.wear.items flash.cuts flash.on
        flash.within_limits (sym flash.cells.ok.0 ∙ flash.cells_length) flash.below_all_ones
        (sym flash.wear.ok.0 ∙ flash.wear_length) flash.wear_fits flash.cuts_fit };

    fn shape(&self) -> Shape {
        self.shape
    }

    fn wear(&self, page: usize) -> u64 {
        self.wear[page]
    }

    fn is_on(&self) -> bool {
        self.on
    }

    fn word(&self, page: usize, at: usize) -> Word {
        self.count_read();
        self.cells[self.page_start(page) + at]
    }

    fn run<'a>(&'a self, page: usize, at: usize, room: &'a mut [u64]) -> &'a [u64] {
        for (behind, number) in room.iter_mut().enumerate() {
            *number = self.word(page, at + behind).number();
        }
        room
    }

    fn number(&self, reading: u64) -> u64 {
        reading
    }

    fn in_clear(&self, reading: u64) -> u64 {
        reading
    }

    // As of any device, and besides exactly what the list says.
    fn program(&mut self, page: usize, at: usize, value: u64) -> Result<(), Cut>
        requires page_in_range { page < page_count (device_of_list self.old).size }
        requires place_in_range { at < (device_of_list self.old).size.words }
        requires erased { word_at (device_of_list self.old) page at ≡ Word.Erased }
        requires below_all_ones { value < all_ones }
        ensures on { OnOk result (IsOn (device_of_list self.old)) }
        ensures done { OnOk result
            (device_of_list self.new
            ≡ with_word_programmed page at value (device_of_list self.old)) }
        ensures cut { OnErr result (IsCutIn (Program page at value) (device_of_list self.old)
            (device_of_list self.new)
            ⊎ IsUntouched (device_of_list self.old) (device_of_list self.new)) }

        ensures passes { IsOk result ↔ IsNextDone (state_of_list self.old) }
        ensures exact { state_of_list self.new
            ≡ after_listed_step (Program page at value) (state_of_list self.old) }
    {
        match self.begin()? {
            Fate::Done => {
                self.set_word(page, at, Word::Held(value));
                Ok(())
            }
            Fate::Cut(list) => {
                self.cut_program(page, at, value, list);
                Err(Cut)
            }
        }
    }

    // As of any device, and besides exactly what the list says.
    fn erase(&mut self, page: usize) -> Result<(), Cut>
        requires { page < page_count (device_of_list self.old).size }
        ensures on { OnOk result (IsOn (device_of_list self.old)) }
        ensures done { OnOk result
            (device_of_list self.new ≡ with_page_erased page (device_of_list self.old)) }
        ensures cut { OnErr result (IsCutIn (Erase page) (device_of_list self.old)
            (device_of_list self.new)
            ⊎ IsUntouched (device_of_list self.old) (device_of_list self.new)) }

        ensures passes { IsOk result ↔ IsNextDone (state_of_list self.old) }
        ensures exact { state_of_list self.new ≡ after_listed_step (Erase page) (state_of_list self.old) }
    {
        match self.begin()? {
            Fate::Done => {
                self.whole_erase(page);
                Ok(())
            }
            Fate::Cut(list) => {
                self.cut_erase(page, list);
                Err(Cut)
            }
        }
    }

    fn cuts(&self) -> u64 {
        self.cuts
    }

    fn cuts_left(&self) -> Option<u64> {
        None
    }

    fn power_on(&mut self) {
        self.on = true;
    }
}
