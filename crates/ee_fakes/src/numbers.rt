//! A flash of plain numbers whose steps are done or cut as a list says.
ghost use Rattle.std.specs.Prelude.{◌≡◌, ◌+◌, ◌*◌, ◌<◌, ◌≤◌, drop, length, map, replicate, take, IfOk, OnErr, OnOk, vec_len, true, false};
ghost use Rattle.std.specs.List.{All};
ghost use Rattle.ee_flash.specs.Device.{all_ones};
ghost use Rattle.ee_flash.specs.Size.{IsWithinLimits, page_count};
ghost use Rattle.ee_nor.specs.Nor.{HasBits, IsNorNumber, KeepsBits, number_count};

use ee_flash::{Cut, Shape};
use ee_nor::Nor;
use std::alloc::{AllocError, Allocator, Global};

/// What becomes of a step of a flash of numbers.
#[derive(Clone, Copy)]
pub enum NumberFate<'a> {
    /// It is done.
    Done,
    /// Power is cut in it. A mask has the ones that are left beside those that stay: a programmed
    /// number keeps the ones of the number asked for and has the first mask's too, and each number
    /// of an erased page keeps its own and has those of the mask at its place. Past the end of the
    /// masks there are none.
    Cut(&'a [u64]),
}

/// A number with the ones of a mask too.
fn with_bits(number: u64, mask: u64) -> u64
    ensures { HasBits result number }
{
    mask | number
}

/// Gives each number the ones of its mask too.
fn set_bits(numbers: &mut [u64], masks: &[u64])
    requires { All IsNorNumber numbers.old }
    ensures keeps { KeepsBits numbers.old numbers.new }
    ensures fit { All IsNorNumber numbers.new }
{
    for (at, number) in numbers.iter_mut().enumerate() {
        *number = with_bits(*number, masks.get(at).copied().unwrap_or(0));
    }
}

/// A flash of plain numbers in memory whose steps are done or cut as a list says, each bit of a
/// cut step by itself.
///
/// Any number of cuts may come. Once the list has ended, every step is done. It counts its steps.
#[derive(Drop)]
pub struct ListNor<'a, A: Allocator = Global> {
    shape: Shape,
    pages: Vec<Vec<u64, A>, A>,
    wear: Vec<u64, A>,
    cuts: u64,
    on: bool,
    fates: &'a [NumberFate<'a>],
    steps: u64,
    ghost within_limits: { IsWithinLimits shape },
    ghost image_length: { length (map (λ page. page.items) pages.items) ≡ page_count shape },
    ghost page_lengths: { All (λ page. length page ≡ number_count shape) (map (λ page. page.items) pages.items) },
    ghost numbers_fit: { All (All IsNorNumber) (map (λ page. page.items) pages.items) },
    ghost wear_length: { vec_len wear ≡ page_count shape },
    ghost wear_fits: { All IsNorNumber wear.items },
    ghost cuts_fit: { cuts ≤ all_ones },
}

impl<'a, A: Allocator + Copy> ListNor<'a, A> {
    ghost use Rattle.ee_fakes.specs.Numbers.{blank_nor, nor_of_list};

    /// A device that is on, with every number `u64::MAX`, no wear and no cuts, whose
    /// steps meet these fates.
    ///
    /// # Errors
    ///
    /// `AllocError`: memory was refused.
    pub fn blank(alloc: A, shape: Shape, fates: &'a [NumberFate<'a>]) -> Result<Self, AllocError>
        ensures { IfOk result (λ flash. nor_of_list flash ≡ blank_nor shape) }
    {
        let count = 2 * shape.pages();
        let wear = vec![in alloc; 0; count]?;
        let pages = blank_pages(alloc, count, 2 * shape.words())?;
        Ok(ListNor {
            shape,
            pages,
            wear,
            cuts: 0,
            on: true,
            fates,
            steps: 0,
        })
    }
}

/// So many pages of so many numbers, all of them all ones.
fn blank_pages<A: Allocator + Copy>(
    alloc: A,
    count: usize,
    numbers: usize,
) -> Result<Vec<Vec<u64, A>, A>, AllocError>
    ensures { IfOk result
        (λ pages.
        map (λ page. page.items) pages.items ≡ replicate count (replicate numbers all_ones)) }
{
    let mut pages = Vec::with_capacity(alloc, count)?;
    'pages: for _ in 0..count {
        pages.push(vec![in alloc; u64::MAX; numbers]?)?;
    }
    Ok(pages)
}

impl<'a, A: Allocator> ListNor<'a, A> {
    ghost use Rattle.ee_fakes.specs.Numbers.{nor_of_list, with_power_lost};
    ghost use Rattle.ee_nor.specs.Nor.{IsNorCutIn, EraseNumbers, with_nor_page_worn, with_number, with_numbers};

    /// How many steps were begun so far.
    pub fn steps(&self) -> u64 {
        self.steps
    }

    /// Puts these fates in the place of those to come.
    pub fn set_fates(&mut self, fates: &'a [NumberFate<'a>])
        ensures { nor_of_list self.new ≡ nor_of_list self.old }
    {
        self.fates = fates;
    }

    fn put(&mut self, page: usize, at: usize, number: u64)
        requires page_in_range { page < page_count self.old.shape }
        requires place_in_range { at < number_count self.old.shape }
        ensures { nor_of_list self.new ≡ with_number page at number (nor_of_list self.old) }
    {
        self.pages[page][at] = number;
    }

    fn wear_out(&mut self, page: usize)
        requires { page < page_count self.old.shape }
        ensures { nor_of_list self.new ≡ with_nor_page_worn page (nor_of_list self.old) }
    {
        self.wear[page] = self.wear[page].saturating_add(1);
    }

    // How a step begins: it takes the first fate. With the power off nothing changes.
    fn begin(&mut self) -> Result<NumberFate<'a>, Cut>
        ensures off { OnErr result ((nor_of_list self.old).on ≡ false) }
        ensures on { OnOk result ((nor_of_list self.old).on ≡ true) }
        ensures same { nor_of_list self.new ≡ nor_of_list self.old }
    {
        if !self.on {
            return Err(Cut);
        }
        self.steps = self.steps.saturating_add(1);
        let Some(fate) = self.fates.first() else {
            return Ok(NumberFate::Done);
        };
        self.fates = &self.fates[1..];
        Ok(*fate)
    }

    fn cut_power(&mut self)
        ensures { nor_of_list self.new ≡ with_power_lost (nor_of_list self.old) }
    {
        self.cuts = self.cuts.saturating_add(1);
        self.on = false;
    }

    // An erase of which power was cut, as the masks say.
    fn cut_erase(&mut self, page: usize, masks: &[u64])
        requires page_in_range { page < page_count self.old.shape }
        requires on { (nor_of_list self.old).on ≡ true }
        ensures { IsNorCutIn (EraseNumbers page) (nor_of_list self.old) (nor_of_list self.new) }
    {
        set_bits(&mut self.pages[page], masks);
        self.wear_out(page);
        self.cut_power();
    }

    fn fill_page(&mut self, page: usize)
        requires { page < page_count self.old.shape }
        ensures { nor_of_list self.new
            ≡ with_numbers page (replicate (number_count self.old.shape) all_ones)
            (nor_of_list self.old) }
    {
        self.pages[page].fill(u64::MAX);
    }
}

// So many numbers from a place on.
fn part(numbers: &[u64], at: usize, count: usize) -> &[u64]
    requires { at + count ≤ length numbers.now }
    ensures { result.now ≡ take count (drop at numbers.now) }
{
    &numbers[at..at + count]
}

impl<A: Allocator> Nor for ListNor<'_, A> {
    ghost use Rattle.ee_fakes.specs.Formed.{IsNorFormed-listed};
    ghost use Rattle.ee_fakes.specs.Numbers.{nor_of_list};
    ghost use Rattle.std.proofs.Common.{sym, ◌∙◌};

    ghost nor = { nor_of_list };

    ghost formed = { λ flash. IsNorFormed-listed flash.shape (map (λ page. page.items) flash.pages.items)
        flash.wear.items flash.cuts flash.on
        flash.within_limits flash.image_length flash.page_lengths flash.numbers_fit
        (sym flash.wear.ok.0 ∙ flash.wear_length) flash.wear_fits flash.cuts_fit };

    fn shape(&self) -> Shape {
        self.shape
    }

    fn clears_first(&self) -> bool {
        false
    }

    fn wear(&self, page: usize) -> u64 {
        self.wear[page]
    }

    fn is_on(&self) -> bool {
        self.on
    }

    fn read(&self, page: usize, at: usize) -> u64 {
        self.pages[page][at]
    }

    // A part of the pages has its numbers in memory, so that both ways are taken.
    fn window(&self, page: usize, at: usize, count: usize) -> Option<&[u64]> {
        if page % 2 == 0 {
            return None;
        }
        Some(part(&self.pages[page], at, count))
    }

    fn program(&mut self, page: usize, at: usize, number: u64) -> Result<(), Cut> {
        match self.begin()? {
            NumberFate::Done => {
                self.put(page, at, number);
                Ok(())
            }
            NumberFate::Cut(masks) => {
                self.put(
                    page,
                    at,
                    with_bits(number, masks.first().copied().unwrap_or(0)),
                );
                self.cut_power();
                Err(Cut)
            }
        }
    }

    fn erase(&mut self, page: usize) -> Result<(), Cut> {
        match self.begin()? {
            NumberFate::Done => {
                self.fill_page(page);
                self.wear_out(page);
                Ok(())
            }
            NumberFate::Cut(masks) => {
                self.cut_erase(page, masks);
                Err(Cut)
            }
        }
    }

    fn cuts(&self) -> u64 {
        self.cuts
    }

    fn cuts_left(&self) -> Option<u64> {
        None
    }

    fn power_on(&mut self) {
        self.on = true;
    }
}
