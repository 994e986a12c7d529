//! A device that lists the steps that it is asked for, in place of taking them.
ghost use Rattle.std.specs.Prelude.{◌<◌, ◌≤◌, ◌≡◌, ◌*◌, length, take, true};
ghost use Rattle.std.specs.List.{All};
ghost use Rattle.ee_flash.specs.Device.{all_ones};
ghost use Rattle.ee_flash.specs.Endurance.{CanTakeAll};
ghost use Rattle.ee_flash.specs.Laws.{all_completed};
ghost use Rattle.ee_flash.specs.Pages.{pages_of};
ghost use Rattle.ee_flash.specs.Size.{page_count};
ghost use Rattle.ee_web.specs.Calls.{IsEnded, WearsOnceMore};
ghost use Rattle.ee_web.specs.Draft.{IsFresh};
ghost use Rattle.ee_web.specs.Listing.{IsZeroIfErase, steps_of};
ghost use Rattle.ee_web.specs.ListingProps.{CanTakeAll-prop};
ghost use Rattle.ee_web.specs.Mirror.{cells_of, word_of_number};

use crate::answer::Answer;
use crate::listing::ListedStep;
use arrayvec::ArrayVec;
use ee_flash::{Cut, Flash, Shape, Word};
use std::marker::{Brand, PhantomData};

/// The pages of the largest device.
const GREATEST_PAGES: usize = 128;

/// What a draft starts from, and the list that is lent to it.
pub(crate) trait Lent {
    ghost use Rattle.std.specs.Prelude.{ℕ};
    ghost use Rattle.ee_flash.specs.Device.{Device};

    /// The device at the start.
    ghost start: { Device };

    /// The loan of the list.
    ghost list: { ℕ };
}

impl Lent for Brand {
    ghost use Rattle.ee_flash.specs.Device.{blank_device};
    ghost use Rattle.ee_flash.specs.Size.{size_of};

    ghost start = { blank_device (size_of 1 5) };

    ghost list = { 0 };
}

/// A device that lists its steps, and leaves the words and wears that it started from as they are.
/// A step that finds no place in the list is cut before it changes a word.
///
/// Source: ours.
#[derive(Drop)]
pub(crate) struct DraftFlash<'w, 'l, K: Lent> {
    shape: Shape,
    words: &'w [u64],
    flags: &'w [u8],
    listed: &'l mut [ListedStep],
    /// How many steps of the list are listed.
    count: usize,
    /// How often each page was erased, also by steps that found no place in the list.
    wear: ArrayVec<u64, GREATEST_PAGES>,
    /// How many steps found no place in the list.
    cuts: u64,
    on: bool,
    lent: PhantomData<K>,
    ghost fresh: { IsFresh K.start },
    ghost same_size: { K.start.size ≡ shape },
    ghost same_words: { K.start.image ≡ pages_of shape (cells_of words.now flags.now) },
    ghost words_length: { length words.now ≡ page_count shape * shape.words },
    ghost flags_length: { length flags.now ≡ page_count shape * shape.words },
    ghost same_list: { listed.ghost_name ≡ K.list },
    ghost within: { count ≤ length listed.now },
    ghost taken: { CanTakeAll (steps_of count listed.now) K.start } by { CanTakeAll-prop _ _ },
    ghost zeros: { All IsZeroIfErase (take count listed.now) },
    ghost wear_length: { length wear.items ≡ page_count shape },
    ghost wear_fits: { All (λ count. count ≤ all_ones) wear.items },
    ghost cuts_fit: { cuts ≤ all_ones },
    ghost full: { (cuts ≡ 0 → ⊥) → count ≡ length listed.now },
    ghost whole: { cuts ≡ 0
        → (wear.items ≡ (all_completed (steps_of count listed.now) K.start).wear) × (on ≡ true) },
    ghost further: { cuts ≡ 1
        → ∥ WearsOnceMore (all_completed (steps_of count listed.now) K.start) wear.items ∥₁ },
}

/// What a word's number and its flag mean.
pub(crate) fn decode(number: u64, flag: u8) -> Word
    ensures { result ≡ word_of_number number flag }
{
    if flag != 0 {
        return Word::Torn;
    }
    if number == u64::MAX {
        return Word::Erased;
    }
    Word::Held(number)
}

/// The wears of a device's pages, copied.
fn wear_of(wears: &[u64]) -> ArrayVec<u64, GREATEST_PAGES>
    requires { length wears.now ≤ 128 }
    ensures { result.items ≡ wears.now }
{
    let mut wear = ArrayVec::new();
    let _fits = wear.try_extend_from_slice(wears);
    wear
}

impl<'w, 'l, K: Lent> Flash for DraftFlash<'w, 'l, K> {
    ghost use Rattle.ee_web.specs.Draft.{drafted_device};
    ghost use Rattle.ee_web.specs.DraftLaws.{IsFormed-drafted};
    ghost use Rattle.ee_flash.specs.OwnReadings.{own_shown};
    ghost use Rattle.ee_flash.specs.Runs.{IsOwnReading};
    ghost use Rattle.std.proofs.Common.{sym, ap, ◌∙◌};

    ghost device = { λ draft. drafted_device K.start (steps_of draft.count draft.listed.now)
        draft.wear.items draft.cuts draft.on };

    ghost reads = { λ draft. IsOwnReading };

    ghost shown = { λ draft. own_shown };

    ghost formed = { λ draft. IsFormed-drafted K.start (steps_of draft.count draft.listed.now)
        draft.wear.items draft.cuts draft.on draft.fresh draft.taken
        (draft.wear_length ∙ ap page_count (sym draft.same_size)) draft.wear_fits draft.cuts_fit };

    fn shape(&self) -> Shape {
        self.shape
    }

    fn wear(&self, page: usize) -> u64 {
        self.wear[page]
    }

    fn is_on(&self) -> bool {
        self.on
    }

    fn word(&self, page: usize, at: usize) -> Word {
        let place = page * self.shape.words() + at;
        let mut word = decode(self.words[place], self.flags[place]);
        'listed: for taken in 0..self.count {
            word = self.listed[taken].leaves(page, at, word);
        }
        word
    }

    fn run<'a>(&'a self, page: usize, at: usize, room: &'a mut [u64]) -> &'a [u64] {
        for (behind, number) in room.iter_mut().enumerate() {
            *number = self.word(page, at + behind).number();
        }
        room
    }

    fn number(&self, reading: u64) -> u64 {
        reading
    }

    fn in_clear(&self, reading: u64) -> u64 {
        reading
    }

    fn program(&mut self, page: usize, at: usize, value: u64) -> Result<(), Cut> {
        if !self.on {
            return Err(Cut);
        }
        if self.count == self.listed.len() {
            self.cuts = self.cuts.saturating_add(1);
            self.on = false;
            return Err(Cut);
        }
        self.listed[self.count] = ListedStep {
            page,
            place: at,
            value,
        };
        self.count += 1;
        Ok(())
    }

    fn erase(&mut self, page: usize) -> Result<(), Cut> {
        if !self.on {
            return Err(Cut);
        }
        let worn = self.wear[page].saturating_add(1);
        if self.count == self.listed.len() {
            self.cuts = self.cuts.saturating_add(1);
            self.on = false;
            self.wear[page] = worn;
            return Err(Cut);
        }
        let step = ListedStep::erase(page);
        self.listed[self.count] = step;
        self.count += 1;
        self.wear[page] = worn;
        Ok(())
    }

    fn cuts(&self) -> u64 {
        self.cuts
    }

    fn cuts_left(&self) -> Option<u64> {
        None
    }

    fn power_on(&mut self) {
        self.on = true;
    }
}

impl<'w, 'l, K: Lent> DraftFlash<'w, 'l, K> {
    ghost use Rattle.ee_web.specs.Draft.{drafted_device};
    ghost use Rattle.ee_web.specs.Mirror.{IsMirror, mirrored_device};

    /// A draft of the device that a mirror means, with nothing listed.
    pub(crate) fn of(
        shape: Shape,
        words: &'w [u64],
        flags: &'w [u8],
        wears: &[u64],
        listed: &'l mut [ListedStep],
    ) -> Self
        requires mirror { IsMirror shape words.now flags.now wears.now }
        requires start { K.start ≡ mirrored_device shape words.now flags.now wears.now }
        requires list { listed.ghost_name ≡ K.list }
        ensures { drafted_device K.start (steps_of result.count result.listed.now)
            result.wear.items result.cuts result.on ≡ K.start }
    {
        DraftFlash {
            shape,
            words,
            flags,
            listed,
            count: 0,
            wear: wear_of(wears),
            cuts: 0,
            on: true,
            lent: PhantomData,
        }
    }

    /// The list, how many steps of it are listed, and the answer.
    pub(crate) fn ended(self, answer: Answer) -> Drafted<'l>
        ensures same_list { result.listed.ghost_name ≡ K.list }
        ensures ended { IsEnded K.start
            (drafted_device K.start (steps_of self.entry.count self.entry.listed.now)
            self.entry.wear.items self.entry.cuts self.entry.on)
            result.listed.now result.count }
        ensures fresh { IsFresh K.start }
        ensures answer { result.answer ≡ answer }
    {
        let DraftFlash { listed, count, .. } = self;
        Drafted {
            listed,
            count,
            answer,
        }
    }
}

/// What a draft ended with: its list, how many steps of it are listed, and the answer.
#[derive(Drop)]
pub(crate) struct Drafted<'l> {
    pub(crate) listed: &'l mut [ListedStep],
    pub(crate) count: usize,
    pub(crate) answer: Answer,
}
