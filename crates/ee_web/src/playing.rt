//! The playing of a list: its steps are taken on the mirror, in order.
ghost use Rattle.std.specs.Prelude.{◌<◌, ◌≤◌, ◌≡◌, ◌+◌, ◌*◌, List, length, ℕ};
ghost use Rattle.ee_flash.specs.Device.{all_ones};
ghost use Rattle.ee_flash.specs.Endurance.{CanTakeAll};
ghost use Rattle.ee_flash.specs.Laws.{CanTake, all_completed};
ghost use Rattle.ee_flash.specs.Size.{page_count};
ghost use Rattle.ee_flash.specs.Step.{Erase, Program, device_after};
ghost use Rattle.ee_web.specs.Listing.{step_listed_so, steps_of};
ghost use Rattle.ee_web.specs.Mirror.{IsMirror, mirrored_device};

use crate::listing::ListedStep;
use ee_flash::Shape;

/// Takes the first so many listed steps, in order, on a mirror.
pub(crate) fn play(
    shape: Shape,
    words: &mut [u64],
    flags: &mut [u8],
    wears: &mut [u64],
    listed: &[ListedStep],
    count: usize,
)
    requires mirror { IsMirror shape words.old flags.old wears.old }
    requires within { count ≤ length listed.now }
    requires taken { CanTakeAll (steps_of count listed.now)
        (mirrored_device shape words.old flags.old wears.old) }
    ensures mirror { IsMirror shape words.new flags.new wears.new }
    ensures played { mirrored_device shape words.new flags.new wears.new
        ≡ all_completed (steps_of count listed.now)
        (mirrored_device shape words.old flags.old wears.old) }
{
    'listed: for taken in 0..count {
        take_step(shape, words, flags, wears, listed[taken]);
    }
}

/// Takes one step on a mirror.
fn take_step(shape: Shape, words: &mut [u64], flags: &mut [u8], wears: &mut [u64], step: ListedStep)
    requires mirror { IsMirror shape words.old flags.old wears.old }
    requires may { CanTake (step_listed_so step) (mirrored_device shape words.old flags.old wears.old) }
    ensures mirror { IsMirror shape words.new flags.new wears.new }
    ensures done { mirrored_device shape words.new flags.new wears.new
        ≡ device_after (step_listed_so step) (mirrored_device shape words.old flags.old wears.old) }
{
    if step.place == usize::MAX {
        erase(shape, words, flags, wears, step.page);
    } else {
        program(shape, words, flags, step.page, step.place, step.value);
    }
}

/// Programs a word of a mirror.
fn program(shape: Shape, words: &mut [u64], flags: &mut [u8], page: usize, at: usize, value: u64)
    requires words { length words.old ≡ page_count shape * shape.words }
    requires flags { length flags.old ≡ page_count shape * shape.words }
    requires page_in_range { page < page_count shape }
    requires place_in_range { at < shape.words }
    requires below_all_ones { value < all_ones }
    ensures words { length words.new ≡ length words.old }
    ensures flags { length flags.new ≡ length flags.old }
    ensures done { (wears : List ℕ) → mirrored_device shape words.new flags.new wears
        ≡ device_after (Program page at value) (mirrored_device shape words.old flags.old wears) }
{
    let place = page * shape.words() + at;
    words[place] = value;
    flags[place] = 0;
}

/// Erases a page of a mirror.
fn erase(shape: Shape, words: &mut [u64], flags: &mut [u8], wears: &mut [u64], page: usize)
    requires mirror { IsMirror shape words.old flags.old wears.old }
    requires page_in_range { page < page_count shape }
    ensures mirror { IsMirror shape words.new flags.new wears.new }
    ensures done { mirrored_device shape words.new flags.new wears.new
        ≡ device_after (Erase page) (mirrored_device shape words.old flags.old wears.old) }
{
    let start = page * shape.words();
    let end = start + shape.words();
    words[start..end].fill(u64::MAX);
    flags[start..end].fill(0);
    wears[page] = wears[page].saturating_add(1);
}
