//! The calls that look at a store and take no step, as the module exports them.
ghost use Rattle.std.specs.Prelude.{◌<◌};
ghost use Rattle.ee_codec.specs.Words.{IsAddress};
ghost use Rattle.ee_flash.specs.Size.{size_of};
ghost use Rattle.ee_web.specs.Judging.{Judges};
ghost use Rattle.ee_web.specs.Looks.{CountsIn, IsNext, IsValueRead, Looks};
ghost use Rattle.ee_web.specs.Mirror.{mirror_of};

use crate::answer::Answer;
use crate::judging::{JudgedResult, judge};
use crate::listing::ListedStep;
use crate::looking::{Counts, CountsResult, Found, FoundResult, count, look_on, look_up};
use crate::mirror::shape_of;
use ee_codec::Address;
use std::marker::Brand;

/// The value of an address, 1 to 65534. It takes no step, and sets no mark.
///
/// `Done`, or `Nothing` if it has none; `NoStore`, `WrongShape`, `ImproperAddress`.
///
/// Source: ours.
#[unsafe(no_mangle)]
pub extern "C" fn ee_read(
    pages: usize,
    page_words: usize,
    words: &[u64],
    flags: &[u8],
    wears: &[u64],
    address: u16,
) -> FoundResult
    ensures { Looks (size_of pages page_words) (λ device. IsValueRead device address)
        (IsAddress address) result (mirror_of words.now flags.now wears.now) }
{
    let Some(shape) = shape_of(pages, page_words, words, flags, wears) else {
        return Found::none(Answer::WrongShape).into_result();
    };
    let Some(address) = Address::new(address) else {
        return Found::none(Answer::ImproperAddress).into_result();
    };
    let mut no_steps: [ListedStep; 0] = [];
    let (found, _list) = look_up::<Brand>(shape, words, flags, wears, &mut no_steps, address);
    found.into_result()
}

/// The next address above `after` that has a value, with the value: the first of all where `after`
/// is 0. It takes no step, and sets no mark.
///
/// `Done`, or `Nothing` if there is none; `NoStore`, `WrongShape`; `ImproperAddress` of 65535
/// alone.
///
/// Source: ours.
#[unsafe(no_mangle)]
pub extern "C" fn ee_next(
    pages: usize,
    page_words: usize,
    words: &[u64],
    flags: &[u8],
    wears: &[u64],
    after: u16,
) -> FoundResult
    ensures { Looks (size_of pages page_words) (λ device. IsNext device after)
        (after < 65535) result (mirror_of words.now flags.now wears.now) }
{
    let Some(shape) = shape_of(pages, page_words, words, flags, wears) else {
        return Found::none(Answer::WrongShape).into_result();
    };
    if after == u16::MAX {
        return Found::none(Answer::ImproperAddress).into_result();
    }
    let begin = Address::new(after);
    let mut no_steps: [ListedStep; 0] = [];
    let (found, _list) = look_on::<Brand>(shape, words, flags, wears, &mut no_steps, begin);
    found.into_result()
}

/// How far the store is used. It takes no step, and sets no mark.
///
/// `Done`; `NoStore` or `WrongShape`, and each count is 0.
///
/// Source: ours.
#[unsafe(no_mangle)]
pub extern "C" fn ee_counts(
    pages: usize,
    page_words: usize,
    words: &[u64],
    flags: &[u8],
    wears: &[u64],
) -> CountsResult
    ensures { CountsIn (size_of pages page_words) result
        (mirror_of words.now flags.now wears.now) }
{
    let Some(shape) = shape_of(pages, page_words, words, flags, wears) else {
        return Counts::none(Answer::WrongShape).into_result();
    };
    let mut no_steps: [ListedStep; 0] = [];
    let (counts, _list) = count::<Brand>(shape, words, flags, wears, &mut no_steps);
    counts.into_result()
}

/// Which words a rescue would find bad: it flags each word of the set that is rescued, page after
/// page, 1 where it is bad and else 0. `bad` has a flag for each word of a set. It takes no step.
///
/// `Done`; `NothingBegun` or `WrongShape`, and no flag is written.
///
/// Source: ours.
#[unsafe(no_mangle)]
pub extern "C" fn ee_bad_words(
    pages: usize,
    page_words: usize,
    words: &[u64],
    flags: &[u8],
    wears: &[u64],
    bad: &mut [u8],
) -> JudgedResult
    ensures { Judges (size_of pages page_words) result
        (mirror_of words.now flags.now wears.now) bad.old bad.new }
{
    let Some(shape) = shape_of(pages, page_words, words, flags, wears) else {
        return JudgedResult::none(Answer::WrongShape);
    };
    if bad.len() != shape.pages() * shape.words() {
        return JudgedResult::none(Answer::WrongShape);
    }
    let mut no_steps: [ListedStep; 0] = [];
    let (judged, _list) = judge::<Brand>(shape, words, flags, wears, &mut no_steps, bad);
    judged
}
