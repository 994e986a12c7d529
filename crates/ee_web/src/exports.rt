//! The calls that may change a store, as the module exports them.
ghost use Rattle.ee_flash.specs.Size.{size_of};
ghost use Rattle.ee_web.specs.Exports.{MakesCall};
ghost use Rattle.ee_web.specs.Mirror.{mirror_of};

use crate::answer::{Answer, CallResult};
use crate::draft::Drafted;
use crate::drafting::draft;
use crate::listing::ListedStep;
use crate::mirror::{settle, shape_of};
use crate::request::{Request, proper};
use std::marker::Brand;

/// Makes a store with nothing in it, whatever the words are: erases each page that is not blank,
/// and makes the first set the live one, with generation 1.
///
/// The shape is `pages` pages in each set, 1 to 64, of `page_words` words, 5 to 512. `Done`, or:
/// `WrongShape`, `ListTooShort`; then nothing is written or listed.
///
/// Source: ours.
#[unsafe(no_mangle)]
pub extern "C" fn ee_format(
    pages: usize,
    page_words: usize,
    words: &mut [u64],
    flags: &mut [u8],
    wears: &mut [u64],
    listed: &mut [ListedStep],
) -> CallResult
    ensures { MakesCall (size_of pages page_words) Request.Format result
        (mirror_of words.old flags.old wears.old) (mirror_of words.new flags.new wears.new)
        listed.new }
{
    let request = Request::Format;
    make_call(pages, page_words, words, flags, wears, listed, request)
}

/// Opens the store: sets the marks that a cut left to set. The variables are as before.
///
/// `Done`; `NoStore`, `WrongShape` or `ListTooShort`, and nothing is written or listed.
///
/// Source: ours.
#[unsafe(no_mangle)]
pub extern "C" fn ee_open(
    pages: usize,
    page_words: usize,
    words: &mut [u64],
    flags: &mut [u8],
    wears: &mut [u64],
    listed: &mut [ListedStep],
) -> CallResult
    ensures { MakesCall (size_of pages page_words) Request.Open result
        (mirror_of words.old flags.old wears.old) (mirror_of words.new flags.new wears.new)
        listed.new }
{
    let request = Request::Open;
    make_call(pages, page_words, words, flags, wears, listed, request)
}

/// Writes a value of an address, 1 to 65534. It opens the store first.
///
/// `Done` or `Moved`; `Full` or `Spent`, and the value is not written; `NoStore`, `WrongShape`,
/// `ImproperAddress` or `ListTooShort`, and nothing is written or listed.
///
/// Source: ours.
#[unsafe(no_mangle)]
pub extern "C" fn ee_write(
    pages: usize,
    page_words: usize,
    words: &mut [u64],
    flags: &mut [u8],
    wears: &mut [u64],
    listed: &mut [ListedStep],
    address: u16,
    value: u32,
) -> CallResult
    ensures { MakesCall (size_of pages page_words) (Request.Write address value) result
        (mirror_of words.old flags.old wears.old) (mirror_of words.new flags.new wears.new)
        listed.new }
{
    let request = Request::Write { address, value };
    make_call(pages, page_words, words, flags, wears, listed, request)
}

/// Writes values of two addresses, each 1 to 65534, at once: whatever step power is cut in, an
/// opening finds both or neither. The live set moves for it, whether a slot is free or not. It
/// opens the store first.
///
/// `Moved`; `Twice`, if both are of one address, `Full` or `Spent`, and neither is written;
/// `NoStore`, `WrongShape`, `ImproperAddress` or `ListTooShort`, and nothing is written or listed.
///
/// Source: ours.
#[unsafe(no_mangle)]
pub extern "C" fn ee_write_both(
    pages: usize,
    page_words: usize,
    words: &mut [u64],
    flags: &mut [u8],
    wears: &mut [u64],
    listed: &mut [ListedStep],
    first: u16,
    first_value: u32,
    second: u16,
    second_value: u32,
) -> CallResult
    ensures { MakesCall (size_of pages page_words)
        (Request.WriteBoth first first_value second second_value) result
        (mirror_of words.old flags.old wears.old) (mirror_of words.new flags.new wears.new)
        listed.new }
{
    let request = Request::WriteBoth {
        first,
        first_value,
        second,
        second_value,
    };
    make_call(pages, page_words, words, flags, wears, listed, request)
}

/// Takes the value of an address, 1 to 65534, away. It opens the store first.
///
/// `Done` or `Moved`; `Absent` or `Spent`, and nothing is forgotten; `NoStore`, `WrongShape`,
/// `ImproperAddress` or `ListTooShort`, and nothing is written or listed.
///
/// Source: ours.
#[unsafe(no_mangle)]
pub extern "C" fn ee_forget(
    pages: usize,
    page_words: usize,
    words: &mut [u64],
    flags: &mut [u8],
    wears: &mut [u64],
    listed: &mut [ListedStep],
    address: u16,
) -> CallResult
    ensures { MakesCall (size_of pages page_words) (Request.Forget address) result
        (mirror_of words.old flags.old wears.old) (mirror_of words.new flags.new wears.new)
        listed.new }
{
    let request = Request::Forget { address };
    make_call(pages, page_words, words, flags, wears, listed, request)
}

/// Erases the lowest page that waits to be erased, if there is one. It opens the store first.
///
/// `Done` or `Nothing`; `NoStore`, `WrongShape` or `ListTooShort`, and nothing is written or
/// listed.
///
/// Source: a clean-up whose moment the application chooses, AN4894; the rest is ours.
#[unsafe(no_mangle)]
pub extern "C" fn ee_clean(
    pages: usize,
    page_words: usize,
    words: &mut [u64],
    flags: &mut [u8],
    wears: &mut [u64],
    listed: &mut [ListedStep],
) -> CallResult
    ensures { MakesCall (size_of pages page_words) Request.Clean result
        (mirror_of words.old flags.old wears.old) (mirror_of words.new flags.new wears.new)
        listed.new }
{
    let request = Request::Clean;
    make_call(pages, page_words, words, flags, wears, listed, request)
}

/// Takes the values of all addresses away at once: whatever step power is cut in, an opening finds
/// them all or none. It opens the store first.
///
/// `Moved`; `Nothing`, if no slot is used, or `Spent`, and nothing changes; `NoStore`, `WrongShape`
/// or `ListTooShort`, and nothing is written or listed.
///
/// Source: ours.
#[unsafe(no_mangle)]
pub extern "C" fn ee_clear(
    pages: usize,
    page_words: usize,
    words: &mut [u64],
    flags: &mut [u8],
    wears: &mut [u64],
    listed: &mut [ListedStep],
) -> CallResult
    ensures { MakesCall (size_of pages page_words) Request.Clear result
        (mirror_of words.old flags.old wears.old) (mirror_of words.new flags.new wears.new)
        listed.new }
{
    let request = Request::Clear;
    make_call(pages, page_words, words, flags, wears, listed, request)
}

/// Makes a store of what can be read, whatever the words are: the values of the set that is rescued
/// move to the other set, in the generation above the one that it names.
///
/// `Rescued`, with how many words were bad and how many addresses have a value; `NothingBegun` or
/// `Spent`, and nothing changes; `WrongShape` or `ListTooShort`, and nothing is written or listed.
///
/// Source: ours.
#[unsafe(no_mangle)]
pub extern "C" fn ee_rescue(
    pages: usize,
    page_words: usize,
    words: &mut [u64],
    flags: &mut [u8],
    wears: &mut [u64],
    listed: &mut [ListedStep],
) -> CallResult
    ensures { MakesCall (size_of pages page_words) Request.Rescue result
        (mirror_of words.old flags.old wears.old) (mirror_of words.new flags.new wears.new)
        listed.new }
{
    let request = Request::Rescue;
    make_call(pages, page_words, words, flags, wears, listed, request)
}

/// Makes a call: it judges the shape first, and then the address.
#[tactic(auto, using(crate::proofs::AnsweredCalls::shape_refused, crate::proofs::AnsweredCalls::address_refused))]
fn make_call(
    pages: usize,
    page_words: usize,
    words: &mut [u64],
    flags: &mut [u8],
    wears: &mut [u64],
    listed: &mut [ListedStep],
    request: Request<u16>,
) -> CallResult
    ensures { MakesCall (size_of pages page_words) request result
        (mirror_of words.old flags.old wears.old) (mirror_of words.new flags.new wears.new)
        listed.new }
{
    let Some(shape) = shape_of(pages, page_words, words, flags, wears) else {
        return Answer::WrongShape.into_result(0);
    };
    let Some(request) = proper(request) else {
        return Answer::ImproperAddress.into_result(0);
    };
    let drafted = draft::<Brand>(shape, words, flags, wears, listed, request);
    let Drafted {
        listed,
        count,
        answer,
    } = drafted;
    settle(shape, words, flags, wears, listed, count, answer)
}
