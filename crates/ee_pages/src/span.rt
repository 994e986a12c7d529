//! The values of addresses that follow one another, by one look through the slots.
ghost use Rattle.std.specs.Prelude.{◌≡◌, ◌<◌, ◌≤◌, ◌+◌, ◌-◌, ◌*◌, ℕ, IfNone, IfSome, None, drop, map, take, List};
ghost use Rattle.ee_flash.specs.Runs.{AreReadings};
ghost use Rattle.ee_flash.specs.Size.{header_words};
ghost use Rattle.ee_pages.specs.Layout.{IsLayout};
ghost use Rattle.ee_pages.specs.Meaning.{Map, latest_in, meaning, says as word_says};
ghost use Rattle.ee_pages.specs.Sets.{set_of, slots_of};
ghost use Rattle.ee_pages.specs.Spans.{AreSaidTo, IsSpan, TellsBefore, span_says};
ghost use Rattle.ee_pages.specs.declared.span.TheConstants.{SPAN};

use crate::find::Layout;
use crate::number::address_in;
use crate::read::said;
use crate::runs::{RUN, UNREAD};
use crate::side::{Side, first_page};
use ee_codec::{Address, element_word};
use ee_flash::{Flash, HEADER_WORDS, Word};
use std::marker::Model;

/// How many addresses a span has at the most.
pub const SPAN: usize = 16;

/// A number that says nothing, of an address.
const UNSAID: u64 = 0x2_0001;

/// Addresses that follow one another, at least one and up to `SPAN`, with their values.
///
/// Source: ours.
#[derive(Drop)]
pub struct Span {
    first: Address,
    count: usize,
    /// Of each address the number of an element or a forgetting, or one that says nothing.
    numbers: [u64; SPAN],
}

impl Model for Span {
    ghost use Rattle.std.specs.Prelude.{◌≡◌, ◌<◌, ◌≤◌, ◌+◌, length};
    ghost use Rattle.std.specs.List.{All};
    ghost use Rattle.ee_pages.specs.Nearest.{IsOfAddress};
    ghost use Rattle.ee_pages.specs.Spans.{Span as Addresses};
    ghost use Rattle.ee_pages.specs.declared.span.TheConstants.{SPAN};

    ghost Value = { Addresses };

    ghost view = { λ span. record {
      first = span.first;
      count = span.count;
      numbers = span.numbers;
    } };

    ghost invariant = { λ span. (0 < span.count) × (span.count ≤ SPAN)
        × (span.first + span.count ≤ 65535) × (length span.numbers ≡ SPAN)
        × All IsOfAddress span.numbers };
}

impl Span {
    /// So many addresses from this one on, or fewer, of which nothing is said.
    fn new(first: Address, count: usize) -> Span
        requires { 0 < count }
        ensures first { result.first ≡ first }
        ensures some { 0 < result.count }
        ensures one { count ≡ 1 → result.count ≡ 1 }
        ensures unsaid { (at : ℕ) → at < SPAN → span_says result at ≡ None }
        ensures few { result.count ≤ SPAN }
    {
        let behind = usize::from(u16::MAX - first.get());
        Span {
            first,
            count: count.min(SPAN).min(behind),
            numbers: [UNSAID; SPAN],
        }
    }

    /// The one address with this value, `None` if it has none.
    ///
    /// Source: ours.
    pub fn of_one(address: Address, value: Option<u32>) -> Span
        ensures first { result.first ≡ address }
        ensures span { (values : Map) → value ≡ values address → IsSpan values result }
    {
        let mut span = Span::new(address, 1);
        if let Some(value) = value {
            span.numbers[0] = element_word(address, value);
        }
        span
    }

    /// The value of an address: `None` if the span doesn't have the address, and `Some(None)` if
    /// the address has no value.
    ///
    /// Source: ours.
    pub fn get(&self, address: Address) -> Option<Option<u32>>
        ensures value { (values : Map) → IsSpan values self.now
            → IfSome result (λ value. value ≡ values address) }
        ensures first { self.now.first ≡ address → IfNone result ⊥ }
    {
        let at = usize::from(address.get().wrapping_sub(self.first.get()));
        if at >= self.count {
            return None;
        }
        match said(self.numbers[at]) {
            Some(value) => Some(value),
            None => Some(None),
        }
    }

    /// Notes what the word of a reading says, if it is of one of the addresses, of which nothing is
    /// said.
    fn note<F: Flash>(&mut self, flash: &F, reading: u64)
        ensures { (word : Word) → F.reads flash.now word reading
            → TellsBefore (word_says word) self.old self.new }
    {
        let address = address_in(reading);
        let at = usize::from(address.wrapping_sub(self.first.get()));
        if at < self.count && said(self.numbers[at]).is_none() {
            let number = flash.number(reading);
            if address_in(number) == address {
                self.numbers[at] = number;
            }
        }
    }

    /// Of how many of the first addresses something is said, where it is of so many.
    fn said_from(&self, before: usize) -> usize
        requires before { AreSaidTo self.now before }
        requires within { before ≤ self.now.count }
        ensures said { AreSaidTo self.now result }
        ensures within { result ≤ self.now.count }
    {
        let mut said_to = before;
        'said: while said_to < self.count && said(self.numbers[said_to]).is_some() {
            said_to += 1;
        }
        said_to
    }

    /// How many addresses there are.
    fn count(&self) -> usize
        ensures { result ≡ self.now.count }
    {
        self.count
    }
}

/// The values of so many addresses from this one on, or of fewer. It reads the slots in runs from
/// the newest down, each once, to one at which all have been found. The layout is the image's.
///
/// Source: the last element written for an address is its value, AN4894; the rest is ours.
pub fn read_span<F: Flash>(flash: &F, layout: &Layout, first: Address, count: usize) -> Span
    requires layout { IsLayout (F.device flash.now) layout.now }
    requires some { 0 < count }
    ensures first { result.first ≡ first }
    ensures span { IsSpan (meaning (slots_of (set_of layout.now.side (F.device flash.now)))) result }
{
    let slots = flash.shape().words() - HEADER_WORDS;
    let last = layout.current - first_page(flash, layout.side);
    let mut span = Span::new(first, count);
    let mut said_to = 0;
    let mut left = layout.fill;
    for page in (0..last + 1).rev() {
        let before = page * slots;
        said_to = tell_page(flash, layout.side, page, left - before, &mut span, said_to);
        left = before;
    }
    span
}

/// Notes what the first `used` slots of a page say, which stand before those noted, unless
/// something is said of all addresses. Something is said of the first `before`; gives of how many.
fn tell_page<F: Flash>(
    flash: &F,
    side: Side,
    page: usize,
    used: usize,
    span: &mut Span,
    before: usize,
) -> usize
    requires page_in_range { page < (F.device flash.now).size.pages }
    requires used_in_range { used ≤ (F.device flash.now).size.words - header_words }
    requires said { AreSaidTo span.old before }
    requires within { before ≤ span.old.count }
    ensures tells { let first = page * ((F.device flash.now).size.words - header_words) in
        let slots = slots_of (set_of side (F.device flash.now)) in
        TellsBefore (latest_in (take used (drop first slots))) span.old span.new }
    ensures said { AreSaidTo span.new result }
    ensures within { result ≤ span.new.count }
{
    let here = first_page(flash, side) + page;
    let mut room = [UNREAD; RUN];
    let mut said_to = before;
    let mut left = used;
    'runs: while left > 0 && said_to < span.count() {
        let count = RUN.min(left);
        left -= count;
        let run = flash.run(here, HEADER_WORDS + left, &mut room[..count]);
        tell_run(flash, run, span);
        said_to = span.said_from(said_to);
    }
    said_to
}

/// Notes what the words of these readings say, which stand before those noted.
fn tell_run<F: Flash>(flash: &F, readings: &[u64], span: &mut Span)
    ensures { (words : List Word) → AreReadings (F.reads flash.now) words readings.now
        → TellsBefore (latest_in words) span.old span.new }
{
    let mut left = readings.len();
    'behind: while left > 0 {
        left -= 1;
        span.note(flash, readings[left]);
    }
}
