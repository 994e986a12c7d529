//! The first word of a flash of numbers whose numbers sum to less than all ones.
ghost use Rattle.std.specs.Bool.{MatchBool};
ghost use Rattle.std.specs.Prelude.{◌<◌, ◌≤◌, ◌≡◌, ◌+◌, ◌*◌, IfNone, IfSome, length};
ghost use Rattle.ee_flash.specs.Device.{all_ones};
ghost use Rattle.ee_flash.specs.Size.{page_count};
ghost use Rattle.ee_nor.specs.Nor.{numbers_at};
ghost use Rattle.ee_nor.specs.Pairs.{AreHigh, IsFirstLow, IsFirstLowIn, IsHigh, NoLowPair, sum_in};

use crate::Nor;

/// How many words are asked for at once.
const STRETCH: usize = 16;

/// The place of a word whose two numbers sum to less than `u64::MAX`: no store wrote it.
///
/// Source: ours.
#[derive(Clone, Copy, Debug, PartialEq, Eq)]
pub struct LowPair {
    /// Its page, counted from 0, those of the first set first.
    pub page: usize,
    /// Its place in the page, counted from 0, in words of two numbers.
    pub word: usize,
}

/// The first word whose numbers sum to less than all ones.
pub(crate) fn first_low<N: Nor>(nor: &N) -> Option<LowPair>
    ensures found { IfSome result (IsFirstLow (N.nor nor.now)) }
    ensures none { IfNone result (NoLowPair (N.nor nor.now)) }
{
    'pages: for page in 0..2 * nor.shape().pages() {
        if let Some(word) = first_low_in(nor, page) {
            return Some(LowPair { page, word });
        }
    }
    None
}

/// The first such word of a page.
fn first_low_in<N: Nor>(nor: &N, page: usize) -> Option<usize>
    requires { page < page_count (N.nor nor.now).size }
    ensures within { IfSome result (λ word. word < (N.nor nor.now).size.words) }
    ensures found { IfSome result (IsFirstLowIn (numbers_at (N.nor nor.now) page)) }
    ensures none { IfNone result (IsHigh (numbers_at (N.nor nor.now) page)) }
{
    let words = nor.shape().words();
    let mut from = 0;
    'stretches: while from < words {
        let count = STRETCH.min(words - from);
        if let Some(word) = first_low_from(nor, page, from, count) {
            return Some(word);
        }
        from += count;
    }
    None
}

/// The first such word of so many of a page, from this one on.
fn first_low_from<N: Nor>(nor: &N, page: usize, from: usize, count: usize) -> Option<usize>
    requires page_in_range { page < page_count (N.nor nor.now).size }
    requires words_in_range { from + count ≤ (N.nor nor.now).size.words }
    ensures within { IfSome result (λ word. word < from + count) }
    ensures low { IfSome result (λ word. sum_in (numbers_at (N.nor nor.now) page) word < all_ones) }
    ensures before { IfSome result (AreHigh (numbers_at (N.nor nor.now) page) from) }
    ensures none { IfNone result (AreHigh (numbers_at (N.nor nor.now) page) from (from + count)) }
{
    match nor.window(page, 2 * from, 2 * count) {
        Some(numbers) => match low_in_window(numbers, count) {
            Some(word) => Some(from + word),
            None => None,
        },
        None => low_read(nor, page, from, count),
    }
}

/// The first such word of so many whose numbers stand in memory, two of each.
fn low_in_window(numbers: &[u64], count: usize) -> Option<usize>
    requires { length numbers.now ≡ 2 * count }
    ensures within { IfSome result (λ word. word < count) }
    ensures low { IfSome result (λ word. sum_in numbers.now word < all_ones) }
    ensures before { IfSome result (AreHigh numbers.now 0) }
    ensures none { IfNone result (AreHigh numbers.now 0 count) }
{
    'words: for word in 0..count {
        if is_low(numbers[2 * word], numbers[2 * word + 1]) {
            return Some(word);
        }
    }
    None
}

/// The first such word of so many that are read.
fn low_read<N: Nor>(nor: &N, page: usize, from: usize, count: usize) -> Option<usize>
    requires page_in_range { page < page_count (N.nor nor.now).size }
    requires words_in_range { from + count ≤ (N.nor nor.now).size.words }
    ensures within { IfSome result (λ word. word < from + count) }
    ensures low { IfSome result (λ word. sum_in (numbers_at (N.nor nor.now) page) word < all_ones) }
    ensures before { IfSome result (AreHigh (numbers_at (N.nor nor.now) page) from) }
    ensures none { IfNone result (AreHigh (numbers_at (N.nor nor.now) page) from (from + count)) }
{
    'words: for word in from..from + count {
        if is_low(nor.read(page, 2 * word), nor.read(page, 2 * word + 1)) {
            return Some(word);
        }
    }
    None
}

/// Whether two numbers sum to less than `u64::MAX`, as those of no word do that a store wrote.
///
/// Source: ours.
pub fn is_low(number: u64, check: u64) -> bool
    ensures { MatchBool result (number + check < all_ones) (all_ones ≤ number + check) }
{
    check < u64::MAX - number
}
