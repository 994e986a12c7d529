//! A call's mirror, before and after: its shape is judged, and then the list is played on it.
ghost use Rattle.std.specs.Prelude.{◌≡◌, ◌≤◌, SomeIff, false, length, take, true};
ghost use Rattle.std.specs.List.{All};
ghost use Rattle.ee_flash.specs.Endurance.{CanTakeAll};
ghost use Rattle.ee_flash.specs.Size.{size_of};
ghost use Rattle.ee_web.specs.Answers.{is_played, result_of};
ghost use Rattle.ee_web.specs.Exports.{IsPlayed};
ghost use Rattle.ee_web.specs.Listing.{IsZeroIfErase, steps_of};
ghost use Rattle.ee_web.specs.Mirror.{IsMirror, mirrored_device, mirror_of};

use crate::answer::{Answer, CallResult};
use crate::listing::ListedStep;
use crate::playing::play;
use ee_flash::Shape;

/// The shape of a mirror, `None` where it is out of range or the lengths are not
/// those of the shape.
pub(crate) fn shape_of(
    pages: usize,
    page_words: usize,
    words: &[u64],
    flags: &[u8],
    wears: &[u64],
) -> Option<Shape>
    ensures { SomeIff result
        (IsMirror (size_of pages page_words) words.now flags.now wears.now)
        (size_of pages page_words) }
{
    let shape = Shape::new(pages, page_words)?;
    let all_pages = 2 * shape.pages();
    let all_words = all_pages * shape.words();
    if words.len() != all_words || flags.len() != all_words || wears.len() != all_pages {
        return None;
    }
    Some(shape)
}

/// Plays what a call has listed on the mirror, and tells the answer. Where the words are no store,
/// or the list was too short, nothing is written or listed.
pub(crate) fn settle(
    shape: Shape,
    words: &mut [u64],
    flags: &mut [u8],
    wears: &mut [u64],
    listed: &[ListedStep],
    count: usize,
    answer: Answer,
) -> CallResult
    requires mirror { IsMirror shape words.old flags.old wears.old }
    requires within { is_played answer ≡ true → count ≤ length listed.now }
    requires taken { is_played answer ≡ true
        → CanTakeAll (steps_of count listed.now)
        (mirrored_device shape words.old flags.old wears.old) }
    requires zeros { is_played answer ≡ true → All IsZeroIfErase (take count listed.now) }
    ensures told { result ≡ result_of answer result.listed }
    ensures refused { is_played answer ≡ false
        → (mirror_of words.new flags.new wears.new ≡ mirror_of words.old flags.old wears.old)
        × (result.listed ≡ 0) }
    ensures played { is_played answer ≡ true → IsPlayed shape
        (mirror_of words.old flags.old wears.old) (mirror_of words.new flags.new wears.new)
        listed.now result.listed }
    ensures count { is_played answer ≡ true → result.listed ≡ count }
{
    if !answer.is_played() {
        return answer.into_result(0);
    }
    play(shape, words, flags, wears, listed, count);
    answer.into_result(count)
}
