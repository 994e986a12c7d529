//! Which words of a mirror a rescue finds bad.
ghost use Rattle.std.specs.Prelude.{◌≡◌, length};
ghost use Rattle.ee_web.specs.Judging.{AreFlagged, JudgesWords, number_of_side as numbered, set_words};
ghost use Rattle.ee_web.specs.Mirror.{IsMirror, mirrored_device};
ghost use Rattle.ee_pages.specs.RescuedSets.{IsRescuedSet};

use crate::answer::Answer;
use crate::draft::{DraftFlash, Drafted, Lent};
use crate::listing::ListedStep;
use ee_flash::{Flash, Shape};
use ee_pages::{RescuedSet, Side, bad_words, is_bad_word, rescued_set};

/// What a judgement tells its caller.
///
/// Source: ours.
#[repr(C)]
#[derive(Clone, Copy)]
pub struct JudgedResult {
    /// The number of an answer (`status_of` in `specs/Answers.antt`).
    pub status: usize,
    /// The set that is rescued, 0 or 1; 0 where there is none.
    pub set: usize,
    /// How many of its words are bad, 0 to the words of a set.
    pub bad: usize,
}

impl JudgedResult {
    ghost use Rattle.ee_web.specs.Judging.{judged_result};

    /// Nothing is judged, with this answer.
    pub(crate) fn none(answer: Answer) -> JudgedResult
        ensures { result ≡ judged_result answer 0 0 }
    {
        JudgedResult {
            status: answer.status(),
            set: 0,
            bad: 0,
        }
    }
}

/// Judges the words of the set that is rescued. It hands the list back.
pub(crate) fn judge<'w, 'l, K: Lent>(
    shape: Shape,
    words: &'w [u64],
    flags: &'w [u8],
    wears: &[u64],
    listed: &'l mut [ListedStep],
    bad: &mut [u8],
) -> (JudgedResult, &'l mut [ListedStep])
    requires mirror { IsMirror shape words.now flags.now wears.now }
    requires start { K.start ≡ mirrored_device shape words.now flags.now wears.now }
    requires list { listed.ghost_name ≡ K.list }
    requires flags { length bad.old ≡ set_words shape }
    ensures { JudgesWords K.start result.0 bad.old bad.new }
{
    let draft = DraftFlash::<K>::of(shape, words, flags, wears, listed);
    let judged = find_bad(&draft, bad);
    let Drafted { listed, .. } = draft.ended(Answer::Done);
    (judged, listed)
}

/// Judges the words of any device.
fn find_bad<F: Flash>(flash: &F, bad: &mut [u8]) -> JudgedResult
    requires { length bad.old ≡ set_words (F.device flash.now).size }
    ensures { JudgesWords (F.device flash.now) result bad.old bad.new }
{
    let Some(set) = rescued_set(flash) else {
        return JudgedResult::none(Answer::NothingBegun);
    };
    flag_bad(flash, &set, bad);
    JudgedResult {
        status: Answer::Done.status(),
        set: number_of_side(set.side),
        bad: bad_words(flash),
    }
}

/// Flags each word of the set that is rescued, page after page: 1 where it is bad, else 0.
fn flag_bad<F: Flash>(flash: &F, set: &RescuedSet, bad: &mut [u8])
    requires set { IsRescuedSet (F.device flash.now) set.now }
    requires flags { length bad.old ≡ set_words (F.device flash.now).size }
    ensures { AreFlagged (F.device flash.now) set.now.side bad.new }
{
    let words = flash.shape().words();
    for (place, flag) in bad.iter_mut().enumerate() {
        *flag = u8::from(is_bad_word(flash, set, place / words, place % words));
    }
}

/// The number of a set.
fn number_of_side(side: Side) -> usize
    ensures { result ≡ numbered side }
{
    match side {
        Side::First => 0,
        Side::Second => 1,
    }
}
