//! What a call answers, and the numbers by which its caller is told.
ghost use Rattle.std.specs.Prelude.{◌≡◌};

use ee_core::Rescued;
use ee_pages::ScanFault;

/// What a call answers.
///
/// Source: ours.
#[derive(Clone, Copy)]
pub enum Answer {
    /// It is done: appended to the live set, where it is a change.
    Done,
    /// It is done, and the live addresses were moved to the other set.
    Moved,
    /// There is nothing: no value, no next address, no page to be erased.
    Nothing,
    /// As many addresses have a value as there are slots, and this one has none.
    Full,
    /// Every slot is used, and the generation is the greatest.
    Spent,
    /// The address has no value to be forgotten.
    Absent,
    /// The words are no store.
    NoStore(ScanFault),
    /// The call takes more steps than the list has places.
    ListTooShort,
    /// The shape is out of range, or the words, the flags or the wears are not as many as it says.
    WrongShape,
    /// The address is 0 or 65535.
    ImproperAddress,
    /// Both values are of one address.
    Twice,
    /// No set is begun, so there is nothing to rescue.
    NothingBegun,
    /// A store is made of the set that is rescued.
    Rescued(Rescued),
}

/// What a call tells its caller.
///
/// Source: ours.
#[repr(C)]
#[derive(Clone, Copy)]
pub struct CallResult {
    /// The number of an answer (`status_of` in `specs/Answers.antt`).
    pub status: usize,
    /// How many steps are listed; 0 where the words are no store, or the call is refused.
    pub listed: usize,
    /// The page of the foreign word, where the status is that there is one; else 0.
    pub page: usize,
    /// Its place in the page.
    pub place: usize,
    /// How many words of the set that was rescued were bad, where the status is that one was;
    /// else 0.
    pub bad: usize,
    /// How many addresses have a value then, 0 in any other.
    pub live: usize,
}

impl Answer {
    ghost use Rattle.ee_web.specs.Answers.{foreign_at, is_played, rescued_in, result_of, status_of};

    /// The number of this answer.
    pub(crate) fn status(self) -> usize
        ensures { result ≡ status_of self }
    {
        match self {
            Answer::Done => 0,
            Answer::Moved => 1,
            Answer::Nothing => 2,
            Answer::Full => 3,
            Answer::Spent => 4,
            Answer::Absent => 5,
            Answer::NoStore(ScanFault::Unformatted) => 6,
            Answer::NoStore(ScanFault::NoLiveSet) => 7,
            Answer::NoStore(ScanFault::TwoLive) => 8,
            Answer::NoStore(ScanFault::Foreign { .. }) => 9,
            Answer::ListTooShort => 10,
            Answer::WrongShape => 11,
            Answer::ImproperAddress => 12,
            Answer::Twice => 13,
            Answer::NothingBegun => 14,
            Answer::Rescued(_) => 15,
        }
    }

    /// The page and the place of a foreign word, 0 where the answer names none.
    pub(crate) fn foreign(self) -> (usize, usize)
        ensures { result ≡ foreign_at self }
    {
        match self {
            Answer::NoStore(ScanFault::Foreign { page, at }) => (page, at),
            _ => (0, 0),
        }
    }

    /// What a rescue found and made, 0 and 0 where the answer is none of one.
    pub(crate) fn rescued(self) -> Rescued
        ensures { result ≡ rescued_in self }
    {
        match self {
            Answer::Rescued(rescued) => rescued,
            _ => Rescued {
                bad_words: 0,
                live: 0,
            },
        }
    }

    /// Whether the steps that a call listed are played on the mirror.
    pub(crate) fn is_played(self) -> bool
        ensures { result ≡ is_played self }
    {
        match self {
            Answer::NoStore(_)
            | Answer::ListTooShort
            | Answer::WrongShape
            | Answer::ImproperAddress => false,
            _ => true,
        }
    }

    /// What the caller is told of this answer, with so many steps listed.
    pub(crate) fn into_result(self, listed: usize) -> CallResult
        ensures { result ≡ result_of self listed }
    {
        let status = self.status();
        let (page, place) = self.foreign();
        let rescued = self.rescued();
        CallResult {
            status,
            listed,
            page,
            place,
            bad: rescued.bad_words,
            live: rescued.live,
        }
    }
}
