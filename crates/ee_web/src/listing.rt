//! A step as it is listed.
ghost use Rattle.std.specs.Prelude.{◌≡◌};
ghost use Rattle.ee_flash.specs.Step.{Erase};

use ee_flash::Word;

/// A step as it is listed: a word to be programmed with a value, or a page to be erased.
///
/// Source: ours.
#[repr(C)]
#[derive(Clone, Copy)]
pub struct ListedStep {
    /// The page, by its number in the device.
    pub page: usize,
    /// The place of the word in its page; all ones where the page is erased.
    pub place: usize,
    /// What the word is programmed with, below all ones; 0 where the page is erased.
    pub value: u64,
}

impl ListedStep {
    ghost use Rattle.ee_web.specs.Listing.{IsZeroIfErase, left_by, step_listed_so};

    /// The erase of a page.
    pub(crate) fn erase(page: usize) -> Self
        ensures erases { step_listed_so result ≡ Erase page }
        ensures zero { IsZeroIfErase result }
    {
        ListedStep {
            page,
            place: usize::MAX,
            value: 0,
        }
    }

    /// What it leaves of this word of a page.
    pub(crate) fn leaves(self, page: usize, at: usize, word: Word) -> Word
        ensures { result ≡ left_by (step_listed_so self) page at word }
    {
        if self.page != page {
            return word;
        }
        if self.place == usize::MAX {
            return Word::Erased;
        }
        if self.place != at {
            return word;
        }
        Word::Held(self.value)
    }
}
