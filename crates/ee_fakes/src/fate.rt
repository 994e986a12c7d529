//! What becomes of a step of a device.
ghost use Rattle.std.specs.Prelude.{◌≡◌};
ghost use Rattle.ee_fakes.specs.Fate.{page_of_fates, word_of_fate};

use ee_flash::Word;

/// What becomes of a step.
#[derive(Clone, Copy)]
pub enum Fate<'a> {
    /// It is done.
    Done,
    /// Power is cut in it. The list says what is left of the programmed word, or of each word of
    /// the erased page by its place. A word past its end is as before.
    Cut(&'a [Left]),
}

/// What a cut leaves of a word.
#[derive(Clone, Copy)]
pub enum Left {
    /// The word as before the step.
    Before,
    /// The word as after the whole step.
    After,
    /// A torn word.
    Torn,
}

impl Left {
    /// What is left of a word that the whole step changes from `before` to `after`.
    pub fn of(self, before: Word, after: Word) -> Word
        ensures { result ≡ word_of_fate self before after }
    {
        match self {
            Left::Before => before,
            Left::After => after,
            Left::Torn => Word::Torn,
        }
    }
}

/// Erases words as far as the list says, and those past its end as `rest` says.
pub(crate) fn erase_words(words: &mut [Word], list: &[Left], rest: Left)
    ensures { words.new ≡ page_of_fates list.now rest words.old }
{
    for (at, word) in words.iter_mut().enumerate() {
        let left = list.get(at).copied().unwrap_or(rest);
        *word = left.of(*word, Word::Erased);
    }
}
