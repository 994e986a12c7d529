//! Words in memory: their numbers, and which of them are torn.
ghost use Rattle.std.specs.Bool.{MatchBool};
ghost use Rattle.std.specs.Prelude.{◌≡◌, ◌<◌, ◌≤◌, ◌+◌, ◌-◌, [], ◌∷◌, ◌++◌, IfNone, IfOk, IfSome, OnErr, OnOk, drop, length, map, replicate, slice_index_or, slice_set, take};
ghost use Rattle.std.specs.List.{All};
ghost use Rattle.ee_flash.specs.Cells.{IsFirstAllOnes};
ghost use Rattle.ee_flash.specs.Device.{IsBelowAllOnes, all_ones};
ghost use Rattle.ee_flash.specs.Fuse.{left_page};
ghost use Rattle.ee_flash.specs.Runs.{number_of, torn_flag, flagged_word};

use crate::{Tear, Word};
use std::alloc::{AllocError, Allocator, Global};
use std::marker::Model;

/// Words one behind another, each as its number in a run and whether it is torn: 9 bytes a word.
///
/// Source: ours.
#[derive(Drop)]
pub struct Cells<A: Allocator = Global> {
    numbers: Vec<u64, A>,
    /// Of a word whose number is 0 it tells whether the word is torn.
    torn: Vec<bool, A>,
}

impl<A: Allocator> Model for Cells<A> {
    ghost use Rattle.std.specs.Prelude.{◌≡◌, List, length};
    ghost use Rattle.std.specs.List.{All};
    ghost use Rattle.ee_flash.specs.Device.{IsBelowAllOnes};
    ghost use Rattle.ee_flash.specs.Runs.{flagged_words};
    ghost use Rattle.ee_flash.specs.declared.word.Word.{Word};

    ghost Value = { List Word };

    ghost view = { λ cells. flagged_words cells.numbers.items cells.torn.items };

    ghost invariant = { λ cells. (length cells.torn.items ≡ length cells.numbers.items)
        × All IsBelowAllOnes (flagged_words cells.numbers.items cells.torn.items) };
}

impl<A: Allocator + Copy> Cells<A> {
    /// No words, with room for so many.
    ///
    /// # Errors
    ///
    /// `AllocError`: memory was refused.
    pub fn with_capacity(alloc: A, count: usize) -> Result<Self, AllocError>
        ensures { IfOk result (λ cells. cells ≡ []) }
    {
        Ok(Cells {
            numbers: Vec::with_capacity(alloc, count)?,
            torn: Vec::with_capacity(alloc, count)?,
        })
    }

    /// So many erased words.
    pub(crate) fn erased(alloc: A, count: usize) -> Result<Self, AllocError>
        ensures { IfOk result (λ cells. cells ≡ replicate count Word.Erased) }
    {
        Ok(Cells {
            numbers: vec![in alloc; u64::MAX; count]?,
            torn: vec![in alloc; false; count]?,
        })
    }
}

impl<A: Allocator> Cells<A> {
    /// Puts a word behind the others, which is not held at `u64::MAX`.
    ///
    /// # Errors
    ///
    /// `AllocError`: memory was refused, and the words are as before.
    pub fn push(&mut self, word: Word) -> Result<(), AllocError>
        requires { IsBelowAllOnes word }
        ensures pushed { OnOk result (self.new ≡ self.old ++ word ∷ []) }
        ensures refused { OnErr result (self.new ≡ self.old) }
    {
        self.numbers.push(word.number())?;
        if let Err(refused) = self.torn.push(is_torn(word)) {
            self.numbers.truncate(self.torn.len());
            return Err(refused.into());
        }
        Ok(())
    }

    /// How many words there are. None is held at `u64::MAX`.
    pub fn len(&self) -> usize
        ensures value { result ≡ length self.now }
        ensures below_all_ones { All IsBelowAllOnes self.now }
    {
        self.numbers.len()
    }

    /// The word in a place.
    pub(crate) fn word(&self, place: usize) -> Word
        requires { place < length self.now }
        ensures value { result ≡ slice_index_or self.now place Word.Erased }
        ensures below_all_ones { IsBelowAllOnes result }
    {
        word_from(self.numbers[place], self.torn[place])
    }

    /// The numbers of so many words from a place on.
    pub(crate) fn numbers(&self, start: usize, count: usize) -> &[u64]
        requires { start + count ≤ length self.now }
        ensures { result.now ≡ map number_of (take count (drop start self.now)) }
    {
        &self.numbers[start..start + count]
    }

    /// Puts a word in a place, whatever was there.
    pub(crate) fn set(&mut self, place: usize, word: Word)
        requires within { place < length self.old }
        requires below_all_ones { IsBelowAllOnes word }
        ensures { self.new ≡ slice_set self.old place word }
    {
        self.numbers[place] = word.number();
        self.torn[place] = is_torn(word);
    }
}

/// The words of a device in the form in which they came.
#[derive(Drop)]
pub(crate) enum Kept<A: Allocator = Global> {
    /// As numbers and flags. A run of them is lent where it stands.
    Cells(Cells<A>),
    /// Word by word. A run of them takes room.
    Words(Vec<Word, A>),
}

impl<A: Allocator> Kept<A> {
    ghost use Rattle.ee_flash.specs.Kept.{words_of};

    /// The word in a place.
    pub(crate) fn word(&self, place: usize) -> Word
        requires { place < length (words_of self.now) }
        ensures { result ≡ slice_index_or (words_of self.now) place Word.Erased }
    {
        match self {
            Kept::Cells(cells) => cells.word(place),
            Kept::Words(words) => words[place],
        }
    }

    /// The numbers of the words from a place on, as many as there is room for.
    pub(crate) fn run<'a>(&'a self, start: usize, room: &'a mut [u64]) -> &'a [u64]
        requires { start + length room.old ≤ length (words_of self.now) }
        ensures { result.now
            ≡ map number_of (take (length room.old) (drop start (words_of self.now))) }
    {
        match self {
            Kept::Cells(cells) => cells.numbers(start, room.len()),
            Kept::Words(words) => {
                put_numbers(&words[start..start + room.len()], room);
                room
            }
        }
    }

    /// Puts a word in a place, whatever was there.
    pub(crate) fn set(&mut self, place: usize, word: Word)
        requires within { place < length (words_of self.old) }
        requires below_all_ones { IsBelowAllOnes word }
        ensures { words_of self.new ≡ slice_set (words_of self.old) place word }
    {
        match self {
            Kept::Cells(cells) => cells.set(place, word),
            Kept::Words(words) => words[place] = word,
        }
    }

    /// Leaves the words from a place up to another as an erase of their page with this tear does.
    // So a whole erase gets a loop of its own, which looks at no tear.
    #[inline]
    pub(crate) fn tear(&mut self, start: usize, end: usize, tear: Tear)
        requires in_order { start ≤ end }
        requires within { end ≤ length (words_of self.old) }
        requires below_all_ones { All IsBelowAllOnes (words_of self.old) }
        ensures { let words = words_of self.old in
            let left = left_page tear (take (end - start) (drop start words)) in
            words_of self.new ≡ take start words ++ (left ++ drop (end - start) (drop start words)) }
    {
        for place in start..end {
            let word = tear.erased(place - start, self.word(place));
            self.set(place, word);
        }
    }
}

/// The index of the first word that is held at `u64::MAX`.
pub(crate) fn first_all_ones(words: &[Word]) -> Option<usize>
    ensures found { IfSome result (IsFirstAllOnes words.now) }
    ensures none { IfNone result (All IsBelowAllOnes words.now) }
{
    for (at, word) in words.iter().enumerate() {
        if is_all_ones(*word) {
            return Some(at);
        }
    }
    None
}

/// Whether the word is held at `u64::MAX`.
fn is_all_ones(word: Word) -> bool
    ensures { MatchBool result (word ≡ Word.Held all_ones) (IsBelowAllOnes word) }
{
    matches!(word, Word::Held(u64::MAX))
}

/// Puts the numbers of these words into the room, which is as long.
fn put_numbers(words: &[Word], room: &mut [u64])
    requires { length room.old ≡ length words.now }
    ensures { room.new ≡ map number_of words.now }
{
    for (at, number) in room.iter_mut().enumerate() {
        *number = words[at].number();
    }
}

/// Whether the word is torn.
fn is_torn(word: Word) -> bool
    ensures { result ≡ torn_flag word }
{
    matches!(word, Word::Torn)
}

/// The word with this number, which is torn if its number is 0 and the flag is set.
fn word_from(number: u64, torn: bool) -> Word
    ensures { result ≡ flagged_word number torn }
{
    match number {
        u64::MAX => Word::Erased,
        0 if torn => Word::Torn,
        _ => Word::Held(number),
    }
}
