//! How large a device is: two sets of as many pages, and each page a header and slots.
ghost use Rattle.std.specs.Prelude.{◌≤◌, ◌≡◌, SomeIff};
ghost use Rattle.ee_flash.specs.Size.{IsWithinLimits, size_of, slot_count};

use std::marker::Model;

/// The words of a page's header, below its slots.
///
/// Source: ours.
pub const HEADER_WORDS: usize = 4;

/// How large a device is: the pages of each of its two sets, 1 to 64, and the words of a page, 5 to
/// 512.
///
/// Source: two sets of as many pages, AN4894; the limits are ours.
#[derive(Clone, Copy, Debug, PartialEq, Eq)]
pub struct Shape {
    pages: usize,
    words: usize,
}

impl Model for Shape {
    ghost use Rattle.ee_flash.specs.Size.{IsWithinLimits, Size, size_of};

    ghost Value = { Size };

    ghost view = { λ shape. size_of shape.pages shape.words };

    ghost invariant = { λ shape. IsWithinLimits (size_of shape.pages shape.words) };

    ghost inverse = { λ size. record { pages = size.pages; words = size.words } };
}

impl Shape {
    /// The shape of this many pages in each set and words in each page, `None` outside the limits.
    pub const fn new(pages: usize, words: usize) -> Option<Self>
        ensures { SomeIff result (IsWithinLimits (size_of pages words)) (size_of pages words) }
    {
        if pages >= 1 && pages <= 64 && words >= 5 && words <= 512 {
            Some(Shape { pages, words })
        } else {
            None
        }
    }

    /// The pages of each set, 1 to 64.
    pub fn pages(&self) -> usize
        ensures value { result ≡ self.now.pages }
        ensures some { 1 ≤ result }
        ensures few { result ≤ 64 }
    {
        self.pages
    }

    /// The words of a page, 5 to 512.
    pub fn words(&self) -> usize
        ensures value { result ≡ self.now.words }
        ensures some { 5 ≤ result }
        ensures few { result ≤ 512 }
    {
        self.words
    }

    /// The slots of a set, 1 to 32512: the words of its pages, less the four of each page's header.
    pub fn slots(&self) -> usize
        // So `HEADER_WORDS` is the definitions' `header_words`.
        ensures value { result ≡ slot_count self.now }
        ensures some { 1 ≤ result }
        ensures few { result ≤ 32512 }
    {
        self.pages * (self.words - HEADER_WORDS)
    }
}
