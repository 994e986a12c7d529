//! Where a record stands: its base address, its room, and the two addresses of each word.
ghost use Rattle.std.specs.Prelude.{◌≡◌, ◌+◌, ◌*◌, ◌/◌, ◌<◌, ◌≤◌};

use ee_codec::Address;

/// A record: bytes of up to so many words of four, in the variables from a base address on.
///
/// Source: ours.
#[derive(Clone, Copy, Debug)]
pub struct Record {
    base: Address,
    words: u16,
    ghost in_range: { base + 2 * (words + 1) < 65535 },
    ghost fits: { words < 16384 },
}

impl Record {
    ghost use Rattle.std.specs.Prelude.{◌↔◌, IfSome, IsSome};
    ghost use Rattle.ee_records.specs.Record.{place};

    /// The record at this base address, with room for so many words of four bytes, 16383 at the
    /// most. It takes the base address and the `2 * words + 2` behind it. `None` if the last of
    /// them is above 65534, or there are more words.
    ///
    /// Source: ours.
    pub fn new(base: Address, words: u16) -> Option<Record>
        ensures range { IsSome result ↔ (base + 2 * (words + 1) < 65535) × (words < 16384) }
        ensures is { IfSome result (λ it. (it.base ≡ base) × (it.words ≡ words)) }
    {
        let last = u32::from(base.get()) + 2 * (u32::from(words) + 1);
        if last > 65534 || words > 16383 {
            return None;
        }
        Some(Record { base, words })
    }

    /// The address of its head.
    ///
    /// Source: ours.
    pub fn base(&self) -> Address
        ensures { result ≡ self.now.base }
    {
        self.base
    }

    /// How many bytes it takes at the most.
    ///
    /// Source: ours.
    pub fn capacity(&self) -> usize
        ensures capacity { result ≡ 4 * self.now.words }
        ensures fits { result < 65536 }
    {
        4 * usize::from(self.words)
    }

    /// The address of a word of it, by the word's turn.
    pub(crate) fn place(&self, word: usize, turn: u32) -> Address
        requires word { word < self.now.words + 1 }
        requires turn { turn < 2 }
        ensures { result ≡ place self.now.base word turn }
    {
        let number = self.base.get() + 1 + 2 * word as u16 + turn as u16;
        match Address::new(number) {
            Some(address) => address,
            None => self.base,
        }
    }
}
