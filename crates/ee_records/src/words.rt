//! The words of a record: their turns, and their bytes.
ghost use Rattle.std.specs.Prelude.{◌≡◌, ◌≢◌, ◌+◌, ◌*◌, ◌/◌, ◌^◌, ◌%◌, ◌<◌, ◌≤◌, ℕ, Some, false, length, slice_index, true};
ghost use Rattle.ee_flash.specs.Device.{IsOn};
ghost use Rattle.ee_core.specs.State.{state_of};
ghost use Rattle.ee_records.specs.Record.{byte_of, record_word, word_turn, words_with};

use crate::check::{bytes_word, check_of, words_for};
use ee_codec::Address;
use ee_core::Variables;

/// How many words a record of so many bytes has: its check, and those of its bytes.
pub(crate) fn words_with(bytes: usize) -> usize
    requires { bytes < 65536 }
    ensures { result ≡ words_with bytes }
{
    words_for(bytes) + 1
}

/// The word of this number of a record that is these bytes: its check, and behind it their words.
pub(crate) fn record_word(bytes: &[u8], word: usize) -> u32
    requires fits { length bytes.now < 65536 }
    requires word { word < 65536 }
    ensures { result ≡ record_word bytes.now word }
{
    if word == 0 {
        check_of(bytes)
    } else {
        bytes_word(bytes, word - 1)
    }
}

/// The turn of a word.
pub(crate) fn word_turn(turns: u32, word: usize) -> u32
    ensures turn { result ≡ word_turn turns word }
    ensures either { result < 2 }
{
    (turns >> (word % 16)) % 2
}

/// The byte of a value at this place, 0 to 3.
fn byte_of(value: u32, place: usize) -> u8
    requires { place < 4 }
    ensures { result ≡ byte_of value place }
{
    ((value >> (8 * place)) % 256) as u8
}

/// Puts the bytes of a value into the space from this place on, up to the end.
pub(crate) fn put_bytes(space: &mut [u8], from: usize, end: usize, value: u32)
    requires end { end ≤ length space.old }
    requires from { from < 65536 * 4 }
    ensures here { (place : ℕ) → place < 4 → from + place < end
        → slice_index space.new (from + place) ≡ byte_of value place }
    ensures before { (at : ℕ) → at < from → slice_index space.new at ≡ slice_index space.old at }
{
    'places: for place in 0..4 {
        if from + place < end {
            space[from + place] = byte_of(value, place);
        }
    }
}

/// Whether an address has this value.
pub(crate) fn has_value<V: Variables>(store: &V, address: Address, value: u32) -> bool
    requires { IsOn (V.device store.now) }
    ensures yes { result ≡ true → (state_of (V.device store.now)).map address ≡ Some value }
    ensures no { result ≡ false → (state_of (V.device store.now)).map address ≢ Some value }
{
    match store.read(address) {
        Ok(Some(found)) => found == value,
        Ok(None) => false,
        Err(_) => false,
    }
}
