//! A number of a store as a coded word, and the word that a number of the flash is.
ghost use Rattle.std.specs.Prelude.{◌≡◌, ◌<◌, ◌+◌, ◌*◌, ◌/◌, ◌%◌, ◌^◌, ◌==◌, ◌⊎◌, if◌then◌else◌, Some};
ghost use Rattle.ee_flash.specs.Device.{all_ones};
ghost use Rattle.ee_flash.specs.Size.{IsWithinLimits};
ghost use Rattle.ee_flash.specs.declared.word.Word.TheVariants.{Erased, Torn};
ghost use Rattle.ee_nor.specs.Coded.Coded.{coded_number as coded_number_of, held_payload, is_slot_number, mark_value as mark_value_of, payload_of_number, word_read};
ghost use Rattle.ee_nor.specs.Coded.Laws.{IsFarFromOthers, IsTold};

use crate::coded::code::low_half;
use ee_flash::{Shape, Word};

/// Both halves of the mark, and the high half of all that stands in a header.
const HEADER_HALF: u32 = 0xAAAA_AAAA;

/// The mark, which is that of a store of plain words too.
pub(crate) const MARK: u64 = 0xAAAA_AAAA_AAAA_AAAA;

/// The coded word of a number on a device of this shape: of a number that a store writes, else of
/// some other. The mark says the shape.
///
/// Source: ours.
pub fn coded_number(shape: Shape, number: u64) -> u64
    ensures word { result ≡ coded_number_of shape number }
    ensures none_is_near_another { IsWithinLimits shape
        → IsFarFromOthers (payload_of_number shape number) result }
{
    let (low, value) = payload_of(shape, number);
    u64::from(value) * 0x1_0000_0000 + u64::from(low_half(low, value))
}

/// The word that a reading is on a device of this shape: torn where there is none, erased where it
/// is `u64::MAX`, held where it is the coded word of a number; else torn, as the mark of another
/// shape is.
///
/// Source: ours.
pub fn word_of_reading(shape: Shape, reading: Option<u64>) -> Word
    ensures word { result ≡ word_read shape reading }
    ensures told { IsTold shape reading result }
{
    let Some(number) = reading else {
        return Word::Torn;
    };
    let value = (number >> 32) as u32;
    let low = (number & 0xffff_ffff) as u32;
    let rest = low & 0x1_ffff;
    if low_half(rest, value) != low {
        return erased_or_torn(number);
    }
    // A slot's number stands in its word as it is, so nothing more is asked of it.
    if rest & 0xffff > 0 {
        return Word::Held(without_check(number));
    }
    header_word(shape, rest, value)
}

/// The word of a number that isn't coded.
fn erased_or_torn(number: u64) -> Word
    ensures { result ≡ (if number == all_ones then Erased else Torn) }
{
    if number == u64::MAX {
        Word::Erased
    } else {
        Word::Torn
    }
}

/// A number of the flash with zeros where a coded word has its check.
pub(crate) fn without_check(number: u64) -> u64
    ensures { result ≡ number / 2 ^ 32 * 2 ^ 32 + number % 2 ^ 17 }
{
    number - (number & 0xffff_ffff) + (number & 0x1_ffff)
}

/// The word of a payload with no address, which is a value and the 17 bits below it: held where it
/// is a number's.
fn header_word(shape: Shape, low: u32, value: u32) -> Word
    requires no_address { low ≡ 0 ⊎ low ≡ 2 ^ 16 }
    ensures { result ≡ held_payload shape (Some (value * 2 ^ 17 + low)) }
{
    if low > 0 {
        return if value == mark_value(shape) {
            Word::Held(MARK)
        } else {
            Word::Torn
        };
    }
    if is_slot_half(value) || value == HEADER_HALF {
        Word::Torn
    } else {
        Word::Held(u64::from(HEADER_HALF) * 0x1_0000_0000 + u64::from(value))
    }
}

/// The payload of a number: the 17 bits below its value, and the value.
#[tactic(auto, unfolding(crate::specs::Coded::Coded::payload_of_number))]
fn payload_of(shape: Shape, number: u64) -> (u32, u32)
    ensures value { result.1 * 2 ^ 17 + result.0 ≡ payload_of_number shape number }
    ensures fits { result.0 < 2 ^ 17 }
{
    let low = (number & 0xffff_ffff) as u32;
    if is_slot_half(low) {
        return (low, (number >> 32) as u32);
    }
    if low == HEADER_HALF {
        return (0x1_0000, mark_value(shape));
    }
    (0, low)
}

/// Whether a number is a slot's, by its low half.
fn is_slot_half(low: u32) -> bool
    ensures { result ≡ is_slot_number low }
{
    low < 0x2_0000 && low & 0xffff > 0
}

/// The value of the mark.
pub(crate) fn mark_value(shape: Shape) -> u32
    ensures { result ≡ mark_value_of shape }
{
    shape.pages() as u32 * 0x1_0000 + shape.words() as u32
}
