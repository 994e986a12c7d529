//! Numbers as a text writes them: decimal, with no sign and no zero in front.
ghost use Rattle.std.specs.Prelude.{◌≡◌, ℕ, ◌^◌, ◌<◌, ◌≤◌, ◌++◌, List, ◌⊎◌, IfSome, IsSomeAnd, OnOk, OnErr, Some, decimal, length, slice_index};
ghost use Rattle.std.specs.Bool.{OnFalse, OnTrue};
ghost use Rattle.std.specs.Option.{SomeIff};
ghost use Rattle.ee_text.specs.Line.{IsLonger};
ghost use Rattle.ee_text.specs.Number.{StartsWithNoDigit};
ghost use Rattle.std.specs.Str.Parse.{AllDigits, digits_value};

use crate::front_digits::leading_digits;
use itoa::Buffer;
use std::alloc::{AllocError, Allocator};

/// The number that the field writes. None where it writes no number, or one above `u64::MAX`.
#[tactic(auto, using(crate::proofs::Digits::only, crate::proofs::Digits::not_empty))]
pub fn number(field: &[u8]) -> Option<u64>
    // What is read is written so.
    ensures found { IfSome result (λ n. field.now ≡ decimal n) }
    // What is written so is read.
    ensures only { (n : ℕ) → n < 2 ^ 64 → field.now ≡ decimal n → result ≡ Some n }
{
    let (first, others) = field.split_first()?;
    if *first == b'0' && !others.is_empty() {
        return None;
    }
    value_of_digits(field)
}

/// The number that the field writes. None where it writes no number, or one above `greatest`.
pub fn number_up_to(field: &[u8], greatest: u64) -> Option<u64>
    ensures found { IfSome result (λ n. (n ≤ greatest) × (field.now ≡ decimal n)) }
    ensures only { (n : ℕ) → n ≤ greatest → field.now ≡ decimal n → result ≡ Some n }
{
    number(field).filter(|n| *n <= greatest)
}

/// The number that stands at the front of a text, up to the first byte that is no digit, and what
/// stands behind it. None where no number stands there, or one above `greatest`.
#[inline(always)]
pub fn leading_number(text: &[u8], greatest: u32) -> Option<(u32, &[u8])>
    // What is read is written there, and no digit follows.
    ensures found { IfSome result (λ parts. (parts.0 ≤ greatest)
        × (text.now ≡ decimal parts.0 ++ parts.1.now) × StartsWithNoDigit parts.1.now) }
    // What is written there is read.
    ensures only { (n : ℕ) (behind : List ℕ) → n ≤ greatest → StartsWithNoDigit behind
        → text.now ≡ decimal n ++ behind
        → IsSomeAnd result (λ parts. (parts.0 ≡ n) × (parts.1.now ≡ behind)) }
{
    let (value, count) = leading_digits(text)?;
    if !is_plain(&text[..count]) {
        return None;
    }
    if value > u64::from(greatest) {
        return None;
    }
    Some((value as u32, &text[count..]))
}

/// Writes the number at the end. An `Err` leaves `out` as it was.
#[inline(always)]
pub fn push_number<A: Allocator>(out: &mut Vec<u8, A>, n: u64) -> Result<(), AllocError>
    ensures ok { OnOk result (out.new.items ≡ out.old.items ++ decimal n) }
    ensures err { OnErr result (out.new.items ≡ out.old.items) }
{
    out.extend_from_slice(Buffer::new().format(n).as_bytes())
}

/// Writes the words, and the number behind them, at the end. After an error there
/// may be a part of them.
pub fn push_number_behind<A: Allocator>(
    out: &mut Vec<u8, A>,
    words: &[u8],
    n: u64,
) -> Result<(), AllocError>
    ensures ok { OnOk result (out.new.items ≡ out.old.items ++ (words.now ++ decimal n)) }
    ensures err { OnErr result (IsLonger out.old.items out.new.items) }
{
    out.extend_from_slice(words)?;
    push_number(out, n)
}

/// What the digits are worth. None where a byte is no digit, or the number is above `u64::MAX`.
#[tactic(auto, using(crate::proofs::Digits::too_large, crate::proofs::Digits::whole))]
fn value_of_digits(digits: &[u8]) -> Option<u64>
    ensures { SomeIff result (AllDigits 10 digits.now × (digits_value 10 digits.now < 2 ^ 64))
        (digits_value 10 digits.now) }
{
    let mut value: u64 = 0;
    for byte in digits {
        let digit = match *byte {
            b'0'..=b'9' => *byte - b'0',
            _ => return None,
        };
        value = value.checked_mul(10)?.checked_add(u64::from(digit))?;
    }
    Some(value)
}

/// Whether there are digits, with no zero in front of others.
#[inline(always)]
fn is_plain(digits: &[u8]) -> bool
    ensures plain { OnTrue result ((0 < length digits.now)
        × (slice_index digits.now 0 ≡ 48 → length digits.now ≡ 1)) }
    ensures not_plain { OnFalse result ((length digits.now ≡ 0)
        ⊎ ((slice_index digits.now 0 ≡ 48) × (1 < length digits.now))) }
{
    match digits {
        [] => false,
        [b'0', others @ ..] => others.is_empty(),
        _ => true,
    }
}
