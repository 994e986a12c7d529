//! One record, as a line spells it.
ghost use Rattle.std.specs.Prelude.{◌≡◌, ◌≢◌, ◌<◌, ◌≤◌, ◌*◌, ◌%◌, ℕ, List, Ok, Some, IfSome, IfNone, length, take};
ghost use Rattle.std.specs.Bool.{OnFalse, OnTrue};
ghost use Rattle.std.specs.List.{sum};
ghost use Rattle.std.specs.Option.{option_map, unwrap_or};
ghost use Rattle.hex.specs.Hex.{decode_of, hex_digit_value};
ghost use Rattle.ee_shell.specs.Dumps.intel_hex.Record.{fits_kind, line_without_return};
ghost use Rattle.ee_shell.specs.Dumps.intel_hex.Reading.{bytes_in, record_of};
ghost use Rattle.ee_shell.specs.Dumps.intel_hex.Row.{view};

/// The most bytes of a record: 255 of data and five more.
pub(crate) const MOST_BYTES: usize = 260;

/// What each byte is worth as a digit, in either case, and 255 where it is none.
#[rattlefmt::skip]
const VALUES: &[u8; 256] = &[
    255, 255, 255, 255, 255, 255, 255, 255, 255, 255, 255, 255, 255, 255, 255, 255, // 0x00
    255, 255, 255, 255, 255, 255, 255, 255, 255, 255, 255, 255, 255, 255, 255, 255, // 0x10
    255, 255, 255, 255, 255, 255, 255, 255, 255, 255, 255, 255, 255, 255, 255, 255, // 0x20
      0,   1,   2,   3,   4,   5,   6,   7,   8,   9, 255, 255, 255, 255, 255, 255, // 0x30
    255,  10,  11,  12,  13,  14,  15, 255, 255, 255, 255, 255, 255, 255, 255, 255, // 0x40
    255, 255, 255, 255, 255, 255, 255, 255, 255, 255, 255, 255, 255, 255, 255, 255, // 0x50
    255,  10,  11,  12,  13,  14,  15, 255, 255, 255, 255, 255, 255, 255, 255, 255, // 0x60
    255, 255, 255, 255, 255, 255, 255, 255, 255, 255, 255, 255, 255, 255, 255, 255, // 0x70
    255, 255, 255, 255, 255, 255, 255, 255, 255, 255, 255, 255, 255, 255, 255, 255, // 0x80
    255, 255, 255, 255, 255, 255, 255, 255, 255, 255, 255, 255, 255, 255, 255, 255, // 0x90
    255, 255, 255, 255, 255, 255, 255, 255, 255, 255, 255, 255, 255, 255, 255, 255, // 0xa0
    255, 255, 255, 255, 255, 255, 255, 255, 255, 255, 255, 255, 255, 255, 255, 255, // 0xb0
    255, 255, 255, 255, 255, 255, 255, 255, 255, 255, 255, 255, 255, 255, 255, 255, // 0xc0
    255, 255, 255, 255, 255, 255, 255, 255, 255, 255, 255, 255, 255, 255, 255, 255, // 0xd0
    255, 255, 255, 255, 255, 255, 255, 255, 255, 255, 255, 255, 255, 255, 255, 255, // 0xe0
    255, 255, 255, 255, 255, 255, 255, 255, 255, 255, 255, 255, 255, 255, 255, 255, // 0xf0
];

/// The types of records that do something.
pub(crate) const DATA: u8 = 0;

pub(crate) const END: u8 = 1;

pub(crate) const SEGMENT: u8 = 2;

pub(crate) const LINEAR: u8 = 4;

/// A record's address, type and data.
#[derive(Clone, Copy)]
pub(crate) struct Row<'a> {
    pub(crate) address: u16,
    pub(crate) kind: u8,
    pub(crate) bytes: &'a [u8],
}

/// The line without the carriage return at its end, if one stands there.
#[tactic(auto, using(crate::proofs::dumps::intel_hex::Parsing::bare_cut, crate::proofs::dumps::intel_hex::Parsing::bare_kept, crate::proofs::dumps::intel_hex::Parsing::bare_empty))]
pub(crate) fn without_return(line: &[u8]) -> &[u8]
    ensures { result.now ≡ line_without_return line.now }
{
    let Some((last, front)) = line.split_last() else {
        return line;
    };
    if *last == b'\r' {
        return front;
    }
    line
}

/// Brings the bytes that a line spells to the front of the buffer, and gives how many they are.
/// None where the line spells none, or more than a record has.
#[tactic(auto, using(crate::proofs::dumps::intel_hex::Parsing::no_colon_long, crate::proofs::dumps::intel_hex::Parsing::long_digits, crate::proofs::dumps::intel_hex::Parsing::odd_digits, crate::proofs::dumps::intel_hex::Parsing::bad_digits, crate::proofs::dumps::intel_hex::Parsing::digits_found))]
pub(crate) fn bytes_of_line(line: &[u8], buffer: &mut [u8; MOST_BYTES]) -> Option<usize>
    ensures found { IfSome result
        (λ count. (count ≤ 260) × (bytes_in line.now ≡ Some (take count buffer.new))) }
    ensures none { IfNone result
        ((bytes : List ℕ) → bytes_in line.now ≡ Some bytes → 260 < length bytes) }
{
    let (first, digits) = line.split_first()?;
    if *first != b':' || digits.len() % 2 != 0 {
        return None;
    }
    let count = digits.len() / 2;
    if count > MOST_BYTES {
        return None;
    }
    if !decode(digits, &mut buffer[..count]) {
        return None;
    }
    Some(count)
}

/// Brings the bytes that the digits spell into a row for as many, and says whether all of them are
/// digits. If not, others may have come there.
#[tactic(auto, using(crate::proofs::dumps::intel_hex::Digits::all_decoded))]
fn decode(digits: &[u8], bytes: &mut [u8]) -> bool
    requires { length digits.now ≡ 2 * length bytes.old }
    ensures spelled { OnTrue result (decode_of digits.now ≡ Ok bytes.new) }
    ensures refused { OnFalse result ((others : List ℕ) → decode_of digits.now ≢ Ok others) }
{
    // No digit is worth more than 15, so one bit above tells that a byte was none.
    let mut seen = 0;
    for i in 0..bytes.len() {
        let high = value_of(digits[2 * i]);
        let low = value_of(digits[2 * i + 1]);
        seen |= high | low;
        bytes[i] = high << 4 | low;
    }
    seen < 16
}

/// What a byte is worth as a digit, and 255 where it is none.
#[tactic(auto, using(crate::proofs::dumps::intel_hex::Digits::worth_found))]
fn value_of(byte: u8) -> u8
    ensures { result ≡ unwrap_or (hex_digit_value byte) 255 }
{
    VALUES[usize::from(byte)]
}

/// The record that these bytes are.
pub(crate) fn row_of(bytes: &[u8]) -> Option<Row<'_>>
    ensures { option_map view result ≡ record_of bytes.now }
{
    let [count, high, low, kind, behind @ ..] = bytes else {
        return None;
    };
    let count = usize::from(*count);
    let address = u16::from(*high) * 256 + u16::from(*low);
    if behind.len() != count + 1 || sum_of(bytes) != 0 || !fits(*kind, address, count) {
        return None;
    }
    Some(Row {
        address,
        kind: *kind,
        bytes: &behind[..count],
    })
}

/// The sum of the bytes, less all multiples of 256.
pub(crate) fn sum_of(bytes: &[u8]) -> u8
    ensures { result ≡ sum bytes.now % 256 }
{
    let mut total: u8 = 0;
    for byte in bytes {
        total = total.wrapping_add(*byte);
    }
    total
}

/// Whether so many bytes are right for the type.
fn fits(kind: u8, address: u16, count: usize) -> bool
    requires { count < 256 }
    ensures { result ≡ fits_kind kind address count }
{
    match kind {
        DATA => usize::from(address) + count <= 65536,
        END => count == 0,
        SEGMENT | LINEAR => count == 2,
        3 | 5 => count == 4,
        _ => false,
    }
}
