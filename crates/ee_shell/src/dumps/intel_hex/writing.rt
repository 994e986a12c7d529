//! Writing a text.
ghost use Rattle.std.specs.Prelude.{◌≡◌, ◌≤◌, ◌<◌, ◌+◌, ◌^◌, ◌*◌, ◌/◌, ◌%◌, ◌++◌, ◌∷◌, [], length, take, None, IfOk, OnOk};
ghost use Rattle.std.specs.List.{flat_map, sum};
ghost use Rattle.hex.specs.Hex.{encode_upper};
ghost use Rattle.ee_shell.specs.Dumps.intel_hex.Record.{check_byte};
ghost use Rattle.ee_shell.specs.Dumps.intel_hex.Written.{hex_text, is_erased_word, record_line, row_length, rows, sparse_text, upper_told};

use super::record::{DATA, END, LINEAR, sum_of};
use std::alloc::{AllocError, Allocator};

/// The most data bytes of a record that is written.
const ROW: usize = 16;

/// The most characters of a line that is written, with the line feed: the colon, two digits for
/// each byte of a row and for five more.
const MOST_CHARACTERS: usize = 44;

/// The digits, by their value.
const DIGITS: &[u8; 16] = b"0123456789ABCDEF";

/// The text that says these bytes from address `base` on: rows of 16 bytes in upper case, the upper
/// address where it changes, and the end record. For no bytes it is the end record alone. They end
/// at address 2^32 at the latest.
///
/// # Errors
///
/// `AllocError`: memory was refused.
///
/// Source: ours.
pub fn write_hex<A: Allocator + Copy>(
    alloc: A,
    base: u32,
    bytes: &[u8],
) -> Result<Vec<u8, A>, AllocError>
    requires { base + length bytes.now ≤ 2 ^ 32 }
    ensures { IfOk result (λ text. text.items ≡ hex_text base bytes.now) }
{
    let mut out = Vec::new(alloc);
    push_rows(&mut out, u64::from(base), bytes)?;
    push_record(&mut out, 0, END, &[])?;
    Ok(out)
}

/// The text that says these bytes from address `base` on, but for the words of `size` bytes each
/// byte of which is 255: as `write_hex` writes it, with an upper address in front of each run of
/// other words.
///
/// # Errors
///
/// `AllocError`: memory was refused.
///
/// Source: ours.
pub fn write_sparse_hex<A: Allocator + Copy>(
    alloc: A,
    base: u32,
    size: usize,
    bytes: &[u8],
) -> Result<Vec<u8, A>, AllocError>
    requires some { 0 < size }
    requires fits { base + length bytes.now ≤ 2 ^ 32 }
    ensures { IfOk result (λ text. text.items ≡ sparse_text size base bytes.now) }
{
    let mut out = Vec::new(alloc);
    let mut place = u64::from(base);
    // The words from a run on, and how many bytes of the run there were so far.
    let mut rest = bytes;
    let mut met = 0;
    while met < rest.len() {
        let (run, behind) = rest.split_at(met);
        let (word, others) = behind.split_at(size.min(behind.len()));
        if is_erased(word) {
            push_rows(&mut out, place, run)?;
            place += (met + word.len()) as u64;
            rest = others;
            met = 0;
        } else {
            met += word.len();
        }
    }
    push_rows(&mut out, place, rest)?;
    push_record(&mut out, 0, END, &[])?;
    Ok(out)
}

/// Whether each byte of a word is 255.
#[tactic(auto, using(crate::proofs::dumps::intel_hex::Sparse::erased_more, crate::proofs::dumps::intel_hex::Sparse::not_erased, crate::proofs::dumps::intel_hex::Sparse::all_erased))]
fn is_erased(word: &[u8]) -> bool
    ensures { result ≡ is_erased_word word.now }
{
    for byte in word {
        if *byte != 255 {
            return false;
        }
    }
    true
}

/// Writes the rows of bytes, or a part of them after an error: the upper address in front of the
/// first and where it changes.
#[tactic(auto, using(crate::proofs::dumps::intel_hex::Written::one_row_more, crate::proofs::dumps::intel_hex::Written::all_written_so))]
fn push_rows<A: Allocator>(out: &mut Vec<u8, A>, from: u64, bytes: &[u8]) -> Result<(), AllocError>
    requires { from + length bytes.now ≤ 2 ^ 32 }
    ensures { OnOk result (out.new.items ≡ out.old.items
        ++ flat_map record_line (rows (length bytes.now) None from bytes.now)) }
{
    let mut told = None;
    let mut place = from;
    let mut rest = bytes;
    while !rest.is_empty() {
        let half = (place / 65536) as u16;
        push_upper(out, told, half)?;
        let (row, behind) = rest.split_at(row_size(place, rest.len()));
        push_record(out, (place % 65536) as u16, DATA, row)?;
        told = Some(half);
        place += row.len() as u64;
        rest = behind;
    }
    Ok(())
}

/// How many bytes go into the record from a place on.
fn row_size(place: u64, count: usize) -> usize
    ensures { result ≡ row_length place count }
{
    let before_next = 65536 - (place % 65536) as usize;
    ROW.min(before_next).min(count)
}

/// Writes the upper half of the places that follow, if it isn't the one that was told last, or
/// nothing after an error.
fn push_upper<A: Allocator>(
    out: &mut Vec<u8, A>,
    told: Option<u16>,
    half: u16,
) -> Result<(), AllocError>
    ensures { OnOk result (out.new.items
        ≡ out.old.items ++ flat_map record_line (upper_told told half)) }
{
    if told == Some(half) {
        return Ok(());
    }
    push_record(out, 0, LINEAR, &[(half / 256) as u8, (half % 256) as u8])
}

/// Writes a record, or nothing after an error.
fn push_record<A: Allocator>(
    out: &mut Vec<u8, A>,
    address: u16,
    kind: u8,
    bytes: &[u8],
) -> Result<(), AllocError>
    requires { length bytes.now ≤ 16 }
    ensures { OnOk result (out.new.items ≡ out.old.items
        ++ record_line record { address = address; kind = kind; bytes = bytes.now }) }
{
    let front = front_of(address, kind, bytes.len());
    let end = 9 + 2 * bytes.len();
    let mut line = [b':'; MOST_CHARACTERS];
    put_digits(&mut line, 1, &front);
    put_digits(&mut line, 9, bytes);
    put_digits(&mut line, end, &[check_of(&front, bytes)]);
    line[end + 2] = b'\n';
    out.extend_from_slice(&line[..end + 3])
}

/// The bytes of a record before its data.
fn front_of(address: u16, kind: u8, count: usize) -> [u8; 4]
    requires { count < 256 }
    ensures { result ≡ count ∷ (address / 256) ∷ (address % 256) ∷ kind ∷ [] }
{
    [
        count as u8,
        (address / 256) as u8,
        (address % 256) as u8,
        kind,
    ]
}

/// The byte that makes the sum of both rows a multiple of 256.
fn check_of(front: &[u8], bytes: &[u8]) -> u8
    ensures { result ≡ check_byte (sum front.now + sum bytes.now) }
{
    sum_of(front).wrapping_add(sum_of(bytes)).wrapping_neg()
}

/// Brings the digits of bytes into a line from a place on. What stands before them stays.
#[tactic(auto, using(crate::proofs::dumps::intel_hex::Written::digits_more, crate::proofs::dumps::intel_hex::Written::no_digits))]
fn put_digits(line: &mut [u8; MOST_CHARACTERS], from: usize, bytes: &[u8])
    requires { from + 2 * length bytes.now ≤ 44 }
    ensures { take (from + 2 * length bytes.now) line.new
        ≡ take from line.old ++ encode_upper bytes.now }
{
    let mut at = from;
    for byte in bytes {
        line[at] = DIGITS[usize::from(*byte / 16)];
        line[at + 1] = DIGITS[usize::from(*byte % 16)];
        at += 2;
    }
}
