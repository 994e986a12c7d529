//! Reading a text.
ghost use Rattle.std.specs.Prelude.{◌≡◌, ◌⊎◌, ◌≤◌, ◌<◌, ◌+◌, ◌^◌, ℕ, None, Some, Ok, Err, List, IfOk, IfErr, OnOk, MatchResult, length, replicate, slice_index_or};
ghost use Rattle.std.specs.Bool.{OnFalse, OnTrue};
ghost use Rattle.ee_shell.specs.Dumps.intel_hex.Text.{IsHexOf, number_of_bytes, numbered_bytes, upper_after};
ghost use Rattle.ee_shell.specs.Dumps.intel_hex.Fault.{IsBadHexLine, IsHexFault};
ghost use Rattle.ee_shell.specs.Dumps.intel_hex.Reading.{bytes_of, cells_of_lines, lines_in, put, put_all, record_in, step_of_record};
ghost use Rattle.ee_shell.specs.Dumps.intel_hex.Row.{view};
ghost use Rattle.ee_shell.specs.Dumps.intel_hex.Met.{Meets};

use super::fault::HexFault;
use super::record::{
    DATA, END, LINEAR, MOST_BYTES, Row, SEGMENT, bytes_of_line, row_of, without_return,
};
use ee_text::next_line;
use std::alloc::{AllocError, Allocator};

/// What a byte reads as that was never programmed.
const ERASED: u8 = 255;

/// The bytes that a text says of the part of `length` bytes from address `base` on; 255 where it
/// says none. The part ends at address 2^32 at the latest.
///
/// # Errors
///
/// `BadLine`: the number of the first line, from 1, that is no record's, gives a place of the part
/// another byte than a line before it, is missing, or stands behind the end record. `Memory`:
/// memory ran out; it can come in place of any answer.
///
/// Source: ours.
#[tactic(auto, using(crate::proofs::dumps::intel_hex::Answered::answering))]
pub fn read_hex<A: Allocator + Copy>(
    alloc: A,
    text: &[u8],
    base: u32,
    length: usize,
) -> Result<Vec<u8, A>, HexFault>
    requires { base + length ≤ 2 ^ 32 }
    ensures read { IfOk result (λ bytes. IsHexOf text.now base length bytes.items) }
    ensures fault { IfErr result (IsHexFault text.now base length) }
    // What the text says is read, and every first bad line is named.
    ensures only { (bytes : List ℕ) → IsHexOf text.now base length bytes
        → MatchResult result (λ given. given.items ≡ bytes) (λ fault. fault ≡ HexFault.Memory) }
    ensures names { (n : ℕ) → IsBadHexLine text.now base length n
        → MatchResult result (λ _. ⊥)
        (λ fault. (fault ≡ HexFault.BadLine n) ⊎ (fault ≡ HexFault.Memory)) }
{
    let mut reader = DumpReader::new(alloc, base, length)?;
    if let Err(number) = read_lines(text, &mut reader) {
        return Err(HexFault::BadLine(number));
    }
    Ok(reader.to_bytes(alloc)?)
}

/// Reads lines till the end record, or gives the number of the first bad one.
#[tactic(auto, using(crate::proofs::dumps::intel_hex::Parsing::reading))]
fn read_lines<A: Allocator>(text: &[u8], reader: &mut DumpReader<A>) -> Result<(), u64>
    ensures read { OnOk result
        (cells_of_lines reader.old.base 1 reader.old.upper reader.old.cells.items
        (lines_in text.now)
        ≡ Ok reader.new.cells.items) }
    ensures bad { IfErr result
        (λ n. cells_of_lines reader.old.base 1 reader.old.upper reader.old.cells.items
        (lines_in text.now) ≡ Err n) }
{
    let mut buffer = [0; MOST_BYTES];
    let mut rest = text;
    let mut number = 1;
    while let Some((line, behind)) = next_line(rest) {
        match reader.meet(line, &mut buffer) {
            Met::Taken => {}
            Met::End => {
                if behind.is_empty() {
                    return Ok(());
                }
                return Err(number + 1);
            }
            Met::Bad => return Err(number),
        }
        rest = behind;
        number += 1;
    }
    Err(number)
}

/// What a line was.
#[derive(Clone, Copy)]
enum Met {
    /// A record, which was taken.
    Taken,
    /// The end record.
    End,
    /// No record, or one that says another byte of a place than a line before it.
    Bad,
}

/// What was read of a part, so far.
#[derive(Drop)]
struct DumpReader<A: Allocator> {
    /// Its first address.
    base: u64,
    /// The upper address of the records that follow.
    upper: u32,
    /// The byte that each place was given.
    cells: Vec<Option<u8>, A>,
}

impl<A: Allocator> DumpReader<A> {
    /// A reader that has read nothing.
    fn new(alloc: A, base: u32, length: usize) -> Result<DumpReader<A>, AllocError>
        ensures base { IfOk result (λ reader. reader.base ≡ base) }
        ensures upper { IfOk result (λ reader. reader.upper ≡ 0) }
        ensures cells { IfOk result (λ reader. reader.cells.items ≡ replicate length None) }
    {
        Ok(DumpReader {
            base: u64::from(base),
            upper: 0,
            cells: vec![in alloc; None; length]?,
        })
    }

    /// Takes what a line says, by way of the buffer. After a bad line some of its bytes
    /// may have been taken.
    #[tactic(auto, using(crate::proofs::dumps::intel_hex::Parsing::no_bytes, crate::proofs::dumps::intel_hex::Parsing::no_row, crate::proofs::dumps::intel_hex::Parsing::one_row))]
    fn meet(&mut self, line: &[u8], buffer: &mut [u8; MOST_BYTES]) -> Met
        ensures base { self.new.base ≡ self.old.base }
        ensures step { Meets result self.old.cells.items self.new.upper self.new.cells.items
            (step_of_record self.old.base self.old.upper self.old.cells.items (record_in line.now)) }
    {
        let Some(count) = bytes_of_line(without_return(line), buffer) else {
            return Met::Bad;
        };
        match row_of(&buffer[..count]) {
            None => Met::Bad,
            Some(row) => self.meet_row(row),
        }
    }

    /// Takes what a record says. After a bad one some of its bytes may have been taken.
    #[tactic(auto, using(crate::proofs::dumps::intel_hex::Judging::meeting))]
    fn meet_row(&mut self, row: Row<'_>) -> Met
        ensures base { self.new.base ≡ self.old.base }
        ensures step { Meets result self.old.cells.items self.new.upper self.new.cells.items
            (step_of_record self.old.base self.old.upper self.old.cells.items
            (Some (view row.entry))) }
    {
        if row.kind == END {
            return Met::End;
        }
        if row.kind == DATA {
            let place = u64::from(self.upper) + u64::from(row.address);
            if self.put_bytes(place, row.bytes) {
                return Met::Taken;
            }
            return Met::Bad;
        }
        self.upper = upper_behind(self.upper, row);
        Met::Taken
    }

    /// Brings bytes to their places, the first to `place`, and says whether each had none or the
    /// same. If not, some may have come there.
    #[tactic(auto, using(crate::proofs::dumps::intel_hex::Places::putting))]
    fn put_bytes(&mut self, place: u64, bytes: &[u8]) -> bool
        requires { place < 2 ^ 33 }
        ensures base { self.new.base ≡ self.old.base }
        ensures upper { self.new.upper ≡ self.old.upper }
        ensures taken { OnTrue result
            (put_all self.old.base (numbered_bytes place bytes.now) self.old.cells.items
            ≡ Some self.new.cells.items) }
        ensures refused { OnFalse result
            (put_all self.old.base (numbered_bytes place bytes.now) self.old.cells.items ≡ None) }
    {
        if place >= self.base {
            let first = (place - self.base) as usize;
            if first + bytes.len() <= self.cells.len() {
                return self.put_inside(first, bytes);
            }
        }
        for (at, byte) in bytes.iter().enumerate() {
            if !self.put(place + at as u64, *byte) {
                return false;
            }
        }
        true
    }

    /// The same of bytes whose places are all in the part, the first at `first` of them.
    #[tactic(auto, using(crate::proofs::dumps::intel_hex::Places::putting))]
    fn put_inside(&mut self, first: usize, bytes: &[u8]) -> bool
        requires { first + length bytes.now ≤ length self.old.cells.items }
        ensures base { self.new.base ≡ self.old.base }
        ensures upper { self.new.upper ≡ self.old.upper }
        ensures taken { OnTrue result
            (put_all self.old.base (numbered_bytes (self.old.base + first) bytes.now)
            self.old.cells.items
            ≡ Some self.new.cells.items) }
        ensures refused { OnFalse result
            (put_all self.old.base (numbered_bytes (self.old.base + first) bytes.now)
            self.old.cells.items
            ≡ None) }
    {
        for (at, byte) in bytes.iter().enumerate() {
            if !self.put_at(first + at, *byte) {
                return false;
            }
        }
        true
    }

    /// Brings a byte to its place, if that is in the part, and says whether it had none or the
    /// same.
    #[tactic(auto, using(crate::proofs::dumps::intel_hex::Places::put_below, crate::proofs::dumps::intel_hex::Places::put_above))]
    fn put(&mut self, place: u64, byte: u8) -> bool
        ensures base { self.new.base ≡ self.old.base }
        ensures upper { self.new.upper ≡ self.old.upper }
        ensures taken { OnTrue result
            (put self.old.base place byte self.old.cells.items ≡ Some self.new.cells.items) }
        ensures refused { OnFalse result (put self.old.base place byte self.old.cells.items ≡ None) }
    {
        if place < self.base {
            return true;
        }
        let at = (place - self.base) as usize;
        if at >= self.cells.len() {
            return true;
        }
        self.put_at(at, byte)
    }

    /// Brings a byte to place `at` of the part, and says whether it had none or the same.
    #[tactic(auto, using(crate::proofs::dumps::intel_hex::Places::put_new, crate::proofs::dumps::intel_hex::Places::put_taken, crate::proofs::dumps::intel_hex::Places::put_not_taken))]
    fn put_at(&mut self, at: usize, byte: u8) -> bool
        requires { at < length self.old.cells.items }
        ensures base { self.new.base ≡ self.old.base }
        ensures upper { self.new.upper ≡ self.old.upper }
        ensures as_long { length self.new.cells.items ≡ length self.old.cells.items }
        ensures taken { OnTrue result
            (put self.old.base (self.old.base + at) byte self.old.cells.items
            ≡ Some self.new.cells.items) }
        ensures refused { OnFalse result
            (put self.old.base (self.old.base + at) byte self.old.cells.items ≡ None) }
    {
        match self.cell(at) {
            Some(given) => given == byte,
            None => {
                self.cells[at] = Some(byte);
                true
            }
        }
    }

    /// The byte that a place of the part was given.
    fn cell(&self, at: usize) -> Option<u8>
        requires { at < length self.now.cells.items }
        ensures { result ≡ slice_index_or self.now.cells.items at None }
    {
        self.cells[at]
    }

    /// The bytes of the part.
    fn to_bytes(&self, alloc: A) -> Result<Vec<u8, A>, AllocError>
        ensures { IfOk result (λ bytes. bytes.items ≡ bytes_of self.now.cells.items) }
    {
        let mut bytes = vec![in alloc; ERASED; self.cells.len()]?;
        fill(bytes.as_mut_slice(), &self.cells);
        Ok(bytes)
    }
}

/// Fills the bytes with what the places were given.
fn fill(bytes: &mut [u8], cells: &[Option<u8>])
    requires { length bytes.old ≡ length cells.now }
    ensures { bytes.new ≡ bytes_of cells.now }
{
    for at in 0..cells.len() {
        bytes[at] = cells[at].unwrap_or(ERASED);
    }
}

/// The upper address that holds behind a record.
fn upper_behind(upper: u32, row: Row<'_>) -> u32
    ensures { result ≡ upper_after upper (view row.entry) }
{
    match row.kind {
        SEGMENT => number_of_two(row.bytes) * 16,
        LINEAR => number_of_two(row.bytes) * 65536,
        _ => upper,
    }
}

/// The number of two bytes, the greater first; 0 where they are not two.
fn number_of_two(bytes: &[u8]) -> u32
    ensures number { result ≡ number_of_bytes bytes.now }
    ensures fits { result < 65536 }
{
    match bytes {
        [high, low] => u32::from(*high) * 256 + u32::from(*low),
        _ => 0,
    }
}
