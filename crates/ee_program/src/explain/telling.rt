//! The fault that a line tells.
ghost use Rattle.std.specs.Prelude.{◌≡◌, ◌<◌, ◌∷◌, ℕ, List, IfNone, IfOk, IfSome, codes, length};
ghost use Rattle.std.specs.List.{All};
ghost use Rattle.ee_text.specs.Line.{line_of};
ghost use Rattle.ee_program.specs.Explain.Telling.{IsToldBy, line_words, without_digits};
ghost use Rattle.ee_interface.specs.CommandLine.Job.{texts_of};
ghost use Rattle.ee_interface.specs.CommandLine.Operands.{is_decimal_digit};
ghost use Rattle.ee_interface.specs.declared.fault.Fault.{Fault as FaultOf};

use ee_interface::{Fault, File, fault_line};
use std::alloc::{AllocError, Allocator};

/// A fault of each kind, and of each file, with 0 for the numbers in its line.
const KINDS: &[Fault] = &[
    Fault::CannotRead(File::Image),
    Fault::CannotRead(File::Before),
    Fault::CannotRead(File::Script),
    Fault::CannotRead(File::Certificate),
    Fault::CannotRead(File::Settings),
    Fault::CannotRead(File::Dump),
    Fault::CannotRead(File::Values),
    Fault::TooLong(File::Image),
    Fault::TooLong(File::Before),
    Fault::TooLong(File::Script),
    Fault::TooLong(File::Certificate),
    Fault::TooLong(File::Settings),
    Fault::TooLong(File::Dump),
    Fault::TooLong(File::Values),
    Fault::CannotWriteImage,
    Fault::ImageChanged,
    Fault::CannotWriteDump,
    Fault::CannotWriteOutput,
    Fault::OutputIsWritten,
    Fault::BadLine {
        file: File::Image,
        line: 0,
    },
    Fault::BadLine {
        file: File::Before,
        line: 0,
    },
    Fault::BadLine {
        file: File::Script,
        line: 0,
    },
    Fault::BadLine {
        file: File::Certificate,
        line: 0,
    },
    Fault::BadLine {
        file: File::Settings,
        line: 0,
    },
    Fault::BadLine {
        file: File::Dump,
        line: 0,
    },
    Fault::BadLine {
        file: File::Values,
        line: 0,
    },
    Fault::BadShape(File::Image),
    Fault::BadShape(File::Before),
    Fault::BadShape(File::Script),
    Fault::BadShape(File::Certificate),
    Fault::BadShape(File::Settings),
    Fault::BadShape(File::Dump),
    Fault::BadShape(File::Values),
    Fault::Unformatted,
    Fault::NoLiveSet,
    Fault::TwoLive,
    Fault::Foreign { page: 0, at: 0 },
    Fault::SettingsText,
    Fault::BadName(0),
    Fault::BadField(0),
    Fault::BadRange(0),
    Fault::SameAddress(0),
    Fault::UnknownName,
    Fault::OutOfRange { min: 0, max: 0 },
    Fault::Full,
    Fault::Spent,
    Fault::Absent,
    Fault::HoldsValues,
    Fault::NothingToRescue,
    Fault::NotFitting(0),
    Fault::WrongStart,
    Fault::NotRising(0),
    Fault::WrongFrom(0),
    Fault::NotForced(0),
    Fault::OtherShape,
    Fault::Backwards(0),
    Fault::NoSizeEnough,
    Fault::DumpLength,
    Fault::DumpOfWords,
    Fault::DumpOfPairs,
    Fault::DumpOfCoded { pages: 0, words: 0 },
    Fault::LowPair { page: 0, at: 0 },
    Fault::Misplaced { page: 0, at: 0 },
    Fault::TornWord { page: 0, at: 0 },
    Fault::Uncoded { page: 0, at: 0 },
    Fault::Base,
    Fault::ValuesText,
    Fault::BadValue(0),
    Fault::UnknownValue(0),
    Fault::ValueOutOfRange {
        entry: 0,
        min: 0,
        max: 0,
    },
    Fault::FullAt(0),
    Fault::SpentAt(0),
    Fault::ValuesDiffer,
    Fault::Memory,
    Fault::DumpUnused,
    Fault::DumpNoCrc,
    Fault::DumpFull,
    Fault::RecordName,
];

/// The words of the line that is to be explained: those behind `explain`, one at least.
///
/// Source: ours.
pub fn line_asked<'w, 'a>(words: &'w [&'a str]) -> Option<&'w [&'a str]>
    ensures found { IfSome result (λ line. texts_of words.now ≡ codes "explain" ∷ texts_of line.now) }
    ensures some { IfSome result (λ line. 0 < length line.now) }
    ensures none { IfNone result ((first : List ℕ) (line : List (List ℕ))
        → texts_of words.now ≡ codes "explain" ∷ first ∷ line → ⊥) }
{
    let (first, line) = words.split_first()?;
    if *first != "explain" {
        return None;
    }
    if line.is_empty() {
        return None;
    }
    Some(line)
}

/// A fault whose line this is, whatever the numbers in both. The line has no line feed. None where
/// no fault has it.
///
/// Source: ours.
pub fn fault_told<A: Allocator + Copy>(alloc: A, line: &[u8]) -> Result<Option<Fault>, AllocError>
    ensures found { IfOk result (λ told. IfSome told (λ fault. IsToldBy fault line.now)) }
    ensures none { IfOk result (λ told. IfNone told ((fault : FaultOf) → IsToldBy fault line.now → ⊥)) }
{
    let mut whole = Vec::from_slice(alloc, line)?;
    whole.push(b'\n')?;
    leave_digits_out(&mut whole);
    first_told(alloc, KINDS, &whole)
}

/// The first of the faults whose line has these words, if one has them.
fn first_told<A: Allocator + Copy>(
    alloc: A,
    faults: &[Fault],
    words: &[u8],
) -> Result<Option<Fault>, AllocError>
    ensures found { IfOk result (λ told. IfSome told (λ fault. line_words fault ≡ words.now)) }
    ensures none { IfOk result (λ told. IfNone told
        (All (λ fault. line_words fault ≡ words.now → ⊥) faults.now)) }
{
    let Some((fault, others)) = faults.split_first() else {
        return Ok(None);
    };
    let mut line = fault_line(alloc, fault)?;
    leave_digits_out(&mut line);
    if line.as_slice() == words {
        return Ok(Some(*fault));
    }
    first_told(alloc, others, words)
}

/// Takes the digits out of a text.
fn leave_digits_out<A: Allocator>(text: &mut Vec<u8, A>)
    ensures { text.new.items ≡ without_digits text.old.items }
{
    text.retain(|byte| !is_digit(*byte));
}

/// Whether a byte is a digit.
fn is_digit(byte: u8) -> bool
    ensures { result ≡ is_decimal_digit byte }
{
    b'0' <= byte && byte <= b'9'
}
