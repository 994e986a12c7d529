//! Every fault that the program tells, each with its one line and its status.
ghost use Rattle.std.specs.Prelude.{◌≡◌, IfOk};
ghost use Rattle.ee_interface.specs.Beside.{AreLineWords, before, behind};
ghost use Rattle.ee_interface.specs.Fault.{fault_of_image, fault_of_read, fault_text, status};

use super::beside::Beside;
use super::replay_fault::ReplayFault;
use crate::command_line::ReadFault;
use crate::script::ScriptFault;
use ee_check::{CheckFault, TextFault};
use ee_image::ImageFault;
use ee_pages::ScanFault;
use ee_wear::SinceFault;
use std::alloc::{AllocError, Allocator};
use std::fmt;
use thiserror::Error;

/// A file that the program reads; the script may be standard input.
#[derive(Clone, Copy, Debug, PartialEq, Eq)]
pub enum File {
    Image,
    Before,
    Script,
    Certificate,
    Settings,
    Dump,
    Values,
}

impl fmt::Display for File {
    ghost use Rattle.std.specs.Prelude.{Some};
    ghost use Rattle.ee_interface.specs.Fault.{file_name};

    ghost output = { λ file. Some (file_name file) };

    fn fmt<W: fmt::Write>(&self, f: &mut fmt::Formatter<W>) -> fmt::Result {
        match self {
            File::Image => f.write_str("image"),
            File::Before => f.write_str("before"),
            File::Script => f.write_str("script"),
            File::Certificate => f.write_str("certificate"),
            File::Settings => f.write_str("settings"),
            File::Dump => f.write_str("dump"),
            File::Values => f.write_str("values"),
        }
    }
}

/// What keeps the program from its work.
#[derive(Clone, Copy, Debug, Error)]
#[error("{}{}{}", self.before(), self.words(), self.behind())]
pub enum Fault {
    /// Opening or reading failed, or the most read calls were made.
    CannotRead(File),
    /// More bytes than are read of one file.
    TooLong(File),
    /// Opening or writing the image's file failed.
    CannotWriteImage,
    /// The image's file is not the one that was read, or another run is writing it.
    ImageChanged,
    /// Opening or writing the dump's file failed.
    CannotWriteDump,
    /// Writing to standard output failed.
    CannotWriteOutput,
    /// Standard output goes to the file that is to be written. Nothing was written.
    OutputIsWritten,
    /// The first bad line, counted from 1.
    BadLine { file: File, line: u64 },
    /// The first line says no size of a device.
    BadShape(File),
    /// Every word of the image is erased.
    Unformatted,
    /// No set of the image is live.
    NoLiveSet,
    /// Both sets of the image are live, with one generation.
    TwoLive,
    /// The first word of the live set that may not stand in its place, by its page and its place.
    Foreign { page: usize, at: usize },
    /// The settings file is no TOML.
    SettingsText,
    /// The name of this entry, counted from 1 by rising name, is none that a setting may have.
    BadName(u64),
    /// This entry is no table of the four whole numbers of a setting.
    BadField(u64),
    /// The numbers of this entry are not those of a setting.
    BadRange(u64),
    /// An earlier entry has the address of this one.
    SameAddress(u64),
    /// No setting has the name.
    UnknownName,
    /// A record has the name, and a setting is wanted.
    RecordName,
    /// The value is not in the range of the setting.
    OutOfRange { min: u32, max: u32 },
    /// The address has no value, and as many addresses have one as there are slots.
    Full,
    /// A transfer is needed, and no generation is left for it.
    Spent,
    /// The setting that is to be forgotten has no value.
    Absent,
    /// An address of the image has a value, and nothing says that all are to be forgotten.
    HoldsValues,
    /// No set of the image is begun: it has nothing that could be rescued.
    NothingToRescue,
    /// This change of the trace, counted from 1, is the first that makes more addresses live
    /// than there are slots.
    NotFitting(u64),
    /// The certificate's header is not that of the start and the trace.
    WrongStart,
    /// This stretch of the certificate, counted from 1, does not end behind the one before it, or
    /// it ends behind the trace.
    NotRising(u64),
    /// This stretch states another number of used slots than there are where it begins.
    WrongFrom(u64),
    /// This stretch has no more changes than there are free slots.
    NotForced(u64),
    /// The images have not as many pages.
    OtherShape,
    /// This page, counted from 0 and the lowest of its kind, has less wear than before.
    Backwards(usize),
    /// No number of pages bears so many runs.
    NoSizeEnough,
    /// The dump has not as many bytes as a part of the size has.
    DumpLength,
    /// A mark of the dump says that it is one of words.
    DumpOfWords,
    /// A mark of the dump says that it is one of pairs.
    DumpOfPairs,
    /// A mark of the dump says that it is one of coded words of this shape.
    DumpOfCoded { pages: usize, words: usize },
    /// The first word of the dump whose two numbers sum to less than all ones, by its
    /// page and its place.
    LowPair { page: usize, at: usize },
    /// The first word of the dump that no store of the shape has there, by its page and its place.
    Misplaced { page: usize, at: usize },
    /// No page of the dump is one that X-CUBE-EEPROM uses.
    DumpUnused,
    /// Words of the dump's pages are written, and none of them is an element of X-CUBE-EEPROM.
    DumpNoCrc,
    /// More addresses have a value in the dump than a store of the shape has slots.
    DumpFull,
    /// The first torn word of the image, by its page and its place: no dump has one.
    TornWord { page: usize, at: usize },
    /// The first held word of the image whose number has no coded word, by its page and its place.
    Uncoded { page: usize, at: usize },
    /// The part would reach past the addresses of 32 bits.
    Base,
    /// The values file is no TOML.
    ValuesText,
    /// What this entry of the values, counted from 1 by rising name, has is no whole number.
    BadValue(u64),
    /// No setting has the name of this entry of the values.
    UnknownValue(u64),
    /// The value of this entry is not in the range of the setting.
    ValueOutOfRange { entry: u64, min: u32, max: u32 },
    /// The setting of this entry has no value, and as many addresses have one as there are slots.
    FullAt(u64),
    /// At this entry no slot is free, and no generation is left for a transfer.
    SpentAt(u64),
    /// A setting has not the value that the values file says.
    ValuesDiffer,
    /// Memory ran out.
    Memory,
}

impl Fault {
    /// What stands before the words of its line.
    fn before(&self) -> Beside
        ensures { result ≡ before self.now }
    {
        match *self {
            Fault::TooLong(file) | Fault::BadLine { file, .. } | Fault::BadShape(file) => {
                Beside::File(file)
            }
            Fault::BadName(entry)
            | Fault::BadField(entry)
            | Fault::BadRange(entry)
            | Fault::SameAddress(entry) => Beside::Entry(File::Settings, entry),
            Fault::BadValue(entry)
            | Fault::UnknownValue(entry)
            | Fault::ValueOutOfRange { entry, .. }
            | Fault::FullAt(entry)
            | Fault::SpentAt(entry) => Beside::Entry(File::Values, entry),
            _ => Beside::Nothing,
        }
    }

    /// The words of its line, with the spaces that keep them apart from what stands beside them.
    #[tactic(auto, unfolding(crate::specs::Beside::AreLineWords))]
    fn words(&self) -> &'static str
        ensures { AreLineWords self.now result.now }
    {
        match self {
            Fault::CannotRead(_) => "cannot read ",
            Fault::TooLong(_) => " too long",
            Fault::CannotWriteImage => "cannot write image",
            Fault::ImageChanged => "image changed",
            Fault::CannotWriteDump => "cannot write dump",
            Fault::CannotWriteOutput => "cannot write output",
            Fault::OutputIsWritten => "output is the file to write",
            Fault::BadLine { .. } => " line ",
            Fault::BadShape(_) => " shape",
            Fault::Unformatted => "image unformatted",
            Fault::NoLiveSet => "image no live set",
            Fault::TwoLive => "image two live sets",
            Fault::Foreign { .. } => "image foreign word ",
            Fault::SettingsText => "settings text",
            Fault::BadName(_) => " bad name",
            Fault::BadField(_) | Fault::BadValue(_) => " bad field",
            Fault::BadRange(_) => " bad range",
            Fault::SameAddress(_) => " same address",
            Fault::UnknownName => "unknown name",
            Fault::RecordName => "name of a record",
            Fault::OutOfRange { .. } => "out of range ",
            Fault::Full => "full",
            Fault::Spent => "spent",
            Fault::Absent => "absent",
            Fault::HoldsValues => "holds values, --force forgets them",
            Fault::NothingToRescue => "nothing to rescue",
            Fault::NotFitting(_) => "not fitting ",
            Fault::WrongStart => "wrong start",
            Fault::NotRising(_) => "not rising ",
            Fault::WrongFrom(_) => "wrong from ",
            Fault::NotForced(_) => "not forced ",
            Fault::OtherShape => "other shape",
            Fault::Backwards(_) => "wear backwards ",
            Fault::NoSizeEnough => "no size is enough",
            Fault::DumpLength => "dump length",
            Fault::DumpOfWords => "dump of words",
            Fault::DumpOfPairs => "dump of pairs",
            Fault::DumpOfCoded { .. } => "dump of coded words ",
            Fault::LowPair { .. } => "dump pair ",
            Fault::Misplaced { .. } => "dump shape ",
            Fault::DumpUnused => "dump no page in use",
            Fault::DumpNoCrc => "dump no crc fits",
            Fault::DumpFull => "dump full",
            Fault::TornWord { .. } => "torn word ",
            Fault::Uncoded { .. } => "uncoded word ",
            Fault::Base => "base",
            Fault::ValuesText => "values text",
            Fault::UnknownValue(_) => " unknown name",
            Fault::ValueOutOfRange { .. } => " out of range ",
            Fault::FullAt(_) => " full",
            Fault::SpentAt(_) => " spent",
            Fault::ValuesDiffer => "values differ",
            Fault::Memory => "out of memory",
        }
    }

    /// What stands behind the words of its line.
    fn behind(&self) -> Beside
        ensures { result ≡ behind self.now }
    {
        match *self {
            Fault::CannotRead(file) => Beside::File(file),
            Fault::BadLine { line: number, .. }
            | Fault::NotFitting(number)
            | Fault::NotRising(number)
            | Fault::WrongFrom(number)
            | Fault::NotForced(number) => Beside::Number(number),
            Fault::Backwards(page) => Beside::Number(page as u64),
            Fault::Foreign { page, at }
            | Fault::LowPair { page, at }
            | Fault::Misplaced { page, at }
            | Fault::TornWord { page, at }
            | Fault::Uncoded { page, at } => Beside::Numbers(page as u64, at as u64),
            Fault::DumpOfCoded { pages, words } => Beside::Numbers(pages as u64, words as u64),
            Fault::OutOfRange { min, max } | Fault::ValueOutOfRange { min, max, .. } => {
                Beside::Numbers(min as u64, max as u64)
            }
            _ => Beside::Nothing,
        }
    }

    /// The fault of a file that can't be read whole.
    pub fn reading(file: File, fault: ReadFault) -> Fault
        ensures { result ≡ fault_of_read file fault }
    {
        match fault {
            ReadFault::Read => Fault::CannotRead(file),
            ReadFault::TooLong => Fault::TooLong(file),
            ReadFault::Memory => Fault::Memory,
        }
    }

    /// The fault of a file that is read as an image and is none.
    pub fn image(file: File, fault: ImageFault) -> Fault
        ensures { result ≡ fault_of_image file fault }
    {
        match fault {
            ImageFault::TooLong => Fault::TooLong(file),
            ImageFault::BadLine(line) => Fault::BadLine { file, line },
            ImageFault::BadShape => Fault::BadShape(file),
            ImageFault::Memory => Fault::Memory,
        }
    }
}

impl From<ScanFault> for Fault {
    ghost use Rattle.std.specs.Prelude.{◌≡◌};
    ghost use Rattle.ee_interface.specs.Fault.{fault_of_scan};

    ghost from_gives = { λ scan fault. fault ≡ fault_of_scan scan };

    fn from(fault: ScanFault) -> Fault {
        match fault {
            ScanFault::Unformatted => Fault::Unformatted,
            ScanFault::NoLiveSet => Fault::NoLiveSet,
            ScanFault::TwoLive => Fault::TwoLive,
            ScanFault::Foreign { page, at } => Fault::Foreign { page, at },
        }
    }
}

impl From<ReplayFault> for Fault {
    ghost use Rattle.std.specs.Prelude.{◌≡◌};
    ghost use Rattle.ee_interface.specs.Fault.{fault_of_replay};

    ghost from_gives = { λ replay fault. fault ≡ fault_of_replay replay };

    fn from(fault: ReplayFault) -> Fault {
        match fault {
            ReplayFault::Image(fault) => Fault::image(File::Image, fault),
            ReplayFault::Open(fault) => Fault::from(fault),
            ReplayFault::Script(line) => Fault::from(ScriptFault::BadLine(line)),
            ReplayFault::Memory => Fault::Memory,
            ReplayFault::Read => Fault::CannotRead(File::Script),
        }
    }
}

impl From<ScriptFault> for Fault {
    ghost use Rattle.std.specs.Prelude.{◌≡◌};
    ghost use Rattle.ee_interface.specs.Fault.{fault_of_script};

    ghost from_gives = { λ script fault. fault ≡ fault_of_script script };

    fn from(fault: ScriptFault) -> Fault {
        match fault {
            ScriptFault::BadLine(line) => Fault::BadLine {
                file: File::Script,
                line,
            },
            ScriptFault::Memory => Fault::Memory,
        }
    }
}

impl From<TextFault> for Fault {
    ghost use Rattle.std.specs.Prelude.{◌≡◌};
    ghost use Rattle.ee_interface.specs.Fault.{fault_of_certificate};

    ghost from_gives = { λ text fault. fault ≡ fault_of_certificate text };

    fn from(fault: TextFault) -> Fault {
        match fault {
            TextFault::BadText(line) => Fault::BadLine {
                file: File::Certificate,
                line,
            },
            TextFault::Memory => Fault::Memory,
        }
    }
}

impl From<CheckFault> for Fault {
    ghost use Rattle.std.specs.Prelude.{◌≡◌};
    ghost use Rattle.ee_interface.specs.Fault.{fault_of_check};

    ghost from_gives = { λ check fault. fault ≡ fault_of_check check };

    fn from(fault: CheckFault) -> Fault {
        match fault {
            CheckFault::WrongStart => Fault::WrongStart,
            CheckFault::NotRising(stretch) => Fault::NotRising(stretch),
            CheckFault::WrongFrom(stretch) => Fault::WrongFrom(stretch),
            CheckFault::NotForced(stretch) => Fault::NotForced(stretch),
            CheckFault::Memory => Fault::Memory,
        }
    }
}

impl From<SinceFault> for Fault {
    ghost use Rattle.std.specs.Prelude.{◌≡◌};
    ghost use Rattle.ee_interface.specs.Fault.{fault_of_since};

    ghost from_gives = { λ since fault. fault ≡ fault_of_since since };

    fn from(fault: SinceFault) -> Fault {
        match fault {
            SinceFault::OtherShape => Fault::OtherShape,
            SinceFault::Backwards(page) => Fault::Backwards(page),
            SinceFault::Memory => Fault::Memory,
        }
    }
}

impl From<AllocError> for Fault {
    ghost use Rattle.std.specs.Prelude.{◌≡◌};
    ghost use Rattle.ee_interface.specs.declared.fault.Fault.TheVariants.{Memory};

    ghost from_gives = { λ _ fault. fault ≡ Memory };

    fn from(_error: AllocError) -> Fault {
        Fault::Memory
    }
}

/// The one line of a fault, with its line feed, for standard error.
pub fn fault_line<A: Allocator + Copy>(alloc: A, fault: &Fault) -> Result<Vec<u8, A>, AllocError>
    ensures { IfOk result (λ line. line.items ≡ fault_text fault.now) }
{
    let (before, words, behind) = (fault.before(), fault.words(), fault.behind());
    let line = format!(in alloc; "ee: {before}{words}{behind}\n")?;
    Ok(line.into_bytes())
}

/// The status that the program ends with at a fault: 3 for a bad file, 4 for what is refused, 5
/// for want of memory.
pub fn status_of(fault: &Fault) -> u8
    ensures { result ≡ status fault.now }
{
    match fault {
        Fault::CannotRead(_)
        | Fault::TooLong(_)
        | Fault::CannotWriteImage
        | Fault::ImageChanged
        | Fault::CannotWriteDump
        | Fault::CannotWriteOutput
        | Fault::BadLine { .. }
        | Fault::BadShape(_)
        | Fault::Unformatted
        | Fault::NoLiveSet
        | Fault::TwoLive
        | Fault::Foreign { .. }
        | Fault::SettingsText
        | Fault::BadName(_)
        | Fault::BadField(_)
        | Fault::BadRange(_)
        | Fault::SameAddress(_)
        | Fault::DumpLength
        | Fault::DumpOfWords
        | Fault::DumpOfPairs
        | Fault::DumpOfCoded { .. }
        | Fault::LowPair { .. }
        | Fault::Misplaced { .. }
        | Fault::DumpUnused
        | Fault::DumpNoCrc
        | Fault::ValuesText
        | Fault::BadValue(_) => 3,
        Fault::OutputIsWritten
        | Fault::UnknownName
        | Fault::RecordName
        | Fault::OutOfRange { .. }
        | Fault::Full
        | Fault::Spent
        | Fault::Absent
        | Fault::HoldsValues
        | Fault::NothingToRescue
        | Fault::NotFitting(_)
        | Fault::WrongStart
        | Fault::NotRising(_)
        | Fault::WrongFrom(_)
        | Fault::NotForced(_)
        | Fault::OtherShape
        | Fault::Backwards(_)
        | Fault::NoSizeEnough
        | Fault::DumpFull
        | Fault::TornWord { .. }
        | Fault::Uncoded { .. }
        | Fault::Base
        | Fault::UnknownValue(_)
        | Fault::ValueOutOfRange { .. }
        | Fault::FullAt(_)
        | Fault::SpentAt(_)
        | Fault::ValuesDiffer => 4,
        Fault::Memory => 5,
    }
}
