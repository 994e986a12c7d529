//! What to do at each fault, in a line.
use ee_interface::{Fault, File};

/// What to do at a fault. A word in capitals stands for a path, `Np` for the number of a line: what
/// shows it fills in what the job names.
pub(crate) fn remedy_of(fault: &Fault) -> &'static str {
    match fault {
        Fault::CannotRead(_) => "look whether the file is there and may be read: ls -l FILE",
        Fault::TooLong(File::Script) =>
            "cut the script in pieces, and run these one after another: split -l 500000 SCRIPT",
        Fault::TooLong(_) => "look whether it is the right file: ls -l FILE",
        Fault::CannotWriteImage => "look for room and the right to write: df . && ls -l IMAGE",
        Fault::CannotWriteDump => "look for room and the right to write: df . && ls -l DUMP",
        Fault::ImageChanged => "another run wrote or writes the image: type the command again",
        Fault::CannotWriteOutput =>
            "the image was written: don't run the script again for its report",
        Fault::OutputIsWritten => "send the output to another file: > my.report",
        Fault::BadLine { file, .. } => remedy_of_line(*file),
        Fault::BadShape(_) => "the first line is `ee P W`, P 1 to 64, W 5 to 512: head -n 1 FILE",
        Fault::Unformatted => "make an empty store: ee format P W IMAGE",
        Fault::NoLiveSet | Fault::TwoLive | Fault::Foreign { .. } => {
            "look at it, then keep what can be kept: ee inspect IMAGE && ee rescue IMAGE"
        }
        Fault::HoldsValues => "look at what would be lost: ee list IMAGE",
        Fault::NothingToRescue => "the image is new: ee format P W IMAGE",
        Fault::Memory => "give the program more memory, or a shorter script",
        _ => remedy_of_work(fault),
    }
}

/// The same of a bad line of this file.
fn remedy_of_line(file: File) -> &'static str {
    match file {
        File::Dump =>
            "the HEX was changed or cut off there: export it again, or look: sed -n Np FILE",
        File::Certificate => "take the certificate out of a report: sed -n '/^slots/,$p' my.report",
        _ => "look at the line with its ends: sed -n Np FILE | cat -A",
    }
}

/// The same of a fault of settings, values, dumps, plans and certificates.
fn remedy_of_work(fault: &Fault) -> &'static str {
    match fault {
        Fault::SettingsText | Fault::ValuesText => {
            "it is no TOML: a line such as volume = 7, under [NAME] in settings"
        }
        Fault::BadName(_) =>
            "a name has up to 32 of a to z, 0 to 9 and _, and begins with a letter",
        Fault::BadField(_) => "a setting has address, min, max and default, each a whole number",
        Fault::BadRange(_) => "address is 1 to 65534, and default between min and max",
        Fault::SameAddress(_) => "each setting has an address of its own",
        Fault::UnknownName | Fault::UnknownValue(_) => "see the names: ee header SETTINGS",
        Fault::RecordName => "name a setting; the firmware writes its records",
        Fault::OutOfRange { .. } | Fault::ValueOutOfRange { .. } | Fault::BadValue(_) => {
            "give a whole number in the setting's range: ee header SETTINGS"
        }
        Fault::Absent => "it reads as its default already: ee list IMAGE SETTINGS",
        Fault::ValuesDiffer => "write these values: ee apply IMAGE SETTINGS VALUES",
        Fault::Full | Fault::FullAt(_) => "forget what no setting has: ee tidy IMAGE SETTINGS",
        Fault::Spent | Fault::SpentAt(_) => "no move is left: take a new part, or format the image",
        Fault::DumpLength =>
            "look how long it is, 16 * P * W, or 32 * P * W with --pairs: ls -l DUMP",
        Fault::DumpOfWords => "it is one of words: type it with no --pairs and no --coded",
        Fault::DumpOfPairs => "it is one of pairs: type it with --pairs",
        Fault::DumpOfCoded { .. } =>
            "it is one of coded words: type it with --coded and with these two numbers as P and W",
        Fault::LowPair { .. } => "try it with no --pairs and twice the W, or another first byte",
        Fault::Misplaced { .. } => "give the P and W that the part's firmware has",
        Fault::DumpUnused => "give the P and W of the part, and the bytes of both its sets",
        Fault::DumpNoCrc =>
            "give the P and W of the part; else let the old firmware read its values",
        Fault::DumpFull => "let the old firmware read its values, and write them to a larger store",
        Fault::TornWord { .. } => "take it away, where it waits: ee clean IMAGE",
        Fault::Uncoded { .. } => "no store wrote it: look at it, or export with no --coded",
        Fault::Base => "give as BASE where the part's first byte is",
        Fault::NotFitting(_) => "give more pages, or write fewer addresses",
        Fault::NoSizeEnough => "give larger pages, fewer writes or fewer runs",
        Fault::OtherShape | Fault::Backwards(_) =>
            "give the images of one part, the older one last",
        _ => "give the certificate of this image, as before the run, and of this script",
    }
}
