//! What a fault line means, in a line; docs/FAULTS.md has the exact cause.
use ee_interface::{Fault, File};

/// What is wrong at a fault.
pub(crate) fn cause_of(fault: &Fault) -> &'static str {
    match fault {
        Fault::CannotRead(_) => "opening or reading the file failed",
        Fault::TooLong(File::Image | File::Before) => "an image has more than 4194304 bytes",
        Fault::TooLong(_) => "the file has more than 16777216 bytes",
        Fault::CannotWriteImage => "opening or writing the image failed",
        Fault::ImageChanged => "the image is not the text that was read, or another run writes it",
        Fault::CannotWriteDump => "opening or writing the dump failed, or another run has its lock",
        Fault::CannotWriteOutput => "standard output is closed, or its disk is full",
        Fault::OutputIsWritten => "standard output goes to the image or the dump",
        Fault::BadLine { .. } => "that line, counted from 1, is the first bad line of the file",
        Fault::BadShape(_) => "in the first line P is not 1 to 64, or W is not 5 to 512",
        Fault::Unformatted => "every word is erased, as on a new part",
        Fault::NoLiveSet => "no set is live: it is no store's, or a word that commits one went bad",
        Fault::TwoLive => "both sets are live, with one generation",
        Fault::Foreign { .. } => "that word, by page and place, may not stand in the live set",
        Fault::HoldsValues => "an address has a value",
        Fault::NothingToRescue => "in both sets the second word of the first page is erased",
        _ => cause_of_work(fault),
    }
}

/// The same of a fault of dumps, plans, certificates and wear.
fn cause_of_work(fault: &Fault) -> &'static str {
    match fault {
        Fault::NotFitting(_) => "that change is the first with more live addresses than slots",
        Fault::WrongStart =>
            "the first line of the certificate is not that of the image and the script",
        Fault::NotRising(_) =>
            "that stretch ends no later than the one before, or behind the trace",
        Fault::WrongFrom(_) => "that stretch begins with another number of used slots",
        Fault::NotForced(_) => "that stretch has no more changes than slots are free",
        Fault::OtherShape => "the image before has another number of pages",
        Fault::Backwards(_) => "that page was erased less often than before",
        Fault::NoSizeEnough => "no line says enough: no number of pages bears so many runs",
        Fault::DumpLength => "the dump has not as many bytes as two sets of these P and W",
        Fault::DumpOfWords => "a mark says that the dump is one of words",
        Fault::DumpOfPairs => "a mark says that the dump is one of pairs",
        Fault::DumpOfCoded { .. } =>
            "a mark says that the dump is one of coded words of these P and W",
        Fault::LowPair { .. } =>
            "no store wrote the pair at that page and place, and no cut left it",
        Fault::Misplaced { .. } => "another shape wrote the word at that page and place",
        Fault::TornWord { .. } => "the word at that page and place is torn: no bytes say that",
        Fault::Uncoded { .. } => "no store writes the number at that page and place",
        Fault::DumpUnused => "no header of the dump has a whole state word",
        Fault::DumpNoCrc => "words are written, but none is an element with its CRC",
        Fault::DumpFull => "more addresses have a value than a store of these P and W has slots",
        Fault::Base => "the part would go past the address ffffffff",
        Fault::Memory => "want of memory",
        _ => cause_of_settings(fault),
    }
}

/// The same of a fault of settings, values and changes.
fn cause_of_settings(fault: &Fault) -> &'static str {
    match fault {
        Fault::SettingsText => "the settings are no TOML",
        Fault::ValuesText => "the values are no TOML",
        Fault::BadName(_) =>
            "that entry, by rising name, has a name of other letters, over 32, or with a digit first",
        Fault::BadField(_) => "that entry is no table of just the fields of a setting",
        Fault::BadRange(_) =>
            "numbers of that entry are out of range, min is above max, or default not between them",
        Fault::SameAddress(_) => "that entry has the address of an earlier one",
        Fault::UnknownName => "no setting has the name",
        Fault::RecordName => "a record has the name, whose bytes the firmware writes",
        Fault::UnknownValue(_) => "no setting has the name of that entry",
        Fault::BadValue(_) => "what that entry has is no whole number",
        Fault::OutOfRange { .. } => "the value is not in the setting's range",
        Fault::ValueOutOfRange { .. } => "the value of that entry is not in the setting's range",
        Fault::Full | Fault::FullAt(_) => "as many addresses have a value as there are slots",
        Fault::Spent | Fault::SpentAt(_) => "no slot is free, and no generation is left for a move",
        Fault::Absent => "nothing is stored for the setting",
        Fault::ValuesDiffer => "a setting has not the value that the values file says",
        _ => "docs/FAULTS.md has it",
    }
}
