//! An image's file, replaced only while it still is what was read, so that its old text or
//! its new one stands.
//!
//! A plain file is locked, looked at once more, and gets its new text by way of another file beside
//! it, which takes its name when all is written. Only where none can be made there is the text
//! written in place, and the old one put back after a failure. What is no plain file, a device or a
//! pipe, is written in place and nothing else.
//!
//! Two runs that began with one text ask for one lock. Who has it finds the path leading to
//! the file that is locked, with the text that was read, or writes nothing. So of the two
//! one at most goes on.
ghost use Rattle.std.specs.Prelude.{◌≡◌, ◌↔◌, IfOk, OnOk, IfSome, IsTrue};
ghost use Rattle.std.specs.Io.KnownBytes.{Appends};
ghost use Rattle.ee_program.specs.Files.Saving.{fault_of_dump_file, fault_of_save};

use super::locks::FileLocks;
use ee_interface::Fault;
use ee_interface::command_line::{ReadFault, Stopped, read_whole, write_whole};
use std::alloc::{AllocError, Allocator};
use std::fs::{self, Metadata, OpenFile, OpenOptions, TryLockError};
use std::io::{self, ErrorKind, Read, Seek, SeekFrom, Write};
use std::os::unix::fs::{MetadataExt, OpenOptionsExt};
use std::rt::Files;

/// What a file beside an image is called while it is written: this and a number, behind
/// the image's own name.
const BESIDE: &str = ".ee-saving-";

/// How many numbers are tried.
const MOST_BESIDE: u8 = 100;

/// Why an image's new text doesn't stand.
///
/// Source: ours.
#[derive(Clone, Copy, Debug, PartialEq, Eq)]
pub enum SaveFault {
    /// The file isn't the one that was read, or another run has its lock. Nothing was written.
    Changed,
    /// A call of the system failed.
    Failed,
    /// Memory ran out. Nothing was written.
    Memory,
}

impl From<AllocError> for SaveFault {
    ghost use Rattle.std.specs.Prelude.{◌≡◌};
    ghost use Rattle.ee_program.specs.declared.files.saving.SaveFault.TheVariants.{Memory};

    ghost from_gives = { λ _ fault. fault ≡ Memory };

    fn from(_error: AllocError) -> SaveFault {
        SaveFault::Memory
    }
}

impl From<io::Error> for SaveFault {
    ghost use Rattle.std.specs.Prelude.{◌≡◌};
    ghost use Rattle.std.specs.IoError.{error_kind};
    ghost use Rattle.ee_program.specs.Files.Saving.{save_fault_of_kind};

    ghost from_gives = { λ error fault. fault ≡ save_fault_of_kind (error_kind error) };

    fn from(error: io::Error) -> SaveFault {
        if error.kind() == ErrorKind::OutOfMemory {
            SaveFault::Memory
        } else {
            SaveFault::Failed
        }
    }
}

impl From<Stopped> for SaveFault {
    ghost use Rattle.std.specs.Prelude.{◌≡◌};
    ghost use Rattle.ee_program.specs.declared.files.saving.SaveFault.TheVariants.{Failed};

    ghost from_gives = { λ _ fault. fault ≡ Failed };

    fn from(_stopped: Stopped) -> SaveFault {
        SaveFault::Failed
    }
}

impl SaveFault {
    /// What the program tells of it, where an image was to be written.
    ///
    /// Source: ours.
    pub fn into_fault(self) -> Fault
        ensures { result ≡ fault_of_save self }
    {
        match self {
            SaveFault::Changed => Fault::ImageChanged,
            SaveFault::Failed => Fault::CannotWriteImage,
            SaveFault::Memory => Fault::Memory,
        }
    }

    /// What the program tells of it, where a dump was to be written, of whose file nothing was
    /// read.
    ///
    /// Source: ours.
    pub fn into_dump_fault(self) -> Fault
        ensures { result ≡ fault_of_dump_file self }
    {
        match self {
            SaveFault::Changed | SaveFault::Failed => Fault::CannotWriteDump,
            SaveFault::Memory => Fault::Memory,
        }
    }
}

/// Writes an image's text in the place of its file. `old` is what was read of the file, if it was
/// read; then the file must still have that text.
///
/// Source: ours.
///
/// # Errors
///
/// The new text doesn't stand. What stood before stands still, if it was a plain file and the
/// system lets it be put back.
pub fn save<R: FileLocks + AllocGlobal>(
    rt: &R,
    path: &str,
    old: Option<&[u8]>,
    new: &[u8],
) -> Result<(), SaveFault> {
    match fs::metadata(rt, path) {
        Ok(found) if found.is_file() => replace(rt, path, old, new),
        Ok(_) => write_over(rt, path, new),
        Err(error) => match old {
            Some(_) => Err(gone(&error)),
            None => write_first(rt, path, new),
        },
    }
}

/// The fault of a file that was read and can't be found or opened.
fn gone(error: &io::Error) -> SaveFault {
    if error.kind() == ErrorKind::NotFound {
        SaveFault::Changed
    } else {
        SaveFault::Failed
    }
}

/// Writes a file that wasn't there. After a failure it isn't there again.
fn write_first<R: Files + AllocGlobal>(rt: &R, path: &str, new: &[u8]) -> Result<(), SaveFault> {
    match OpenOptions::new()
        .write(true)
        .create_new(true)
        .open(rt, path)
    {
        Ok(mut file) => {
            let written = write_whole(&mut file, new);
            if written.is_err() {
                let _ = fs::remove_file(rt, path);
            }
            written?;
            Ok(())
        }
        Err(error) if error.kind() == ErrorKind::AlreadyExists => write_behind(rt, path, new),
        Err(_) => Err(SaveFault::Failed),
    }
}

/// Writes the file that a link leads to, which wasn't there. What is no link was made
/// since it was looked for.
fn write_behind<R: Files + AllocGlobal>(rt: &R, path: &str, new: &[u8]) -> Result<(), SaveFault> {
    if !fs::symlink_metadata(rt, path)?.is_symlink() {
        return Err(SaveFault::Changed);
    }
    let written = write_over(rt, path, new);
    if written.is_err() {
        if let Ok(target) = fs::canonicalize(rt, path) {
            let _ = fs::remove_file(rt, &target);
        }
    }
    written
}

/// Replaces a plain file. The one that links lead to is replaced, not the link.
fn replace<R: FileLocks + AllocGlobal>(
    rt: &R,
    path: &str,
    old: Option<&[u8]>,
    new: &[u8],
) -> Result<(), SaveFault> {
    match fs::canonicalize(rt, path) {
        Ok(target) => {
            let target: String = format!(in rt.alloc(); "{}", target.display())?;
            let (file, found) = hold(rt, target.as_str(), old)?;
            match make_beside(rt, target.as_str(), &found)? {
                Some((made, beside)) => put_over(rt, made, beside.as_str(), target.as_str(), new),
                None => write_back(rt, target.as_str(), file, old, new),
            }
        }
        Err(error) if error.kind() == ErrorKind::OutOfMemory => Err(SaveFault::Memory),
        Err(_) => {
            let (file, _) = hold(rt, path, old)?;
            write_back(rt, path, file, old, new)
        }
    }
}

/// Opens a plain file and locks it, as long as the opening that is given stays open. The path leads
/// to that file, and its text is the old one, if that was read.
fn hold<R: FileLocks + AllocGlobal>(
    rt: &R,
    path: &str,
    old: Option<&[u8]>,
) -> Result<(R::File, Metadata), SaveFault> {
    // Who may not write a file may not replace it either.
    let opened = OpenOptions::new()
        .read(old.is_some())
        .write(true)
        .open(rt, path);
    let mut file = match opened {
        Ok(file) => file,
        Err(error) => return Err(gone(&error)),
    };
    // Where the system has no locks nothing is promised of two runs.
    if let Err(TryLockError::WouldBlock) = rt.try_lock(&file) {
        return Err(SaveFault::Changed);
    }
    let held = file.metadata()?;
    match fs::metadata(rt, path) {
        Ok(found) if found.dev() == held.dev() && found.ino() == held.ino() => {}
        Ok(_) => return Err(SaveFault::Changed),
        Err(error) => return Err(gone(&error)),
    }
    if let Some(old) = old {
        compare(rt, &mut file, old)?;
    }
    Ok((file, held))
}

/// Reads a file, which must have this text.
fn compare<R: AllocGlobal, F: Read>(rt: &R, file: &mut F, text: &[u8]) -> Result<(), SaveFault> {
    match reads_as(rt.alloc(), file, text) {
        Ok(true) => Ok(()),
        // What was read is no longer than may be read.
        Ok(false) | Err(ReadFault::TooLong) => Err(SaveFault::Changed),
        Err(ReadFault::Read) => Err(SaveFault::Failed),
        Err(ReadFault::Memory) => Err(SaveFault::Memory),
    }
}

/// Whether a reader gives this text and no more.
fn reads_as<A: Allocator + Copy, F: Read>(
    alloc: A,
    reader: &mut F,
    text: &[u8],
) -> Result<bool, ReadFault>
    ensures { IfOk result (λ is_text.
        IfSome (F.remaining reader.old) (λ all. IsTrue is_text ↔ all ≡ text.now)) }
{
    let found = read_whole(alloc, reader)?;
    Ok(found.as_slice() == text)
}

/// Makes a file beside one, with its owner and its mode, and gives it locked, with its name.
/// `None`: none can be made there.
///
/// # Errors
///
/// All names are taken.
fn make_beside<R: FileLocks + AllocGlobal>(
    rt: &R,
    target: &str,
    found: &Metadata,
) -> Result<Option<(R::File, String)>, SaveFault> {
    for number in 0..MOST_BESIDE {
        let beside: String = format!(in rt.alloc(); "{target}{BESIDE}{number}")?;
        match create_anew(rt, beside.as_str(), found) {
            Ok(file) => return Ok(Some((file, beside))),
            Err(error) if error.kind() == ErrorKind::AlreadyExists => {}
            Err(_) => return Ok(None),
        }
    }
    Err(SaveFault::Failed)
}

/// A new file of this name, alike one that was found. What a run left under the name that ended
/// while it wrote is taken away before.
fn create_anew<R: FileLocks>(rt: &R, path: &str, found: &Metadata) -> io::Result<R::File> {
    match create_alike(rt, path, found) {
        Err(error) if error.kind() == ErrorKind::AlreadyExists && take_left(rt, path) => {
            create_alike(rt, path, found)
        }
        created => created,
    }
}

/// Takes a plain file away that nobody has locked, as each run has what it writes. Says whether it
/// did.
fn take_left<R: FileLocks>(rt: &R, path: &str) -> bool {
    match fs::symlink_metadata(rt, path) {
        Ok(left) if left.is_file() => {}
        _ => return false,
    }
    match OpenOptions::new().write(true).open(rt, path) {
        Ok(file) => rt.try_lock(&file).is_ok() && fs::remove_file(rt, path).is_ok(),
        Err(_) => false,
    }
}

/// A new file with the owner and the mode of one that was found, locked.
fn create_alike<R: FileLocks>(rt: &R, path: &str, found: &Metadata) -> io::Result<R::File> {
    // Until it is the owner's nobody else reads it.
    let file = OpenOptions::new()
        .write(true)
        .create_new(true)
        .mode(0o600)
        .open(rt, path)?;
    // Where another run takes it for one that was left, that run removes it.
    if let Err(TryLockError::WouldBlock) = rt.try_lock(&file) {
        return Err(io::Error::from(ErrorKind::AlreadyExists));
    }
    match make_alike(rt, path, &file, found) {
        Ok(()) => Ok(file),
        Err(error) => {
            let _ = fs::remove_file(rt, path);
            Err(error)
        }
    }
}

/// Gives a file the owner and the mode of one that was found.
fn make_alike<R: Files>(rt: &R, path: &str, file: &R::File, found: &Metadata) -> io::Result<()> {
    let made = file.metadata()?;
    if made.uid() != found.uid() || made.gid() != found.gid() {
        rt.chown(path, Some(found.uid()), Some(found.gid()))?;
    }
    fs::set_permissions(rt, path, found.permissions())
}

/// Writes a text into a new file, which then takes the name of another. After a failure
/// it isn't there again.
fn put_over<R: Files>(
    rt: &R,
    mut file: R::File,
    beside: &str,
    target: &str,
    new: &[u8],
) -> Result<(), SaveFault> {
    let moved = fill_and_move(rt, &mut file, beside, target, new);
    if moved.is_err() {
        let _ = fs::remove_file(rt, beside);
    }
    moved
}

/// Writes a text into a new file, and gives it the name of another.
fn fill_and_move<R: Files>(
    rt: &R,
    file: &mut R::File,
    beside: &str,
    target: &str,
    new: &[u8],
) -> Result<(), SaveFault> {
    fill(file, new)?;
    fs::rename(rt, beside, target)?;
    Ok(())
}

/// Writes a text into a new file, down to the medium.
fn fill<F: Write + OpenFile>(file: &mut F, whole: &[u8]) -> Result<(), SaveFault>
    ensures { OnOk result (Appends (F.contents file.old) (F.contents file.new) whole.now) }
{
    write_whole(file, whole)?;
    file.sync_all()?;
    Ok(())
}

/// Writes over a plain file where none can be made beside it, and puts back what it
/// was after a failure.
fn write_back<R: Files + AllocGlobal>(
    rt: &R,
    path: &str,
    mut file: R::File,
    old: Option<&[u8]>,
    new: &[u8],
) -> Result<(), SaveFault> {
    match old {
        Some(old) => write_or_restore(&mut file, old, new),
        None => match read_whole(rt.alloc(), &mut fs::open(rt, path)?) {
            Ok(old) => write_or_restore(&mut file, old.as_slice(), new),
            Err(ReadFault::Memory) => Err(SaveFault::Memory),
            Err(_) => Err(SaveFault::Failed),
        },
    }
}

/// Writes over a plain file, and after a failure writes its old text. It isn't cut to nothing
/// before, so that the old text still has its room.
fn write_or_restore<F: Write + Seek + OpenFile>(
    file: &mut F,
    old: &[u8],
    new: &[u8],
) -> Result<(), SaveFault> {
    if rewrite(file, new).is_ok() {
        return Ok(());
    }
    let _ = rewrite(file, old);
    Err(SaveFault::Failed)
}

/// Writes a text over that of a plain file, which has as many bytes then.
fn rewrite<F: Write + Seek + OpenFile>(file: &mut F, text: &[u8]) -> Result<(), SaveFault> {
    file.seek(SeekFrom::Start(0))?;
    write_whole(file, text)?;
    file.set_len(text.len() as u64)?;
    Ok(())
}

/// Writes over a file, which is made where there is none.
fn write_over<R: Files>(rt: &R, path: &str, text: &[u8]) -> Result<(), SaveFault> {
    write_whole(&mut fs::create(rt, path)?, text)?;
    Ok(())
}
