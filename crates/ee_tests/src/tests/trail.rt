//! The host's files for tests, with each call noted. One call may fail, the disk may be full, and
//! before one call another run may save.
ghost use Rattle.std.specs.Prelude.{◌≤◌};

use ee_fakes::images::{ONE_MOVE, TWO_MOVES};
use ee_program::files::{FileLocks, SaveFault, save};
use std::alloc::{Allocator, Global};
use std::cell::Cell;
use std::fs::{File, Metadata, OpenFile, OpenOptions, Permissions, TryLockError};
use std::io::{self, ErrorKind, PipeReader, PipeWriter, Read, Seek, SeekFrom, Write};
use std::os::fd::BorrowedFd;
use std::os::unix::net::SocketAddr;
use std::path::PathBuf;
use std::rt::Files;

/// What is asked of the files, and what comes of it.
#[derive(Drop)]
pub struct Trail<'a> {
    rt: &'a HostRuntime,
    /// The image that both runs save.
    image: &'a str,
    /// Whether no path is resolved, as where no file can be made beside another.
    is_bare: bool,
    /// The call that fails, counted from 1; 0 for none.
    pub fails_at: u64,
    /// The call before which the other run saves, counted from 1; 0 for none.
    pub other_at: u64,
    /// How many bytes the disk takes before it is full, once; behind that it takes all.
    pub room: Cell<usize>,
    /// How many calls there were.
    pub calls: Cell<u64>,
    /// What the other run was answered, if it saved.
    pub other: Cell<Option<Result<(), SaveFault>>>,
    /// What is left of the calls that are awaited, a word for each, from the first on that
    /// didn't come in its turn.
    pub awaited: Cell<&'static str>,
}

impl<'a> Trail<'a> {
    /// A trail of files of which no call fails, on a disk with room, and no other run saves.
    pub fn new(
        rt: &'a HostRuntime,
        image: &'a str,
        is_bare: bool,
        awaited: &'static str,
    ) -> Trail<'a> {
        Trail {
            rt,
            image,
            is_bare,
            fails_at: 0,
            other_at: 0,
            room: Cell::new(usize::MAX),
            calls: Cell::new(0),
            other: Cell::new(None),
            awaited: Cell::new(awaited),
        }
    }

    /// Saves the image, of which this was read.
    pub fn save(&self, old: Option<&[u8]>, new: &[u8]) -> Result<(), SaveFault> {
        save(&Tracked { trail: self }, self.image, old, new)
    }

    /// Counts a call and takes it from those that are awaited, lets the other run go before it, and
    /// gives whether it fails.
    fn fails(&self, word: &str) -> bool {
        let call = self.calls.get().saturating_add(1);
        self.calls.set(call);
        if let Some(rest) = self.awaited.get().strip_prefix(word) {
            self.awaited.set(rest.trim_start());
        }
        if call == self.other_at {
            let answer = save(self.rt, self.image, Some(ONE_MOVE), TWO_MOVES);
            self.other.set(Some(answer));
        }
        call == self.fails_at
    }

    /// How many of so many bytes the disk takes: none once it is full, and then all.
    fn taken_of(&self, count: usize) -> usize
        ensures { result ≤ count }
    {
        let room = self.room.get();
        let taken = room.min(count);
        self.room
            .set(if taken == 0 { usize::MAX } else { room - taken });
        taken
    }
}

/// How a call fails.
fn failure() -> io::Error {
    io::Error::from(ErrorKind::Other)
}

/// A runtime whose files leave a trail.
#[derive(Drop)]
struct Tracked<'a> {
    trail: &'a Trail<'a>,
}

impl Alloc for Tracked<'_> {
    type A = Global;

    fn alloc(&self) -> Global {
        self.trail.rt.alloc()
    }
}

/// An open file of such a runtime.
#[derive(Drop)]
struct TrackedFile<'a> {
    trail: &'a Trail<'a>,
    file: File,
}

impl Read for TrackedFile<'_> {
    fn read(&mut self, buf: &mut [u8]) -> io::Result<usize> {
        if self.trail.fails("read") {
            return Err(failure());
        }
        self.file.read(buf)
    }
}

impl Write for TrackedFile<'_> {
    fn write(&mut self, buf: &[u8]) -> io::Result<usize> {
        if self.trail.fails("write") {
            return Err(failure());
        }
        match self.trail.taken_of(buf.len()) {
            0 => Err(io::Error::from(ErrorKind::StorageFull)),
            count => self.file.write(&buf[..count]),
        }
    }

    fn flush(&mut self) -> io::Result<()> {
        self.file.flush()
    }
}

impl Seek for TrackedFile<'_> {
    fn seek(&mut self, to: SeekFrom) -> io::Result<u64> {
        if self.trail.fails("seek") {
            return Err(failure());
        }
        self.file.seek(to)
    }
}

impl OpenFile for TrackedFile<'_> {
    fn metadata(&self) -> io::Result<Metadata> {
        if self.trail.fails("examine") {
            return Err(failure());
        }
        self.file.metadata()
    }

    fn set_len(&self, size: u64) -> io::Result<()> {
        if self.trail.fails("length") {
            return Err(failure());
        }
        self.file.set_len(size)
    }

    fn sync_all(&self) -> io::Result<()> {
        if self.trail.fails("sync") {
            return Err(failure());
        }
        self.file.sync_all()
    }

    fn sync_data(&self) -> io::Result<()> {
        self.file.sync_data()
    }
}

impl<'a> Files for Tracked<'a> {
    type File = TrackedFile<'a>;

    type Dir = <HostRuntime as Files>::Dir;

    fn open_file(&self, how: &OpenOptions, path: &str) -> io::Result<TrackedFile<'a>> {
        let makes = how.asks_create() || how.asks_create_new();
        if self.trail.fails(if makes { "create" } else { "open" }) {
            return Err(failure());
        }
        match self.trail.rt.open_file(how, path) {
            Ok(file) => Ok(TrackedFile {
                trail: self.trail,
                file,
            }),
            Err(error) => Err(error),
        }
    }

    fn canonicalize<B: Allocator>(&self, alloc: B, path: &str) -> io::Result<PathBuf<B>> {
        if self.trail.fails("resolve") || self.trail.is_bare {
            return Err(failure());
        }
        self.trail.rt.canonicalize(alloc, path)
    }

    fn set_permissions(&self, path: &str, perm: Permissions) -> io::Result<()> {
        if self.trail.fails("mode") {
            return Err(failure());
        }
        self.trail.rt.set_permissions(path, perm)
    }

    fn metadata(&self, path: &str) -> io::Result<Metadata> {
        if self.trail.fails("find") {
            return Err(failure());
        }
        self.trail.rt.metadata(path)
    }

    fn rename(&self, from: &str, to: &str) -> io::Result<()> {
        if self.trail.fails("rename") {
            return Err(failure());
        }
        self.trail.rt.rename(from, to)
    }

    fn remove_file(&self, path: &str) -> io::Result<()> {
        if self.trail.fails("remove") {
            return Err(failure());
        }
        self.trail.rt.remove_file(path)
    }

    fn open_dir(&self, path: &str) -> io::Result<<HostRuntime as Files>::Dir> {
        self.trail.rt.open_dir(path)
    }

    fn symlink_metadata(&self, path: &str) -> io::Result<Metadata> {
        self.trail.rt.symlink_metadata(path)
    }

    fn copy(&self, from: &str, to: &str) -> io::Result<u64> {
        self.trail.rt.copy(from, to)
    }

    fn create_dir(&self, path: &str) -> io::Result<()> {
        self.trail.rt.create_dir(path)
    }

    fn remove_dir(&self, path: &str) -> io::Result<()> {
        self.trail.rt.remove_dir(path)
    }

    fn remove_dir_all<B: Allocator>(&self, alloc: B, path: &str) -> io::Result<()> {
        self.trail.rt.remove_dir_all(alloc, path)
    }

    // `save` calls none of the others. A call that is left out costs the prover more than
    // one that is handed on.
    fn read_link<B: Allocator>(&self, alloc: B, path: &str) -> io::Result<PathBuf<B>> {
        self.trail.rt.read_link(alloc, path)
    }

    fn hard_link(&self, original: &str, link: &str) -> io::Result<()> {
        self.trail.rt.hard_link(original, link)
    }

    fn symlink(&self, original: &str, link: &str) -> io::Result<()> {
        self.trail.rt.symlink(original, link)
    }

    fn pipe(&self) -> io::Result<(PipeReader, PipeWriter)> {
        self.trail.rt.pipe()
    }

    fn chown(&self, path: &str, uid: Option<u32>, gid: Option<u32>) -> io::Result<()> {
        self.trail.rt.chown(path, uid, gid)
    }

    fn lchown(&self, path: &str, uid: Option<u32>, gid: Option<u32>) -> io::Result<()> {
        self.trail.rt.lchown(path, uid, gid)
    }

    fn create_dir_with_mode(&self, path: &str, mode: u32) -> io::Result<()> {
        self.trail.rt.create_dir_with_mode(path, mode)
    }

    fn bind_unix(&self, socket: BorrowedFd<'_>, addr: &SocketAddr) -> io::Result<()> {
        self.trail.rt.bind_unix(socket, addr)
    }
}

impl FileLocks for Tracked<'_> {
    fn try_lock(&self, file: &Self::File) -> Result<(), TryLockError> {
        if self.trail.fails("lock") {
            return Err(TryLockError::Error(failure()));
        }
        self.trail.rt.try_lock(&file.file)
    }
}
