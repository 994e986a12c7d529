//! A runtime with the files of another one, an input of known bytes, and outputs that are kept.
use ee_program::FileLocks;
use std::alloc::{Allocator, Global};
use std::cell::RefCell;
use std::fmt::Display;
use std::fs::{File, Metadata, OpenOptions, Permissions, TryLockError};
use std::io::{self, BufRead, ErrorKind, Lines};
use std::path::PathBuf;
use std::rt::Files;

/// A runtime whose standard streams are in memory.
#[derive(Drop)]
pub struct Desk<'a> {
    rt: &'a HostRuntime,
    input: &'a [u8],
    // Standard output and standard error, as a terminal shows them.
    shown: RefCell<String>,
}

impl<'a> Desk<'a> {
    /// A desk whose standard input has these bytes.
    pub fn new(rt: &'a HostRuntime, input: &'a [u8]) -> Desk<'a> {
        Desk {
            rt,
            input,
            shown: RefCell::new(String::new(rt.alloc())),
        }
    }

    /// What was written to standard output and to standard error.
    pub fn shown(self) -> String {
        self.shown.into_inner()
    }

    /// Keeps what is written. Where memory is refused it is missing.
    fn keep(&self, text: &str) {
        if let Ok(mut shown) = self.shown.try_borrow_mut() {
            let _ = shown.push_str(text);
        }
    }

    /// Keeps a value as it is displayed.
    fn keep_value<D: Display + Drop>(&self, value: D) -> io::Result<()> {
        let text = value.to_string(self.rt.alloc())?;
        self.keep(text.as_str());
        Ok(())
    }
}

impl Alloc for Desk<'_> {
    type A = Global;

    fn alloc(&self) -> Global {
        self.rt.alloc()
    }
}

impl Print for Desk<'_> {
    fn print<D: Display + Drop>(&self, value: D) -> io::Result<()> {
        self.keep_value(value)
    }

    fn println<D: Display + Drop>(&self, value: D) -> io::Result<()> {
        self.keep_value(value)?;
        self.keep("\n");
        Ok(())
    }

    fn write_all(&self, bytes: &[u8]) -> io::Result<()> {
        match str::from_utf8(bytes) {
            Ok(text) => {
                self.keep(text);
                Ok(())
            }
            Err(_) => Err(io::Error::from(ErrorKind::InvalidData)),
        }
    }
}

impl Eprint for Desk<'_> {
    fn eprint<D: Display + Drop>(&self, value: D) -> io::Result<()> {
        self.keep_value(value)
    }

    fn eprintln<D: Display + Drop>(&self, value: D) -> io::Result<()> {
        self.println(value)
    }
}

impl<'a> Input for Desk<'a> {
    type Reader = &'a [u8];

    // Nothing reads lines without a reader.
    fn read_line<A: Allocator + Clone>(&self, _buf: &mut String<A>) -> io::Result<usize> {
        Err(io::Error::from(ErrorKind::Unsupported))
    }

    fn lines<A: Allocator>(&self, alloc: A) -> Lines<&'a [u8], A> {
        self.input.lines(alloc)
    }

    fn reader(&self) -> &'a [u8] {
        self.input
    }
}

impl Files for Desk<'_> {
    type File = File;

    type Dir = <HostRuntime as Files>::Dir;

    fn open_file(&self, how: &OpenOptions, path: &str) -> io::Result<File> {
        self.rt.open_file(how, path)
    }

    fn open_dir(&self, path: &str) -> io::Result<<HostRuntime as Files>::Dir> {
        self.rt.open_dir(path)
    }

    fn metadata(&self, path: &str) -> io::Result<Metadata> {
        self.rt.metadata(path)
    }

    fn symlink_metadata(&self, path: &str) -> io::Result<Metadata> {
        self.rt.symlink_metadata(path)
    }

    fn canonicalize<B: Allocator>(&self, alloc: B, path: &str) -> io::Result<PathBuf<B>> {
        self.rt.canonicalize(alloc, path)
    }

    fn set_permissions(&self, path: &str, perm: Permissions) -> io::Result<()> {
        self.rt.set_permissions(path, perm)
    }

    fn copy(&self, from: &str, to: &str) -> io::Result<u64> {
        self.rt.copy(from, to)
    }

    fn rename(&self, from: &str, to: &str) -> io::Result<()> {
        self.rt.rename(from, to)
    }

    fn remove_file(&self, path: &str) -> io::Result<()> {
        self.rt.remove_file(path)
    }

    fn create_dir(&self, path: &str) -> io::Result<()> {
        self.rt.create_dir(path)
    }

    fn remove_dir(&self, path: &str) -> io::Result<()> {
        self.rt.remove_dir(path)
    }

    fn remove_dir_all<B: Allocator>(&self, alloc: B, path: &str) -> io::Result<()> {
        self.rt.remove_dir_all(alloc, path)
    }
}

impl FileLocks for Desk<'_> {
    fn try_lock(&self, file: &File) -> Result<(), TryLockError> {
        self.rt.try_lock(file)
    }
}
