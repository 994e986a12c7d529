//! Locks on whole files, which the file system's own trait, `Files`, doesn't have.
use std::fs::{File, TryLockError};
use std::rt::Files;

/// A file system whose open files can be locked.
///
/// Source: ours.
pub trait FileLocks: Files {
    /// Locks a file, until this opening of it is closed, against each other opening that asks for
    /// its lock. It waits for none.
    ///
    /// # Errors
    ///
    /// `WouldBlock`: another opening has the lock. `Error`: the system gives none.
    fn try_lock(&self, file: &Self::File) -> Result<(), TryLockError>;
}

impl FileLocks for HostRuntime {
    fn try_lock(&self, file: &File) -> Result<(), TryLockError> {
        file.try_lock()
    }
}
