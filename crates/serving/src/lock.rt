//! The lock by which one server at a time listens at a path.

use std::alloc::Global;
use std::fs::{self, File, Files, TryLockError};
use std::io::{self, ErrorKind};
use std::os::unix::fs::{MetadataExt, OpenOptionsExt};

/// A locked file, next to the path of a socket. The system releases the lock when the process ends,
/// however it ends.
#[derive(Drop)]
pub struct Lock {
    file: File,
    name: String,
}

impl Lock {
    /// Takes the lock of a path.
    ///
    /// # Errors
    ///
    /// `AddrInUse` if another server has the lock, or the file isn't a lock file. Otherwise the
    /// system's error if the file can't be opened or locked.
    pub fn take<R: Files<File = File>>(rt: &R, alloc: Global, path: &str) -> io::Result<Lock> {
        let name = format!(in alloc; "{path}.lock")?;
        let file = open(rt, name.as_str())?;
        match file.try_lock() {
            Ok(()) => {}
            Err(TryLockError::WouldBlock) => return Err(io::Error::from(ErrorKind::AddrInUse)),
            Err(TryLockError::Error(error)) => return Err(error),
        }
        if !is_lock(rt, &file, name.as_str())? {
            return Err(io::Error::from(ErrorKind::AddrInUse));
        }
        Ok(Lock { file, name })
    }

    /// Releases the lock. Its file is removed first, while no other server can have the lock.
    pub fn give_up<R: Files<File = File>>(self, rt: &R) {
        let Lock { file, name } = self;
        let _ = fs::remove_file(rt, name.as_str());
        drop(file);
    }
}

/// Opens the file of a lock, or creates it. No link is followed, and no FIFO waited for.
fn open<R: Files<File = File>>(rt: &R, name: &str) -> io::Result<File> {
    let mut options = File::options();
    options.write(true).create_new(true).mode(0o600);
    match options.open(rt, name) {
        Err(error) if error.kind() == ErrorKind::AlreadyExists => {
            if !fs::symlink_metadata(rt, name)?.is_file() {
                return Err(io::Error::from(ErrorKind::AddrInUse));
            }
            File::options().write(true).open(rt, name)
        }
        opened => opened,
    }
}

/// Whether the locked file is still the one of that name. It isn't if the server before has removed
/// that file, if the name is a link, or if something is written in the file.
fn is_lock<R: Files<File = File>>(rt: &R, file: &File, name: &str) -> io::Result<bool> {
    let locked = file.metadata()?;
    let named = fs::symlink_metadata(rt, name)?;
    let same = locked.dev() == named.dev() && locked.ino() == named.ino();
    Ok(same && named.is_file() && named.len() == 0)
}
