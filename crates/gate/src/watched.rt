//! A file that is written to as long as it is the one of its name.

use gateway::Disk;
use std::fs::{self, File, Files};
use std::io::{self, ErrorKind, Write};
use std::os::unix::fs::MetadataExt;

/// A file's name, and the system that knows it.
#[derive(Drop)]
pub struct Named<'a, T: Files> {
    /// The system.
    pub rt: &'a T,
    /// The name.
    pub name: &'a str,
}

/// A file of a name, and its length. A write fails if the file then has another length, or if its name
/// is gone or names another file. Bytes that go to a file that was moved or removed would be lost.
#[derive(Drop)]
pub struct Watched<'a, T: Files> {
    named: Named<'a, T>,
    file: File,
    length: u64,
}

impl<'a, T: Files<File = File>> Watched<'a, T> {
    /// The file of this name, as long as it is now.
    pub fn new(named: Named<'a, T>, file: File) -> io::Result<Watched<'a, T>> {
        let length = file.metadata()?.len();
        Ok(Watched {
            named,
            file,
            length,
        })
    }

    /// Whether the name still names the file, and the file has the bytes that it should and no others.
    fn is_whole(&self) -> io::Result<bool> {
        let named = fs::metadata(self.named.rt, self.named.name)?;
        let file = self.file.metadata()?;
        let is_same = named.dev() == file.dev() && named.ino() == file.ino();
        Ok(is_same && named.len() == self.length)
    }
}

impl<T: Files<File = File>> Write for Watched<'_, T> {
    fn write(&mut self, buf: &[u8]) -> io::Result<usize> {
        let count = self.file.write(buf)?;
        self.length = self.length.saturating_add(count as u64);
        if self.is_whole()? {
            Ok(count)
        } else {
            Err(io::Error::from(ErrorKind::NotFound))
        }
    }

    fn flush(&mut self) -> io::Result<()> {
        Ok(())
    }
}

impl<T: Files<File = File>> Disk for Watched<'_, T> {
    fn sync(&mut self) -> io::Result<()> {
        self.file.sync_data()
    }
}
