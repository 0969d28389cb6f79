//! A writer whose bytes are brought to the disk.
ghost use Rattle.std.specs.Prelude.{◌≡◌, None, take, IfOk, OnErr};
ghost use Rattle.std.specs.Io.{WritesAtMost};
ghost use Rattle.std.specs.Io.KnownBytes.{Appends, Keeps, WriteAppends};
ghost use Rattle.devices.specs.Devices.{AppendsFront};

use std::fs::File;
use std::io::{self, Write};

/// A device whose bytes a disk keeps.
pub trait Disk: Write {
    /// Returns once the disk has what was written.
    fn sync(&mut self) -> io::Result<()>
        ensures { Keeps (Self.contents self.old) (Self.contents self.new) };
}

impl Disk for File {
    fn sync(&mut self) -> io::Result<()> {
        self.sync_data()
    }
}

/// A file whose writes, on request, are on the disk before they return.
#[derive(Drop)]
pub struct Synced<F> {
    /// The device that is written to.
    pub file: F,
    /// Whether a write returns once the disk has its bytes.
    pub is_synced: bool,
}

impl<F: Disk> Write for Synced<F> {
    /// Writes bytes from the front of `buf` by one call of the file, and returns how many: at most the
    /// length of `buf` (`bound`). The file has taken these bytes (`handed`). If the disk fails after that
    /// call, this is an error, although the file has taken the bytes (`failed`). What this
    /// writer itself has is unknown to contracts (`bytes`).
    fn write(&mut self, buf: &[u8]) -> io::Result<usize>
        ensures bound { WritesAtMost result buf.now }
        ensures bytes { WriteAppends None None result buf.now }
        ensures handed { IfOk result (λ n. Appends (F.contents self.old.file) (F.contents self.new.file) (take n buf.now)) }
        ensures failed { OnErr result (AppendsFront (F.contents self.old.file) (F.contents self.new.file) buf.now) }
    {
        let count = self.file.write(buf)?;
        if self.is_synced {
            self.file.sync()?;
        }
        Ok(count)
    }

    fn flush(&mut self) -> io::Result<()> {
        Ok(())
    }
}
