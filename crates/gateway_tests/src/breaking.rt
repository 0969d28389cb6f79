//! A writer of tests, which takes a few bytes at a time and breaks off.

use std::io;
use std::io::{ErrorKind, Write};

/// A writer that takes at most `at_once` bytes a write. It fails if there is no room left.
#[derive(Drop)]
pub struct Narrow<'a> {
    pub out: &'a mut Vec<u8>,
    pub at_once: usize,
    pub room: usize,
}

impl Write for Narrow<'_> {
    fn write(&mut self, buf: &[u8]) -> io::Result<usize> {
        let n = self.room.min(self.at_once).min(buf.len());
        if n == 0 || self.out.extend_from_slice(&buf[..n]).is_err() {
            return Err(io::Error::from(ErrorKind::BrokenPipe));
        }
        self.room -= n;
        Ok(n)
    }

    fn flush(&mut self) -> io::Result<()> {
        Ok(())
    }
}
