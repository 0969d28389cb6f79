//! The bytes of a file.

use crate::fault::Unread;
use std::alloc::Global;
use std::fs;
use std::io::{ErrorKind, Read};
use std::path::Path;
use std::rt::Files;

/// The most bytes of a file.
const FILE_LIMIT: u64 = 16_777_216;

/// Reads the bytes of a file: `None` if there is no such file. A file of more than `FILE_LIMIT`
/// bytes, which is 16 MiB, can't be read.
pub fn bytes_of<T: Files>(
    rt: &T,
    alloc: Global,
    path: Path<'_>,
) -> Result<Option<Vec<u8>>, Unread> {
    let mut bytes = Vec::new(alloc);
    if put_bytes(rt, path, &mut bytes)? {
        Ok(Some(bytes))
    } else {
        Ok(None)
    }
}

/// Reads the bytes of a file into a buffer, which they replace. Returns whether there is such a
/// file. Files that are read in sequence into one buffer take its memory once.
pub(crate) fn put_bytes<T: Files>(
    rt: &T,
    path: Path<'_>,
    bytes: &mut Vec<u8>,
) -> Result<bool, Unread> {
    bytes.clear();
    let file = match fs::open(rt, path) {
        Ok(file) => file,
        Err(error) => {
            return match error.kind() {
                ErrorKind::NotFound | ErrorKind::NotADirectory => Ok(false),
                _ => Err(Unread::from(error)),
            };
        }
    };
    file.take(FILE_LIMIT + 1).read_to_end(bytes)?;
    if bytes.len() as u64 > FILE_LIMIT {
        return Err(Unread::Failed);
    }
    Ok(true)
}
