//! What is done with a file that is to be a record, by its first bytes.

use crate::failure::{Failure, OtherFiles};
use command_line::Allowances;
use records::{Beginning, beginning_of};
use std::fs::{File, Files};
use std::os::unix::fs::FileExt;

/// How many of a file's first bytes are read: a first line has fewer.
const FRONT: usize = 512;

/// How each record begins.
const FORMAT: &[u8] = b"# gate record ";

/// How a line of a record begins.
const LINES: [&[u8]; 6] = [b"open ", b"bytes ", b"close ", b"part ", b"adopt ", b"#"];

/// What is done with a file that is to be a record.
#[derive(Clone, Copy, PartialEq, Eq)]
pub enum Course {
    /// Nothing is recorded there, and a record starts.
    Begin,
    /// The record in the file is continued.
    Continue,
    /// The record in the file is played, and replaced by one with the expected first line.
    Rewrite,
}

/// What is done with the file of this name, where a record's first line is `header`. Only a file that
/// begins as a record is taken.
pub fn course_of<'a>(
    file: &File,
    name: &'a str,
    header: &str,
    allowances: Allowances,
) -> Result<Course, Failure<'a>> {
    let mut buffer = [0; FRONT];
    let front = front_of(file, 0, &mut buffer)?;
    match beginning_of(header.as_bytes(), front) {
        Beginning::Empty | Beginning::TornHeader => Ok(Course::Begin),
        Beginning::Header => Ok(Course::Continue),
        Beginning::OtherFiles if allowances.other_files => Ok(Course::Rewrite),
        Beginning::OtherFiles => {
            let files = OtherFiles::between(header.as_bytes(), front);
            Err(Failure::OtherFiles(name, files))
        }
        Beginning::Old if allowances.old_record => Ok(Course::Rewrite),
        Beginning::Old => Err(Failure::OldRecord(name)),
        Beginning::OtherVersion => Err(Failure::OtherVersion(name)),
        Beginning::Foreign => Err(Failure::NoRecord(name)),
    }
}

/// Whether the file at this path is a record of whatever files and version, or is empty. One that can't
/// be read isn't one.
pub fn is_record<T: Files<File = File>>(rt: &T, path: &str) -> bool {
    let Ok(file) = File::open(rt, path) else {
        return false;
    };
    let mut buffer = [0; FRONT];
    match front_of(&file, 0, &mut buffer) {
        Ok(front) => beginning_of(FORMAT, front) != Beginning::Foreign,
        Err(_) => false,
    }
}

/// Whether the bytes starting at `at`, which have no line feed, can be the front of a record's line.
pub fn is_torn_line<'a>(file: &File, at: u64) -> Result<bool, Failure<'a>> {
    let mut buffer = [0; FRONT];
    let front = front_of(file, at, &mut buffer)?;
    for word in LINES {
        if front.starts_with(word) || word.starts_with(front) {
            return Ok(true);
        }
    }
    Ok(false)
}

/// The bytes of a file starting at `at`, as many as fit into the buffer.
fn front_of<'b, 'a>(
    file: &File,
    at: u64,
    buffer: &'b mut [u8; FRONT],
) -> Result<&'b [u8], Failure<'a>> {
    let mut count = 0;
    while count < FRONT {
        match file.read_at(&mut buffer[count..], at.saturating_add(count as u64)) {
            Ok(0) => break,
            Ok(n) => count += n,
            Err(_) => return Err(Failure::Read),
        }
    }
    Ok(&buffer[..count])
}
