//! Compaction: a record is replaced by one that begins with the present documents.

use crate::course::is_record;
use crate::failure::Failure;
use gateway::{CONNECTIONS, Event, Failed, Gateway, Outlet, ToWrite, write_all};
use records::{CompactFault, compact};
use std::alloc::Global;
use std::fmt;
use std::fs::{self, File, Files, Metadata};
use std::io::{self, ErrorKind, Write};
use std::os::unix::fs::{MetadataExt, OpenOptionsExt, chown};
use std::path::Path;

/// A record that is resumed is compacted if it is more than this many times as long as it is then.
const TIMES: u64 = 4;

/// A record of at most this many bytes is resumed without compaction: it is played in less than half
/// a second, and what `since` knows of its edits stays.
const SHORT: u64 = 1 << 20;

/// A record of the present documents, before it is written.
#[derive(Clone, Copy)]
pub struct Content<'c, 'i> {
    /// The source of memory for its lines.
    pub alloc: Global,
    /// The gateway that has the documents.
    pub gateway: &'c Gateway<'i>,
    /// Its first line.
    pub header: &'c str,
}

impl Content<'_, '_> {
    /// Writes its first line, and then its head.
    fn put<W: Outlet>(&self, out: &mut W) -> Result<(), CompactFault> {
        match write_all(out, self.header.as_bytes()) {
            Ok(()) => compact(self.alloc, self.gateway, out),
            Err(Failed) => Err(CompactFault::Write),
        }
    }
}

/// Accepts a limited number of bytes, and discards them.
#[derive(Drop)]
struct Room {
    left: u64,
}

impl Write for Room {
    fn write(&mut self, buf: &[u8]) -> io::Result<usize> {
        match self.left.checked_sub(buf.len() as u64) {
            Some(left) => {
                self.left = left;
                Ok(buf.len())
            }
            None => Err(io::Error::from(ErrorKind::WriteZero)),
        }
    }

    fn flush(&mut self) -> io::Result<()> {
        Ok(())
    }
}

/// Whether a record of this many bytes is compacted to this content when it is resumed. What would be
/// written is counted, and only up to the most that it may be.
pub fn pays(content: &Content<'_, '_>, length: u64) -> bool {
    if length <= SHORT {
        return false;
    }
    let room = Room {
        left: (length - 1) / TIMES,
    };
    content.put(&mut ToWrite::new(room)).is_ok()
}

/// A record that has come to the place of another, and the folder that both are in.
#[derive(Drop)]
pub struct Replacement {
    file: File,
    folder: File,
}

impl Replacement {
    /// Its file, locked, once the disk has it at its place.
    pub fn settled<'a>(self) -> Result<File, Failure<'a>> {
        match self.folder.sync_all() {
            Ok(()) => Ok(self.file),
            Err(_) => Err(Failure::Record),
        }
    }
}

/// What becomes of a record in whose place another comes.
#[derive(Clone, Copy)]
pub enum Former {
    /// It stays, under a name of its own.
    Kept,
    /// It is gone.
    Gone,
}

/// The paths of a record that is replaced.
#[derive(Drop)]
struct Paths {
    /// The record's own path, with links followed.
    place: String,
    /// The path of the new record before it comes to its place.
    beside: String,
    /// The path of the old record afterwards, if it is kept.
    former: String,
}

impl Paths {
    /// The paths for a record of this name. A link stays a link: the file that it leads to is replaced.
    fn of<T: Files>(rt: &T, alloc: Global, name: &str) -> io::Result<Paths> {
        let place = if fs::symlink_metadata(rt, name)?.is_symlink() {
            rt.canonicalize(alloc, name)?.into_string()
        } else {
            format!(in alloc; "{name}")?
        };
        let beside = format!(in alloc; "{place}.compacting")?;
        let former = format!(in alloc; "{place}.uncompacted")?;
        Ok(Paths {
            place,
            beside,
            former,
        })
    }

    /// Whether the old record, of which this is known, is kept already. So it is if a process was killed
    /// just then.
    fn is_kept<T: Files>(&self, rt: &T, old: &Metadata) -> bool {
        match fs::symlink_metadata(rt, self.former.as_str()) {
            Ok(found) => found.dev() == old.dev() && found.ino() == old.ino(),
            Err(_) => false,
        }
    }

    /// Keeps the old record, and removes the one that was kept before. A file that isn't a record stays.
    fn keep<T: Files<File = File>>(&self, rt: &T, old: &File) -> io::Result<()> {
        if self.is_kept(rt, &old.metadata()?) {
            return Ok(());
        }
        if is_record(rt, self.former.as_str()) {
            fs::remove_file(rt, self.former.as_str())?;
        }
        fs::hard_link(rt, self.place.as_str(), self.former.as_str())
    }

    /// Renames the new record to the old one's name.
    fn exchange<T: Files<File = File>>(
        &self,
        rt: &T,
        old: &File,
        former: Former,
    ) -> io::Result<()> {
        match former {
            Former::Kept => self.keep(rt, old)?,
            Former::Gone => {}
        }
        fs::rename(rt, self.beside.as_str(), self.place.as_str())
    }
}

/// Replaces `old`, the file of this name, which is locked, by a record of this content. The new file is
/// locked before it gets the name. So no other process records in it, and none in the old one: a process
/// that locks the old file finds that another one has the name.
///
/// # Errors
///
/// The file of this name is unchanged.
pub fn replace<'a, T: Files<File = File>>(
    rt: &T,
    content: &Content<'_, '_>,
    name: &'a str,
    old: &File,
    former: Former,
) -> Result<Replacement, Failure<'a>> {
    let paths = match Paths::of(rt, content.alloc, name) {
        Ok(paths) => paths,
        Err(error) if error.kind() == ErrorKind::OutOfMemory => return Err(Failure::OutOfMemory),
        Err(_) => return Err(Failure::CannotRecord(name)),
    };
    let Ok((file, folder)) = begun(rt, &paths, old) else {
        return Err(Failure::CannotRecord(name));
    };
    let came = match write(content, &file) {
        Ok(()) => paths.exchange(rt, old, former).map_err(|_| Failure::Write),
        Err(failure) => Err(failure),
    };
    match came {
        Ok(()) => Ok(Replacement { file, folder }),
        Err(failure) => {
            let _ = fs::remove_file(rt, paths.beside.as_str());
            Err(failure)
        }
    }
}

/// A new file in a record's folder, locked and of the same owner, and that folder. A record that has
/// other names can't be replaced: they would stay with the old one.
fn begun<T: Files<File = File>>(rt: &T, paths: &Paths, old: &File) -> io::Result<(File, File)> {
    let was = old.metadata()?;
    if was.nlink() > 1 + u64::from(paths.is_kept(rt, &was)) {
        return Err(io::Error::from(ErrorKind::Unsupported));
    }
    let folder = File::open(rt, folder_of(paths.place.as_str()))?;
    let file = fresh(rt, paths.beside.as_str())?;
    match owned(rt, paths.beside.as_str(), &file, &was) {
        Ok(()) => Ok((file, folder)),
        Err(error) => {
            let _ = fs::remove_file(rt, paths.beside.as_str());
            Err(error)
        }
    }
}

/// The folder of a file.
fn folder_of(place: &str) -> &str {
    match Path::new(place).parent() {
        Some(folder) if !folder.as_str().is_empty() => folder.as_str(),
        _ => ".",
    }
}

/// A new file for its user alone. A record at its path was left by a process that was killed: a process
/// that writes there has the record's lock. A file that another process has locked is something else.
fn fresh<T: Files<File = File>>(rt: &T, path: &str) -> io::Result<File> {
    let mut options = File::options();
    options.append(true).create_new(true).mode(0o600);
    match options.open(rt, path) {
        Err(error) if error.kind() == ErrorKind::AlreadyExists && is_left(rt, path) => {
            fs::remove_file(rt, path)?;
            options.open(rt, path)
        }
        opened => opened,
    }
}

/// Whether a record is at this path that no process has locked.
fn is_left<T: Files<File = File>>(rt: &T, path: &str) -> bool {
    match fs::symlink_metadata(rt, path) {
        Ok(found) if found.is_file() && is_record(rt, path) => {}
        _ => return false,
    }
    match File::open(rt, path) {
        Ok(file) => file.try_lock().is_ok(),
        Err(_) => false,
    }
}

/// Locks a new file, and gives it to the owner and the group of the old one, of which this is known.
fn owned<T: Files<File = File>>(rt: &T, path: &str, file: &File, was: &Metadata) -> io::Result<()> {
    file.try_lock()?;
    let is = file.metadata()?;
    if is.uid() == was.uid() && is.gid() == was.gid() {
        return Ok(());
    }
    chown(rt, path, Some(was.uid()), Some(was.gid()))
}

/// Writes a record of this content into a file, to the disk.
fn write<'a>(content: &Content<'_, '_>, file: &File) -> Result<(), Failure<'a>> {
    match content.put(&mut ToWrite::new(file)) {
        Ok(()) => file.sync_all().map_err(|_| Failure::Write),
        Err(CompactFault::Write) => Err(Failure::Write),
        Err(CompactFault::OutOfMemory) => Err(Failure::OutOfMemory),
    }
}

/// Closes each connection that is open, since a record of the documents has none.
pub fn close_all(gateway: &mut Gateway<'_>) {
    for c in 0..CONNECTIONS as u8 {
        let _ = gateway.event(Event::Close(c));
    }
}

/// That the record in the file of this name stays as long as it is.
#[derive(Drop)]
pub struct NotCompacted<'a>(pub &'a str);

impl fmt::Display for NotCompacted<'_> {
    fn fmt<W: fmt::Write>(&self, f: &mut fmt::Formatter<W>) -> fmt::Result {
        writeln!(f, "gate: {} is not compacted", self.0)
    }
}
