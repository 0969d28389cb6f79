//! The file in which a gateway records its events.
ghost use Rattle.std.specs.Prelude.{◌≡◌, None, IfOk, replicate};
ghost use Rattle.gateway.specs.Events.{connections};
ghost use Rattle.records.specs.Losses.{seen_as};

use crate::compaction::{Content, Former, NotCompacted, close_all, pays, replace};
use crate::course::{Course, course_of, is_torn_line};
use crate::failure::Failure;
use crate::text_outlet::TextOutlet;
use crate::watched::{Named, Watched};
use command_line::{Allowances, Recording};
use gateway::{Failed, FromRead, Gateway, Outlet, Stop, Synced, ToWrite, write_all};
use records::{Origin, PlayFault, Player, Record, Recorded, append_header, play};
use std::alloc::{AllocError, Global};
use std::fs::{self, File, Files, OpenOptions, TryLockError};
use std::os::unix::fs::{MetadataExt, OpenOptionsExt};

/// The file of a record. With `--sync` each write is on the disk before it returns. A write fails if the
/// file has lost its name.
pub type RecordFile<'a, T> = ToWrite<Synced<Watched<'a, T>>>;

/// A gateway that records its events in the file that is named, after what is recorded there. No
/// connection is open.
///
/// If the file stays longer than it need be, that is written to `error`.
///
/// # Errors
///
/// The file can't be opened or isn't a record of these index files and labels, or another gateway records
/// there. Or the record isn't to be continued, has a line without an event, or can't be read. The file is
/// unchanged.
pub fn recorded<'i, 'a, T: Files<File = File>, E: Outlet>(
    named: Named<'i, T>,
    alloc: Global,
    gateway: Gateway<'i>,
    origin: &Origin,
    recording: Recording<'a>,
    error: &mut E,
) -> Result<Recorded<'i, RecordFile<'i, T>>, Failure<'a>>
    ensures { IfOk result (λ recorded. (seen_as recorded.lost recorded.gateway).lines ≡ replicate connections None) }
{
    let mut gateway = gateway;
    let rt = named.rt;
    let header = header_of(alloc, origin)?;
    let place = Place {
        rt,
        alloc,
        name: recording.file,
        header: &header,
    };
    let file = open(rt, recording.file)?;
    let file = match course_of(&file, recording.file, &header, recording.allowances)? {
        Course::Begin => begin(file, &header)?,
        _ if !recording.resumes => return Err(Failure::HasRecord(recording.file)),
        Course::Continue => place.resume(&mut gateway, file, error)?,
        Course::Rewrite => place.rewrite(&mut gateway, &file)?,
    };
    let Ok(file) = Watched::new(named, file) else {
        return Err(Failure::Record);
    };
    let file = Synced {
        file,
        is_synced: recording.sync,
    };
    let mut recorded = Recorded::new(gateway, Record::new(alloc, ToWrite::new(file)));
    recorded.close_all();
    if recorded.is_whole() {
        Ok(recorded)
    } else {
        Err(Failure::Record)
    }
}

/// Compacts the record in the file that is named, with the index files and labels of a gateway that has
/// no document.
///
/// # Errors
///
/// The errors of `recorded`; or the file doesn't exist, or can't be replaced. The file is unchanged.
pub fn compacted<'a, T: Files<File = File>>(
    rt: &'a T,
    alloc: Global,
    gateway: Gateway<'_>,
    origin: &Origin,
    name: &'a str,
    allowances: Allowances,
) -> Result<(), Failure<'a>> {
    let mut gateway = gateway;
    let header = header_of(alloc, origin)?;
    let place = Place {
        rt,
        alloc,
        name,
        header: &header,
    };
    let file = locked(rt, name, &recording())?;
    match course_of(&file, name, &header, allowances)? {
        Course::Begin => {
            place.replace(&gateway, &file, Former::Gone)?;
        }
        Course::Continue => {
            played(alloc, &mut gateway, &file)?;
            place.replace(&gateway, &file, Former::Gone)?;
        }
        Course::Rewrite => {
            place.rewrite(&mut gateway, &file)?;
        }
    }
    Ok(())
}

/// A record by its name, and the first line that it is to have.
#[derive(Drop)]
struct Place<'a, 'h, T: Files> {
    rt: &'h T,
    alloc: Global,
    name: &'a str,
    header: &'h str,
}

impl<'a, T: Files<File = File>> Place<'a, '_, T> {
    /// Plays the record, and removes a last line that was torn off. Returns the file in which events are
    /// recorded now. If a record of the documents is much shorter, it replaces the old one, which is kept.
    fn resume<E: Outlet>(
        &self,
        gateway: &mut Gateway<'_>,
        file: File,
        error: &mut E,
    ) -> Result<File, Failure<'a>> {
        let whole = played(self.alloc, gateway, &file)?.whole();
        if length(&file)? != whole && file.set_len(whole).is_err() {
            return Err(Failure::Record);
        }
        if !pays(&self.content(gateway), whole) {
            return Ok(file);
        }
        match self.replace(gateway, &file, Former::Kept) {
            Ok(file) => {
                close_all(gateway);
                Ok(file)
            }
            Err(Failure::Record) => Err(Failure::Record),
            Err(_) => {
                let _ = TextOutlet::new(error).put(&NotCompacted(self.name));
                Ok(file)
            }
        }
    }

    /// Plays the record, and replaces it by one with the expected first line. The old one is kept, since
    /// with other index files than it was written with, documents may be missing.
    fn rewrite(&self, gateway: &mut Gateway<'_>, file: &File) -> Result<File, Failure<'a>> {
        let player = played(self.alloc, gateway, file)?;
        if !is_torn_line(file, player.whole())? {
            return Err(Failure::RecordLine(player.number()));
        }
        let file = self.replace(gateway, file, Former::Kept)?;
        close_all(gateway);
        Ok(file)
    }

    /// Replaces the record by one of the documents as they are, and returns its file.
    fn replace(
        &self,
        gateway: &Gateway<'_>,
        file: &File,
        former: Former,
    ) -> Result<File, Failure<'a>> {
        replace(self.rt, &self.content(gateway), self.name, file, former)?.settled()
    }

    /// A record of the documents as they are.
    fn content<'c, 'i>(&'c self, gateway: &'c Gateway<'i>) -> Content<'c, 'i> {
        Content {
            alloc: self.alloc,
            gateway,
            header: self.header,
        }
    }
}

/// The first line of a record that is written with these files.
fn header_of<'a>(alloc: Global, origin: &Origin) -> Result<String, Failure<'a>> {
    let mut header = String::new(alloc);
    match append_header(alloc, &mut header, origin) {
        Ok(()) => Ok(header),
        Err(AllocError) => Err(Failure::OutOfMemory),
    }
}

/// How a file is opened that is there, to be read and recorded in.
fn recording() -> OpenOptions {
    let mut options = File::options();
    options.read(true).append(true);
    options
}

/// Opens a file for this process alone. A file that doesn't exist is made, for the user alone.
fn open<'a, T: Files<File = File>>(rt: &T, name: &'a str) -> Result<File, Failure<'a>> {
    let mut options = recording();
    options.create(true).mode(0o600);
    locked(rt, name, &options)
}

/// Opens a file, and locks it. Another that has come to its place before it was locked is another
/// process's.
fn locked<'a, T: Files<File = File>>(
    rt: &T,
    name: &'a str,
    options: &OpenOptions,
) -> Result<File, Failure<'a>> {
    let Ok(file) = options.open(rt, name) else {
        return Err(Failure::CannotRecord(name));
    };
    match file.try_lock() {
        Ok(()) => {}
        Err(TryLockError::WouldBlock) => return Err(Failure::RecordInUse(name)),
        Err(TryLockError::Error(_)) => return Err(Failure::CannotRecord(name)),
    }
    match (file.metadata(), fs::metadata(rt, name)) {
        (Ok(locked), _) if !locked.is_file() => Err(Failure::CannotRecord(name)),
        (Ok(locked), Ok(named)) if locked.dev() == named.dev() && locked.ino() == named.ino() => {
            Ok(file)
        }
        (Ok(_), _) => Err(Failure::RecordInUse(name)),
        (Err(_), _) => Err(Failure::CannotRecord(name)),
    }
}

/// Begins a record in a file that has none, or the front of a first line. If that can't be written, the
/// file is empty.
fn begin<'a>(file: File, header: &str) -> Result<File, Failure<'a>> {
    if length(&file)? > 0 && file.set_len(0).is_err() {
        return Err(Failure::Record);
    }
    match write_all(&mut ToWrite::new(&file), header.as_bytes()) {
        Ok(()) => Ok(file),
        Err(Failed) => {
            let _ = file.set_len(0);
            Err(Failure::Record)
        }
    }
}

/// Plays what a file has.
fn played<'a>(
    alloc: Global,
    gateway: &mut Gateway<'_>,
    file: &File,
) -> Result<Player, Failure<'a>> {
    let mut player = Player::new(alloc);
    let mut reader = FromRead::new(file);
    match play(&mut player, gateway, &mut reader) {
        Ok(()) => Ok(player),
        Err(Stop::Read) => Err(Failure::Read),
        Err(Stop::TooManyReads) => Err(Failure::TooManyReads),
        Err(Stop::Taker(PlayFault::BadLine)) => Err(Failure::RecordLine(player.number())),
        Err(Stop::Taker(PlayFault::OutOfMemory)) => Err(Failure::OutOfMemory),
    }
}

/// How many bytes a file has.
fn length<'a>(file: &File) -> Result<u64, Failure<'a>> {
    match file.metadata() {
        Ok(metadata) => Ok(metadata.len()),
        Err(_) => Err(Failure::Read),
    }
}
