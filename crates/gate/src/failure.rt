//! How the program ends if it can't continue.
ghost use Rattle.std.specs.Prelude.{◌≡◌};
ghost use Rattle.gate.specs.Ending.{status_of, label_fault_name};

use crate::text_outlet::TextOutlet;
use enc_names::{Encoding, LabelFault};
use gateway::Outlet;
use index_files::{FolderFault, IndexFileFault};
use std::fmt;
use streams::Spot;

/// Why the program ends with another status than 0.
#[derive(Drop)]
pub enum Failure<'a> {
    /// The arguments aren't a command line of the program.
    Words(clap::Error),
    /// An argument isn't text in UTF-8.
    NotText,
    /// An index file is faulty.
    Index(IndexFileFault),
    /// The label file is faulty.
    Labels(LabelFault),
    /// The file of this name can't be read.
    CannotRead(&'a str),
    /// The line of this number of a trace isn't skipped and has no event.
    TraceLine(u64),
    /// The line of this number of a record isn't skipped and has no event.
    RecordLine(u64),
    /// Events can't be recorded in the file of this name.
    CannotRecord(&'a str),
    /// Another process records events in the file of this name.
    RecordInUse(&'a str),
    /// Events are recorded in the file of this name, and the record isn't resumed.
    HasRecord(&'a str),
    /// The file of this name isn't a record.
    NoRecord(&'a str),
    /// The file of this name begins as a record without a first line.
    OldRecord(&'a str),
    /// The file of this name is a record of another version.
    OtherVersion(&'a str),
    /// The file of this name is a record that was written with other files.
    OtherFiles(&'a str, OtherFiles),
    /// The file of this name has no token, or isn't its user's alone.
    NoToken(&'a str),
    /// The file of this name can't be created.
    CannotCreate(&'a str),
    /// A read failed.
    Read,
    /// A write failed.
    Write,
    /// An event can't be recorded.
    Record,
    /// The input was read 2^32 times without an end.
    TooManyReads,
    /// The program can't listen on this port.
    CannotListen(u16),
    /// The program can't listen at this path.
    CannotListenAt(&'a str),
    /// A connection can't be accepted.
    Accept,
    /// The system doesn't report what clients do.
    Poll,
    /// Memory ran out outside of a command.
    OutOfMemory,
    /// No encoding has this label.
    NoLabel(&'a str),
    /// The folder lacks an index file that this encoding needs.
    NoIndex(Encoding),
    /// This encoding is read alone.
    NoEncoder(Encoding),
    /// Here a stream has bytes that aren't text in this encoding.
    Malformed(Spot, Encoding),
    /// Here a stream has a code point that this encoding lacks.
    Unencodable(Spot, char, Encoding),
    /// A stream that was checked has errors, which are printed.
    Damaged,
    /// The output's reader has gone.
    Closed,
}

impl Failure<'_> {
    /// The program's exit status. It is 2 for a mistake in the arguments, in the files that they name
    /// or in a trace. It is 1 for a device that failed or memory that ran out.
    pub fn status(&self) -> u8
        ensures { result ≡ status_of self.now }
    {
        match self {
            Failure::Words(_)
            | Failure::NotText
            | Failure::Index(_)
            | Failure::Labels(_)
            | Failure::CannotRead(_)
            | Failure::TraceLine(_)
            | Failure::RecordLine(_)
            | Failure::CannotRecord(_)
            | Failure::RecordInUse(_)
            | Failure::HasRecord(_)
            | Failure::NoRecord(_)
            | Failure::OldRecord(_)
            | Failure::OtherVersion(_)
            | Failure::OtherFiles(_, _)
            | Failure::NoToken(_)
            | Failure::CannotCreate(_)
            | Failure::NoLabel(_)
            | Failure::NoIndex(_)
            | Failure::NoEncoder(_) => 2,
            Failure::Read
            | Failure::Write
            | Failure::Record
            | Failure::TooManyReads
            | Failure::CannotListen(_)
            | Failure::CannotListenAt(_)
            | Failure::Accept
            | Failure::Poll
            | Failure::Malformed(_, _)
            | Failure::Unencodable(_, _, _)
            | Failure::Damaged
            | Failure::Closed
            | Failure::OutOfMemory => 1,
        }
    }

    /// Writes the failure's text; one that can't be written is left out.
    pub fn print<E: Outlet>(&self, error: &mut E) {
        let _ = TextOutlet::new(error).put(self);
    }
}

/// Which files a record was written with that aren't those of now.
#[derive(Clone, Copy, PartialEq, Eq, Debug)]
pub struct OtherFiles {
    indexes: bool,
    exceptions: bool,
    labels: bool,
}

impl OtherFiles {
    /// Those that differ between two first lines, each of which has the words of a record before them.
    pub fn between(header: &[u8], front: &[u8]) -> OtherFiles {
        OtherFiles {
            indexes: word_of(header, 5) != word_of(front, 5),
            exceptions: word_of(header, 7) != word_of(front, 7),
            labels: word_of(header, 9) != word_of(front, 9),
        }
    }

    /// Their names.
    fn names(self) -> &'static str {
        match (self.indexes, self.exceptions, self.labels) {
            (true, false, false) => "index files",
            (false, true, false) => "exceptions",
            (false, false, true) => "labels",
            (true, true, false) => "index files and exceptions",
            (true, false, true) => "index files and labels",
            (false, true, true) => "exceptions and labels",
            (true, true, true) => "index files, exceptions and labels",
            (false, false, false) => "files",
        }
    }
}

impl fmt::Display for OtherFiles {
    fn fmt<W: fmt::Write>(&self, f: &mut fmt::Formatter<W>) -> fmt::Result {
        f.write_str(self.names())
    }
}

/// The word of this number on the first line of a text, counted from 0; without one, nothing.
fn word_of(text: &[u8], number: usize) -> &[u8] {
    let line = text.split(|byte| *byte == b'\n').next().unwrap_or(b"");
    line.split(|byte| *byte == b' ').nth(number).unwrap_or(b"")
}

/// The fault's name in texts.
fn label_fault_name(fault: LabelFault) -> &'static str
    ensures { result.now ≡ label_fault_name fault }
{
    match fault {
        LabelFault::NotJson => "NotJson",
        LabelFault::BadShape => "BadShape",
        LabelFault::OutOfMemory => "OutOfMemory",
    }
}

impl From<FolderFault> for Failure<'_> {
    fn from(fault: FolderFault) -> Self {
        match fault {
            FolderFault::CannotRead(name) => Failure::CannotRead(name),
            FolderFault::Index(fault) => Failure::Index(fault),
            FolderFault::OutOfMemory => Failure::OutOfMemory,
        }
    }
}

impl From<LabelFault> for Failure<'_> {
    fn from(fault: LabelFault) -> Self {
        match fault {
            LabelFault::OutOfMemory => Failure::OutOfMemory,
            LabelFault::NotJson | LabelFault::BadShape => Failure::Labels(fault),
        }
    }
}

impl fmt::Display for Failure<'_> {
    fn fmt<W: fmt::Write>(&self, f: &mut fmt::Formatter<W>) -> fmt::Result {
        match self {
            Failure::Words(error) => write!(f, "{error}"),
            Failure::NotText => f.write_str("error: a word of the command line isn't UTF-8\n"),
            Failure::Index(fault) => writeln!(f, "gate: {fault}"),
            Failure::Labels(fault) => {
                let cause = label_fault_name(*fault);
                writeln!(f, "gate: label file: {cause}")
            }
            Failure::CannotRead(name) => writeln!(f, "gate: cannot read {name}"),
            Failure::TraceLine(number) => writeln!(f, "gate: trace line {number}"),
            Failure::RecordLine(number) => writeln!(f, "gate: record line {number}"),
            Failure::CannotRecord(name) => writeln!(f, "gate: cannot record in {name}"),
            Failure::RecordInUse(name) => writeln!(f, "gate: another gate records in {name}"),
            Failure::HasRecord(name) => {
                writeln!(f, "gate: {name} has a record; --resume goes on with it")
            }
            Failure::NoRecord(name) => writeln!(f, "gate: {name} is not a record"),
            Failure::OldRecord(name) => writeln!(
                f,
                "gate: {name} has no first line of a record; --old-record takes one of gate 0.4.0 or earlier"
            ),
            Failure::OtherVersion(name) => {
                writeln!(f, "gate: {name} is a record of another version of gate")
            }
            Failure::OtherFiles(name, files) => writeln!(
                f,
                "gate: {name} was recorded with other {files}; --other-files takes it"
            ),
            Failure::NoToken(name) => writeln!(
                f,
                "gate: {name} is not a token file: 64 hexadecimal digits, with mode 600"
            ),
            Failure::CannotCreate(name) => writeln!(f, "gate: cannot create {name}"),
            Failure::Read => f.write_str("gate: read fault\n"),
            Failure::Write | Failure::Record => f.write_str("gate: write fault\n"),
            Failure::TooManyReads => f.write_str("gate: too many reads\n"),
            Failure::CannotListen(port) => writeln!(f, "gate: cannot listen on port {port}"),
            Failure::CannotListenAt(path) => writeln!(f, "gate: cannot listen on {path}"),
            Failure::Accept => f.write_str("gate: accept fault\n"),
            Failure::Poll => f.write_str("gate: poll fault\n"),
            Failure::OutOfMemory => f.write_str("gate: out of memory\n"),
            Failure::NoLabel(label) => writeln!(f, "gate: no encoding has the label {label}"),
            Failure::NoIndex(encoding) => {
                let name = encoding.name();
                writeln!(f, "gate: an index file of {name} is missing")
            }
            Failure::NoEncoder(encoding) => {
                let name = encoding.name();
                writeln!(f, "gate: {name} has no encoder")
            }
            Failure::Malformed(spot, encoding) => {
                write_spot(f, spot)?;
                let name = encoding.name();
                writeln!(f, "not {name}")
            }
            Failure::Unencodable(spot, code_point, encoding) => {
                write_spot(f, spot)?;
                let number = *code_point as u32;
                let name = encoding.name();
                writeln!(f, "U+{number:04X} isn't in {name}")
            }
            Failure::Damaged | Failure::Closed => Ok(()),
        }
    }
}

/// Writes where in a stream something is.
fn write_spot<W: fmt::Write>(f: &mut fmt::Formatter<W>, spot: &Spot) -> fmt::Result {
    let line = spot.line;
    let from = spot.place.from;
    let to = spot.place.to;
    write!(f, "gate: line {line}, bytes {from} to {to}: ")
}
