//! The reasons why files can't be read or parsed.
ghost use Rattle.std.specs.Prelude.{◌≡◌};
ghost use Rattle.index_files.specs.Ending.{of_exceptions, of_index};
ghost use Rattle.index_files.specs.Needed.{Names};
ghost use Rattle.index_files.specs.Names.{cause_name, exception_cause_name, index_cause_name};

use index_loader::{ExceptionCause, ExceptionFault, IndexCause, IndexFault};
use std::alloc::AllocError;
use std::fmt;
use std::io::{self, ErrorKind};

/// The reason why a file can't be read.
#[derive(Clone, Copy, PartialEq, Eq, Debug)]
pub enum Unread {
    /// The file exists, but can't be opened or read, or is too large.
    Failed,
    /// Memory ran out.
    OutOfMemory,
}

impl Unread {
    /// The same fault, as that of a folder's file of this name.
    pub(crate) fn of_file(self, name: &'static str) -> FolderFault
        ensures { Names name.now result }
    {
        match self {
            Unread::Failed => FolderFault::CannotRead(name),
            Unread::OutOfMemory => FolderFault::OutOfMemory,
        }
    }
}

impl From<AllocError> for Unread {
    fn from(_: AllocError) -> Unread {
        Unread::OutOfMemory
    }
}

impl From<io::Error> for Unread {
    fn from(error: io::Error) -> Unread {
        match error.kind() {
            ErrorKind::OutOfMemory => Unread::OutOfMemory,
            _ => Unread::Failed,
        }
    }
}

/// The reason why a line of a folder's file, or the whole file, is refused.
#[derive(Clone, Copy, PartialEq, Eq, Debug)]
pub enum FileCause {
    /// The cause is in an index file.
    Index(IndexCause),
    /// The cause is in the exceptions of the gb18030 encoder.
    Exceptions(ExceptionCause),
}

/// The first fault of an index file, or of the exceptions. Displayed as a line of text without its
/// line end.
#[derive(Clone, Copy, PartialEq, Eq, Debug)]
pub struct IndexFileFault {
    /// The file's name in the folder.
    pub name: &'static str,
    /// The number of the faulty line, from 1; 0 for the file as a whole.
    pub line: u64,
    /// The reason why it is refused.
    pub cause: FileCause,
}

/// The cause's name in texts.
fn cause_name(cause: FileCause) -> &'static str
    ensures { result.now ≡ cause_name cause }
{
    match cause {
        FileCause::Index(cause) => index_cause_name(cause),
        FileCause::Exceptions(cause) => exception_cause_name(cause),
    }
}

/// The name of an index file's cause.
fn index_cause_name(cause: IndexCause) -> &'static str
    ensures { result.now ≡ index_cause_name cause }
{
    match cause {
        IndexCause::BadPointer => "BadPointer",
        IndexCause::BadCodePoint => "BadCodePoint",
        IndexCause::PointerTooLarge => "PointerTooLarge",
        IndexCause::BadRanges => "BadRanges",
        IndexCause::DuplicatePointer => "DuplicatePointer",
        IndexCause::OutOfMemory => "OutOfMemory",
    }
}

/// The name of a cause in the exceptions.
fn exception_cause_name(cause: ExceptionCause) -> &'static str
    ensures { result.now ≡ exception_cause_name cause }
{
    match cause {
        ExceptionCause::BadCodePoint => "BadCodePoint",
        ExceptionCause::BadBytes => "BadBytes",
        ExceptionCause::DuplicateCodePoint => "DuplicateCodePoint",
        ExceptionCause::OutOfMemory => "OutOfMemory",
    }
}

impl fmt::Display for IndexFileFault {
    fn fmt<W: fmt::Write>(&self, f: &mut fmt::Formatter<W>) -> fmt::Result {
        let name = self.name;
        let line = self.line;
        let cause = cause_name(self.cause);
        write!(f, "index file {name}, line {line}: {cause}")
    }
}

/// The reason why a folder's index files or exceptions can't be loaded.
#[derive(Clone, Copy, PartialEq, Eq, Debug)]
pub enum FolderFault {
    /// The file of this name exists, but can't be read.
    CannotRead(&'static str),
    /// A file is faulty.
    Index(IndexFileFault),
    /// Memory ran out.
    OutOfMemory,
}

impl FolderFault {
    /// The fault of the index file of this name.
    pub(crate) fn of_index(name: &'static str, fault: IndexFault) -> FolderFault
        ensures { result ≡ of_index name.entry fault.line fault.cause }
    {
        match fault.cause {
            IndexCause::OutOfMemory => FolderFault::OutOfMemory,
            cause => FolderFault::Index(IndexFileFault {
                name,
                line: fault.line,
                cause: FileCause::Index(cause),
            }),
        }
    }

    /// The fault of the file of exceptions, which has this name.
    pub(crate) fn of_exceptions(name: &'static str, fault: ExceptionFault) -> FolderFault
        ensures { result ≡ of_exceptions name.entry fault.line fault.cause }
    {
        match fault.cause {
            ExceptionCause::OutOfMemory => FolderFault::OutOfMemory,
            cause => FolderFault::Index(IndexFileFault {
                name,
                line: fault.line,
                cause: FileCause::Exceptions(cause),
            }),
        }
    }
}
