//! The reasons why a program over index files ends early.
ghost use Rattle.std.specs.Prelude.{◌≡◌};
ghost use Rattle.index_files.specs.Ending.{of_folder, status_of};
ghost use Rattle.index_files.specs.declared.failure.EarlyEnd.TheVariants as failure;

use crate::fault::{FolderFault, IndexFileFault};
use std::alloc::AllocError;
use std::{fmt, io};

/// The reason why a program over index files ends early. Displayed as a line of text without its line end.
#[derive(Debug, Drop)]
pub enum EarlyEnd {
    /// The words or a file aren't as the program reads them: what is wrong.
    Mistake(&'static str),
    /// The file of this name can't be read.
    CannotRead(&'static str),
    /// An index file is faulty.
    Index(IndexFileFault),
    /// The words can't be read, or the clock or the output failed.
    Device(io::Error),
    /// Memory ran out.
    OutOfMemory,
}

impl EarlyEnd {
    /// The exit status: 2 for a mistake in the arguments or the files, otherwise 1.
    pub fn status(&self) -> u8
        ensures { result ≡ status_of self.now }
    {
        match self {
            EarlyEnd::Mistake(_) | EarlyEnd::CannotRead(_) | EarlyEnd::Index(_) => 2,
            EarlyEnd::Device(_) | EarlyEnd::OutOfMemory => 1,
        }
    }
}

impl fmt::Display for EarlyEnd {
    fn fmt<W: fmt::Write>(&self, f: &mut fmt::Formatter<W>) -> fmt::Result {
        match self {
            EarlyEnd::Mistake(text) => f.write_str(text),
            EarlyEnd::CannotRead(name) => write!(f, "cannot read {name}"),
            EarlyEnd::Index(fault) => write!(f, "{fault}"),
            EarlyEnd::Device(error) => write!(f, "{error}"),
            EarlyEnd::OutOfMemory => f.write_str("out of memory"),
        }
    }
}

impl From<FolderFault> for EarlyEnd {
    ghost from_gives = { λ fault it. it ≡ of_folder fault };

    fn from(fault: FolderFault) -> EarlyEnd {
        match fault {
            FolderFault::CannotRead(name) => EarlyEnd::CannotRead(name),
            FolderFault::Index(fault) => EarlyEnd::Index(fault),
            FolderFault::OutOfMemory => EarlyEnd::OutOfMemory,
        }
    }
}

impl From<io::Error> for EarlyEnd {
    ghost from_gives = { λ error it. it ≡ failure.Device error };

    fn from(error: io::Error) -> EarlyEnd {
        EarlyEnd::Device(error)
    }
}

impl From<AllocError> for EarlyEnd {
    ghost from_gives = { λ _ it. it ≡ failure.OutOfMemory };

    fn from(_: AllocError) -> EarlyEnd {
        EarlyEnd::OutOfMemory
    }
}
