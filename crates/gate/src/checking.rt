//! Streams that are checked.

use crate::conversion::setting_of;
use crate::failure::Failure;
use crate::perform::labels_of;
use crate::text_outlet::TextOutlet;
use command_line::{Sources, Stream};
use enc_names::Setting;
use gateway::{Feed, FromRead, Outlet};
use index_files::indexes_for;
use index_loader::Indexes;
use std::alloc::Global;
use std::fmt;
use std::fs::{self, File, Files};
use std::io::ErrorKind;
use streams::{CheckFault, Found, Row, check};

/// Checks the stream that the words name, with the label file that they name and the index files that its
/// encoding needs, and prints what it has.
#[inline(never)]
pub fn check_stream<'a, T: Files<File = File>, R: Feed, W: Outlet>(
    rt: &T,
    alloc: Global,
    sources: Sources<'a>,
    stream: Stream<'a>,
    errors: u32,
    input: &mut R,
    output: &mut W,
) -> Result<(), Failure<'a>> {
    let (labels, _) = labels_of(rt, alloc, sources)?;
    let wanted = Wanted {
        setting: setting_of(&labels, stream)?,
        errors: errors as usize,
    };
    let indexes = indexes_for(rt, alloc, sources.indexes, &[wanted.setting.given])?;
    match stream.file {
        None => check_from(alloc, &indexes, wanted, input, output),
        Some(name) => match fs::open(rt, name) {
            Ok(file) => check_from(alloc, &indexes, wanted, &mut FromRead::new(file), output),
            Err(error) if error.kind() == ErrorKind::OutOfMemory => Err(Failure::OutOfMemory),
            Err(_) => Err(Failure::CannotRead(name)),
        },
    }
}

/// How a stream is read, and how many errors are named.
#[derive(Clone, Copy)]
struct Wanted {
    setting: Setting,
    errors: usize,
}

/// Checks what is read, and prints its row.
#[inline(never)]
fn check_from<'a, R: Feed, W: Outlet>(
    alloc: Global,
    indexes: &Indexes,
    wanted: Wanted,
    input: &mut R,
    output: &mut W,
) -> Result<(), Failure<'a>> {
    match check(alloc, indexes, wanted.setting, wanted.errors, input) {
        Ok(row) => {
            print(&row, output)?;
            if row.errors == 0 {
                Ok(())
            } else {
                Err(Failure::Damaged)
            }
        }
        Err(CheckFault::NoIndex) => Err(Failure::NoIndex(wanted.setting.given)),
        Err(CheckFault::Read(row)) => {
            print(&row, output)?;
            Err(Failure::Read)
        }
        Err(CheckFault::TooManyReads(row)) => {
            print(&row, output)?;
            Err(Failure::TooManyReads)
        }
        Err(CheckFault::OutOfMemory) => Err(Failure::OutOfMemory),
    }
}

/// Prints a row.
fn print<'a, W: Outlet>(row: &Row, output: &mut W) -> Result<(), Failure<'a>> {
    TextOutlet::new(output)
        .put(&Line { row })
        .map_err(|_| Failure::Write)
}

/// A row as a line of JSON.
#[derive(Clone, Copy)]
struct Line<'r> {
    row: &'r Row,
}

impl fmt::Display for Line<'_> {
    fn fmt<W: fmt::Write>(&self, f: &mut fmt::Formatter<W>) -> fmt::Result {
        let Row {
            encoding,
            bom,
            bytes,
            characters,
            lf,
            crlf,
            cr,
            lines,
            errors,
            places,
        } = self.row;
        let name = encoding.name();
        write!(
            f,
            "{{\"bom\":{bom},\"bytes\":{bytes},\"characters\":{characters},\"cr\":{cr},\"crlf\":{crlf},\"encoding\":\"{name}\",\"errors\":{errors},\"lf\":{lf},\"lines\":{lines},\"places\":["
        )?;
        for (number, found) in places.iter().enumerate() {
            if number > 0 {
                f.write_str(",")?;
            }
            write_place(f, found)?;
        }
        f.write_str("]}\n")
    }
}

/// Writes where an error is.
fn write_place<W: fmt::Write>(f: &mut fmt::Formatter<W>, found: &Found) -> fmt::Result {
    let from = found.place.from;
    let to = found.place.to;
    let line = found.line;
    let character = found.character;
    write!(f, "[{from},{to},{line},{character}]")
}
