//! The program that plays worked rows of decoding and of encoding. It compares each row with the
//! expected result. The rows are in text files of the folder in which it runs, next to the small
//! index files over which they are worked. It ends with status 1 if anything differs.
#![tactic(auto)]

mod decoding;
mod encoding;
mod fields;
mod rows;
mod unplayed;

use index_files::{EarlyEnd, Unread, bytes_of, indexes_in};
use index_loader::Indexes;
use oracle::Tally;
use rows::{RowKind, row_of};
use std::path::Path;
use std::process::ExitCode;
use unplayed::Unplayed;

/// The files of rows, and what their rows are of.
const FILES: [(&str, RowKind); 3] = [
    ("decoding.txt", RowKind::Decoding),
    ("encoding.txt", RowKind::Encoding),
    ("iso-2022-jp.txt", RowKind::FromState),
];

/// The least number of rows in a file.
const LEAST: [u64; 1] = [1];

/// Plays a row, prints what came of it where that differs, and counts both.
fn play(
    rt: &HostRuntime,
    indexes: &Indexes,
    kind: RowKind,
    (given, wanted): (&str, &str),
    rows: &mut Tally<1>,
) -> Result<(), EarlyEnd> {
    let came = kind
        .outcome(rt.alloc(), indexes, given)
        .map_err(Unplayed::failure)?;
    let same = came.as_str() == wanted;
    rows.count(0);
    rows.compare(same);
    if !same {
        println!(rt; "{given} -> {came}")?;
    }
    Ok(())
}

/// Plays the rows of a text, and counts them and the failures.
fn play_text(
    rt: &HostRuntime,
    indexes: &Indexes,
    kind: RowKind,
    text: &str,
) -> Result<Tally<1>, EarlyEnd> {
    let mut rows = Tally::new();
    for line in text.split('\n') {
        if let Some(row) = row_of(line).map_err(Unplayed::failure)? {
            play(rt, indexes, kind, row, &mut rows)?;
        }
    }
    Ok(rows)
}

/// The bytes of a file of rows, which has to be there.
fn bytes_in(rt: &HostRuntime, name: &'static str) -> Result<Vec<u8>, EarlyEnd> {
    match bytes_of(rt, rt.alloc(), Path::new(name)) {
        Ok(Some(bytes)) => Ok(bytes),
        Ok(None) | Err(Unread::Failed) => Err(EarlyEnd::CannotRead(name)),
        Err(Unread::OutOfMemory) => Err(EarlyEnd::OutOfMemory),
    }
}

/// Plays the rows of a file, and prints how many there are and differ. Returns whether there were
/// some and none differs.
fn play_file(
    rt: &HostRuntime,
    indexes: &Indexes,
    name: &'static str,
    kind: RowKind,
) -> Result<bool, EarlyEnd> {
    let bytes = bytes_in(rt, name)?;
    let Ok(text) = str::from_utf8(&bytes) else {
        return Err(Unplayed::Malformed.failure());
    };
    let rows = play_text(rt, indexes, kind, text)?;
    let [played] = rows.seen;
    let different = rows.different;
    println!(rt; "{name}: {played} rows, {different} differ")?;
    Ok(rows.is_telling(&LEAST))
}

/// Plays the rows of all files, and returns whether all agree. Each file must have rows.
fn compare(rt: &HostRuntime) -> Result<bool, EarlyEnd> {
    let indexes = indexes_in(rt, rt.alloc(), ".")?;
    let mut fine = true;
    for (name, kind) in FILES {
        fine &= play_file(rt, &indexes, name, kind)?;
    }
    Ok(fine)
}

fn main(rt: HostRuntime) -> ExitCode {
    match compare(&rt) {
        Ok(true) => ExitCode::SUCCESS,
        Ok(false) => ExitCode::FAILURE,
        Err(failure) => {
            let _ = eprintln!(rt; "compare_rows: {failure}");
            ExitCode::from(failure.status())
        }
    }
}
