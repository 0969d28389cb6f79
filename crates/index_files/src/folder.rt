//! The index files of a folder, with the exceptions next to them.
ghost use Rattle.std.specs.Prelude.{◌≡◌, IfErr, IfOk, IsTrue, OnOk, map};
ghost use Rattle.std.specs.List.{list_all};
ghost use Rattle.index_loader.specs.Kinds.{has_files_of};
ghost use Rattle.index_files.specs.Needed.{HasOnly, IsFaultOf, IsIndexFault, IsPut, Names};

use crate::fault::FolderFault;
use crate::file::put_bytes;
use crate::needed::is_needed;
use crate::tally::Tally;
use enc_names::Encoding;
use index_loader::{EXCEPTIONS_FILE, Exceptions, INDEX_FILES, Index, IndexKind, Indexes};
use sha2::{Digest, Sha256};
use std::alloc::Global;
use std::path::Path;
use std::rt::Files;

/// Reads the index files of a folder and the exceptions of the gb18030 encoder. Each is read once,
/// in the order of the list, the exceptions last. A missing file is left out; a missing folder has
/// none.
pub fn indexes_in<T: Files>(rt: &T, alloc: Global, folder: &str) -> Result<Indexes, FolderFault> {
    let mut indexes = Indexes::new();
    put_all(rt, alloc, folder, &INDEX_FILES, &mut indexes, &mut ())?;
    put_exceptions(rt, alloc, folder, &mut indexes, &mut ())?;
    Ok(indexes)
}

/// Reads the index files of a folder that these encodings need, as `indexes_in` does, and the exceptions
/// if gb18030 or GBK is one of them. No other file is loaded (`only`), and none is the cause of a fault
/// (`fault`).
pub fn indexes_for<T: Files>(
    rt: &T,
    alloc: Global,
    folder: &str,
    encodings: &[Encoding],
) -> Result<Indexes, FolderFault>
    ensures only { IfOk result (HasOnly encodings.now) }
    ensures fault { IfErr result (IsFaultOf encodings.now) }
{
    let mut indexes = Indexes::new();
    put_needed(rt, alloc, folder, &INDEX_FILES, encodings, &mut indexes)?;
    if is_needed(encodings, IndexKind::Gb18030) {
        put_exceptions(rt, alloc, folder, &mut indexes, &mut ())?;
    }
    Ok(indexes)
}

/// The SHA-256 of the files of a folder, by their names and bytes. A file that doesn't exist isn't part
/// of it.
#[derive(Clone, Copy, PartialEq, Eq, Debug)]
pub struct FolderSums {
    /// The sum of the index files.
    pub indexes: [u8; 32],
    /// The sum of the exceptions of the gb18030 encoder.
    pub exceptions: [u8; 32],
}

/// Loads the index files of a folder as `indexes_in` does, and sums up the bytes that it parsed.
pub fn summed_indexes_in<T: Files>(
    rt: &T,
    alloc: Global,
    folder: &str,
) -> Result<(Indexes, FolderSums), FolderFault> {
    let mut indexes = Indexes::new();
    let mut files = Sha256::new();
    let mut exceptions = Sha256::new();
    put_all(rt, alloc, folder, &INDEX_FILES, &mut indexes, &mut files)?;
    put_exceptions(rt, alloc, folder, &mut indexes, &mut exceptions)?;
    let sums = FolderSums {
        indexes: files.finalize(),
        exceptions: exceptions.finalize(),
    };
    Ok((indexes, sums))
}

/// Adds the index files that exist.
fn put_all<T: Files, S: Tally>(
    rt: &T,
    alloc: Global,
    folder: &str,
    files: &[(IndexKind, &'static str)],
    indexes: &mut Indexes,
    tally: &mut S,
) -> Result<(), FolderFault>
    requires { IsTrue (list_all (λ file. has_files_of file.0) files.now) }
{
    let mut bytes = Vec::new(alloc);
    for (kind, name) in files {
        if put_index(rt, alloc, folder, *kind, name, &mut bytes, indexes)? {
            tally.note(name, &bytes);
        }
    }
    Ok(())
}

/// Adds the index files that exist and that these encodings need.
fn put_needed<T: Files>(
    rt: &T,
    alloc: Global,
    folder: &str,
    files: &[(IndexKind, &'static str)],
    encodings: &[Encoding],
    indexes: &mut Indexes,
) -> Result<(), FolderFault>
    requires { IsTrue (list_all (λ file. has_files_of file.0) files.now) }
    ensures only { HasOnly encodings.now indexes.old → OnOk result (HasOnly encodings.now indexes.new) }
    ensures fault { IfErr result (IsIndexFault (map (λ file. (file.0, file.1.now)) files.now) encodings.now) }
{
    let mut bytes = Vec::new(alloc);
    'files: for (kind, name) in files {
        if is_needed(encodings, *kind) {
            match put_index(rt, alloc, folder, *kind, name, &mut bytes, indexes) {
                Ok(_) => {}
                Err(fault) => return Err(fault),
            }
        }
    }
    Ok(())
}

/// Adds one index file, if it exists, and returns whether it does. It is read into `bytes`.
fn put_index<T: Files>(
    rt: &T,
    alloc: Global,
    folder: &str,
    kind: IndexKind,
    name: &'static str,
    bytes: &mut Vec<u8>,
    indexes: &mut Indexes,
) -> Result<bool, FolderFault>
    requires { IsTrue (has_files_of kind) }
    ensures put { OnOk result (IsPut kind indexes.old indexes.new) }
    ensures fault { IfErr result (Names name.now) }
{
    let is_there = put_file(rt, alloc, folder, name, bytes)?;
    if is_there {
        match Index::parse(alloc, kind, bytes) {
            Ok(index) => indexes.put(index),
            Err(fault) => return Err(FolderFault::of_index(name, fault)),
        }
    }
    Ok(is_there)
}

/// Adds the exceptions, if their file exists.
fn put_exceptions<T: Files, S: Tally>(
    rt: &T,
    alloc: Global,
    folder: &str,
    indexes: &mut Indexes,
    tally: &mut S,
) -> Result<(), FolderFault>
    ensures put { OnOk result (indexes.new.slots ≡ indexes.old.slots) }
    ensures fault { IfErr result (Names EXCEPTIONS_FILE.now) }
{
    let mut bytes = Vec::new(alloc);
    if put_file(rt, alloc, folder, EXCEPTIONS_FILE, &mut bytes)? {
        match Exceptions::parse(alloc, &bytes) {
            Ok(exceptions) => indexes.put_exceptions(exceptions),
            Err(fault) => return Err(FolderFault::of_exceptions(EXCEPTIONS_FILE, fault)),
        }
        tally.note(EXCEPTIONS_FILE, &bytes);
    }
    Ok(())
}

/// Reads the folder's file of this name into a buffer, which it replaces. Returns whether there is
/// such a file.
fn put_file<T: Files>(
    rt: &T,
    alloc: Global,
    folder: &str,
    name: &'static str,
    bytes: &mut Vec<u8>,
) -> Result<bool, FolderFault>
    ensures { IfErr result (Names name.now) }
{
    let Ok(path) = Path::new(folder).join(alloc, name) else {
        return Err(FolderFault::OutOfMemory);
    };
    match put_bytes(rt, path.as_path(), bytes) {
        Ok(is_there) => Ok(is_there),
        Err(unread) => Err(unread.of_file(name)),
    }
}
