//! The labels that clients name encodings by.

use crate::failure::Failure;
use enc_names::Labels;
use index_files::{Unread, bytes_of};
use sha2::{Digest, Sha256};
use std::alloc::Global;
use std::path::Path;
use std::rt::Files;

/// The labels of a label file, which has to be there, and the SHA-256 of its bytes.
pub fn labels_in<'a, T: Files>(
    rt: &T,
    alloc: Global,
    name: &'a str,
) -> Result<(Labels, [u8; 32]), Failure<'a>> {
    let bytes = match bytes_of(rt, alloc, Path::new(name)) {
        Ok(Some(bytes)) => bytes,
        Ok(None) | Err(Unread::Failed) => return Err(Failure::CannotRead(name)),
        Err(Unread::OutOfMemory) => return Err(Failure::OutOfMemory),
    };
    let sum = Sha256::digest(&bytes);
    Ok((Labels::from_json(alloc, &bytes)?, sum))
}

/// The names of the encodings as labels.
pub fn names<'a>(alloc: Global) -> Result<Labels, Failure<'a>> {
    Ok(Labels::names(alloc)?)
}
