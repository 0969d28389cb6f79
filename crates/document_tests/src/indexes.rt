//! Small index files, which the tests have in common.
use index_loader::Indexes;
use std::alloc::{AllocError, Global};

/// A small file of each kind, except those of the other single-byte encodings.
pub fn small_indexes(alloc: Global) -> Result<Indexes, AllocError> {
    oracle::small_indexes(alloc).ok_or(AllocError)
}
