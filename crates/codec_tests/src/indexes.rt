//! Small index files, which the tests have in common.
use index_loader::Indexes;
use std::alloc::{AllocError, Global};

/// A few entries of index windows-1252.
pub const WINDOWS_1252: &[u8] = b"0\t0x20AC\n59\t0x00BB\n63\t0x00BF\n";

/// A few entries of index jis0208. The last two are at the last pair and after the rows.
pub const JIS0208: &[u8] =
    b"0\t0x3000\n1\t0x3001\n2\t0x3002\n60\t0xFF0D\n283\t0x3042\n1410\t0x4E9C\n8835\t0x7199\n8836\t0x2170\n";

/// An entry of index jis0212.
pub const JIS0212: &[u8] = b"108\t0x02D8\n";

/// A few entries of index gb18030.
pub const GB18030: &[u8] = b"0\t0x4E02\n1\t0x4E04\n9026\t0x554A\n";

/// The first and the last of the ranges of gb18030.
pub const RANGES: &[u8] = b"0\t0x0080\n189000\t0x10000\n";

/// A small file of each kind, except those of the other single-byte encodings.
pub fn small_indexes(alloc: Global) -> Result<Indexes, AllocError> {
    oracle::small_indexes(alloc).ok_or(AllocError)
}
