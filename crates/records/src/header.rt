//! The first line of a record: what the file is, and which files its commands were answered with.
ghost use Rattle.std.specs.Prelude.{◌≡◌, ◌++◌, OnOk, string_bytes};
ghost use Rattle.hex.specs.Hex.{encode_lower};
ghost use Rattle.records.specs.Header.{another, beginning_of, begins_old, exceptions_words, header_line, is_torn, labels_words, without_line};

use std::alloc::{AllocError, Global};

/// The words before the version.
const FORMAT: &[u8] = b"# gate record ";

/// The words that begin a record of this version.
const VERSION: &[u8] = b"# gate record 1 ";

/// The files that a record's commands are answered with: the SHA-256 of each kind.
#[derive(Clone, Copy, PartialEq, Eq, Debug)]
pub struct Origin {
    /// The sum of the index files.
    pub indexes: [u8; 32],
    /// The sum of the exceptions of the gb18030 encoder.
    pub exceptions: [u8; 32],
    /// The sum of the label file.
    pub labels: [u8; 32],
}

/// What a file is, by its first bytes.
#[derive(Clone, Copy, PartialEq, Eq, Debug)]
pub enum Beginning {
    /// It has no byte.
    Empty,
    /// A record that was written with the expected files.
    Header,
    /// The beginning of the expected first line, which was torn off, and nothing else.
    TornHeader,
    /// A record of this version that was written with other files.
    OtherFiles,
    /// A record of another version.
    OtherVersion,
    /// It begins as a record without a first line.
    Old,
    /// It isn't a record.
    Foreign,
}

/// Appends the first line of a record, with its line feed.
pub fn append_header(alloc: Global, text: &mut String, origin: &Origin) -> Result<(), AllocError>
    ensures { OnOk result (string_bytes text.new ≡ string_bytes text.old ++ header_line origin.now) }
{
    text.push_str("# gate record 1 indexes ")?;
    append_sum(alloc, text, &origin.indexes)?;
    append_exceptions(alloc, text, origin)
}

/// Appends what follows the sum of the index files.
fn append_exceptions(alloc: Global, text: &mut String, origin: &Origin) -> Result<(), AllocError>
    ensures { OnOk result (string_bytes text.new ≡ string_bytes text.old ++ exceptions_words origin.now) }
{
    text.push_str(" exceptions ")?;
    append_sum(alloc, text, &origin.exceptions)?;
    append_labels(alloc, text, origin)
}

/// Appends what follows the sum of the exceptions.
fn append_labels(alloc: Global, text: &mut String, origin: &Origin) -> Result<(), AllocError>
    ensures { OnOk result (string_bytes text.new ≡ string_bytes text.old ++ labels_words origin.now) }
{
    text.push_str(" labels ")?;
    append_sum(alloc, text, &origin.labels)?;
    text.push_str("\n")
}

/// Appends a sum in hexadecimal digits.
fn append_sum(alloc: Global, text: &mut String, sum: &[u8]) -> Result<(), AllocError>
    ensures { OnOk result (string_bytes text.new ≡ string_bytes text.old ++ encode_lower sum.now) }
{
    let digits = hex::encode(alloc, sum)?;
    text.push_str(&digits)
}

/// What a file is that begins with these bytes, where a record's first line is `header`.
pub fn beginning_of(header: &[u8], front: &[u8]) -> Beginning
    ensures { result ≡ beginning_of header.now front.now }
{
    if front.is_empty() {
        Beginning::Empty
    } else if front.starts_with(header) {
        Beginning::Header
    } else {
        without_line(header, front)
    }
}

/// What a file is that doesn't begin with the expected line.
fn without_line(header: &[u8], front: &[u8]) -> Beginning
    ensures { result ≡ without_line header.now front.now }
{
    if is_torn(header, front) {
        Beginning::TornHeader
    } else {
        another(front)
    }
}

/// Whether the bytes are a front of the expected line, and more than the words before the version.
fn is_torn(header: &[u8], front: &[u8]) -> bool
    ensures { result ≡ is_torn header.now front.now }
{
    front.starts_with(FORMAT) && header.starts_with(front)
}

/// What a file is whose first line isn't the expected one.
fn another(front: &[u8]) -> Beginning
    ensures { result ≡ another front.now }
{
    if front.starts_with(VERSION) {
        Beginning::OtherFiles
    } else if front.starts_with(FORMAT) {
        Beginning::OtherVersion
    } else if begins_old(front) {
        Beginning::Old
    } else {
        Beginning::Foreign
    }
}

/// Whether a record without a first line begins so.
fn begins_old(front: &[u8]) -> bool
    ensures { result ≡ begins_old front.now }
{
    front.starts_with(b"open ") || front.starts_with(b"part ") || front.starts_with(b"adopt ")
}
