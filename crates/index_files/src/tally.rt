//! What is told of the files of a folder while they are read.

use sha2::{Digest, Sha256};

/// Is told of each file that is read, in the order in which they are.
pub(crate) trait Tally {
    /// A file of this name has these bytes.
    fn note(&mut self, name: &str, bytes: &[u8]);
}

/// Keeps nothing.
impl Tally for () {
    fn note(&mut self, _name: &str, _bytes: &[u8]) {}
}

/// Sums up the files: for each its name, a zero byte, its length in eight bytes, and its bytes. So other
/// files have another message, wherever one ends and the next one begins.
impl Tally for Sha256 {
    fn note(&mut self, name: &str, bytes: &[u8]) {
        self.update(name.as_bytes());
        self.update(b"\0");
        self.update((bytes.len() as u64).to_be_bytes());
        self.update(bytes);
    }
}
