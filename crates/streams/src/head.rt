//! The first bytes of a stream.
ghost use Rattle.std.specs.Prelude.{◌≡◌, ◌++◌, ℕ, List, take, slice_get};
ghost use Rattle.codec.specs.Mark.{in_force, mark_length};
ghost use Rattle.streams.specs.Heads.{head_bytes, with_next};

use codec::{Sniffed, sniff};
use enc_names::Setting;

/// The first bytes of a stream, up to three, which a byte order mark may be.
#[derive(Clone, Copy, PartialEq, Eq, Debug)]
pub(crate) enum Head {
    /// There is no byte yet.
    Zero,
    /// There is one.
    One(u8),
    /// There are two.
    Two(u8, u8),
    /// There are three or more.
    Three(u8, u8, u8),
}

impl Head {
    /// The first bytes where more bytes follow.
    pub(crate) fn with(self, bytes: &[u8]) -> Head
        ensures { head_bytes result ≡ take 3 (head_bytes self ++ bytes.now) }
    {
        let one = self.with_byte(byte_at(bytes, 0));
        let two = one.with_byte(byte_at(bytes, 1));
        two.with_byte(byte_at(bytes, 2))
    }

    /// The first bytes where one byte follows, if one does.
    fn with_byte(self, byte: Option<u8>) -> Head
        ensures { head_bytes result ≡ with_next (head_bytes self) byte }
    {
        match (self, byte) {
            (Head::Zero, Some(a)) => Head::One(a),
            (Head::One(a), Some(b)) => Head::Two(a, b),
            (Head::Two(a, b), Some(c)) => Head::Three(a, b, c),
            _ => self,
        }
    }

    /// The byte order mark and the effective encoding.
    pub(crate) fn sniffed(self, setting: Setting) -> Sniffed
        ensures encoding { (bytes : List ℕ) → head_bytes self ≡ take 3 bytes → result.encoding ≡ in_force setting bytes }
        ensures bom { (bytes : List ℕ) → head_bytes self ≡ take 3 bytes → result.bom_len ≡ mark_length setting bytes }
    {
        match self {
            Head::Zero => sniff(setting, &[]),
            Head::One(a) => sniff(setting, &[a]),
            Head::Two(a, b) => sniff(setting, &[a, b]),
            Head::Three(a, b, c) => sniff(setting, &[a, b, c]),
        }
    }
}

/// The byte at a place, if there is one.
fn byte_at(bytes: &[u8], at: usize) -> Option<u8>
    ensures { result ≡ slice_get bytes.now at }
{
    if at < bytes.len() {
        Some(bytes[at])
    } else {
        None
    }
}
