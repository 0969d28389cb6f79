//! Byte order marks.
ghost use Rattle.std.specs.Prelude.{◌≡◌, ◌≤◌, length, IfSome};
ghost use Rattle.codec.specs.Mark.{mark_of, mark_under, in_force, mark_length};

use enc_names::{Bom, Encoding, Setting};

/// A byte order mark.
#[derive(Clone, Copy)]
pub(crate) struct Mark {
    /// The encoding that is effective after it.
    pub encoding: Encoding,
    /// The number of its bytes.
    pub len: usize,
}

impl Mark {
    /// The mark that the bytes begin with.
    fn of(bytes: &[u8]) -> Option<Mark>
        ensures value { result ≡ mark_of bytes.now }
        ensures within { IfSome result (λ mark. mark.len ≤ length bytes.now) }
    {
        if bytes.starts_with(&[0xEF, 0xBB, 0xBF]) {
            return Some(Mark {
                encoding: Encoding::Utf8,
                len: 3,
            });
        }
        if bytes.starts_with(&[0xFE, 0xFF]) {
            return Some(Mark {
                encoding: Encoding::Utf16Be,
                len: 2,
            });
        }
        if bytes.starts_with(&[0xFF, 0xFE]) {
            return Some(Mark {
                encoding: Encoding::Utf16Le,
                len: 2,
            });
        }
        None
    }

    /// The mark that counts under a setting.
    pub(crate) fn under(setting: Setting, bytes: &[u8]) -> Option<Mark>
        ensures value { result ≡ mark_under setting bytes.now }
        ensures within { IfSome result (λ mark. mark.len ≤ length bytes.now) }
    {
        match setting.bom {
            Bom::Sniff => Mark::of(bytes),
            Bom::Keep => None,
        }
    }
}

/// The result of looking at the start of some bytes.
#[derive(Clone, Copy, PartialEq, Eq, Debug)]
pub struct Sniffed {
    /// The effective encoding.
    pub encoding: Encoding,
    /// The number of bytes of the byte order mark. It is 0 if there is none or marks are kept.
    pub bom_len: u64,
}

/// Looks for a byte order mark, if the setting says so. Its encoding replaces the declared one
/// (`encoding`) (Encoding Standard, "BOM sniff"). It has this number of bytes (`bom_len`).
pub fn sniff(setting: Setting, bytes: &[u8]) -> Sniffed
    ensures encoding { result.encoding ≡ in_force setting bytes.now }
    ensures bom_len { result.bom_len ≡ mark_length setting bytes.now }
{
    match Mark::under(setting, bytes) {
        Some(mark) => Sniffed {
            encoding: mark.encoding,
            bom_len: mark.len as u64,
        },
        None => Sniffed {
            encoding: setting.given,
            bom_len: 0,
        },
    }
}
