//! A short text that needs no memory.
ghost use Rattle.std.specs.Prelude.{◌≡◌, length};

use std::marker::Model;

/// The most bytes of a short text.
pub const CAPACITY: usize = 256;

/// A text of at most `CAPACITY` bytes, stored inline. Contracts see its bytes. For the crates above,
/// which print lines of their own without memory.
#[derive(Drop)]
pub struct ShortText {
    bytes: [u8; CAPACITY],
    len: usize,
}

impl Model for ShortText {
    ghost use Rattle.std.specs.Prelude.{ℕ, ◌≤◌, List, take};
    ghost use Rattle.line_protocol.specs.declared.reply_line.short_text.TheConstants.{CAPACITY};

    ghost Value = { List ℕ };

    ghost view = { λ t. take t.len t.bytes };

    ghost invariant = { λ t. t.len ≤ CAPACITY };
}

impl ShortText {
    ghost use Rattle.std.specs.Prelude.{◌≡◌, ◌≤◌, ◌+◌, List, [], ◌∷◌, ◌++◌, length, take, IsTrue};
    ghost use Rattle.json.specs.Print.{quoted};
    ghost use Rattle.line_protocol.specs.Writing.{all_plain};

    /// The empty text.
    pub fn new() -> ShortText
        ensures { result ≡ [] }
    {
        ShortText {
            bytes: [0; CAPACITY],
            len: 0,
        }
    }

    /// The bytes.
    pub fn as_slice(&self) -> &[u8]
        ensures { result.now ≡ self.now }
    {
        &self.bytes[..self.len]
    }

    /// Drops the bytes.
    pub fn clear(&mut self)
        ensures { self.new ≡ [] }
    {
        self.len = 0;
    }

    /// Appends a byte.
    pub fn push(&mut self, byte: u8)
        requires { length self.old + 1 ≤ CAPACITY }
        ensures { self.new ≡ self.old ++ byte ∷ [] }
    {
        let start = self.len;
        self.bytes[start] = byte;
        self.len = start + 1;
    }

    /// Appends bytes.
    pub fn extend(&mut self, more: &[u8])
        requires { length self.old + length more.now ≤ CAPACITY }
        ensures { self.new ≡ self.old ++ more.now }
    {
        let end = self.len + more.len();
        self.bytes[self.len..end].copy_from_slice(more);
        self.len = end;
    }

    /// Appends the first of these bytes, as many as `len`. All are copied, since a constant number is a few stores.
    // In the loop over the entries of a list.
    #[inline(always)]
    pub(crate) fn extend_first<const N: usize>(&mut self, bytes: &[u8; N], len: usize)
        requires part { len ≤ N }
        requires room { length self.old + N ≤ CAPACITY }
        ensures { self.new ≡ self.old ++ take len bytes.now }
    {
        let start = self.len;
        overwrite(&mut self.bytes[start..start + N], bytes);
        self.len = start + len;
    }

    /// Appends a text in quotes, which holds nothing that JSON escapes.
    pub(crate) fn quote(&mut self, text: &str)
        requires plain { IsTrue (all_plain text.now) }
        requires room { length self.old + length text.now + 2 ≤ CAPACITY }
        ensures text { self.new ≡ self.old ++ quoted text.now }
        ensures len { length self.new ≡ length self.old + length text.now + 2 }
    {
        self.push(b'"');
        self.extend(text.as_bytes());
        self.push(b'"');
    }
}

/// Puts these bytes in place of as many.
// In the loop over the entries of a list. A slice would be looked at whether it overlaps.
#[inline(always)]
fn overwrite<const N: usize>(there: &mut [u8], bytes: &[u8; N])
    requires { length there.old ≡ N }
    ensures { there.new ≡ bytes.now }
{
    if let Some(there) = there.as_mut_array() {
        *there = *bytes;
    }
}
