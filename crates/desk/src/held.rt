//! A document on a desk, borrowed with its name.
ghost use Rattle.std.specs.Prelude.{◌≡◌, IfOk, drop, length, take};
ghost use Rattle.desk.specs.OpenDocuments.{entry_of};

use crate::open_document::{OpenDocument, byte_count};
use enc_names::Setting;
use std::alloc::AllocError;
use std::marker::Model;

/// A document that a desk holds, with its name. Contracts see the name's bytes, and what the desk has
/// there.
#[derive(Drop)]
pub struct Held<'d, 'i> {
    name: &'d str,
    opened: &'d OpenDocument<'i>,
}

impl<'d, 'i> Model for Held<'d, 'i> {
    ghost use Rattle.std.specs.Prelude.{◌≡◌, ℕ, List};
    ghost use Rattle.desk.specs.{Codes.held_code, Documents.Entry, OpenDocuments.entry_of};

    ghost Value = { List ℕ × Entry };

    ghost coded = { held_code };

    ghost view = { λ h. (h.name.now, entry_of h.opened.now) };

    ghost invariant = { λ h. h.opened.now.document.setting ≡ h.opened.now.setting };
}

impl<'d, 'i> Held<'d, 'i> {
    /// A document with its name.
    pub(crate) fn new(name: &'d str, opened: &'d OpenDocument<'i>) -> Held<'d, 'i>
        requires { opened.now.document.setting ≡ opened.now.setting }
        ensures { result ≡ (name.now, entry_of opened.now) }
    {
        Held { name, opened }
    }

    /// The document's name.
    pub fn name(&self) -> &'d str
        ensures { result.now ≡ self.now.0 }
    {
        self.name
    }

    /// The setting by which its bytes are read.
    pub fn setting(&self) -> Setting
        ensures { result ≡ self.now.1.setting }
    {
        self.opened.setting
    }

    /// The document's revision.
    pub fn revision(&self) -> u64
        ensures { result ≡ self.now.1.revision }
    {
        self.opened.revision
    }

    /// The number of its bytes.
    pub fn len(&self) -> u32
        ensures { result ≡ length self.now.1.bytes }
    {
        byte_count(&self.opened.document)
    }

    /// Reads at most `most` of its bytes, starting at `at`.
    ///
    /// # Errors
    ///
    /// Memory ran out for them.
    pub fn part(&self, at: u64, most: u64) -> Result<Vec<u8>, AllocError>
        ensures { IfOk result (λ bytes. bytes.items ≡ take most (drop at self.now.1.bytes)) }
    {
        let count = u64::from(self.len());
        let from = at.min(count);
        match self.opened.document.source(from, most.min(count - from)) {
            Ok(bytes) => Ok(bytes),
            Err(_) => Err(AllocError),
        }
    }
}
