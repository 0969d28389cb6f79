//! The UTF-8 forms of all bytes.
ghost use Rattle.std.specs.Prelude.{◌≡◌, ℕ, ◌+◌, ◌<◌, IfOk, None, Some, slice_index_or, true};
ghost use Rattle.index_loader.specs.Form.{AreShort, IsByteTable};

use crate::form::Utf8Form;
use std::alloc::{AllocError, Global};
use std::marker::Model;

/// The UTF-8 forms of the 256 bytes of a single-byte encoding. Each byte is a character or none,
/// and an ASCII byte has its own form. Contracts see the list of their code points.
pub struct ByteForms {
    forms: Box<[Utf8Form; 256]>,
    short: bool,
}

impl Model for ByteForms {
    ghost use Rattle.std.specs.Prelude.{◌≡◌, ℕ, List, Option, true};
    ghost use Rattle.index_loader.specs.Form.{AreShort};

    ghost Value = { List (Option ℕ) };

    ghost view = { λ f. f.forms.value };

    ghost invariant = { λ f. f.short ≡ true → AreShort f.forms.value };
}

// Written out: if it is derived, each crate above proves again what becomes of all that is dropped.
impl Drop for ByteForms {
    fn drop(self) {
        let ByteForms { forms: _, short: _ } = self;
    }
}

impl ByteForms {
    /// Makes the forms of all bytes from those of the bytes 0x80 to 0xFF.
    pub(crate) fn new(alloc: Global, high: &[Utf8Form; 128]) -> Result<ByteForms, AllocError>
        ensures { IfOk result (λ forms. IsByteTable high.now forms) }
    {
        let forms = byte_forms(high);
        let short = are_short(&forms);
        Ok(ByteForms {
            forms: Box::new(alloc, forms)?,
            short,
        })
    }

    /// The form of each byte.
    pub fn forms(&self) -> &[Utf8Form; 256]
        ensures { result.now ≡ self.now }
    {
        &self.forms
    }

    /// Whether each byte has a form, of three bytes at most.
    pub fn are_short(&self) -> bool
        ensures { result ≡ true → AreShort self.now }
    {
        self.short
    }
}

/// The UTF-8 forms of the 256 bytes, where each is a character: an ASCII byte has its own, and the
/// others have these.
fn byte_forms(high: &[Utf8Form; 128]) -> [Utf8Form; 256]
    ensures { IsByteTable high.now result }
{
    let mut forms = [Utf8Form::none(); 256];
    let mut byte = 0;
    'ascii: while byte < 0x80 {
        forms[usize::from(byte)] = Utf8Form::ascii(byte);
        byte += 1;
    }
    let mut place = 0;
    'high: while place < 0x80 {
        forms[place + 0x80] = high[place];
        place += 1;
    }
    forms
}

/// Whether there are all forms, of three bytes at most each.
fn are_short(forms: &[Utf8Form; 256]) -> bool
    ensures { result ≡ true → AreShort forms.now }
{
    let mut byte = 0;
    'forms: while byte < 256 {
        if !forms[byte].is_short() {
            return false;
        }
        byte += 1;
    }
    true
}
