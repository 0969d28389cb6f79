//! A table of code points by pointer.
ghost use Rattle.std.specs.Prelude.{◌≡◌, ◌<◌, IfOk, IfSome, None, Some, is_some, length, replicate, set, slice_index_or};
ghost use Rattle.index_loader.specs.Form.{IsByteTable};

use crate::form::{Utf8Form, form_at};
use crate::of_bytes::ByteForms;
use enc_names::Scalar;
use std::alloc::{AllocError, Global};
use std::marker::Model;

/// The code point of each pointer, starting at 0, by its UTF-8 form. A pointer may have none. Runs
/// of text are written by these forms. Contracts see the list of places.
#[derive(Drop)]
pub(crate) struct PointerTable {
    forms: Vec<Utf8Form>,
    greatest: u32,
}

impl Model for PointerTable {
    ghost use Rattle.std.specs.Prelude.{ℕ, List, Option};

    ghost Value = { List (Option ℕ) };

    ghost view = { λ t. t.forms.items };
}

impl PointerTable {
    /// A table of `len` places without a code point.
    pub(crate) fn new(alloc: Global, len: usize) -> Result<PointerTable, AllocError>
        ensures { IfOk result (λ table. table ≡ replicate len None) }
    {
        let forms = vec![in alloc; Utf8Form::none(); len]?;
        Ok(PointerTable { forms, greatest: 0 })
    }

    /// The number of places.
    pub(crate) fn len(&self) -> usize
        ensures { result ≡ length self.now }
    {
        self.forms.len()
    }

    /// The greatest of the code points: it sets the length of a table by code point.
    pub(crate) fn greatest(&self) -> u32 {
        self.greatest
    }

    /// The code point of a pointer.
    // In the loop over the lines of a file.
    #[inline(always)]
    pub(crate) fn code_point(&self, pointer: u32) -> Option<Scalar>
        ensures { result ≡ slice_index_or self.now pointer None }
    {
        form_at(&self.forms, pointer).code_point()
    }

    /// Whether a pointer has a code point.
    // In the loop over the lines of a file.
    #[inline(always)]
    pub(crate) fn has(&self, pointer: u32) -> bool
        ensures { result ≡ is_some (slice_index_or self.now pointer None) }
    {
        form_at(&self.forms, pointer).is_some()
    }

    /// Gives a pointer its code point.
    pub(crate) fn set(&mut self, pointer: u32, code_point: Scalar)
        requires { pointer < length self.old }
        ensures { self.new ≡ set self.old pointer (Some code_point) }
    {
        self.forms[pointer as usize] = Utf8Form::new(code_point);
        self.greatest = self.greatest.max(code_point.get());
    }

    /// The UTF-8 forms of the code points.
    pub(crate) fn forms(&self) -> &[Utf8Form]
        ensures { result.now ≡ self.now }
    {
        self.forms.as_slice()
    }

    /// The UTF-8 forms of all bytes, if the table has 128 places.
    pub(crate) fn bytes(&self, alloc: Global) -> Result<Option<ByteForms>, AllocError>
        ensures { IfOk result (λ bytes. IfSome bytes (λ forms. IsByteTable self.now forms)) }
    {
        match self.forms.as_array::<128>() {
            Some(high) => Ok(Some(ByteForms::new(alloc, high)?)),
            None => Ok(None),
        }
    }
}
