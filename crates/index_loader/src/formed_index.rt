//! An index with its UTF-8 forms at hand.
ghost use Rattle.std.specs.Prelude.{◌≡◌, IfSome, Some};
ghost use Rattle.index_loader.specs.Index.{AreFormsOfBytes, code_point_of, table_code_point_of};

use crate::form::{Utf8Form, form_at};
use crate::index::Index;
use crate::of_bytes::ByteForms;
use enc_names::Scalar;
use std::marker::Model;

/// A borrowed index with its UTF-8 forms at hand: a loop over the bytes of a text finds them without
/// a look at how the index is kept. Contracts see the index.
#[derive(Drop)]
pub struct FormedIndex<'i> {
    index: &'i Index,
    forms: &'i [Utf8Form],
}

impl<'i> Model for FormedIndex<'i> {
    ghost use Rattle.index_loader.specs.Index.{IsTableOf, Loaded};

    ghost Value = { Loaded };

    ghost view = { λ f. f.index.now };

    ghost invariant = { λ f. IsTableOf f.index.now f.forms.now };
}

impl<'i> FormedIndex<'i> {
    /// An index with its forms.
    pub fn new(index: &'i Index) -> FormedIndex<'i>
        ensures { result ≡ index.now }
    {
        let forms = index.forms();
        FormedIndex { index, forms }
    }

    /// The code point of a pointer.
    // In the loop over the bytes of a text.
    #[inline(always)]
    pub fn code_point(&self, pointer: u32) -> Option<Scalar>
        ensures { result ≡ code_point_of self.now pointer }
    {
        self.index.code_point(pointer)
    }

    /// The UTF-8 form of a pointer's code point in the table (`value`). Such a code point is that
    /// of the pointer (`some`). The ranges have no such forms.
    // In the loop over the bytes of a text.
    #[inline(always)]
    pub fn form(&self, pointer: u32) -> Utf8Form
        ensures value { result ≡ table_code_point_of self.now pointer }
        ensures some { IfSome result (λ code_point. code_point_of self.now pointer ≡ Some code_point) }
    {
        form_at(self.forms, pointer)
    }

    /// The UTF-8 forms of all bytes, if the index is for single bytes.
    pub fn bytes(&self) -> Option<&'i ByteForms>
        ensures { IfSome result (λ forms. AreFormsOfBytes self.now forms.now) }
    {
        self.index.bytes()
    }
}
