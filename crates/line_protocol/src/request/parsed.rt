//! A JSON value of a line, however it was read.
ghost use Rattle.std.specs.Prelude.{◌≡◌, option_map, option_and_then, is_some};
ghost use Rattle.serde_json.specs.Find.{get, as_null, as_number, as_u64, as_str, as_array, as_object};
ghost use Rattle.serde_json.specs.View.{items_view};
ghost use Rattle.line_protocol.specs.Parsed.{parsed_data};

use crate::request::flat::{FlatObject, FlatValue};
use serde_json::Value;

/// A value of a line.
#[derive(Clone, Copy)]
pub(crate) enum Parsed<'a> {
    /// A member of a flat object, or of a position or a range in it.
    Plain(FlatValue<'a>),
    /// A flat object.
    Flat(&'a FlatObject<'a>),
    /// Any value, in memory.
    Tree(&'a Value),
}

impl<'a> Parsed<'a> {
    /// The member of this name, if it is an object that has it.
    // Called for each field of a request, where its answer would go through memory.
    #[inline(always)]
    pub(super) fn get(self, name: &str) -> Option<Parsed<'a>>
        ensures { option_map parsed_data result ≡ get name.now (parsed_data self.entry) }
    {
        match self {
            Parsed::Plain(value) => value.get(name).map(Parsed::Plain),
            Parsed::Flat(object) => object.get(name).map(Parsed::Plain),
            Parsed::Tree(value) => value.get(name).map(Parsed::Tree),
        }
    }

    /// The number, if it is a whole one without fraction, exponent and minus sign.
    pub(super) fn as_u64(self) -> Option<u64>
        ensures { result ≡ option_and_then as_u64 (as_number (parsed_data self.entry)) }
    {
        match self {
            Parsed::Plain(FlatValue::Whole(number)) => Some(number),
            Parsed::Plain(_) | Parsed::Flat(_) => None,
            Parsed::Tree(value) => value.as_u64(),
        }
    }

    /// The text, if it is one.
    pub(super) fn as_str(self) -> Option<&'a str>
        ensures { option_map (λ t. t.now) result ≡ as_str (parsed_data self.entry) }
    {
        match self {
            Parsed::Plain(FlatValue::Text(text)) => Some(text),
            Parsed::Plain(_) | Parsed::Flat(_) => None,
            Parsed::Tree(value) => value.as_str(),
        }
    }

    /// The elements, if it is a list.
    pub(super) fn as_array(self) -> Option<&'a Vec<Value>>
        ensures { option_map (λ list. items_view list.now.items) result ≡ as_array (parsed_data self.entry) }
    {
        match self {
            Parsed::Plain(_) | Parsed::Flat(_) => None,
            Parsed::Tree(value) => value.as_array(),
        }
    }

    /// Whether it is `null`.
    pub(super) fn is_null(self) -> bool
        ensures { result ≡ is_some (as_null (parsed_data self.entry)) }
    {
        match self {
            Parsed::Plain(_) | Parsed::Flat(_) => false,
            Parsed::Tree(value) => value.is_null(),
        }
    }

    /// Whether it is an object.
    pub(crate) fn is_object(self) -> bool
        ensures { result ≡ is_some (as_object (parsed_data self.entry)) }
    {
        match self {
            Parsed::Plain(FlatValue::Whole(_) | FlatValue::Text(_)) => false,
            Parsed::Plain(FlatValue::Point(_) | FlatValue::Range(_)) | Parsed::Flat(_) => true,
            Parsed::Tree(value) => value.is_object(),
        }
    }
}
